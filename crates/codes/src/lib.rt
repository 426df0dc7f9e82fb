// Code grades over the result records in a buffer: each code gets the worst portion grade among all records that have it.
#![tactic(auto)]

ghost use Rattle.std.specs.Prelude.{◌≡◌, eqb, length};
ghost use Rattle.codes.specs.Codes.{result_records, worst_in, with_code_grades, codes_graded, Ungraded};
ghost use Rattle.codes.specs.OneCode.{records_in, code_of, NextWith, FirstWithCode, grade_with};

use results::{CODE_GRADE_OFFSET, CODE_OFFSET, PORTION_GRADE_OFFSET, RESULT_SIZE};
use units::worse_of;

// In place of the code grade while the code is not graded: a byte of the record, as there is no memory beside the buffer.
pub const UNGRADED: u8 = 255;

// A result record as it stands in a buffer.
pub type Record = [u8; RESULT_SIZE];

// A loop over so many records in a row has a fixed length: with none of the code it is twice as fast as one over all records.
const IN_A_ROW: usize = 8;

// The records in a buffer; bytes behind the last whole one are none.
pub fn records_of(results: &[u8]) -> &[Record]
    ensures records { result.now ≡ records_in results.now }
    ensures many { length result.now ≡ result_records results.now }
{
    results.as_chunks::<RESULT_SIZE>().0
}

pub fn has_code(bytes: &Record, code: u16) -> bool
    ensures { result ≡ eqb (code_of bytes.now) code }
{
    encoding::holds_at(bytes, CODE_OFFSET, code)
}

// The first of these records that has this code, one looked at after the other.
fn next_one_by_one(records: &[Record], code: u16) -> Option<usize>
    ensures { NextWith records.now code result }
{
    records.iter().position(|record| has_code(record, code))
}

// The first of these records that has this code.
pub fn next_with(records: &[Record], code: u16) -> Option<usize>
    ensures { NextWith records.now code result }
{
    let (rows, rest) = records.as_chunks::<IN_A_ROW>();
    for (row, in_a_row) in rows.iter().enumerate() {
        if let Some(next) = next_one_by_one(in_a_row, code) {
            return Some(IN_A_ROW * row + next);
        }
    }
    let next = next_one_by_one(rest, code)?;
    Some(IN_A_ROW * rows.len() + next)
}

// The worst portion grade of a code that is first met in this record.
fn worst_from(results: &[u8], code: u16, first: usize) -> u8
    requires { FirstWithCode results.now code first (result_records results.now) }
    ensures { result ≡ worst_in results.now code (result_records results.now) }
{
    let mut worst = 0;
    let mut rest = &records_of(results)[first..];
    while let Some(next) = next_with(rest, code) {
        worst = worse_of(worst, rest[next][PORTION_GRADE_OFFSET]);
        rest = &rest[next + 1..];
    }
    worst
}

// Stores the grade of a code that is first met in this record. By number: of a slice whose parts `as_chunks_mut` lends a proof does not
// know what it ends as.
#[tactic(auto, using(crate::proofs::OneCode::written_start, crate::proofs::OneCode::written_next, crate::proofs::OneCode::written_end))]
fn write_code(results: &mut [u8], code: u16, grade: u8, first: usize)
    requires { FirstWithCode results.old code first (result_records results.old) }
    ensures { results.new ≡ with_code_grades (grade_with results.old code grade) results.old (result_records results.old) }
{
    let mut from = first;
    while let Some(next) = next_with(&records_of(&results[..])[from..], code) {
        let record = from + next;
        results[RESULT_SIZE * record + CODE_GRADE_OFFSET] = grade;
        from = record + 1;
    }
}

// Grades every code. A record whose code is graded tells so; for a code first met the records from there on are read once for
// the worst portion grade, and once to write it.
pub fn grade_codes(results: &mut [u8])
    requires { Ungraded results.old (result_records results.old) }
    ensures { results.new ≡ codes_graded results.old (result_records results.old) }
{
    for first in 0..results.len() / RESULT_SIZE {
        let record = &records_of(&results[..])[first];
        if record[CODE_GRADE_OFFSET] == UNGRADED {
            let code = encoding::number_at(record, CODE_OFFSET);
            let grade = worst_from(&results[..], code, first);
            write_code(results, code, grade, first);
        }
    }
}
