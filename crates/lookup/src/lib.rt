// What became of a code: a part of finished results, the first record of the code whose portion grade is the worst that the code has.
#![tactic(auto)]

ghost use Rattle.std.specs.Prelude.{◌≡◌};
ghost use Rattle.lookup.specs.Lookup.{lookup, Handed, handed};
ghost use Rattle.lookup.specs.Found.{part_of, handed_back};
ghost use Rattle.lookup.specs.Reading.{reading_of};

use codes::{has_code, next_with, records_of};
use outcome::Ground;
use results::{PORTION_GRADE_OFFSET, RESULT_SIZE};
use units::SUBSTANDARD;

// What C gets: the number of a look-up, 0 found, 1 not on this sheet, 19 refused, and where the part that is handed back stands in the
// results; the part is empty after 1 and 19.
#[repr(C)]
#[derive(Clone, Copy)]
pub struct Part {
    pub number: u32,
    pub offset: usize,
    pub length: usize,
}

// The record that is found: the part of the results, and where it stands in them.
#[derive(Clone, Copy)]
pub struct Found<'a> {
    pub offset: usize,
    pub part: &'a [u8],
}

// A reading of records in their order: the first of the worst portions of a code, if a record has the code; and how many records were read.
#[derive(Clone, Copy)]
pub struct Reading {
    pub first: Option<usize>,
    pub read: usize,
}

impl Part {
    pub fn of(found: Result<Option<Found<'_>>, Ground>) -> Part
        ensures { result ≡ part_of found.entry }
    {
        match found {
            Ok(Some(found)) => Part {
                number: 0,
                offset: found.offset,
                length: found.part.len(),
            },
            Ok(None) => Part {
                number: 1,
                offset: 0,
                length: 0,
            },
            Err(cause) => Part {
                number: u32::from(cause),
                offset: 0,
                length: 0,
            },
        }
    }
}

// Reads the records up to and with the first Substandard portion of this code, since none can be worse; else all of them.
pub fn read_records(results: &[u8], code: u16) -> Reading
    ensures { result ≡ reading_of results.now code }
{
    let records = records_of(results);
    let mut first = None;
    // The best grade that is worse than all those of the code so far.
    let mut next_worse: u8 = 0;
    let mut rest = records;
    while let Some((record, behind)) = rest.split_first() {
        if has_code(record, code) {
            let grade = record[PORTION_GRADE_OFFSET];
            if next_worse <= grade {
                first = Some(records.len() - rest.len());
                if SUBSTANDARD <= grade {
                    return Reading {
                        first,
                        read: records.len() - behind.len(),
                    };
                }
                next_worse = grade + 1;
            }
            rest = behind;
        } else {
            // Those up to the next record of the code are read, and say nothing of it.
            rest = &behind[next_with(behind, code).unwrap_or(behind.len())..];
        }
    }
    Reading {
        first,
        read: records.len(),
    }
}

// Looks a code up in finished results, any bytes of any length.
pub fn look_up<'a>(results: &'a [u8], code: u16) -> Result<Option<Found<'a>>, Ground>
    ensures place { part_of result ≡ lookup results.now code }
    ensures back { handed_back results.entry.ref_ptr result ≡ handed results.entry.ref_ptr results.now code }
{
    if results.len() % RESULT_SIZE != 0 {
        return Err(Ground::NotResults);
    }
    let Some(first) = read_records(results, code).first else {
        return Ok(None);
    };
    let offset = RESULT_SIZE * first;
    Ok(Some(Found {
        offset,
        part: &results[offset..offset + RESULT_SIZE],
    }))
}

// Looks a code up for C: the number, and where the part stands.
pub fn find_place(results: &[u8], code: u16) -> Part
    ensures { result ≡ lookup results.now code }
{
    Part::of(look_up(results, code))
}

// Looks a code up in finished results, and hands back the part, which is one of the lent results themselves; the number is set beside it.
pub fn find<'a>(results: &'a [u8], code: u16, number: &mut u32) -> &'a [u8]
    ensures { ◌≡◌ {A = Handed} (record { number = number.exit.now; start = result.ref_ptr; bytes = result.now }) (handed results.entry.ref_ptr results.now code) }
{
    let (told, part) = match look_up(results, code) {
        Ok(Some(found)) => (0, found.part),
        Ok(None) => (1, &results[..0]),
        Err(cause) => (u32::from(cause), &results[..0]),
    };
    *number = told;
    part
}
