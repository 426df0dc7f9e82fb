// The result record of a unit: its bytes, written into the rest of the result buffer.
#![tactic(auto)]

ghost use Rattle.std.specs.Prelude.{◌≡◌, ◌≤◌, length};
ghost use Rattle.std.proofs.lemmas.List.Edits.{sets};
ghost use Rattle.results.specs.Record.{result_size, result_bytes};

use units::{CLASSES, Cusums, Overshoots};

// Bytes of a result record, and offsets of its fields.
pub const RESULT_SIZE: usize = OVERSHOOTS_OFFSET + OVERSHOOT_WIDTH * CLASSES;

pub const CODE_OFFSET: usize = 2;

pub const PORTION_GRADE_OFFSET: usize = 4;

pub const CODE_GRADE_OFFSET: usize = 5;

pub const PLAN_GRADE_OFFSET: usize = 6;

pub const STANDING_OFFSET: usize = 7;

pub const CUSUMS_OFFSET: usize = 8;

const OVERSHOOTS_OFFSET: usize = CUSUMS_OFFSET + CUSUM_WIDTH * CLASSES;

// Bytes of a CuSum, and of an overshoot.
pub const CUSUM_WIDTH: usize = 2;

const OVERSHOOT_WIDTH: usize = 4;

// What a result record says of a unit, but for its code grade, which is known last. Grades and standing are its bytes: the enum of standings
// is of `rules`, which this crate does not know.
#[derive(Clone, Copy)]
pub struct ResultRecord {
    pub code: u16,
    pub portion: u8,
    pub plan: u8,
    pub standing: u8,
    pub cusums: Cusums,
    pub overshoots: Overshoots,
}

// The bytes of a record with this code grade, one by one: the one place here that spells the classes out. Of a CuSum the lowest two bytes
// stand there, of an overshoot the lowest four. Not `map` over the classes, nor `last_chunk`: with them a sheet of units that meet takes
// some 20 percent more instructions.
fn bytes_of(res: ResultRecord, grade: u8) -> [u8; RESULT_SIZE]
    ensures { result ≡ result_bytes grade res }
{
    let code = res.code.to_be_bytes();
    let cusums = res.cusums;
    let critical = cusums[0].tenths.to_be_bytes();
    let severe = cusums[1].tenths.to_be_bytes();
    let major = cusums[2].tenths.to_be_bytes();
    let total = cusums[3].tenths.to_be_bytes();
    let overshoots = res.overshoots;
    let over_critical = overshoots[0].to_be_bytes();
    let over_severe = overshoots[1].to_be_bytes();
    let over_major = overshoots[2].to_be_bytes();
    let over_total = overshoots[3].to_be_bytes();
    [
        0x47,
        0x52,
        code[0],
        code[1],
        res.portion,
        grade,
        res.plan,
        res.standing,
        critical[2],
        critical[3],
        severe[2],
        severe[3],
        major[2],
        major[3],
        total[2],
        total[3],
        over_critical[4],
        over_critical[5],
        over_critical[6],
        over_critical[7],
        over_severe[4],
        over_severe[5],
        over_severe[6],
        over_severe[7],
        over_major[4],
        over_major[5],
        over_major[6],
        over_major[7],
        over_total[4],
        over_total[5],
        over_total[6],
        over_total[7],
    ]
}

// Copies a record to the start of `rest`. Not by `copy_from_slice` or `first_chunk_mut`: with them a sheet of units that meet takes some
// 20 percent more instructions.
pub fn put<const N: usize>(rest: &mut [u8], bytes: [u8; N])
    requires { N ≤ length rest.old }
    ensures { rest.new ≡ sets rest.old 0 bytes.entry }
{
    for i in 0..N {
        rest[i] = bytes[i];
    }
}

// Writes a record with this code grade to the start of the rest of the result buffer.
pub fn write(rest: &mut [u8], res: ResultRecord, grade: u8)
    requires { result_size ≤ length rest.old }
    ensures { rest.new ≡ sets rest.old 0 (result_bytes grade res) }
{
    put(rest, bytes_of(res, grade));
}
