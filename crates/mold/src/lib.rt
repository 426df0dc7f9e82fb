// Grading a mold sheet: positive fields out of 25, under the S, T and L of a defect action level.
#![tactic(auto)]

ghost use Rattle.std.specs.Prelude.{◌≡◌, cond, ◌+◌, ◌*◌, ◌≤◌, ◌++◌, length, drop};
ghost use Rattle.outcome.specs.Grounds.{refusal_number};
ghost use Rattle.outcome.specs.Outcome.{Outcome, answered};
ghost use Rattle.cusum.specs.Counts.{field_tenths};
ghost use Rattle.mold.specs.Levels.{last_row, level_numbers};
ghost use Rattle.mold.specs.Layout.{opening_size, unit_size, level_row, offset, mold_unit_at};
ghost use Rattle.mold.specs.Refusals.{opening_refusal, unit_refusal, check_from, checked};
ghost use Rattle.mold.specs.Results.{result_size, result_bytes, written};
ghost use Rattle.mold.specs.Outcome.{mold_outcome};

use cusum::{Cusum, DefectiveFields, PlanNumbers, Stepped};
use encoding::number_at;
use layout::{MARK_SIZE, NUMBER_SIZE};
use outcome::{Answer, Ground, Refusal};
use results::{CUSUM_WIDTH, put};
use sheet::MOST_UNITS;

// S, T and L of a defect action level, in whole fields.
#[derive(Clone, Copy)]
struct Level {
    start: DefectiveFields,
    tolerance: DefectiveFields,
    limit: DefectiveFields,
}

// Defect action levels 5, 10, 12, 15, 20 and 25.
const LEVELS: [Level; 6] = [
    Level {
        start: DefectiveFields(0),
        tolerance: DefectiveFields(1),
        limit: DefectiveFields(1),
    },
    Level {
        start: DefectiveFields(1),
        tolerance: DefectiveFields(2),
        limit: DefectiveFields(3),
    },
    Level {
        start: DefectiveFields(0),
        tolerance: DefectiveFields(3),
        limit: DefectiveFields(2),
    },
    Level {
        start: DefectiveFields(1),
        tolerance: DefectiveFields(3),
        limit: DefectiveFields(3),
    },
    Level {
        start: DefectiveFields(0),
        tolerance: DefectiveFields(5),
        limit: DefectiveFields(2),
    },
    Level {
        start: DefectiveFields(1),
        tolerance: DefectiveFields(6),
        limit: DefectiveFields(3),
    },
];

const LAST_ROW: u8 = 5;

// Positive fields are counted out of 25.
const FIELDS_COUNTED: u8 = 25;

// The opening: mark, level row.
const LEVEL_OFFSET: usize = MARK_SIZE;

pub const OPENING_SIZE: usize = LEVEL_OFFSET + 1;

// A unit: mark, code, positive fields.
const CODE_OFFSET: usize = MARK_SIZE;

const FIELDS_OFFSET: usize = CODE_OFFSET + NUMBER_SIZE;

pub const UNIT_SIZE: usize = FIELDS_OFFSET + 1;

// A result record: mark, 1 for met or 0, CuSum.
pub const MET_OFFSET: usize = MARK_SIZE;

pub const CUSUM_OFFSET: usize = MET_OFFSET + 1;

pub const RESULT_SIZE: usize = CUSUM_OFFSET + CUSUM_WIDTH;

// A unit of a mold sheet: production code, positive fields.
#[derive(Clone, Copy)]
pub struct MoldUnit {
    pub code: u16,
    pub fields: DefectiveFields,
}

// Whole fields in tenths, as S, T and L are kept: narrowed, by which 2,550 is proved to lose nothing.
fn plan_tenths(fields: DefectiveFields) -> u16
    ensures { result ≡ field_tenths fields }
{
    fields.tenths() as u16
}

// S, T and L of a row that is there: the check refuses another one, and an `Option` would be asked again.
#[tactic(auto, unfolding(crate::specs::Levels::level_numbers))]
fn level_numbers(row: u8) -> PlanNumbers
    requires { row ≤ last_row }
    ensures { result ≡ level_numbers row }
{
    let level = LEVELS[usize::from(row)];
    PlanNumbers {
        start: plan_tenths(level.start),
        tolerance: plan_tenths(level.tolerance),
        limit: plan_tenths(level.limit),
    }
}

// The unit at an offset, whole: by offset, as in `layout`.
#[tactic(auto, unfolding(crate::specs::Layout::mold_unit_at))]
pub fn mold_unit_at(bytes: &[u8], at: usize) -> MoldUnit
    requires { at + unit_size ≤ length bytes.now }
    ensures { result ≡ mold_unit_at bytes.now at }
{
    MoldUnit {
        code: number_at(bytes, at + CODE_OFFSET),
        fields: DefectiveFields(bytes[at + FIELDS_OFFSET]),
    }
}

// Its positive fields in tenths, as rule 2 takes them.
fn tenths_at(bytes: &[u8], at: usize) -> u32
    requires { at + unit_size ≤ length bytes.now }
    ensures { result ≡ field_tenths (mold_unit_at bytes.now at).fields }
{
    mold_unit_at(bytes, at).fields.tenths()
}

// The first ground that the opening meets.
#[tactic(auto, using(std::proofs::lemmas::Bool::Decides::nat_tests), unfolding(crate::specs::Refusals::opening_refusal, crate::specs::Refusals::no_opening, sheet::specs::Refusals::refused_if))]
fn check_opening(bytes: &[u8]) -> Result<(), Ground>
    ensures { refusal_number result ≡ opening_refusal bytes.now }
{
    if bytes.len() < OPENING_SIZE || number_at(bytes, 0) != 0x4d44 {
        return Err(Ground::NoPlan);
    }
    if LAST_ROW < bytes[LEVEL_OFFSET] {
        return Err(Ground::BadLevelRow);
    }
    Ok(())
}

// The first ground that a record meets, with so many units before it. The sheet may cut it short.
#[tactic(auto, using(std::proofs::lemmas::Bool::Decides::nat_tests), unfolding(crate::specs::Refusals::unit_refusal, crate::specs::Refusals::no_unit_mark, sheet::specs::Refusals::refused_if))]
fn check_unit(bytes: &[u8], units: usize) -> Result<(), Ground>
    ensures { refusal_number result ≡ unit_refusal bytes.now 0 units }
{
    if bytes.len() < MARK_SIZE || number_at(bytes, 0) != 0x4d55 {
        return Err(Ground::UnknownMark);
    }
    if bytes.len() < UNIT_SIZE {
        return Err(Ground::CutShort);
    }
    if MOST_UNITS <= units {
        return Err(Ground::TooManyUnits);
    }
    if FIELDS_COUNTED < mold_unit_at(bytes, 0).fields.0 {
        return Err(Ground::TooManyFields);
    }
    Ok(())
}

// The records behind an opening, from left to right: whole ones, and a last one that the sheet cuts short.
fn check_records(bytes: &[u8]) -> Result<usize, Refusal>
    requires { opening_size ≤ length bytes.now }
    ensures { answered (length bytes.now) result ≡ check_from bytes.now (length bytes.now) 0 }
{
    let (records, rest) = bytes[OPENING_SIZE..].as_chunks::<UNIT_SIZE>();
    for (units, record) in records.iter().enumerate() {
        check_unit(record, units).map_err(|ground| ground.at(OPENING_SIZE + UNIT_SIZE * units))?;
    }
    if !rest.is_empty() {
        check_unit(rest, records.len()).map_err(|ground| ground.at(bytes.len() - rest.len()))?;
    }
    Ok(records.len())
}

// The check of a sheet for all but number 13.
fn check(bytes: &[u8]) -> Result<usize, Refusal>
    ensures { answered (length bytes.now) result ≡ checked bytes.now }
{
    check_opening(bytes).map_err(|ground| ground.at(0))?;
    check_records(bytes)
}

// The result record of a unit.
#[tactic(auto, unfolding(crate::specs::Results::result_bytes, encoding::specs::Bytes::bytes_of))]
fn result_bytes(stepped: Stepped) -> [u8; RESULT_SIZE]
    ensures { result ≡ result_bytes stepped.fails stepped.cusum.tenths }
{
    let [_, _, high, low] = stepped.cusum.tenths.to_be_bytes();
    [0x4d, 0x52, u8::from(!stepped.fails), high, low]
}

// Writes the result record of a unit to the start of the rest of the result buffer.
fn write(rest: &mut [u8], stepped: Stepped)
    requires { result_size ≤ length rest.old }
    ensures { rest.new ≡ result_bytes stepped.fails stepped.cusum.tenths ++ drop result_size rest.old }
{
    put(rest, result_bytes(stepped));
}

// Writes the result records of so many units, which are whole.
#[tactic(auto, unfolding(crate::specs::Results::written, crate::specs::Grading::cusum_before))]
fn write_units(bytes: &[u8], units: usize, results: &mut [u8])
    requires { (level_row bytes.now ≤ last_row) × (offset units ≤ length bytes.now) × (result_size * units ≤ length results.old) }
    ensures { results.new ≡ written bytes.now units ++ drop (result_size * units) results.old }
{
    let numbers = level_numbers(bytes[LEVEL_OFFSET]);
    let mut cusum = Cusum::starting(numbers);
    // By number: of what is written through `chunks_exact_mut` a proof knows the length alone.
    for unit in 0..units {
        let tenths = tenths_at(bytes, OPENING_SIZE + UNIT_SIZE * unit);
        let stepped = cusum.step(numbers, tenths);
        write(&mut results[RESULT_SIZE * unit..], stepped);
        cusum = stepped.cusum;
    }
}

// The units of a sheet whose result records stand in the buffer. One of three gradings of this shape: see `regrade::regraded`.
fn graded(sheet: &[u8], results: &mut [u8]) -> Result<usize, Refusal>
    ensures { ◌≡◌ {A = Outcome} (record { answer = answered (length sheet.now) result; buffer = results.new }) (mold_outcome sheet.now results.old) }
{
    let units = check(sheet)?;
    if results.len() < RESULT_SIZE * units {
        return Err(Ground::ResultBufferTooShort.at(sheet.len()));
    }
    write_units(sheet, units, results);
    Ok(units)
}

// Grades a mold sheet into a result buffer. Every sheet is accepted or refused by a listed number with the place; a refused sheet
// leaves the buffer as it was, an accepted one changes only its result records.
pub fn grade_mold(sheet: &[u8], results: &mut [u8]) -> Answer
    ensures { ◌≡◌ {A = Outcome} (record { answer = result; buffer = results.new }) (mold_outcome sheet.now results.old) }
{
    Answer::of(graded(sheet, results), sheet.len())
}
