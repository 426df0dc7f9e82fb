// Writing the result records of units that are graded one after the other under one plan, no code graded yet: a break starts every class
// at its S, and nothing else does.
#![tactic(auto)]

ghost use Rattle.std.specs.Prelude.{◌≡◌, true, false, cond, suc, ◌+◌, ◌*◌, ◌≤◌, ◌<◌, length};
ghost use Rattle.std.proofs.lemmas.List.Edits.{sets};
ghost use Rattle.units.specs.Words.{has_plan, Table, row_of, tenths_of};
ghost use Rattle.units.specs.Unit.{best_lower, grading_of};
ghost use Rattle.results.specs.Record.{result_size, result_bytes};
ghost use Rattle.codes.specs.Codes.{ungraded};
ghost use Rattle.single_plan.specs.SinglePlan.{result_under};
ghost use Rattle.single_plan.specs.Passing.{outside, grading_by, Passable, Further};

use layout::{Place, entry_at, mark_at};
use recording::{result_of, write_at};
use results::RESULT_SIZE;
use rules::{Phase, State};
use units::{
    CLASSES, Cusums, Entry, Grading, SampleUnit, SteppedClasses, Table, best_lower, row_of, starts,
    step_classes,
};

// A sheet that has passed the check: so many records, and the table of the plan that it is graded under. That the records are whole is part
// of `Walk`, which the contracts say of the place. The designated grade is no part: a redesignation changes it.
#[derive(Clone, Copy)]
pub struct CheckedSheet<'a> {
    pub bytes: &'a [u8],
    pub records: usize,
    pub table: &'a Table,
}

// Where the writing stands: before a record, with the CuSums there. No struct of sheet, place and buffer, for the reason of `Position` in
// `writing`.
#[derive(Clone, Copy)]
pub struct Reached {
    pub place: Place,
    pub cusums: Cusums,
}

// Outside step 3, with no failure just before.
pub fn outside(designated: u8, cusums: Cusums) -> State
    ensures { result ≡ outside designated cusums }
{
    State {
        designated,
        previous: None,
        phase: Phase::Designated,
        cusums,
    }
}

// Writes what is recorded of a unit under the designated plan.
fn write_graded(
    place: Place,
    designated: u8,
    unit: SampleUnit,
    grading: Grading,
    results: &mut [u8],
)
    requires { result_size * place.units + result_size ≤ length results.old }
    ensures { results.new ≡ sets results.old (result_size * place.units) (result_bytes ungraded (result_under designated unit grading)) }
{
    write_at(
        results,
        RESULT_SIZE * place.units,
        result_of(outside(designated, grading.cusums), unit, grading),
    );
}

// The defect grade of a unit under the plan of a grade, by whether it fails.
fn defect_grade(table: Table, grade: u8, fails: bool, unit: SampleUnit) -> u8
    ensures { result ≡ cond fails (best_lower table grade (tenths_of unit)) grade }
{
    if fails {
        return best_lower(table, grade, unit);
    }
    grade
}

// The grading of a unit under the plan of a grade, by its step in every class.
pub fn graded_by(table: Table, grade: u8, unit: SampleUnit, stepped: SteppedClasses) -> Grading
    ensures { result ≡ grading_by table grade unit stepped }
{
    let cusums = stepped.cusums;
    let overshoots = stepped.overshoots;
    Grading {
        cusums,
        overshoots,
        fails: stepped.fails,
        grade: defect_grade(table, grade, stepped.fails, unit),
    }
}

// Grades a unit under the designated plan, whether it meets or fails, and writes what is recorded of it: its grading.
#[inline(always)]
pub fn write_unit(
    table: Table,
    designated: u8,
    here: Reached,
    unit: SampleUnit,
    results: &mut [u8],
) -> Grading
    requires { (result_size * here.place.units + result_size ≤ length results.old) × (has_plan designated ≡ true) }
    ensures grading { result ≡ grading_of table designated here.cusums (tenths_of unit) }
    ensures buffer { results.new ≡ sets results.old (result_size * here.place.units) (result_bytes ungraded (result_under designated unit (grading_of table designated here.cusums (tenths_of unit)))) }
{
    let stepped = step_classes(row_of(table, designated), here.cusums, unit);
    let grading = graded_by(table, designated, unit, stepped);
    write_graded(here.place, designated, unit, grading, results);
    grading
}

// Writes what units that meet the designated plan write, and goes past them and past breaks: up to a unit that fails, a redesignation or the
// end. Most records of most sheets are such; this loop has the row of their plan alone, and not the table, which it would keep in memory. Where
// no class fails none is over. A `while`, and no iterator over places: the pass stops among the records and hands its place on.
#[inline(always)]
pub fn write_meeting(
    sheet: &CheckedSheet,
    designated: u8,
    start: Reached,
    results: &mut [u8],
) -> Reached
    requires { Passable sheet.now.bytes.now sheet.now.records designated start (length results.old) }
    ensures { (table : Table) → row_of table designated ≡ row_of sheet.now.table.now designated → Further sheet.now.bytes.now sheet.now.records table designated true start results.old result results.new }
{
    let bytes = sheet.bytes;
    let row = row_of(*sheet.table, designated);
    let mut here = start;
    while here.place.index < sheet.records {
        let mark = mark_at(bytes, here.place.at);
        match entry_at(bytes, here.place.at, mark) {
            Entry::UnitRecord(unit) => {
                let stepped = step_classes(row, here.cusums, unit);
                if stepped.fails {
                    return here;
                }
                let cusums = stepped.cusums;
                let met = Grading {
                    cusums,
                    overshoots: [0; CLASSES],
                    fails: false,
                    grade: designated,
                };
                write_graded(here.place, designated, unit, met, results);
                here = Reached {
                    place: here.place.past(mark),
                    cusums,
                };
            }
            Entry::Redesignation(_) => return here,
            Entry::Break => {
                here = Reached {
                    place: here.place.past(mark),
                    cusums: starts(row),
                };
            }
        }
    }
    here
}

// Writes what the record writes at which the writing stands, and goes past it, whatever it is: a redesignation is passed over.
pub fn write_here(
    sheet: &CheckedSheet,
    designated: u8,
    here: Reached,
    results: &mut [u8],
) -> Reached
    requires { Passable sheet.now.bytes.now sheet.now.records designated here (length results.old) × (here.place.index < sheet.now.records) }
    ensures further { Further sheet.now.bytes.now sheet.now.records sheet.now.table.now designated false here results.old result results.new }
    ensures one { result.place.index ≡ suc here.place.index }
{
    let place = here.place;
    let mark = mark_at(sheet.bytes, place.at);
    let cusums = match entry_at(sheet.bytes, place.at, mark) {
        Entry::UnitRecord(unit) => {
            write_unit(*sheet.table, designated, here, unit, results).cusums
        }
        Entry::Redesignation(_) => here.cusums,
        Entry::Break => starts(row_of(*sheet.table, designated)),
    };
    Reached {
        place: place.past(mark),
        cusums,
    }
}
