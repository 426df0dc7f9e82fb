// Writing the result records of a sheet, no code graded yet.
#![tactic(auto)]

ghost use Rattle.std.specs.Prelude.{◌≡◌, Bool, true, false, suc, ◌*◌, ◌<◌, ◌++◌, length, drop};
ghost use Rattle.rules.specs.StepThree.{next, in_step_three};
ghost use Rattle.units.specs.declared.Entry.TheVariants.{UnitRecord};
ghost use Rattle.rules.specs.declared.Phase.TheVariants.{Designated};
ghost use Rattle.layout.specs.Layout.{entry_at, units_before};
ghost use Rattle.results.specs.Record.{result_size};
ghost use Rattle.results.specs.Written.{written};
ghost use Rattle.codes.specs.Codes.{ungraded};
ghost use Rattle.recording.specs.Sheet.{sheet_of, result_of};
ghost use Rattle.single_plan.specs.Passing.{outside, Passable, opening_under, Through};
ghost use Rattle.writing.specs.Writing.{UnitHere, RecordHere, position_at, OneMore};
ghost use Rattle.writing.specs.Passes.{reached_at, Met, GoneAgain, NextReady, NextDone, Ready, Done};
ghost use Rattle.writing.specs.Writable.{Writable};

use layout::{Place, entry_at, mark_at};
use recording::{recover_three, result_of, write_at};
use results::RESULT_SIZE;
use rules::{Phase, State};
use single_plan::{CheckedSheet, Reached, graded_by, outside, write_meeting};
use units::{Entry, SampleUnit, qualifies_with, step_in_force};

// Where the writing stands: before a record, with the state of the grading there. Sheet, position and buffer stay three parameters, and what
// is asked of them clauses: a struct of them would lend the buffer on, and each contract would have to say that it is the same buffer.
#[derive(Clone, Copy)]
struct Position {
    place: Place,
    state: State,
}

impl Position {
    fn reached(self) -> Reached
        ensures { result ≡ reached_at self }
    {
        let cusums = self.state.cusums;
        Reached {
            place: self.place,
            cusums,
        }
    }

    // Outside step 3, with no failure just before.
    fn outside(designated: u8, reached: Reached) -> Position
        ensures { result ≡ record { place = reached.place; state = outside designated reached.cusums } }
    {
        Position {
            place: reached.place,
            state: outside(designated, reached.cusums),
        }
    }
}

// Writes what is recorded of a unit under the designated plan: the state after it.
fn write_designated(
    sheet: &CheckedSheet,
    position: Position,
    unit: SampleUnit,
    results: &mut [u8],
) -> State
    requires { UnitHere sheet.now.bytes.now sheet.now.records sheet.now.table.now position.place position.state unit (length results.old) × (position.state.phase ≡ Designated) }
    ensures state { result ≡ next sheet.now.table.now position.state (UnitRecord unit) }
    ensures buffer { OneMore (sheet_of sheet.now.bytes.now sheet.now.records) position.place.index results.old results.new }
{
    let state = position.state;
    let table = *sheet.table;
    let here = position.reached();
    let grading = single_plan::write_unit(table, state.designated, here, unit, results);
    state.after_unit(table, grading, false)
}

// The same for a unit in step 3; where step 3 ends, it and the two before it are recovered.
fn write_step_three(
    sheet: &CheckedSheet,
    position: Position,
    unit: SampleUnit,
    results: &mut [u8],
) -> State
    requires { UnitHere sheet.now.bytes.now sheet.now.records sheet.now.table.now position.place position.state unit (length results.old) × (in_step_three position.state.phase ≡ true) }
    ensures state { result ≡ next sheet.now.table.now position.state (UnitRecord unit) }
    ensures buffer { OneMore (sheet_of sheet.now.bytes.now sheet.now.records) position.place.index results.old results.new }
{
    let place = position.place;
    let state = position.state;
    let table = *sheet.table;
    let lower = state.in_force();
    let stepped = step_in_force(table, lower, state.cusums, unit);
    let grading = graded_by(table, lower, unit, stepped);
    let qualifies = qualifies_with(table, state.designated, grading.cusums, unit);
    write_at(
        results,
        RESULT_SIZE * place.units,
        result_of(state, unit, grading),
    );
    if state.phase.ends_step_three(qualifies) {
        recover_three(sheet.bytes, place, state.designated, results);
    }
    state.after_unit(table, grading, qualifies)
}

// The same in any phase. Each has a path of its own: one for both keeps the table in memory.
fn write_unit(
    sheet: &CheckedSheet,
    position: Position,
    unit: SampleUnit,
    results: &mut [u8],
) -> State
    requires { UnitHere sheet.now.bytes.now sheet.now.records sheet.now.table.now position.place position.state unit (length results.old) }
    ensures state { result ≡ next sheet.now.table.now position.state (UnitRecord unit) }
    ensures buffer { OneMore (sheet_of sheet.now.bytes.now sheet.now.records) position.place.index results.old results.new }
{
    match position.state.phase {
        Phase::Designated => write_designated(sheet, position, unit, results),
        Phase::StepThree { .. } => write_step_three(sheet, position, unit, results),
    }
}

// Writes what the record at a position writes, and goes past it.
fn write_here(sheet: &CheckedSheet, position: Position, results: &mut [u8]) -> Position
    requires { RecordHere sheet.now.bytes.now sheet.now.records sheet.now.table.now position.place position.state (length results.old) }
    ensures position { result ≡ position_at sheet.now.bytes.now sheet.now.records (suc position.place.index) }
    ensures buffer { OneMore (sheet_of sheet.now.bytes.now sheet.now.records) position.place.index results.old results.new }
{
    let place = position.place;
    let mark = mark_at(sheet.bytes, place.at);
    let state = match entry_at(sheet.bytes, place.at, mark) {
        Entry::UnitRecord(unit) => write_unit(sheet, position, unit, results),
        Entry::Redesignation(new) => position.state.after_redesignation(*sheet.table, new),
        Entry::Break => position.state.after_break(*sheet.table),
    };
    Position {
        place: place.past(mark),
        state,
    }
}

// Goes past units that meet the designated plan, with what they write, and past breaks: up to a unit that fails, a redesignation or the
// end. Most records of most sheets are such.
#[inline(always)]
fn write_while_met(sheet: &CheckedSheet, position: Position, results: &mut [u8]) -> Position
    requires { Passable sheet.now.bytes.now sheet.now.records position.state.designated (reached_at position) (length results.old) × (position.state.phase ≡ Designated) × (position.state.previous ≡ None) }
    ensures { Met sheet.now.bytes.now sheet.now.records sheet.now.table.now position results.old result results.new }
{
    let designated = position.state.designated;
    let reached = write_meeting(sheet, designated, position.reached(), results);
    Position::outside(designated, reached)
}

// Goes past such records if the designated plan is in force and no unit just before failed: where one did, the next may well fail, too,
// and would be stepped twice. A regrading remembers no failure.
#[inline(always)]
fn past_meeting(sheet: &CheckedSheet, position: Position, results: &mut [u8]) -> Position
    requires { Passable sheet.now.bytes.now sheet.now.records position.state.designated (reached_at position) (length results.old) }
    ensures { Met sheet.now.bytes.now sheet.now.records sheet.now.table.now position results.old result results.new }
{
    match (position.state.phase, position.state.previous) {
        (Phase::Designated, None) => write_while_met(sheet, position, results),
        _ => position,
    }
}

// Writes what the record at a position writes where a sheet is graded again, and goes past it: the designated plan stays in force, and no
// failure is remembered.
fn write_again_here(sheet: &CheckedSheet, position: Position, results: &mut [u8]) -> Position
    requires { Passable sheet.now.bytes.now sheet.now.records position.state.designated (reached_at position) (length results.old) × (position.place.index < sheet.now.records) }
    ensures { GoneAgain sheet.now.bytes.now sheet.now.records sheet.now.table.now position results.old result results.new }
{
    let designated = position.state.designated;
    let reached = single_plan::write_here(sheet, designated, position.reached(), results);
    Position::outside(designated, reached)
}

// How a record is passed at which the units that meet the designated plan end.
trait Course {
    // Whether the sheet is graded again under a second plan, and not by its own.
    ghost again: { Bool };

    // Writes what the record at a position writes, and goes past it.
    fn write_next(sheet: &CheckedSheet, position: Position, results: &mut [u8]) -> Position
        requires { NextReady again sheet.now.bytes.now sheet.now.records sheet.now.table.now position (length results.old) }
        ensures { NextDone again sheet.now.bytes.now sheet.now.records sheet.now.table.now position results.old result results.new };
}

struct Once;

struct Again;

impl Course for Once {
    ghost again = { false };

    fn write_next(sheet: &CheckedSheet, position: Position, results: &mut [u8]) -> Position {
        write_here(sheet, position, results)
    }
}

impl Course for Again {
    ghost again = { true };

    fn write_next(sheet: &CheckedSheet, position: Position, results: &mut [u8]) -> Position {
        write_again_here(sheet, position, results)
    }
}

// Writes the result records of a sheet, one after the other from the buffer's start, no code graded yet. Where it is graded again, failures
// in a row and redesignations mean nothing. A `while`, and no iterator over places: a step may pass many records.
fn write_pass<C: Course>(sheet: &CheckedSheet, designated: u8, results: &mut [u8])
    requires { Ready C.again sheet.now.bytes.now sheet.now.records sheet.now.table.now designated (length results.old) }
    ensures { Done C.again sheet.now.bytes.now sheet.now.records sheet.now.table.now designated results.old results.new }
{
    let mut position = Position {
        place: Place::first(),
        state: State::opening(*sheet.table, designated),
    };
    while position.place.index < sheet.records {
        position = past_meeting(sheet, position, results);
        if sheet.records <= position.place.index {
            return;
        }
        position = C::write_next(sheet, position, results);
    }
}

// Writes the result records of a sheet as it is graded.
pub fn write_records(sheet: &CheckedSheet, designated: u8, results: &mut [u8])
    requires { Writable sheet.now.bytes.now sheet.now.records sheet.now.table.now designated (length results.old) }
    ensures { results.new ≡ written (result_of (sheet_of sheet.now.bytes.now sheet.now.records)) (λ code. ungraded) (entry_at sheet.now.bytes.now) sheet.now.records ++ drop (result_size * units_before sheet.now.bytes.now sheet.now.records) results.old }
{
    write_pass::<Once>(sheet, designated, results);
}

// The same where it is graded again under this plan, from the opening on.
pub fn write_again(sheet: &CheckedSheet, designated: u8, results: &mut [u8])
    requires { Passable sheet.now.bytes.now sheet.now.records designated (opening_under sheet.now.table.now designated) (length results.old) }
    ensures { Through sheet.now.bytes.now sheet.now.records sheet.now.table.now designated results.old results.new }
{
    write_pass::<Again>(sheet, designated, results);
}
