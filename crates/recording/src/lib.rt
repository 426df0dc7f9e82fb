// What is recorded of a unit, written into its result record; and recovery in the records that are written.
#![tactic(auto)]

ghost use Rattle.std.specs.Prelude.{◌≡◌, false, ◌+◌, ◌*◌, ◌≤◌, length};
ghost use Rattle.std.proofs.lemmas.List.Edits.{sets};
ghost use Rattle.results.specs.Record.{result_size, result_bytes};
ghost use Rattle.codes.specs.Codes.{ungraded};
ghost use Rattle.recording.specs.Sheet.{result_with};
ghost use Rattle.recording.specs.Recovering.{recovered_in, ThreeHere, three_recovered};

use codes::UNGRADED;
use layout::{Place, UNIT_SIZE, sample_unit_at};
use results::{PORTION_GRADE_OFFSET, RESULT_SIZE, ResultRecord, STANDING_OFFSET};
use rules::{Standing, State};
use units::{Grading, SampleUnit, worse_of};

// What is recorded of a unit that is not recovered, but for its code grade.
#[tactic(auto, unfolding(crate::specs::Sheet::result_with, units::specs::Unit::portion_grade_of))]
pub fn result_of(state: State, unit: SampleUnit, grading: Grading) -> ResultRecord
    ensures { result ≡ result_with state unit grading false }
{
    let cusums = grading.cusums;
    let overshoots = grading.overshoots;
    ResultRecord {
        code: unit.code,
        portion: worse_of(grading.grade, unit.prerequisite),
        plan: state.in_force(),
        standing: u8::from(state.phase.standing(grading.fails, false)),
        cusums,
        overshoots,
    }
}

// Recovers the portion of a unit, if it is marked recoverable, in its result record.
#[tactic(auto, unfolding(crate::specs::Recovering::recovered_in, units::specs::Conditions::pick))]
fn recover(unit: SampleUnit, designated: u8, results: &mut [u8], start: usize)
    requires { start + result_size ≤ length results.old }
    ensures { results.new ≡ recovered_in results.old start designated unit }
{
    if unit.recoverable {
        results[start + PORTION_GRADE_OFFSET] = worse_of(designated, unit.prerequisite);
        results[start + STANDING_OFFSET] = u8::from(Standing::Recovered);
    }
}

// Recovers the unit at a place, at which step 3 ends, and the two right before it.
#[tactic(auto, unfolding(crate::specs::Recovering::three_recovered))]
pub fn recover_three(bytes: &[u8], place: Place, designated: u8, results: &mut [u8])
    requires { ThreeHere bytes.now place (length results.old) }
    ensures { results.new ≡ three_recovered bytes.now place designated results.old }
{
    let at = place.at;
    let start = RESULT_SIZE * place.units;
    let first = sample_unit_at(bytes, at - 2 * UNIT_SIZE);
    let second = sample_unit_at(bytes, at - UNIT_SIZE);
    let third = sample_unit_at(bytes, at);
    recover(first, designated, results, start - 2 * RESULT_SIZE);
    recover(second, designated, results, start - RESULT_SIZE);
    recover(third, designated, results, start);
}

// Writes a result record at an offset of the buffer, as the definitions name it.
pub fn write_at(results: &mut [u8], at: usize, res: ResultRecord)
    requires { at + result_size ≤ length results.old }
    ensures { results.new ≡ sets results.old at (result_bytes ungraded res) }
{
    results::write(&mut results[at..], res, UNGRADED);
}
