// Grading a recorded sheet again under a second plan record: the sheet's own check, refusals 18 and 13, the result records, the code
// grades.
#![tactic(auto)]

ghost use Rattle.std.specs.Prelude.{◌≡◌, ◌++◌, ◌*◌, length, drop};
ghost use Rattle.layout.specs.Layout.{entry_at, units_before};
ghost use Rattle.results.specs.Record.{result_size};
ghost use Rattle.results.specs.Written.{written};
ghost use Rattle.codes.specs.Codes.{ungraded};
ghost use Rattle.sheet.specs.Refusals.{refused_if};
ghost use Rattle.outcome.specs.Grounds.{refusal_number};
ghost use Rattle.outcome.specs.Outcome.{Outcome, answered};
ghost use Rattle.regrade.specs.Regrading.{regraded_result};
ghost use Rattle.regrade.specs.Outcome.{sheet_under, second_plan_wrong, regrade_outcome};
ghost use Rattle.regrade.specs.Regradable.{Regradable};

use codes::grade_codes;
use layout::{PLAN_SIZE, plan_of};
use outcome::{Answer, Ground, Refusal};
use results::RESULT_SIZE;
use sheet::{check, check_plan};
use single_plan::CheckedSheet;
use units::Plan;
use writing::write_again;

// The second plan: exactly one plan record free of 2 to 5.
#[tactic(auto, using(std::proofs::lemmas::Bool::Decides::nat_tests), unfolding(crate::specs::Outcome::second_plan_wrong, sheet::specs::Refusals::refused_if))]
fn check_second_plan(plan: &[u8]) -> Result<(), Ground>
    ensures { refusal_number result ≡ refused_if (second_plan_wrong plan.now) 18 0 }
{
    if plan.len() != PLAN_SIZE || check_plan(plan).is_err() {
        return Err(Ground::BadSecondPlan);
    }
    Ok(())
}

// Writes the result records of a sheet under this plan, no code graded yet: every record is passed, from the opening on, where every class
// is at its S.
fn write_regraded(bytes: &[u8], records: usize, plan: Plan, results: &mut [u8])
    requires { Regradable bytes.now records plan (length results.old) }
    ensures { results.new ≡ written (regraded_result (sheet_under bytes.now plan records)) (λ code. ungraded) (entry_at bytes.now) records ++ drop (result_size * units_before bytes.now records) results.old }
{
    let table = plan.table();
    let sheet = CheckedSheet {
        bytes,
        records,
        table: &table,
    };
    write_again(&sheet, plan.designated, results);
}

// The units of a sheet that is graded again into a result buffer, or the refusal. Three gradings have this shape, those of `tally` and of
// `mold` and this one: a check, the room, the records. One function for all would take closures for the check and for the writing, whose
// contracts speak of the whole buffer: no plainer than three calls.
fn regraded(bytes: &[u8], plan: &[u8], results: &mut [u8]) -> Result<usize, Refusal>
    ensures { ◌≡◌ {A = Outcome} (record { answer = answered (length bytes.now) result; buffer = results.new }) (regrade_outcome bytes.now plan.now results.old) }
{
    let checked = check(bytes)?;
    check_second_plan(plan).map_err(|cause| cause.at(0))?;
    if results.len() < RESULT_SIZE * checked.units {
        return Err(Ground::ResultBufferTooShort.at(bytes.len()));
    }
    write_regraded(bytes, checked.records, plan_of(plan), results);
    grade_codes(&mut results[..RESULT_SIZE * checked.units]);
    Ok(checked.units)
}

// Grades a recorded sheet again under a second plan record, into a result buffer. Every sheet is accepted or refused by a listed number with
// the place; a refusal leaves the buffer as it was, acceptance changes only the result records.
pub fn regrade(sheet: &[u8], plan: &[u8], results: &mut [u8]) -> Answer
    ensures { ◌≡◌ {A = Outcome} (record { answer = result; buffer = results.new }) (regrade_outcome sheet.now plan.now results.old) }
{
    Answer::of(regraded(sheet, plan, results), sheet.len())
}
