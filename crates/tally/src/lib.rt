// Grading a whole sheet: the check, refusal 13, the result records, the code grades.
#![tactic(auto)]

ghost use Rattle.std.specs.Prelude.{◌≡◌, length};
ghost use Rattle.outcome.specs.Outcome.{Outcome, answered};
ghost use Rattle.tally.specs.Outcome.{outcome};

use codes::grade_codes;
use layout::plan_of;
use outcome::{Answer, Ground, Refusal};
use results::RESULT_SIZE;
use sheet::check;
use single_plan::CheckedSheet;
use writing::write_records;

// The units of a sheet that is graded into a result buffer, or its refusal. One of three gradings of this shape: see `regrade::regraded`.
fn graded(bytes: &[u8], results: &mut [u8]) -> Result<usize, Refusal>
    ensures { ◌≡◌ {A = Outcome} (record { answer = answered (length bytes.now) result; buffer = results.new }) (outcome bytes.now results.old) }
{
    let checked = check(bytes)?;
    if results.len() < RESULT_SIZE * checked.units {
        return Err(Ground::ResultBufferTooShort.at(bytes.len()));
    }
    let plan = plan_of(bytes);
    let table = plan.table();
    let sheet = CheckedSheet {
        bytes,
        records: checked.records,
        table: &table,
    };
    write_records(&sheet, plan.designated, results);
    grade_codes(&mut results[..RESULT_SIZE * checked.units]);
    Ok(checked.units)
}

// Grades a whole sheet into a result buffer. Every sheet is accepted or refused by a listed number with the place; a refused sheet
// leaves the buffer as it was, an accepted one changes only its result records.
pub fn grade(sheet: &[u8], results: &mut [u8]) -> Answer
    ensures { ◌≡◌ {A = Outcome} (record { answer = result; buffer = results.new }) (outcome sheet.now results.old) }
{
    Answer::of(graded(sheet, results), sheet.len())
}
