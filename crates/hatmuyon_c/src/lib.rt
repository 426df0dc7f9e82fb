// The archive for C and Rust: the functions of hatmuyon, exported under their own names by the C calling convention. A crate of its own, as
// one is a library for other crates or an archive for C, and not both.
#![tactic(auto)]

ghost use Rattle.std.specs.Prelude.{◌≡◌};
ghost use Rattle.outcome.specs.Outcome.{Outcome};
ghost use Rattle.mold.specs.Outcome.{mold_outcome};
ghost use Rattle.tally.specs.Outcome.{outcome};
ghost use Rattle.regrade.specs.Outcome.{regrade_outcome};
ghost use Rattle.lookup.specs.Lookup.{lookup};
ghost use Rattle.lots.specs.Answer.{lot_answer};

use lookup::Part;
use lots::LotAnswer;
use outcome::Answer;

// Grades a tally sheet into a result buffer; see hatmuyon. A slice passes as a pointer and then a length.
#[unsafe(no_mangle)]
pub extern "C" fn hatmuyon_grade(sheet: &[u8], results: &mut [u8]) -> Answer
    ensures { ◌≡◌ {A = Outcome} (record { answer = result; buffer = results.new }) (outcome sheet.now results.old) }
{
    hatmuyon::hatmuyon_grade(sheet, results)
}

// Grades a mold sheet into a result buffer; see hatmuyon.
#[unsafe(no_mangle)]
pub extern "C" fn hatmuyon_grade_mold(sheet: &[u8], results: &mut [u8]) -> Answer
    ensures { ◌≡◌ {A = Outcome} (record { answer = result; buffer = results.new }) (mold_outcome sheet.now results.old) }
{
    hatmuyon::hatmuyon_grade_mold(sheet, results)
}

// Grades a recorded tally sheet again under a second plan record, into a result buffer; see hatmuyon.
#[unsafe(no_mangle)]
pub extern "C" fn hatmuyon_regrade(sheet: &[u8], plan: &[u8], results: &mut [u8]) -> Answer
    ensures { ◌≡◌ {A = Outcome} (record { answer = result; buffer = results.new }) (regrade_outcome sheet.now plan.now results.old) }
{
    hatmuyon::hatmuyon_regrade(sheet, plan, results)
}

// Finds the first record of the worst portion grade of a code in finished results: its place; see hatmuyon.
#[unsafe(no_mangle)]
pub extern "C" fn hatmuyon_find_code(results: &[u8], code: u16) -> Part
    ensures { result ≡ lookup results.now code }
{
    hatmuyon::hatmuyon_find_code(results, code)
}

// Grades a warehouse lot; see hatmuyon.
#[unsafe(no_mangle)]
pub extern "C" fn hatmuyon_grade_lot(lot: &[u8]) -> LotAnswer
    ensures { result ≡ lot_answer lot.now }
{
    hatmuyon::hatmuyon_grade_lot(lot)
}
