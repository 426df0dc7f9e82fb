// The grader for C and Rust: what the archive exports, with the same contracts (`hatmuyon_c`).
#![tactic(auto)]

ghost use Rattle.std.specs.Prelude.{◌≡◌};
ghost use Rattle.outcome.specs.Outcome.{Outcome};
ghost use Rattle.mold.specs.Outcome.{mold_outcome};
ghost use Rattle.tally.specs.Outcome.{outcome};
ghost use Rattle.regrade.specs.Outcome.{regrade_outcome};
ghost use Rattle.lookup.specs.Lookup.{lookup};
ghost use Rattle.lots.specs.Answer.{lot_answer};

use lookup::Part;
use lots::LotAnswer;
use outcome::Answer;

// Grades a tally sheet into a result buffer; see tally::grade. A slice passes as a pointer and then a length.
pub fn hatmuyon_grade(sheet: &[u8], results: &mut [u8]) -> Answer
    ensures { ◌≡◌ {A = Outcome} (record { answer = result; buffer = results.new }) (outcome sheet.now results.old) }
{
    tally::grade(sheet, results)
}

// Grades a mold sheet into a result buffer; see mold::grade_mold.
pub fn hatmuyon_grade_mold(sheet: &[u8], results: &mut [u8]) -> Answer
    ensures { ◌≡◌ {A = Outcome} (record { answer = result; buffer = results.new }) (mold_outcome sheet.now results.old) }
{
    mold::grade_mold(sheet, results)
}

// Grades a recorded tally sheet again under a second plan record, into a result buffer; see regrade::regrade.
pub fn hatmuyon_regrade(sheet: &[u8], plan: &[u8], results: &mut [u8]) -> Answer
    ensures { ◌≡◌ {A = Outcome} (record { answer = result; buffer = results.new }) (regrade_outcome sheet.now plan.now results.old) }
{
    regrade::regrade(sheet, plan, results)
}

// Finds the first record of the worst portion grade of a code in finished results: its place; see lookup::find_place.
pub fn hatmuyon_find_code(results: &[u8], code: u16) -> Part
    ensures { result ≡ lookup results.now code }
{
    lookup::find_place(results, code)
}

// Grades a warehouse lot; see lots::grade_lot.
pub fn hatmuyon_grade_lot(lot: &[u8]) -> LotAnswer
    ensures { result ≡ lot_answer lot.now }
{
    lots::grade_lot(lot)
}
