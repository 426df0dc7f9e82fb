// What is printed for a regrading, written into the caller's buffer: the lines of the printing program, or the refusal.
#![tactic(auto)]

ghost use Rattle.std.specs.Prelude.{◌≡◌};
ghost use Rattle.text.specs.Text.{Printing};
ghost use Rattle.regrade_lines.specs.RegradeLines.{regrade_printing};

use lines::{RESULTS_SIZE, TEXT_SIZE, print_answer, print_refusal};
use outcome::Ground;
use text::LARGEST_INPUT;

// What is printed for a sheet that is graded again under a second plan: the lines of its units, or the refusal. It stands first in the text;
// the answer is its size. By a function of its own for the reason that `lines::print_into` gives.
#[tactic(auto, using(text::proofs::Printed::too_much))]
pub fn print_regrading_into(sheet: &[u8], plan: &[u8], text: &mut [u8; TEXT_SIZE]) -> usize
    ensures { ◌≡◌ {A = Printing} (record { size = result; text = text.new }) (regrade_printing sheet.now plan.now text.old) }
{
    if LARGEST_INPUT < sheet.len() {
        return print_refusal(u32::from(Ground::TooMuchInput), LARGEST_INPUT, text);
    }
    let mut results = [0u8; RESULTS_SIZE];
    let answer = regrade::regrade(sheet, plan, &mut results);
    print_answer(answer, &results, text)
}
