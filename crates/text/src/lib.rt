// What is printed for sheets of every kind, written into the caller's buffer: a line a unit, or the refusal.
#![tactic(auto)]

ghost use Rattle.std.specs.Prelude.{◌≡◌, ℕ, ◌*◌, ◌<◌, ◌≤◌, List, length, get_or};
ghost use Rattle.text.specs.Text.{refused_line, lines_by, text_by, Printing, leaving};
ghost use Rattle.text.specs.Wrote.{Wrote, HasRoom, longest_refusal};

mod page;

use outcome::Answer;
pub use page::Page;

// The most bytes of input that are taken for a sheet.
pub const LARGEST_INPUT: usize = 65536;

// The most bytes of a usize in decimal, of a number of two bytes, and of a CuSum.
pub const WORD_SIZE: usize = 20;

pub const NUMBER_DIGITS: usize = 5;

pub const CUSUM_SIZE: usize = NUMBER_DIGITS + 1;

// The letter of a number: by its place among the letters, or the other one.
pub fn letter_of(letters: &[u8], other: u8, number: u8) -> u8
    ensures { result ≡ get_or letters.now number other }
{
    letters.get(usize::from(number)).copied().unwrap_or(other)
}

// Lines of the units of a sheet, from its bytes or those of its results.
pub trait UnitLines {
    // The bytes of a unit, the first being 0, stand there; the line of a unit; no line is longer.
    ghost HasUnit: { Self → ℕ → Type 0 };

    ghost line: { Self → ℕ → List ℕ };

    ghost line_size: { ℕ };

    fn unit_line(&self, unit: usize, page: &mut Page)
        requires there { HasUnit self.now unit }
        requires room { HasRoom page.old line_size }
        ensures line { Wrote page.old (line self.now unit) page.new }
        ensures short { length (line self.now unit) ≤ line_size };
}

#[tactic(auto, using(crate::proofs::Pages::joined, crate::proofs::Pages::nothing_written), unfolding(crate::specs::Text::lines_by))]
fn unit_lines<L: UnitLines>(lines: &L, units: usize, page: &mut Page)
    requires there { (unit : ℕ) → unit < units → L.HasUnit lines.now unit }
    requires room { HasRoom page.old (L.line_size * units) }
    ensures { Wrote page.old (lines_by (L.line lines.now) units) page.new }
{
    for unit in 0..units {
        lines.unit_line(unit, page);
    }
}

// ---- the whole text, which stands first in the caller's; the answer is its size

// A refusal alone.
#[tactic(auto, using(crate::proofs::Pages::whole_text, crate::proofs::Printed::refusal_fits))]
pub fn print_refusal(number: u32, offset: usize, text: &mut [u8]) -> usize
    requires { longest_refusal ≤ length text.old }
    ensures { ◌≡◌ {A = Printing} (record { size = result; text = text.new }) (leaving (refused_line number offset) text.old) }
{
    let mut page = Page::new(text);
    page.refusal_line(number, offset);
    page.size()
}

// What is printed for an answer: the lines of the units, or the refusal. An answer and no `Result`: that is what graders give for C and for
// printing, and any number is printed.
#[tactic(auto, using(crate::proofs::Pages::whole_text), unfolding(crate::specs::Text::text_by))]
pub fn print_answer<L: UnitLines>(answer: Answer, lines: &L, text: &mut [u8]) -> usize
    requires there { answer.number ≡ 0 → (unit : ℕ) → unit < answer.units → L.HasUnit lines.now unit }
    requires lines_fit { answer.number ≡ 0 → L.line_size * answer.units ≤ length text.old }
    requires refusal_fits { longest_refusal ≤ length text.old }
    ensures { ◌≡◌ {A = Printing} (record { size = result; text = text.new }) (leaving (text_by answer (L.line lines.now)) text.old) }
{
    if answer.number != 0 {
        return print_refusal(answer.number, answer.offset, text);
    }
    let mut page = Page::new(text);
    unit_lines(lines, answer.units, &mut page);
    page.size()
}
