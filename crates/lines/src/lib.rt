// What the printing program prints, written into the caller's buffer: a line a unit, or the refusal.
#![tactic(auto)]

ghost use Rattle.std.specs.Prelude.{◌≡◌, ◌≤◌, length};
ghost use Rattle.sheet.specs.Refusals.{most_units};
ghost use Rattle.text.specs.Text.{refused_line, rest_of_line, text_by, Printing, leaving};
ghost use Rattle.text.specs.Wrote.{Wrote, HasRoom};
ghost use Rattle.lines.specs.Lines.{grade_letter, standing_letter, cusum_fields, line_of, printing};
ghost use Rattle.lines.specs.Rooms.{HasRecord, letter_fields, cusums_size, line_size};

use encoding::number_at;
use outcome::{Answer, Ground};
use results::{
    CODE_GRADE_OFFSET, CODE_OFFSET, CUSUM_WIDTH, CUSUMS_OFFSET, PLAN_GRADE_OFFSET,
    PORTION_GRADE_OFFSET, RESULT_SIZE, STANDING_OFFSET,
};
use sheet::MOST_UNITS;
use text::{CUSUM_SIZE, LARGEST_INPUT, NUMBER_DIGITS, Page, UnitLines, WORD_SIZE, letter_of};
use units::CLASSES;

// Portion grade, code grade, standing and plan grade.
const LETTERS: usize = 4;

// The longest line of a unit, which has one byte behind each field; bytes enough for the lines of the most units.
const LINE_SIZE: usize = WORD_SIZE
    + 1
    + NUMBER_DIGITS
    + 1
    + LETTERS * (1 + 1)
    + CLASSES * (CUSUM_SIZE + 1);

pub const TEXT_SIZE: usize = LINE_SIZE * MOST_UNITS;

// A result buffer for the most units.
pub const RESULTS_SIZE: usize = RESULT_SIZE * MOST_UNITS;

// ---- lines

fn grade_letter(grade: u8) -> u8
    ensures { result ≡ grade_letter grade }
{
    letter_of(b"ABC", b'S', grade)
}

fn standing_letter(standing: u8) -> u8
    ensures { result ≡ standing_letter standing }
{
    letter_of(b"mfu", b'r', standing)
}

// The lines of the records of a result buffer.
#[derive(Drop)]
struct TallyLines<'a> {
    results: &'a [u8],
}

impl TallyLines<'_> {
    // The four letters of a unit.
    fn letter_fields(&self, unit: usize, page: &mut Page)
        requires there { HasRecord self.now.results.now unit }
        requires room { HasRoom page.old (length (letter_fields self.now.results.now unit)) }
        ensures { Wrote page.old (letter_fields self.now.results.now unit) page.new }
    {
        let record = RESULT_SIZE * unit;
        let portion = grade_letter(self.results[record + PORTION_GRADE_OFFSET]);
        let code = grade_letter(self.results[record + CODE_GRADE_OFFSET]);
        let standing = standing_letter(self.results[record + STANDING_OFFSET]);
        let plan = grade_letter(self.results[record + PLAN_GRADE_OFFSET]);
        page.bytes(&[b' ', portion, b' ', code, b' ', standing, b' ', plan]);
    }

    // The CuSums of a unit, of two bytes each, and the newline.
    #[tactic(auto, using(text::proofs::Decimals::length_cusum), unfolding(text::specs::Text::rest_of_line))]
    fn cusum_fields(&self, unit: usize, page: &mut Page)
        requires there { HasRecord self.now.results.now unit }
        requires room { HasRoom page.old cusums_size }
        ensures wrote { Wrote page.old (rest_of_line (cusum_fields self.now.results.now unit)) page.new }
        ensures short { length (rest_of_line (cusum_fields self.now.results.now unit)) ≤ cusums_size }
    {
        let record = RESULT_SIZE * unit;
        for class in 0..CLASSES {
            let tenths = number_at(self.results, record + (CUSUMS_OFFSET + CUSUM_WIDTH * class));
            page.tenths_field(tenths);
        }
        page.byte(b'\n');
    }
}

impl UnitLines for TallyLines<'_> {
    ghost HasUnit = { λ lines. HasRecord lines.results.now };

    ghost line = { λ lines. line_of lines.results.now };

    ghost line_size = { line_size };

    #[tactic(auto, using(text::proofs::Decimals::length_word, text::proofs::Decimals::length_number))]
    fn unit_line(&self, unit: usize, page: &mut Page) {
        let code = number_at(self.results, RESULT_SIZE * unit + CODE_OFFSET);
        page.decimal(unit + 1);
        page.number_field(usize::from(code));
        self.letter_fields(unit, page);
        self.cusum_fields(unit, page);
    }
}

// ---- the whole text, which stands first in the caller's; the answer is its size

// A refusal alone.
pub fn print_refusal(number: u32, offset: usize, text: &mut [u8; TEXT_SIZE]) -> usize
    ensures { ◌≡◌ {A = Printing} (record { size = result; text = text.new }) (leaving (refused_line number offset) text.old) }
{
    text::print_refusal(number, offset, text)
}

// What is printed for an answer and the results that stand beside it, whoever graded them: the lines of the units, or the refusal.
pub fn print_answer(
    answer: Answer,
    results: &[u8; RESULTS_SIZE],
    text: &mut [u8; TEXT_SIZE],
) -> usize
    requires { answer.number ≡ 0 → answer.units ≤ most_units }
    ensures { ◌≡◌ {A = Printing} (record { size = result; text = text.new }) (leaving (text_by answer (line_of results.now)) text.old) }
{
    text::print_answer(answer, &TallyLines { results }, text)
}

// What is printed for an input: the lines of the sheet that it is, or the refusal. It stands first in the text; the answer is its size.
// Mold sheets and regradings are printed by functions of their own: one for all would take the grader, its buffer and the lines, and share no
// more than the test of the length beside `print_refusal` and `print_answer`, which are shared.
#[tactic(auto, using(text::proofs::Printed::too_much))]
pub fn print_into(input: &[u8], text: &mut [u8; TEXT_SIZE]) -> usize
    ensures { ◌≡◌ {A = Printing} (record { size = result; text = text.new }) (printing input.now text.old) }
{
    if LARGEST_INPUT < input.len() {
        return print_refusal(u32::from(Ground::TooMuchInput), LARGEST_INPUT, text);
    }
    let mut results = [0u8; RESULTS_SIZE];
    let answer = tally::grade(input, &mut results);
    print_answer(answer, &results, text)
}
