// What is printed for a mold sheet, written into the caller's buffer: a line a unit, or the refusal.
#![tactic(auto)]

ghost use Rattle.std.specs.Prelude.{◌≡◌, ◌+◌, ◌*◌, ◌≤◌, length};
ghost use Rattle.text.specs.Text.{Printing};
ghost use Rattle.mold.specs.Layout.{unit_size, offset};
ghost use Rattle.mold.specs.Results.{result_size};
ghost use Rattle.mold_lines.specs.MoldLines.{met_letter, mold_line_of, mold_printing, mold_line_size};

use encoding::number_at;
use mold::{CUSUM_OFFSET, MET_OFFSET, OPENING_SIZE, RESULT_SIZE, UNIT_SIZE, mold_unit_at};
use outcome::Ground;
use sheet::MOST_UNITS;
use text::{
    CUSUM_SIZE, LARGEST_INPUT, NUMBER_DIGITS, Page, UnitLines, WORD_SIZE, letter_of, print_answer,
    print_refusal,
};

// The longest line of a unit, which has one byte behind each field; bytes enough for the lines of the most units.
const LINE_SIZE: usize = WORD_SIZE + 1 + NUMBER_DIGITS + 1 + 1 + 1 + CUSUM_SIZE + 1;

pub const MOLD_TEXT_SIZE: usize = LINE_SIZE * MOST_UNITS;

fn met_letter(met: u8) -> u8
    ensures { result ≡ met_letter met }
{
    letter_of(b"f", b'm', met)
}

// The lines of a mold sheet and its result buffer's records.
#[derive(Drop)]
struct MoldLines<'a> {
    sheet: &'a [u8],
    results: &'a [u8],
}

impl UnitLines for MoldLines<'_> {
    ghost HasUnit = { λ lines unit. (offset unit + unit_size ≤ length lines.sheet.now) × (result_size * unit + result_size ≤ length lines.results.now) };

    ghost line = { λ lines. mold_line_of lines.sheet.now lines.results.now };

    ghost line_size = { mold_line_size };

    #[tactic(auto, using(text::proofs::Decimals::length_word, text::proofs::Decimals::length_number, text::proofs::Decimals::length_cusum))]
    fn unit_line(&self, unit: usize, page: &mut Page) {
        let code = mold_unit_at(self.sheet, OPENING_SIZE + UNIT_SIZE * unit).code;
        let record = RESULT_SIZE * unit;
        let met = met_letter(self.results[record + MET_OFFSET]);
        let tenths = number_at(self.results, record + CUSUM_OFFSET);
        page.decimal(unit + 1);
        page.number_field(usize::from(code));
        page.bytes(&[b' ', met]);
        page.tenths_field(tenths);
        page.byte(b'\n');
    }
}

// What is printed for an input: the lines of the mold sheet that it is, or the refusal. It stands first in the text; the answer is its
// size. By a function of its own for the reason that `lines::print_into` gives.
#[tactic(auto, using(text::proofs::Printed::too_much))]
pub fn print_mold_into(input: &[u8], text: &mut [u8; MOLD_TEXT_SIZE]) -> usize
    ensures { ◌≡◌ {A = Printing} (record { size = result; text = text.new }) (mold_printing input.now text.old) }
{
    if LARGEST_INPUT < input.len() {
        return print_refusal(u32::from(Ground::TooMuchInput), LARGEST_INPUT, text);
    }
    let mut results = [0u8; RESULT_SIZE * MOST_UNITS];
    let answer = mold::grade_mold(input, &mut results);
    let lines = MoldLines {
        sheet: input,
        results: &results,
    };
    print_answer(answer, &lines, text)
}
