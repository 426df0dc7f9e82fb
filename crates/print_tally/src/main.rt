// Reads a sheet from standard input and prints a line a unit, or the refusal. The text is whole before any of it is written, in one
// go; if the input cannot be read, nothing is printed, and the program ends with the error.
#![tactic(auto)]

ghost use Rattle.std.specs.Prelude.{IfSome, OnOk};
ghost use Rattle.std.specs.Io.KnownBytes.{Appends};
ghost use Rattle.lines.specs.Lines.{printed};

use lines::TEXT_SIZE;
use std::io;
use std::io::{Read, Write};
use streams::{print_text, read_input};
use text::LARGEST_INPUT;

// The text in a function of its own: beside the read it is cleared twice.
fn print_sheet<W: Write>(out: &mut W, sheet: &[u8]) -> io::Result<()>
    ensures { OnOk result (Appends (W.contents out.old) (W.contents out.new) (printed sheet.now)) }
{
    let mut text = [0u8; TEXT_SIZE];
    print_text(out, &mut text, |text| lines::print_into(sheet, text))
}

// What is printed is the printed text of the whole input, however long that is. After an error it is left open what was read and printed.
fn print_input<R: Read, W: Write>(input: &mut R, out: &mut W) -> io::Result<()>
    ensures { OnOk result (IfSome (R.remaining input.old) (λ sheet. Appends (W.contents out.old) (W.contents out.new) (printed sheet))) }
{
    let mut room = [0u8; LARGEST_INPUT + 1];
    let sheet = read_input(input, &mut room)?;
    print_sheet(out, sheet)
}

fn main(rt: HostRuntime) -> io::Result<()> {
    print_input(&mut rt.reader(), &mut io::writer(&rt))
}
