// Prints many cases of every kind. Standard input has the cases one after the other: the kind (a byte), the length of the sheet (four
// bytes, the high byte first), then the sheet. For each a line `case NUMBER`, then what is printed for a case of this kind: 0 a tally
// sheet, as the printing program prints it; 1 a mold sheet; 2 a tally sheet graded again under a second plan, which stands behind the sheet,
// its length (four bytes) before it; 3 a look-up: finished results in place of a sheet, and behind them the code (two bytes); 4 a warehouse
// lot in place of a sheet. A sheet, a second plan, results and a lot have any length up to one byte more than is taken for a sheet. A case of
// another kind or with more bytes ends the program. So does a read or a write that fails, with its error.
#![tactic(auto)]

ghost use Rattle.std.specs.Prelude.{◌≡◌, ℕ, List, ◌∷◌, [], IfOk, OnOk};
ghost use Rattle.std.specs.Io.KnownBytes.{Appends, Consumes};
ghost use Rattle.lines.specs.Lines.{printed};
ghost use Rattle.mold_lines.specs.MoldLines.{mold_printed};
ghost use Rattle.regrade_lines.specs.RegradeLines.{regrade_printed};
ghost use Rattle.tally_cases.specs.Kind.{code_of};
ghost use Rattle.tally_cases.specs.Sized.{LosesSized};
ghost use Rattle.tally_cases.specs.Stop.{StopsFor};
ghost use Rattle.tally_cases.specs.Texts.{found_text, refused_text};
ghost use Rattle.tally_cases.specs.declared.Stop.TheVariants.{NoCase};

mod kind;

use kind::{Kind, UnknownKind};
use lines::TEXT_SIZE;
use mold_lines::MOLD_TEXT_SIZE;
use std::io;
use std::io::{ErrorKind, Read, Write};
use streams::{print_text, read_input};
use text::{LARGEST_INPUT, letter_of};

// No test has more cases.
const MOST_CASES: u64 = 10000;

// Room for a sheet, a plan, results or a lot: one byte more than is taken for a sheet.
const ROOM: usize = LARGEST_INPUT + 1;

// Why no further case is printed: none is left that is one of these, or a read or a write failed.
#[derive(Debug, Drop)]
enum Stop {
    NoCase,
    Failed(io::Error),
}

impl From<UnknownKind> for Stop {
    ghost from_gives = { λ _ stop. stop ≡ NoCase };

    fn from(_unknown: UnknownKind) -> Stop {
        Stop::NoCase
    }
}

// An input that ends where a kind, a length or a code should stand has no further case.
impl From<io::Error> for Stop {
    ghost from_gives = { StopsFor };

    fn from(error: io::Error) -> Stop {
        match error.kind() {
            ErrorKind::UnexpectedEof => Stop::NoCase,
            _ => Stop::Failed(error),
        }
    }
}

fn read_kind<R: Read>(input: &mut R) -> Result<Kind, Stop>
    ensures { IfOk result (λ kind. Consumes (R.remaining input.old) (R.remaining input.new) (code_of kind ∷ [])) }
{
    let mut code = [0u8; 1];
    input.read_exact(&mut code)?;
    Ok(Kind::try_from(code[0])?)
}

// Reads a length and as many bytes, or fewer where the input ends before them. A `usize` has no `From` of four bytes.
fn read_bytes<'a, R: Read>(input: &mut R, room: &'a mut [u8]) -> Result<&'a [u8], Stop>
    ensures { IfOk result (λ bytes. LosesSized (R.remaining input.old) (R.remaining input.new) bytes.now) }
{
    let mut length = [0u8; 4];
    input.read_exact(&mut length)?;
    let length = u32::from_be_bytes(length) as usize;
    let part = room.get_mut(..length).ok_or(Stop::NoCase)?;
    Ok(read_input(input, part)?)
}

// A text of its own for each kind, in a function of its own: beside a read or another text it is cleared for nothing.
fn print_tally<W: Write>(out: &mut W, sheet: &[u8]) -> io::Result<()>
    ensures { OnOk result (Appends (W.contents out.old) (W.contents out.new) (printed sheet.now)) }
{
    let mut text = [0u8; TEXT_SIZE];
    print_text(out, &mut text, |text| lines::print_into(sheet, text))
}

fn print_mold<W: Write>(out: &mut W, sheet: &[u8]) -> io::Result<()>
    ensures { OnOk result (Appends (W.contents out.old) (W.contents out.new) (mold_printed sheet.now)) }
{
    let mut text = [0u8; MOLD_TEXT_SIZE];
    print_text(out, &mut text, |text| {
        mold_lines::print_mold_into(sheet, text)
    })
}

fn print_regraded<W: Write>(out: &mut W, sheet: &[u8], plan: &[u8]) -> io::Result<()>
    ensures { OnOk result (Appends (W.contents out.old) (W.contents out.new) (regrade_printed sheet.now plan.now)) }
{
    let mut text = [0u8; TEXT_SIZE];
    print_text(out, &mut text, |text| {
        regrade_lines::print_regrading_into(sheet, plan, text)
    })
}

// Reads the second plan, and prints the regrading.
fn print_regrading<R: Read, W: Write>(input: &mut R, out: &mut W, sheet: &[u8]) -> Result<(), Stop>
    ensures { OnOk result ((plan : List ℕ) × LosesSized (R.remaining input.old) (R.remaining input.new) plan
        × Appends (W.contents out.old) (W.contents out.new) (regrade_printed sheet.now plan)) }
{
    let mut room = [0u8; ROOM];
    let plan = read_bytes(input, &mut room)?;
    print_regraded(out, sheet, plan)?;
    Ok(())
}

// The place of the part in the results, and its bytes.
fn print_found<W: Write>(out: &mut W, offset: usize, part: &[u8]) -> io::Result<()>
    ensures { OnOk result (Appends (W.contents out.old) (W.contents out.new) (found_text offset part.now)) }
{
    write!(out, "found {offset}")?;
    for byte in part {
        write!(out, " {byte}")?;
    }
    writeln!(out)
}

// A refusal of results or of a lot: the offset is 0.
fn print_refused<W: Write>(out: &mut W, number: u32) -> io::Result<()>
    ensures { OnOk result (Appends (W.contents out.old) (W.contents out.new) (refused_text number)) }
{
    writeln!(out, "refused {number} 0")
}

fn print_part(out: &mut impl Write, results: &[u8], code: u16) -> io::Result<()> {
    match lookup::look_up(results, code) {
        Ok(Some(found)) => print_found(out, found.offset, found.part),
        Ok(None) => writeln!(out, "not on this sheet"),
        Err(cause) => print_refused(out, u32::from(cause)),
    }
}

// Reads the code, and prints the look-up.
fn print_lookup<R: Read, W: Write>(input: &mut R, out: &mut W, results: &[u8]) -> Result<(), Stop> {
    let mut code = [0u8; 2];
    input.read_exact(&mut code)?;
    print_part(out, results, u16::from_be_bytes(code))?;
    Ok(())
}

fn print_lot(out: &mut impl Write, lot: &[u8]) -> io::Result<()> {
    match lots::grade(lot) {
        Ok(grade) => {
            let letter = char::from(letter_of(b"ABC", b'S', grade));
            writeln!(out, "lot {letter}")
        }
        Err(cause) => print_refused(out, u32::from(cause)),
    }
}

// Prints what has this kind, with what stands behind it in the input.
fn print_sheet<R: Read, W: Write>(
    input: &mut R,
    out: &mut W,
    kind: Kind,
    sheet: &[u8],
) -> Result<(), Stop>
    ensures tally { kind ≡ Kind.Tally → OnOk result (Appends (W.contents out.old) (W.contents out.new) (printed sheet.now)) }
    ensures mold { kind ≡ Kind.Mold → OnOk result (Appends (W.contents out.old) (W.contents out.new) (mold_printed sheet.now)) }
    ensures regrading { kind ≡ Kind.Regrading → OnOk result ((plan : List ℕ) × LosesSized (R.remaining input.old) (R.remaining input.new) plan
        × Appends (W.contents out.old) (W.contents out.new) (regrade_printed sheet.now plan)) }
{
    match kind {
        Kind::Tally => print_tally(out, sheet)?,
        Kind::Mold => print_mold(out, sheet)?,
        Kind::Regrading => print_regrading(input, out, sheet)?,
        Kind::Lookup => print_lookup(input, out, sheet)?,
        Kind::Lot => print_lot(out, sheet)?,
    }
    Ok(())
}

fn print_case<R: Read, W: Write>(input: &mut R, out: &mut W, number: u64) -> Result<(), Stop> {
    let kind = read_kind(input)?;
    let mut room = [0u8; ROOM];
    let sheet = read_bytes(input, &mut room)?;
    writeln!(out, "case {number}")?;
    print_sheet(input, out, kind, sheet)
}

fn print_cases<R: Read, W: Write>(input: &mut R, out: &mut W) -> Result<(), Stop> {
    for number in 1..MOST_CASES {
        print_case(input, out, number)?;
    }
    Ok(())
}

fn main(rt: HostRuntime) -> io::Result<()> {
    match print_cases(&mut rt.reader(), &mut io::writer(&rt)) {
        Err(Stop::Failed(error)) => Err(error),
        Ok(()) | Err(Stop::NoCase) => Ok(()),
    }
}
