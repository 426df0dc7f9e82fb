// What the programs do with any reader and any writer, in memory that the caller lends or a text of fixed size.
#![tactic(auto)]

ghost use Rattle.std.specs.Prelude.{◌≡◌, ◌<◌, ◌≤◌, ℕ, List, IfOk, OnOk, length};
ghost use Rattle.std.specs.Io.KnownBytes.{Appends, Consumes, IsAtEnd};
ghost use Rattle.streams.specs.Makes.{Makes};

use std::convert::AsSlice;
use std::io;
use std::io::{Read, Write};

// Reads until the room is full or the input ends, and answers what was read, or the error of a read that failed. (read_exact does not tell
// how many bytes stand before the end, and io::copy not what its reader has left.)
pub fn read_input<'a, R: Read>(input: &mut R, room: &'a mut [u8]) -> io::Result<&'a [u8]>
    ensures inside { IfOk result (λ front. length front.now ≤ length room.old) }
    ensures front { IfOk result (λ front. Consumes (R.remaining input.old) (R.remaining input.new) front.now) }
    ensures whole { IfOk result (λ front. length front.now < length room.old → IsAtEnd (R.remaining input.new)) }
{
    let mut bytes: usize = 0;
    while bytes < room.len() {
        match input.read(&mut room[bytes..])? {
            0 => break,
            more => bytes += more,
        }
    }
    Ok(&room[..bytes])
}

// Prints a text: what a function makes stand first in the room, up to the end that it answers.
pub fn print_text<T: AsSlice<u8>, W: Write, F: FnOnce(&mut T) -> usize>(
    out: &mut W,
    room: &mut T,
    make: F,
) -> io::Result<()>
    requires callable { F.IsAlwaysCallable make }
    requires made { (text : List ℕ) × Makes F.FnOnce make T.items room.old text }
    ensures { (text : List ℕ) → Makes F.FnOnce make T.items room.old text → OnOk result (Appends (W.contents out.old) (W.contents out.new) text) }
{
    let end = make(room);
    out.write_all(&room.as_slice()[..end])
}
