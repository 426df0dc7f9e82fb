// Numbers of two and of four bytes, with the high byte first.
#![tactic(auto)]

ghost use Rattle.std.specs.Prelude.{◌≡◌, ◌+◌, ◌≤◌, eqb, length};
ghost use Rattle.encoding.specs.Bytes.{number, bytes_of};

// The number that stands at an offset.
pub fn number_at(bytes: &[u8], at: usize) -> u16
    requires { at + 2 ≤ length bytes.now }
    ensures { result ≡ number bytes.now at }
{
    u16::from_be_bytes([bytes[at], bytes[at + 1]])
}

// Whether this number stands at an offset. The number is turned round instead of the bytes, so that a loop that compares many places
// turns it once.
pub fn holds_at(bytes: &[u8], at: usize, value: u16) -> bool
    requires { at + 2 ≤ length bytes.now }
    ensures { result ≡ eqb (number bytes.now at) value }
{
    u16::from_le_bytes([bytes[at], bytes[at + 1]]) == value.swap_bytes()
}

// The lowest four bytes of a number.
pub fn four_bytes(value: u64) -> [u8; 4]
    ensures { result ≡ bytes_of 4 value }
{
    let [_, _, _, _, first, second, third, fourth] = value.to_be_bytes();
    [first, second, third, fourth]
}
