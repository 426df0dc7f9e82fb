// Text written to the front of the caller's bytes.
ghost use Rattle.std.specs.Prelude.{◌≡◌, ◌+◌, ◌≤◌, [], ◌∷◌, length};
ghost use Rattle.text.specs.Text.{space, decimal, one_decimal, refused_line};

// The caller's bytes, and how many of them are written. No `fmt::Write`: what it writes may fail, and here the room is proved, so that
// nothing does.
#[derive(Drop)]
pub struct Page<'a> {
    text: &'a mut [u8],
    size: usize,
    ghost inside: { size ≤ length text.now },
}

impl<'a> Page<'a> {
    ghost use Rattle.text.specs.Wrote.{Wrote, HasRoom};

    pub fn new(text: &'a mut [u8]) -> Page<'a>
        ensures same_bytes { result.text.ghost_name ≡ text.entry.ghost_name }
        ensures empty { result.size ≡ 0 }
        ensures kept { result.text.now ≡ text.old }
    {
        Page { text, size: 0 }
    }

    pub fn size(&self) -> usize
        ensures { result ≡ self.now.size }
    {
        self.size
    }

    pub fn byte(&mut self, byte: u8)
        requires { HasRoom self.old 1 }
        ensures { Wrote self.old (byte ∷ []) self.new }
    {
        let text = &mut *self.text;
        text[self.size] = byte;
        self.size += 1;
    }

    #[inline]
    #[tactic(auto, using(std::proofs::lemmas::Slice::overwrites))]
    pub fn bytes(&mut self, bytes: &[u8])
        requires { HasRoom self.old (length bytes.now) }
        ensures { Wrote self.old bytes.now self.new }
    {
        let text = &mut *self.text;
        let end = self.size + bytes.len();
        text[self.size..end].copy_from_slice(bytes);
        self.size = end;
    }

    // A number of one digit or two, as most CuSums are, is these bytes: by `itoa` they take several times as long.
    #[tactic(auto, using(crate::proofs::Decimals::as_printed, crate::proofs::Decimals::one_digit, crate::proofs::Decimals::two_digits))]
    pub fn decimal(&mut self, value: usize)
        requires { HasRoom self.old (length (decimal value)) }
        ensures { Wrote self.old (decimal value) self.new }
    {
        if value < 10 {
            return self.byte(b'0' + value as u8);
        }
        if value < 100 {
            return self.bytes(&[b'0' + (value / 10) as u8, b'0' + (value % 10) as u8]);
        }
        let mut digits = itoa::Buffer::new();
        self.bytes(digits.format(value).as_bytes());
    }

    // ---- fields, each behind a space

    #[tactic(auto, using(crate::proofs::Pages::joined))]
    pub fn number_field(&mut self, value: usize)
        requires { HasRoom self.old (1 + length (decimal value)) }
        ensures { Wrote self.old (space ∷ decimal value) self.new }
    {
        self.byte(b' ');
        self.decimal(value);
    }

    #[tactic(auto, using(crate::proofs::Pages::joined, crate::proofs::Decimals::length_tenths), unfolding(crate::specs::Text::one_decimal))]
    pub fn tenths_field(&mut self, tenths: u16)
        requires { HasRoom self.old (1 + length (one_decimal tenths)) }
        ensures { Wrote self.old (space ∷ one_decimal tenths) self.new }
    {
        self.number_field(usize::from(tenths / 10));
        self.bytes(&[b'.', b'0' + (tenths % 10) as u8]);
    }

    // "refused", number and offset. A `usize` has no `From` of a `u32`.
    #[tactic(auto, using(crate::proofs::Pages::joined), unfolding(crate::specs::Text::rest_of_line, crate::specs::Text::line_with, crate::specs::Text::refused_line))]
    pub fn refusal_line(&mut self, number: u32, offset: usize)
        requires { HasRoom self.old (length (refused_line number offset)) }
        ensures { Wrote self.old (refused_line number offset) self.new }
    {
        self.bytes(b"refused");
        self.number_field(number as usize);
        self.number_field(offset);
        self.byte(b'\n');
    }
}
