// Kinds of cases.
ghost use Rattle.tally_cases.specs.Kind.{Decodes};

// What a case prints: a tally sheet or a mold sheet, a regrading, a look-up, a lot.
#[derive(Clone, Copy, Debug, PartialEq, Eq)]
pub enum Kind {
    Tally,
    Mold,
    Regrading,
    Lookup,
    Lot,
}

// A byte that stands for no kind.
#[derive(Clone, Copy, Debug)]
pub struct UnknownKind;

impl TryFrom<u8> for Kind {
    type Error = UnknownKind;

    ghost try_from_gives = { Decodes };

    fn try_from(code: u8) -> Result<Self, UnknownKind> {
        match code {
            0 => Ok(Kind::Tally),
            1 => Ok(Kind::Mold),
            2 => Ok(Kind::Regrading),
            3 => Ok(Kind::Lookup),
            4 => Ok(Kind::Lot),
            _ => Err(UnknownKind),
        }
    }
}
