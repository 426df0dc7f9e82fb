// What a grading answers, for every kind of sheet, and the grounds on which one is refused.
#![tactic(auto)]

ghost use Rattle.std.specs.Prelude.{◌≡◌};
ghost use Rattle.outcome.specs.Outcome.{answered, refused_as};
ghost use Rattle.outcome.specs.Grounds.{number_of};

// The grounds of refusal, of sheets, second plans, finished results and lots, by their numbers.
#[derive(Clone, Copy, Debug, PartialEq, Eq)]
pub enum Ground {
    NoPlan = 1,
    BadDesignatedGrade = 2,
    PlanNumberTooLarge = 3,
    StartAboveLimit = 4,
    SmallerAtLowerGrade = 5,
    UnknownMark = 6,
    CutShort = 7,
    CountTooLarge = 8,
    BadUnitField = 9,
    BadNewGrade = 10,
    SameGrade = 11,
    TooManyUnits = 12,
    ResultBufferTooShort = 13,
    TooMuchInput = 15,
    BadLevelRow = 16,
    TooManyFields = 17,
    BadSecondPlan = 18,
    NotResults = 19,
    UnlistedSampleUnits = 20,
    UnlistedAql = 21,
    FallingAql = 22,
}

// A ground, and where it stands.
#[derive(Clone, Copy, Debug, PartialEq, Eq)]
pub struct Refusal {
    pub cause: Ground,
    pub offset: usize,
}

// What C gets, so that acceptance and refusal share their fields. Acceptance: 0, the number of units, the sheet's length. A refusal: its
// number, no units, an offset in the sheet.
#[repr(C)]
#[derive(Clone, Copy)]
pub struct Answer {
    pub number: u32,
    pub units: usize,
    pub offset: usize,
}

impl Ground {
    pub fn at(self, offset: usize) -> Refusal
        ensures { result ≡ record { cause = self; offset = offset } }
    {
        Refusal {
            cause: self,
            offset,
        }
    }
}

impl From<Ground> for u32 {
    ghost from_gives = { λ cause number. number ≡ number_of cause };

    fn from(cause: Ground) -> u32 {
        cause as u32
    }
}

// A refusal by any number, with no units.
pub fn refused_as(number: u32, offset: usize) -> Answer
    ensures { result ≡ refused_as number offset }
{
    Answer {
        number,
        units: 0,
        offset,
    }
}

impl From<Refusal> for Answer {
    ghost from_gives = { λ refusal answer. answer ≡ refused_as (number_of refusal.cause) refusal.offset };

    fn from(refusal: Refusal) -> Answer {
        refused_as(u32::from(refusal.cause), refusal.offset)
    }
}

impl Answer {
    // The answer where a sheet of this length is graded, with so many units, or refused.
    pub fn of(graded: Result<usize, Refusal>, length: usize) -> Answer
        ensures { result ≡ answered length graded }
    {
        match graded {
            Ok(units) => Answer {
                number: 0,
                units,
                offset: length,
            },
            Err(refusal) => Answer::from(refusal),
        }
    }
}
