// Grading a warehouse lot by the lot single sampling plan, standard sample unit size 6.
#![tactic(auto)]

ghost use Rattle.std.specs.Prelude.{◌≡◌, ◌<◌, ◌==◌, length, position, unwrap_or, IfOk};
ghost use Rattle.outcome.specs.Grounds.{refusal_number};
ghost use Rattle.units.specs.Conditions.{any};
ghost use Rattle.units.specs.Words.{planned_grades};
ghost use Rattle.lots.specs.Layout.{classes, cells, kinds, sample_units, aql_of_cell, aql_of, count_of_kind, count_of_class, prerequisite};
ghost use Rattle.lots.specs.Acceptance.{acceptance_number};
ghost use Rattle.lots.specs.Refusals.{not_among, is_unlisted, aql_falls_in_class, count_too_large, field_refusal, lot_refusal};
ghost use Rattle.lots.specs.Grading.{admits, defect_grade, lot_grade};
ghost use Rattle.lots.specs.Answer.{answered, lot_answer};

use cusum::Defects;
use encoding::number_at;
use layout::{MARK_SIZE, NUMBER_SIZE};
use outcome::Ground;
use sheet::LARGEST_COUNT;
use units::{GRADES, SUBSTANDARD, worse_of};

// Classes are critical, severe, major and total, by number, as their fields stand. Lots have these four, whatever classes a sheet has.
const CLASSES: usize = 4;

// One AQL for each class of each grade.
const CELLS: usize = GRADES * CLASSES;

// Counts are of critical, severe, major and minor defects, by number, too.
const KINDS: usize = 4;

// The headings of the table: the sample units that are listed over its columns, the AQLs, in tenths, beside its rows. Lists of their own, as
// each is asked for itself whether it has a number.
const SAMPLE_UNITS: [u16; 4] = [6, 13, 21, 29];

const AQLS: [u16; 6] = [10, 15, 25, 40, 50, 125];

// The acceptance numbers: a row for each AQL, in it one for each number of sample units.
const ACCEPTANCE_NUMBERS: [[u16; 4]; 6] = [
    [1, 2, 3, 4],
    [1, 3, 4, 5],
    [3, 4, 6, 8],
    [4, 6, 9, 11],
    [4, 7, 11, 14],
    [8, 15, 22, 29],
];

// A lot: mark, sample units, AQLs, counts, prerequisite grade.
const LOT_MARK: u16 = 0x4c54;

const SAMPLE_UNITS_OFFSET: usize = MARK_SIZE;

const AQLS_OFFSET: usize = SAMPLE_UNITS_OFFSET + 1;

const COUNTS_OFFSET: usize = AQLS_OFFSET + NUMBER_SIZE * CELLS;

const PREREQUISITE_OFFSET: usize = COUNTS_OFFSET + NUMBER_SIZE * KINDS;

pub const LOT_SIZE: usize = PREREQUISITE_OFFSET + 1;

// What a refusal has in the place of a grade: C's struct has no variants.
const NO_GRADE: u8 = 3;

// The bytes of a lot, which are all there: their number is in the type.
#[derive(Clone, Copy)]
struct Lot<'a> {
    bytes: &'a [u8; LOT_SIZE],
}

// What C gets, so that acceptance and refusal share their fields. Acceptance: 0 and the lot grade. A refusal: its number and 3, which
// is no grade then. The offset is 0 in both.
#[repr(C)]
#[derive(Clone, Copy)]
pub struct LotAnswer {
    pub number: u32,
    pub grade: u8,
    pub offset: usize,
}

// Whether a number is none of those that are listed.
fn not_among<const LISTED: usize>(listed: &[u16; LISTED], number: u16) -> bool
    ensures { result ≡ not_among listed.now number }
{
    !listed.contains(&number)
}

// Where a number stands among those that are listed, if it does.
fn place_among<const LISTED: usize>(listed: &[u16; LISTED], number: u16) -> Option<usize>
    ensures { result ≡ position (λ member. member == number) listed.now }
{
    listed.iter().position(|member| *member == number)
}

// The acceptance number at so many sample units for an AQL, if both are listed, as they are in every lot that is not refused.
fn acceptance_number(units: u16, aql: u16) -> Option<u16>
    ensures { unwrap_or result 0 ≡ acceptance_number units aql }
{
    let row = place_among(&AQLS, aql)?;
    let column = place_among(&SAMPLE_UNITS, units)?;
    Some(ACCEPTANCE_NUMBERS[row][column])
}

impl<'a> Lot<'a> {
    // Any bytes of any length, unless they meet a ground of refusal: the first of them.
    #[tactic(auto, unfolding(crate::specs::Refusals::lot_refusal, crate::specs::Refusals::no_lot_mark, sheet::specs::Refusals::refused_if))]
    fn read(bytes: &'a [u8]) -> Result<Lot<'a>, Ground>
        ensures refused { refusal_number result ≡ lot_refusal bytes.now }
        ensures read { IfOk result (λ lot. lot.bytes.now ≡ bytes.now) }
    {
        if bytes.len() < MARK_SIZE || number_at(bytes, 0) != LOT_MARK {
            return Err(Ground::UnknownMark);
        }
        let Ok(bytes) = <&[u8; LOT_SIZE]>::try_from(bytes) else {
            return Err(Ground::CutShort);
        };
        let lot = Lot { bytes };
        lot.check_fields()?;
        Ok(lot)
    }

    fn sample_units(&self) -> u16
        ensures { result ≡ sample_units self.now.bytes.now }
    {
        u16::from(self.bytes[SAMPLE_UNITS_OFFSET])
    }

    fn prerequisite(&self) -> u8
        ensures { result ≡ prerequisite self.now.bytes.now }
    {
        self.bytes[PREREQUISITE_OFFSET]
    }

    // The AQL of a cell, grade by grade and in each class by class.
    fn aql_of_cell(&self, cell: usize) -> u16
        requires { cell < length cells }
        ensures { result ≡ aql_of_cell self.now.bytes.now cell }
    {
        let bytes = self.bytes;
        number_at(bytes, AQLS_OFFSET + NUMBER_SIZE * cell)
    }

    // The AQL of a class in a grade.
    fn aql(&self, grade: usize, class: usize) -> u16
        requires grade { grade < length planned_grades }
        requires class { class < length classes }
        ensures { result ≡ aql_of self.now.bytes.now grade class }
    {
        self.aql_of_cell(CLASSES * grade + class)
    }

    // The count of a kind.
    fn count_of_kind(&self, kind: usize) -> Defects
        requires { kind < length kinds }
        ensures { result ≡ count_of_kind self.now.bytes.now kind }
    {
        let bytes = self.bytes;
        Defects(number_at(bytes, COUNTS_OFFSET + NUMBER_SIZE * kind))
    }

    // The count of a class; total is the sum of all four, four bytes wide, as nothing is asked of the counts here.
    fn count_of_class(&self, class: usize) -> u32
        requires { class < length classes }
        ensures { result ≡ (count_of_class self.now.bytes.now class).0 }
    {
        let critical = u32::from(self.count_of_kind(0).0);
        let severe = u32::from(self.count_of_kind(1).0);
        let major = u32::from(self.count_of_kind(2).0);
        let minor = u32::from(self.count_of_kind(3).0);
        let counts = [critical, severe, major, critical + severe + major + minor];
        counts[class]
    }

    // Whether an AQL of the lot is not listed.
    fn any_unlisted(&self) -> bool
        ensures { result ≡ any (is_unlisted self.now.bytes.now) cells }
    {
        (0..CELLS).any(|cell| not_among(&AQLS, self.aql_of_cell(cell)))
    }

    // Whether the AQL of a class falls from A to B, or from B to C.
    fn any_falling(&self) -> bool
        ensures { result ≡ any (aql_falls_in_class self.now.bytes.now) classes }
    {
        (0..CLASSES).any(|class| {
            let for_a = self.aql(0, class);
            let for_b = self.aql(1, class);
            let for_c = self.aql(2, class);
            (for_b < for_a) | (for_c < for_b)
        })
    }

    // Whether a count of the lot is too large.
    fn any_count_too_large(&self) -> bool
        ensures { result ≡ any (count_too_large self.now.bytes.now) kinds }
    {
        (0..KINDS).any(|kind| LARGEST_COUNT < self.count_of_kind(kind).0)
    }

    // The first ground that a field of a lot meets.
    #[tactic(auto, unfolding(crate::specs::Refusals::field_refusal, sheet::specs::Refusals::refused_if))]
    fn check_fields(&self) -> Result<(), Ground>
        ensures { refusal_number result ≡ field_refusal self.now.bytes.now }
    {
        if not_among(&SAMPLE_UNITS, self.sample_units()) {
            return Err(Ground::UnlistedSampleUnits);
        }
        if self.any_unlisted() {
            return Err(Ground::UnlistedAql);
        }
        if self.any_falling() {
            return Err(Ground::FallingAql);
        }
        if self.any_count_too_large() {
            return Err(Ground::CountTooLarge);
        }
        if SUBSTANDARD < self.prerequisite() {
            return Err(Ground::BadUnitField);
        }
        Ok(())
    }

    // Whether a grade admits every class.
    fn admits(&self, grade: usize) -> bool
        requires { grade < length planned_grades }
        ensures { result ≡ admits self.now.bytes.now grade }
    {
        (0..CLASSES).all(|class| {
            let number = acceptance_number(self.sample_units(), self.aql(grade, class));
            self.count_of_class(class) <= u32::from(number.unwrap_or(0))
        })
    }

    // The best grade that admits every class; Substandard if none does.
    fn defect_grade(&self) -> u8
        ensures { result ≡ defect_grade self.now.bytes.now }
    {
        (0..SUBSTANDARD)
            .find(|grade| self.admits(usize::from(*grade)))
            .unwrap_or(SUBSTANDARD)
    }

    #[tactic(auto, unfolding(crate::specs::Grading::lot_grade))]
    fn grade(&self) -> u8
        ensures { result ≡ lot_grade self.now.bytes.now }
    {
        worse_of(self.defect_grade(), self.prerequisite())
    }
}

impl LotAnswer {
    // The answer where a lot gets a grade, or is refused.
    pub fn of(graded: Result<u8, Ground>) -> LotAnswer
        ensures { result ≡ answered graded }
    {
        match graded {
            Ok(grade) => LotAnswer {
                number: 0,
                grade,
                offset: 0,
            },
            Err(cause) => LotAnswer {
                number: u32::from(cause),
                grade: NO_GRADE,
                offset: 0,
            },
        }
    }
}

// Grades a lot, any bytes of any length: its grade, or the first ground of refusal that it meets.
#[tactic(auto, unfolding(crate::specs::Answer::lot_answer, units::specs::Conditions::pick))]
pub fn grade(lot: &[u8]) -> Result<u8, Ground>
    ensures { answered result ≡ lot_answer lot.now }
{
    match Lot::read(lot) {
        Ok(lot) => Ok(lot.grade()),
        Err(cause) => Err(cause),
    }
}

// Grades a lot for C: accepted with its grade, or refused by a listed number.
pub fn grade_lot(lot: &[u8]) -> LotAnswer
    ensures { result ≡ lot_answer lot.now }
{
    LotAnswer::of(grade(lot))
}
