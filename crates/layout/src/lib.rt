// The tally sheet in bytes: its plan and its records, and a walk over them. What stands in a sheet is named by its offset, here and in the
// crates above, as in the specification: a slice from there on is no plainer, and a unit before a place is read alike.
#![tactic(auto)]

ghost use Rattle.std.specs.Prelude.{◌≡◌, ◌+◌, ◌≤◌, length};
ghost use Rattle.std.specs.Result.{result_ok};
ghost use Rattle.layout.specs.Layout.{mark_size, plan_numbers_size, plan_size, unit_size, plan_numbers_at, plan_of, mark_of, mark_at, size_of, sample_unit_at, entry_of, units_in};
ghost use Rattle.layout.specs.Walk.{first_place, place_after, RoomPast};

use cusum::{Defects, PlanNumbers};
use encoding::number_at;
use std::array;
use units::{CELLS, Entry, Plan, SampleUnit};

// Sizes of the records, and offsets of their fields, each behind the one before it.
pub const MARK_SIZE: usize = 2;

pub const NUMBER_SIZE: usize = 2;

// The designated grade of a plan, the new one of a redesignation.
pub const GRADE_OFFSET: usize = MARK_SIZE;

// The table of a plan: for grades A, B and C, within each the classes, within each S, T and L.
const TABLE_OFFSET: usize = GRADE_OFFSET + 1;

const TOLERANCE_OFFSET: usize = NUMBER_SIZE;

const LIMIT_OFFSET: usize = TOLERANCE_OFFSET + NUMBER_SIZE;

const PLAN_NUMBERS_SIZE: usize = LIMIT_OFFSET + NUMBER_SIZE;

pub const PLAN_SIZE: usize = TABLE_OFFSET + PLAN_NUMBERS_SIZE * CELLS;

// A unit.
const CODE_OFFSET: usize = MARK_SIZE;

const CRITICAL_OFFSET: usize = CODE_OFFSET + NUMBER_SIZE;

const SEVERE_OFFSET: usize = CRITICAL_OFFSET + NUMBER_SIZE;

const MAJOR_OFFSET: usize = SEVERE_OFFSET + NUMBER_SIZE;

const MINOR_OFFSET: usize = MAJOR_OFFSET + NUMBER_SIZE;

pub const PREREQUISITE_OFFSET: usize = MINOR_OFFSET + NUMBER_SIZE;

pub const RECOVERABLE_OFFSET: usize = PREREQUISITE_OFFSET + 1;

pub const UNIT_SIZE: usize = RECOVERABLE_OFFSET + 1;

pub const REDESIGNATION_SIZE: usize = GRADE_OFFSET + 1;

// Which record a mark opens.
#[derive(Clone, Copy, Debug, PartialEq, Eq)]
pub enum Mark {
    UnitMark,
    RedesignationMark,
    BreakMark,
}

// What a number is that opens no record.
#[derive(Clone, Copy, Debug, PartialEq, Eq)]
pub struct UnknownMark;

// Where a walk over the records stands: the number of a record, its offset, the units before it.
#[derive(Clone, Copy)]
pub struct Place {
    pub index: usize,
    pub at: usize,
    pub units: usize,
}

fn plan_numbers_at(bytes: &[u8], at: usize) -> PlanNumbers
    requires { at + plan_numbers_size ≤ length bytes.now }
    ensures { result ≡ plan_numbers_at bytes.now at }
{
    PlanNumbers {
        start: number_at(bytes, at),
        tolerance: number_at(bytes, at + TOLERANCE_OFFSET),
        limit: number_at(bytes, at + LIMIT_OFFSET),
    }
}

// The plan of a sheet that is long enough for it.
#[tactic(auto, unfolding(crate::specs::Layout::plan_of))]
pub fn plan_of(bytes: &[u8]) -> Plan
    requires { plan_size ≤ length bytes.now }
    ensures { result ≡ plan_of bytes.now }
{
    Plan {
        designated: bytes[GRADE_OFFSET],
        numbers: array::from_fn(|cell| {
            plan_numbers_at(bytes, TABLE_OFFSET + PLAN_NUMBERS_SIZE * cell)
        }),
    }
}

impl TryFrom<u16> for Mark {
    type Error = UnknownMark;

    ghost try_from_gives = { λ number result. result_ok result ≡ mark_of number };

    #[tactic(auto, unfolding(crate::specs::Layout::mark_of, units::specs::Conditions::pick))]
    fn try_from(number: u16) -> Result<Mark, UnknownMark> {
        match number {
            0x5355 => Ok(Mark::UnitMark),
            0x5244 => Ok(Mark::RedesignationMark),
            0x424b => Ok(Mark::BreakMark),
            _ => Err(UnknownMark),
        }
    }
}

// The mark at an offset, if there is one.
#[tactic(auto, unfolding(crate::specs::Layout::mark_at))]
pub fn mark_at(bytes: &[u8], at: usize) -> Option<Mark>
    requires { at + mark_size ≤ length bytes.now }
    ensures { result ≡ mark_at bytes.now at }
{
    Mark::try_from(number_at(bytes, at)).ok()
}

// The size of a record by its mark.
#[tactic(auto, unfolding(crate::specs::Layout::size_of))]
fn size_of(mark: Option<Mark>) -> usize
    ensures { result ≡ size_of mark }
{
    match mark {
        Some(Mark::UnitMark) => UNIT_SIZE,
        Some(Mark::RedesignationMark) => REDESIGNATION_SIZE,
        Some(Mark::BreakMark) | None => MARK_SIZE,
    }
}

// 1 for a unit, 0 for any other record.
#[tactic(auto, unfolding(crate::specs::Layout::units_in))]
fn units_in(mark: Option<Mark>) -> usize
    ensures { result ≡ units_in mark }
{
    match mark {
        Some(Mark::UnitMark) => 1,
        _ => 0,
    }
}

// The unit at an offset, whole.
#[tactic(auto, unfolding(crate::specs::Layout::sample_unit_at))]
pub fn sample_unit_at(bytes: &[u8], at: usize) -> SampleUnit
    requires { at + unit_size ≤ length bytes.now }
    ensures { result ≡ sample_unit_at bytes.now at }
{
    SampleUnit {
        code: number_at(bytes, at + CODE_OFFSET),
        critical: Defects(number_at(bytes, at + CRITICAL_OFFSET)),
        severe: Defects(number_at(bytes, at + SEVERE_OFFSET)),
        major: Defects(number_at(bytes, at + MAJOR_OFFSET)),
        minor: Defects(number_at(bytes, at + MINOR_OFFSET)),
        prerequisite: bytes[at + PREREQUISITE_OFFSET],
        recoverable: bytes[at + RECOVERABLE_OFFSET] == 1,
    }
}

// The record at an offset, which has its mark and is whole.
#[tactic(auto, unfolding(crate::specs::Layout::entry_of, crate::specs::Layout::size_of))]
pub fn entry_at(bytes: &[u8], at: usize, mark: Option<Mark>) -> Entry
    requires { at + size_of mark ≤ length bytes.now }
    ensures { result ≡ entry_of bytes.now at mark }
{
    match mark {
        Some(Mark::UnitMark) => Entry::UnitRecord(sample_unit_at(bytes, at)),
        Some(Mark::RedesignationMark) => Entry::Redesignation(bytes[at + GRADE_OFFSET]),
        Some(Mark::BreakMark) | None => Entry::Break,
    }
}

impl Place {
    // Before the first record.
    pub fn first() -> Place
        ensures { result ≡ first_place }
    {
        Place {
            index: 0,
            at: PLAN_SIZE,
            units: 0,
        }
    }

    // Past a record with this mark.
    pub fn past(self, mark: Option<Mark>) -> Place
        requires { RoomPast self mark }
        ensures { result ≡ place_after self mark }
    {
        Place {
            index: self.index + 1,
            at: self.at + size_of(mark),
            units: self.units + units_in(mark),
        }
    }
}
