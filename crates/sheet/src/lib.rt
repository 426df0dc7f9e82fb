// The check of a tally sheet for refusals 1 to 12.
#![tactic(auto)]

ghost use Rattle.std.specs.Prelude.{◌≡◌, ◌+◌, ◌≤◌, ◌<◌, length};
ghost use Rattle.units.specs.Words.{classes};
ghost use Rattle.units.specs.Records.{designated_by};
ghost use Rattle.layout.specs.Layout.{plan_size, size_of, entry_of};
ghost use Rattle.outcome.specs.Grounds.{refusal_number};
ghost use Rattle.sheet.specs.Refusals.{too_large, smaller, smaller_in_class, table_refusal, plan_refusal, count_too_large, unit_refusal, redesignation_refusal, refusal_by, check_from, verdict};
ghost use Rattle.sheet.specs.Verdict.{verdict_of};

use cusum::PlanNumbers;
use encoding::number_at;
use layout::{
    GRADE_OFFSET, MARK_SIZE, Mark, PLAN_SIZE, PREREQUISITE_OFFSET, Place, RECOVERABLE_OFFSET,
    REDESIGNATION_SIZE, UNIT_SIZE, mark_at, plan_of, sample_unit_at,
};
use outcome::{Ground, Refusal};
use units::{CLASSES, Plan, SampleUnit};

// The mark of a plan.
const PLAN_MARK: u16 = 0x504c;

// The largest S, T, L and count, and the most units, of a sheet.
const LARGEST_PLAN_NUMBER: u16 = 9999;

pub const LARGEST_COUNT: u16 = 2000;

pub const MOST_UNITS: usize = 1000;

// A sheet that passes: how many records it has behind its plan, and how many of them are units.
#[derive(Clone, Copy, Debug, PartialEq, Eq)]
pub struct Checked {
    pub records: usize,
    pub units: usize,
}

// Tests of a plan and of a unit are joined by `|`, and folded over a list: without branches, as most sheets pass. `||` and `any` cost a
// short sheet up to 15 percent.
#[tactic(auto, unfolding(crate::specs::Refusals::too_large))]
fn too_large(numbers: PlanNumbers) -> bool
    ensures { result ≡ too_large numbers }
{
    (LARGEST_PLAN_NUMBER < numbers.start)
        | ((LARGEST_PLAN_NUMBER < numbers.tolerance) | (LARGEST_PLAN_NUMBER < numbers.limit))
}

// Whether T or T+L is smaller at the lower grade than at the better one.
#[tactic(auto, unfolding(crate::specs::Refusals::smaller))]
fn is_smaller(better: PlanNumbers, lower: PlanNumbers) -> bool
    ensures { result ≡ smaller better lower }
{
    let at_lower = u32::from(lower.tolerance) + u32::from(lower.limit);
    let at_better = u32::from(better.tolerance) + u32::from(better.limit);
    (lower.tolerance < better.tolerance) | (at_lower < at_better)
}

// The same in a class: at B than at A, or at C than at B.
fn smaller_in_class(plan: Plan, class: usize) -> bool
    requires { class < length classes }
    ensures { result ≡ smaller_in_class plan class }
{
    let at_a = plan.numbers[class];
    let at_b = plan.numbers[CLASSES + class];
    let at_c = plan.numbers[2 * CLASSES + class];
    is_smaller(at_a, at_b) | is_smaller(at_b, at_c)
}

fn check_table(plan: Plan) -> Result<(), Ground>
    ensures { refusal_number result ≡ table_refusal plan }
{
    let numbers = plan.numbers.iter();
    if numbers.fold(false, |found, cell| found | too_large(*cell)) {
        return Err(Ground::PlanNumberTooLarge);
    }
    let numbers = plan.numbers.iter();
    if numbers.fold(false, |found, cell| found | (cell.limit < cell.start)) {
        return Err(Ground::StartAboveLimit);
    }
    if (0..CLASSES).fold(false, |found, class| found | smaller_in_class(plan, class)) {
        return Err(Ground::SmallerAtLowerGrade);
    }
    Ok(())
}

// The first ground that the plan of a sheet meets, if any.
#[tactic(auto, using(std::proofs::lemmas::Bool::Decides::nat_tests), unfolding(crate::specs::Refusals::plan_refusal, crate::specs::Refusals::no_plan_record, crate::specs::Refusals::refused_if))]
pub fn check_plan(bytes: &[u8]) -> Result<(), Ground>
    ensures { refusal_number result ≡ plan_refusal bytes.now }
{
    if bytes.len() < PLAN_SIZE || number_at(bytes, 0) != PLAN_MARK {
        return Err(Ground::NoPlan);
    }
    if 2 < bytes[GRADE_OFFSET] {
        return Err(Ground::BadDesignatedGrade);
    }
    check_table(plan_of(bytes))
}

#[tactic(auto, unfolding(crate::specs::Refusals::count_too_large))]
fn count_too_large(unit: SampleUnit) -> bool
    ensures { result ≡ count_too_large unit }
{
    (LARGEST_COUNT < unit.critical.0)
        | ((LARGEST_COUNT < unit.severe.0)
            | ((LARGEST_COUNT < unit.major.0) | (LARGEST_COUNT < unit.minor.0)))
}

#[tactic(auto, using(std::proofs::lemmas::Bool::Decides::nat_tests), unfolding(crate::specs::Refusals::unit_refusal, crate::specs::Refusals::refused_if))]
fn check_unit(bytes: &[u8], at: usize, units: usize) -> Result<(), Ground>
    requires { at ≤ length bytes.now }
    ensures { refusal_number result ≡ unit_refusal bytes.now at units }
{
    if bytes.len() - at < UNIT_SIZE {
        return Err(Ground::CutShort);
    }
    if MOST_UNITS <= units {
        return Err(Ground::TooManyUnits);
    }
    if count_too_large(sample_unit_at(bytes, at)) {
        return Err(Ground::CountTooLarge);
    }
    if (3 < bytes[at + PREREQUISITE_OFFSET]) | (1 < bytes[at + RECOVERABLE_OFFSET]) {
        return Err(Ground::BadUnitField);
    }
    Ok(())
}

#[tactic(auto, using(std::proofs::lemmas::Bool::Decides::nat_tests), unfolding(crate::specs::Refusals::redesignation_refusal, crate::specs::Refusals::refused_if))]
fn check_redesignation(bytes: &[u8], at: usize, designated: u8) -> Result<(), Ground>
    requires { at ≤ length bytes.now }
    ensures { refusal_number result ≡ redesignation_refusal bytes.now at designated }
{
    if bytes.len() - at < REDESIGNATION_SIZE {
        return Err(Ground::CutShort);
    }
    let new = bytes[at + GRADE_OFFSET];
    if 2 < new {
        return Err(Ground::BadNewGrade);
    }
    if new == designated {
        return Err(Ground::SameGrade);
    }
    Ok(())
}

// The first ground that the record at a place meets, by its mark, if any.
#[tactic(auto, unfolding(crate::specs::Refusals::refusal_by))]
fn check_record(
    bytes: &[u8],
    place: Place,
    designated: u8,
    mark: Option<Mark>,
) -> Result<(), Ground>
    requires { place.at ≤ length bytes.now }
    ensures { refusal_number result ≡ refusal_by bytes.now place.at place.units designated mark }
{
    match mark {
        Some(Mark::UnitMark) => check_unit(bytes, place.at, place.units),
        Some(Mark::RedesignationMark) => check_redesignation(bytes, place.at, designated),
        Some(Mark::BreakMark) => Ok(()),
        None => Err(Ground::UnknownMark),
    }
}

// The grade designated behind the record at an offset, which has its mark and is whole.
#[tactic(auto, unfolding(units::specs::Records::designated_by, layout::specs::Layout::size_of, layout::specs::Layout::entry_of))]
fn designated_after(bytes: &[u8], at: usize, mark: Option<Mark>, designated: u8) -> u8
    requires { at + size_of mark ≤ length bytes.now }
    ensures { result ≡ designated_by designated (entry_of bytes.now at mark) }
{
    match mark {
        Some(Mark::RedesignationMark) => bytes[at + GRADE_OFFSET],
        _ => designated,
    }
}

// The records behind a plan, from left to right. A `while`, and no iterator over places: where the next record begins is known only once
// this one is not refused.
fn check_records(bytes: &[u8]) -> Result<Checked, Refusal>
    requires { plan_size ≤ length bytes.now }
    ensures { verdict_of result ≡ check_from bytes.now (length bytes.now) 0 }
{
    let mut place = Place::first();
    let mut designated = bytes[GRADE_OFFSET];
    while MARK_SIZE <= bytes.len() - place.at {
        let at = place.at;
        let mark = mark_at(bytes, at);
        check_record(bytes, place, designated, mark).map_err(|cause| cause.at(at))?;
        designated = designated_after(bytes, at, mark, designated);
        place = place.past(mark);
    }
    // One byte is left.
    if place.at < bytes.len() {
        return Err(Ground::UnknownMark.at(place.at));
    }
    Ok(Checked {
        records: place.index,
        units: place.units,
    })
}

// The check of a sheet for refusals 1 to 12.
pub fn check(bytes: &[u8]) -> Result<Checked, Refusal>
    ensures { verdict_of result ≡ verdict bytes.now }
{
    check_plan(bytes).map_err(|cause| cause.at(0))?;
    check_records(bytes)
}
