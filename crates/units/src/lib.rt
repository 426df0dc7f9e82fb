// Grading one sample unit under the plan of a grade: rules 1 to 4, and whether it qualifies.
#![tactic(auto)]

ghost use Rattle.std.specs.Prelude.{◌≡◌, ℕ, map, ◌+◌, ◌*◌, ◌<◌, length, get_or};
ghost use Rattle.cusum.specs.declared.PlanNumbers.{PlanNumbers};
ghost use Rattle.cusum.specs.Step.{step_of};
ghost use Rattle.units.specs.Words.{planned_grades, classes, in_class, zero_cusum, count_tenths, cell_of, table_of, no_row, row_of, tenths_of, worse};
ghost use Rattle.units.specs.Unit.{starting, stepped_in, stepped_under, none_above, admits, within_tolerance, all_zero, best_lower, qualifies};

use cusum::{Cusum, Defects, PlanNumbers, Stepped};
use std::array;

// Classes are critical, severe, major and total.
pub const CLASSES: usize = 4;

// Grades A, B and C, coded 0 to 2, have a plan; Substandard, coded 3, has none. Numbers and no enum, which would be no plainer: these
// codes stand in the bytes of sheets and results, and the paper, the definitions and the theorems compare them as numbers.
pub const GRADES: usize = 3;

pub const SUBSTANDARD: u8 = 3;

// The cells of a plan's table: a class of a grade.
pub const CELLS: usize = GRADES * CLASSES;

// The plan of a grade: S, T and L of each class.
pub type Row = [PlanNumbers; CLASSES];

// The plan is a table of three grades by four classes. An alias, and no struct whose methods take a grade: the definitions and theorems are
// over lists, and each would name a field first.
pub type Table = [Row; GRADES];

// A CuSum of each class.
pub type Cusums = [Cusum; CLASSES];

// An overshoot of each class, in tenths.
pub type Overshoots = [u64; CLASSES];

// The count of each class, in tenths. No struct with a row: `best_lower` holds the same counts against two rows, and `starts` takes a row
// alone.
type Tenths = [u32; CLASSES];

// The designated grade, and S, T and L of grades A, B, C, in each by class: flat, as they are read and checked. `table` has them by grade.
#[derive(Clone, Copy)]
pub struct Plan {
    pub designated: u8,
    pub numbers: [PlanNumbers; CELLS],
}

// A sample unit: production code, counts of defects, prerequisite grade; recoverable if its portion, the production that it stands
// for, is separately coded and within reach.
#[derive(Clone, Copy)]
pub struct SampleUnit {
    pub code: u16,
    pub critical: Defects,
    pub severe: Defects,
    pub major: Defects,
    pub minor: Defects,
    pub prerequisite: u8,
    pub recoverable: bool,
}

// A record of the sheet behind its plan.
#[derive(Clone, Copy)]
pub enum Entry {
    UnitRecord(SampleUnit),
    Redesignation(u8),
    Break,
}

// A unit graded under the plan of a grade: its new CuSums and overshoots, whether it fails, its defect grade. No `Option` by whether it
// fails: the other fields are recorded of every unit.
#[derive(Clone, Copy)]
pub struct Grading {
    pub cusums: Cusums,
    pub overshoots: Overshoots,
    pub fails: bool,
    pub grade: u8,
}

// The CuSums after a unit, how far over each class is, and whether a class fails. Two lists, and none of `Stepped`: the CuSums alone go
// on to the next unit, and a result record has them before the overshoots. No `Option`, for the reason of `Grading`, which has these fields
// again, flat, as the definitions name them.
#[derive(Clone, Copy)]
pub struct SteppedClasses {
    pub cusums: Cusums,
    pub overshoots: Overshoots,
    pub fails: bool,
}

impl Plan {
    // The cells as a table, row by row.
    pub fn table(self) -> Table
        ensures { result ≡ table_of self }
    {
        [self.row(0), self.row(1), self.row(2)]
    }

    // The row of a grade that has a plan.
    fn row(self, grade: usize) -> Row
        requires { grade < length planned_grades }
        ensures { result ≡ map (λ class. cell_of self (length classes * grade + class)) classes }
    {
        array::from_fn(|class| self.numbers[CLASSES * grade + class])
    }
}

// Zeros for every class. A function of its own: within `row_of` this array is kept in memory at each call.
fn no_row() -> Row
    ensures { result ≡ no_row }
{
    let none = PlanNumbers {
        start: 0,
        tolerance: 0,
        limit: 0,
    };
    [none; CLASSES]
}

// The plan of a grade; zeros where there is none, and no `Option`, as in the definitions, so that the rules speak of a row at every grade.
// Literal indices: a computed one copies the whole table at each call.
pub fn row_of(table: Table, grade: u8) -> Row
    ensures { result ≡ row_of table grade }
{
    match grade {
        0 => table[0],
        1 => table[1],
        2 => table[2],
        _ => no_row(),
    }
}

// The counts of a unit by class, in tenths; total is summed in tenths, too.
fn tenths_of(unit: SampleUnit) -> Tenths
    ensures { result ≡ tenths_of unit }
{
    let critical = unit.critical.tenths();
    let severe = unit.severe.tenths();
    let major = unit.major.tenths();
    let minor = unit.minor.tenths();
    [critical, severe, major, critical + severe + major + minor]
}

// The worse of two grades has the larger code.
pub fn worse_of(first: u8, second: u8) -> u8
    ensures { result ≡ worse first second }
{
    first.max(second)
}

// Every CuSum of a plan at its S.
#[tactic(auto, unfolding(crate::specs::Unit::starting))]
pub fn starts(row: Row) -> Cusums
    ensures { result ≡ starting row }
{
    row.map(Cusum::starting)
}

// Rule 2 in every class of a plan, one by one.
fn step_each(row: Row, cusums: Cusums, tenths: Tenths) -> [Stepped; CLASSES]
    ensures { result ≡ map (λ class. step_of (in_class row class) (get_or cusums class zero_cusum) (count_tenths tenths class)) classes }
{
    array::from_fn(|class| cusums[class].step(row[class], tenths[class]))
}

// Rule 2 in every class of a plan.
#[tactic(auto, unfolding(crate::specs::Unit::stepped_in, crate::specs::Conditions::any))]
pub fn step_classes(row: Row, cusums: Cusums, unit: SampleUnit) -> SteppedClasses
    ensures { result ≡ stepped_in row cusums (tenths_of unit) }
{
    let stepped = step_each(row, cusums, tenths_of(unit));
    SteppedClasses {
        cusums: stepped.map(|class| class.cusum),
        overshoots: stepped.map(|class| class.overshoot),
        fails: stepped
            .iter()
            .fold(false, |fails, class| fails | class.fails),
    }
}

// Under the plan of a grade; where there is none no class fails, and every CuSum and overshoot is zero.
#[tactic(auto, using(crate::proofs::Planned::stepped_under_holds, crate::proofs::Planned::stepped_under_none), unfolding(crate::specs::Words::has_plan))]
pub fn step_in_force(table: Table, grade: u8, cusums: Cusums, unit: SampleUnit) -> SteppedClasses
    ensures { result ≡ stepped_under table grade cusums (tenths_of unit) }
{
    if grade < SUBSTANDARD {
        return step_classes(row_of(table, grade), cusums, unit);
    }
    SteppedClasses {
        cusums: [Cusum::ZERO; CLASSES],
        overshoots: [0; CLASSES],
        fails: false,
    }
}

// Whether ten times a count is in no class above a bound, which goes by the class's S, T and L.
#[tactic(auto, unfolding(crate::specs::Unit::none_above, crate::specs::Conditions::all))]
fn none_above<F: Fn(PlanNumbers) -> u64>(bound: F, row: Row, tenths: Tenths) -> bool
    requires { F.IsAlwaysCallable bound }
    ensures { (highest : PlanNumbers → ℕ)
        → ((numbers : PlanNumbers) (given : ℕ) → F.post bound numbers given → given ≡ highest numbers)
        → result ≡ none_above highest row tenths }
{
    row.iter()
        .zip(tenths.iter())
        .all(|(numbers, tenths)| u64::from(*tenths) <= bound(*numbers))
}

// Whether a plan admits the counts: T+L is not exceeded in any class.
#[tactic(auto, unfolding(crate::specs::Unit::admits))]
fn admits(row: Row, tenths: Tenths) -> bool
    ensures { result ≡ admits row tenths }
{
    none_above(
        |numbers| u64::from(numbers.tolerance) + u64::from(numbers.limit),
        row,
        tenths,
    )
}

// Whether no count exceeds the T of its class.
#[tactic(auto, unfolding(crate::specs::Unit::within_tolerance))]
fn within_tolerance(row: Row, tenths: Tenths) -> bool
    ensures { result ≡ within_tolerance row tenths }
{
    none_above(|numbers| u64::from(numbers.tolerance), row, tenths)
}

#[tactic(auto, unfolding(crate::specs::Unit::all_zero, crate::specs::Conditions::all))]
fn all_zero(cusums: Cusums) -> bool
    ensures { result ≡ all_zero cusums }
{
    cusums.iter().all(|cusum| cusum.tenths == 0)
}

// The best grade lower than this one that admits the counts; Substandard if none does. Not `find` over the grades: with it a sheet of
// which every second unit fails takes 5 percent more instructions.
#[tactic(auto, unfolding(crate::specs::Unit::best_lower))]
pub fn best_lower(table: Table, grade: u8, unit: SampleUnit) -> u8
    ensures { result ≡ best_lower table grade (tenths_of unit) }
{
    let tenths = tenths_of(unit);
    if (grade < 1) & admits(row_of(table, 1), tenths) {
        return 1;
    }
    if (grade < 2) & admits(row_of(table, 2), tenths) {
        return 2;
    }
    SUBSTANDARD
}

// Whether a unit with these new CuSums qualifies in step 3.
#[tactic(auto, unfolding(crate::specs::Unit::qualifies))]
pub fn qualifies_with(table: Table, designated: u8, cusums: Cusums, unit: SampleUnit) -> bool
    ensures { result ≡ qualifies table designated cusums (tenths_of unit) }
{
    let zero = all_zero(cusums);
    zero & within_tolerance(row_of(table, designated), tenths_of(unit))
}
