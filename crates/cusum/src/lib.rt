// Rules 1 and 2 of grading a unit: where a CuSum begins, and what a count, turned into tenths, makes of it.
#![tactic(auto)]

ghost use Rattle.std.specs.Prelude.{◌≡◌};
ghost use Rattle.cusum.specs.Counts.{ten_times, defect_tenths, field_tenths};
ghost use Rattle.cusum.specs.Step.{largest_tenths, start_of, step_of};

// A count of defects.
#[derive(Clone, Copy)]
pub struct Defects(pub u16);

// A count of defective fields, which are those that are positive for mold. A defective field is one however many defects it holds, so that
// the two counts are never added or compared: no function takes one for the other, and only in tenths do both go through rule 2.
#[derive(Clone, Copy)]
pub struct DefectiveFields(pub u8);

// S (start), T (tolerance) and L (acceptance limit) of a class in a plan, in tenths.
#[derive(Clone, Copy)]
pub struct PlanNumbers {
    pub start: u16,
    pub tolerance: u16,
    pub limit: u16,
}

// A cumulative sum, in tenths.
#[derive(Clone, Copy)]
pub struct Cusum {
    pub tenths: u32,
}

// What a unit makes of a CuSum: the new one, whether the class fails, and the overshoot, by how many tenths the raw value is above L.
// No `Option`: an overshoot is recorded as a number, zero where the class met.
#[derive(Clone, Copy)]
pub struct Stepped {
    pub cusum: Cusum,
    pub fails: bool,
    pub overshoot: u64,
}

// Ten times a number, for both counts: eight times and twice, by shifts and a sum, as a terminal may have no wide multiply.
fn ten_times(number: u16) -> u32
    ensures { result ≡ ten_times number }
{
    let wide = u32::from(number);
    (wide << 3) + (wide << 1)
}

impl Defects {
    // A defect is ten tenths.
    pub fn tenths(self) -> u32
        ensures { result ≡ defect_tenths self }
    {
        ten_times(self.0)
    }
}

impl DefectiveFields {
    // A field is ten tenths. No trait over both counts: no function takes one for the other.
    pub fn tenths(self) -> u32
        ensures { result ≡ field_tenths self }
    {
        ten_times(u16::from(self.0))
    }
}

impl Cusum {
    pub const ZERO: Cusum = Cusum { tenths: 0 };

    // The largest number of tenths that the two bytes of a CuSum hold in a result record.
    pub const LARGEST_TENTHS: u32 = 65535;

    // The largest CuSum that two bytes hold. No accepted plan leads to a larger one (theorem `cusums_fit`), so that nothing tests for it.
    pub fn largest() -> Cusum
        ensures { result.tenths ≡ largest_tenths }
    {
        Cusum {
            tenths: Cusum::LARGEST_TENTHS,
        }
    }

    // Every CuSum begins at the S of its own class and plan.
    pub fn starting(numbers: PlanNumbers) -> Cusum
        ensures { result ≡ start_of numbers }
    {
        Cusum {
            tenths: u32::from(numbers.start),
        }
    }

    // Rule 2: the CuSum after a unit with this count, in tenths, whether the class fails, and the overshoot. The CuSum is narrowed, by which
    // it is proved to lose nothing: it is at most L.
    #[tactic(auto, using(crate::proofs::Laws::step_is))]
    pub fn step(self, numbers: PlanNumbers, tenths: u32) -> Stepped
        ensures { result ≡ step_of numbers self tenths }
    {
        let sum = u64::from(self.tenths) + u64::from(tenths);
        let tolerance = u64::from(numbers.tolerance);
        let limit = u64::from(numbers.limit);
        let above = sum.saturating_sub(tolerance);
        Stepped {
            cusum: Cusum {
                tenths: above.min(limit) as u32,
            },
            fails: limit < above,
            overshoot: above.saturating_sub(limit),
        }
    }
}
