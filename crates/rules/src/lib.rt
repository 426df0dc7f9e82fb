// The rules of grading over the records of a sheet: step 3, redesignations, breaks.
#![tactic(auto)]

ghost use Rattle.std.specs.Prelude.{◌≡◌, if◌then◌else◌};
ghost use Rattle.rules.specs.declared.Phase.TheVariants.{StepThree};
ghost use Rattle.rules.specs.StepThree.{in_force_in, in_force, ends_step_three, with_unit, without_run, keeps_step_three, restarted, opening, after_unit, after_redesignation, after_break};
ghost use Rattle.rules.specs.Sheet.{standing_code, standing_of};

use units::{Cusums, Grading, Table, row_of, starts, worse_of};

// How a unit stands, by the code that its result record has: it met the designated plan, failed it, is in step 3 and not recovered, or is
// recovered.
#[derive(Clone, Copy, Debug, PartialEq, Eq)]
pub enum Standing {
    Met = 0,
    Failed = 1,
    InStepThree = 2,
    Recovered = 3,
}

// The designated plan is in force, or that of the lower grade in step 3, with the qualifying units in a row. An enum and no `Option`: it
// names two states of the paper, and has methods.
#[derive(Clone, Copy, Debug, PartialEq, Eq)]
pub enum Phase {
    Designated,
    StepThree { lower: u8, run: u8 },
}

// Where the grading stands before a record; `previous` is the defect grade of the unit just before, if that failed the plan in force:
// a unit that meets, a break, a redesignation and a restart forget it. Grades are numbers: the codes of the bytes, which the rules
// compare.
#[derive(Clone, Copy)]
pub struct State {
    pub designated: u8,
    pub previous: Option<u8>,
    pub phase: Phase,
    pub cusums: Cusums,
}

impl From<Standing> for u8 {
    ghost from_gives = { λ standing code. code ≡ standing_code standing };

    fn from(standing: Standing) -> u8 {
        standing as u8
    }
}

impl Phase {
    // Step 3 with no qualifying unit yet.
    fn step_three(lower: u8) -> Phase
        ensures { result ≡ StepThree lower 0 }
    {
        Phase::StepThree { lower, run: 0 }
    }

    // The grade of the plan in force, or 3 if there is none.
    #[tactic(auto, unfolding(crate::specs::StepThree::in_force_in))]
    fn in_force(self, designated: u8) -> u8
        ensures { result ≡ in_force_in designated self }
    {
        match self {
            Phase::Designated => designated,
            Phase::StepThree { lower, .. } => lower,
        }
    }

    // Whether step 3 ends at a unit.
    pub fn ends_step_three(self, qualifies: bool) -> bool
        ensures { result ≡ ends_step_three self qualifies }
    {
        self.with_unit(qualifies).is_none()
    }

    // Behind a unit at which no lower plan starts; none where step 3 ends.
    #[tactic(auto, unfolding(crate::specs::StepThree::ends_step_three, crate::specs::StepThree::with_unit))]
    fn with_unit(self, qualifies: bool) -> Option<Phase>
        ensures { result ≡ (if ends_step_three self qualifies then None else Some (with_unit self qualifies)) }
    {
        match self {
            Phase::Designated => Some(self),
            Phase::StepThree { run: 2.., .. } if qualifies => None,
            Phase::StepThree { lower, run } if qualifies => Some(Phase::StepThree {
                lower,
                run: run + 1,
            }),
            Phase::StepThree { lower, .. } => Some(Phase::step_three(lower)),
        }
    }

    // The run of qualifying units set to none.
    #[tactic(auto, unfolding(crate::specs::StepThree::without_run))]
    fn without_run(self) -> Phase
        ensures { result ≡ without_run self }
    {
        match self {
            Phase::Designated => self,
            Phase::StepThree { lower, .. } => Phase::step_three(lower),
        }
    }

    // Whether a redesignation keeps step 3.
    #[tactic(auto, unfolding(crate::specs::StepThree::keeps_step_three))]
    fn keeps_step_three(self, new: u8) -> bool
        ensures { result ≡ keeps_step_three self new }
    {
        matches!(self, Phase::StepThree { lower, .. } if new < lower)
    }

    #[tactic(auto, unfolding(crate::specs::Sheet::standing_of))]
    pub fn standing(self, fails: bool, recovered: bool) -> Standing
        ensures { standing_code result ≡ standing_of self fails recovered }
    {
        match self {
            _ if recovered => Standing::Recovered,
            Phase::StepThree { .. } => Standing::InStepThree,
            Phase::Designated if fails => Standing::Failed,
            Phase::Designated => Standing::Met,
        }
    }
}

impl State {
    // Every class of the plan then in force at its S, and a failure just before forgotten.
    #[tactic(auto, unfolding(crate::specs::StepThree::restarted))]
    fn restarting(table: Table, designated: u8, phase: Phase) -> State
        ensures { result ≡ restarted table designated phase }
    {
        State {
            designated,
            previous: None,
            phase,
            cusums: starts(row_of(table, phase.in_force(designated))),
        }
    }

    // The designated plan in force, every class at its S.
    pub fn opening(table: Table, designated: u8) -> State
        ensures { result ≡ opening table designated }
    {
        State::restarting(table, designated, Phase::Designated)
    }

    // The grade of the plan in force, or 3 if there is none.
    pub fn in_force(self) -> u8
        ensures { result ≡ in_force self }
    {
        self.phase.in_force(self.designated)
    }

    // The state after a unit that was graded in this state.
    #[tactic(auto, unfolding(crate::specs::StepThree::after_unit, crate::specs::StepThree::two_in_a_row, crate::specs::StepThree::worse_of_two, crate::specs::StepThree::failure_after, units::specs::Conditions::pick))]
    pub fn after_unit(self, table: Table, grading: Grading, qualifies: bool) -> State
        ensures { result ≡ after_unit table self grading qualifies }
    {
        let Some(phase) = self.phase.with_unit(qualifies) else {
            return State::opening(table, self.designated);
        };
        let cusums = grading.cusums;
        match self.previous {
            Some(earlier) if grading.fails => {
                let lower = worse_of(earlier, grading.grade);
                State::restarting(table, self.designated, Phase::step_three(lower))
            }
            _ => State {
                previous: grading.fails.then_some(grading.grade),
                phase,
                cusums,
                ..self
            },
        }
    }

    // The state after a redesignation.
    #[tactic(auto, unfolding(crate::specs::StepThree::after_redesignation, units::specs::Conditions::pick))]
    pub fn after_redesignation(self, table: Table, new: u8) -> State
        ensures { result ≡ after_redesignation table self new }
    {
        if self.phase.keeps_step_three(new) {
            State {
                designated: new,
                previous: None,
                phase: self.phase.without_run(),
                ..self
            }
        } else {
            State::opening(table, new)
        }
    }

    // The state after a break.
    #[tactic(auto, unfolding(crate::specs::StepThree::after_break))]
    pub fn after_break(self, table: Table) -> State
        ensures { result ≡ after_break table self }
    {
        State::restarting(table, self.designated, self.phase.without_run())
    }
}
