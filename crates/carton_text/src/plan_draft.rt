ghost use Rattle.std.specs.Prelude.{◌≡◌, [], length, nat_eq};
ghost use Rattle.carton_lines.specs.Lines.{Gives};
ghost use Rattle.carton_text.specs.PlainPlans.{plain};
ghost use Rattle.carton_text.specs.Plans.{with_state as with_state_in};

use crate::fitting::all_stops;
use crate::grid::Grid;
use crate::plan::Plan;
use crate::plan_lines::stops_told;
use carton_base::{EdgeId, Listed, MOST_STATES, State};
use carton_lines::Fault;
use std::alloc::Global;
use std::marker::Model;

/// What the lines of a plan have told before its end.
#[derive(Drop)]
pub struct PlanDraft {
    grid: Grid,
    creases: Listed<EdgeId>,
    states: Listed<State>,
}

impl Model for PlanDraft {
    ghost use Rattle.std.specs.Prelude.{map};
    ghost use Rattle.carton_text.specs.PlainPlans.{PlanSoFar, plain_state};

    ghost Value = { PlanSoFar };

    ghost view = { λ d. record { grid = d.grid; creases = d.creases; states = map plain_state d.states } };
}

impl PlanDraft {
    /// A plan without states.
    pub fn new(alloc: Global, grid: Grid, creases: Listed<EdgeId>) -> PlanDraft
        ensures { result ≡ record { grid = grid; creases = creases; states = [] } }
    {
        PlanDraft {
            grid,
            creases,
            states: Listed::new(alloc),
        }
    }

    /// Whether no state was told.
    pub fn is_empty(&self) -> bool
        ensures { result ≡ nat_eq (length self.now.states) 0 }
    {
        self.states.len() == 0
    }

    /// The plan with one more state, which the line tells.
    #[tactic(auto, unfolding(crate::specs::Plans::with_state))]
    pub fn with_state(mut self, alloc: Global, line: &[u8]) -> Result<PlanDraft, Fault>
        ensures { Gives (λ d. d) result (with_state_in self line.now) }
    {
        let stops = stops_told(alloc, self.grid, self.creases.len(), line)?;
        if self.states.len() >= MOST_STATES {
            return Err(Fault::Range);
        }
        self.states.push(State {
            stops: all_stops(&stops),
            grid: self.grid.stops(),
        })?;
        Ok(self)
    }

    /// The plan that was told.
    pub fn told(self) -> Plan
        ensures { plain result ≡ record { creases = self.creases; states = self.states } }
    {
        Plan {
            creases: self.creases,
            states: self.states,
        }
    }
}
