ghost use Rattle.std.specs.Prelude.{◌≡◌, IfOk};
ghost use Rattle.carton_lines.specs.Lines.{GivesLines};
ghost use Rattle.carton_text.specs.PlainPlans.{plain};
ghost use Rattle.carton_text.specs.PlanRules.{IsPlan};
ghost use Rattle.carton_text.specs.Plans.{plan_told, plan_of, HasOneSpelling};

use crate::grid::Grid;
use crate::plan::Plan;
use crate::plan_draft::PlanDraft;
use crate::plan_lines::{creases_told, grid_told};
use carton_lines::{Fault, LineError, LineText, read_strictly};
use std::alloc::Global;

/// What the lines of a plan have told before its end.
#[derive(Drop)]
pub enum PlanReading {
    /// The first line was read.
    Headed(Grid),
    /// The creases were read.
    Within(PlanDraft),
}

impl LineText for PlanReading {
    ghost use Rattle.carton_text.specs.Plans.{plan_lines};

    ghost grammar = { plan_lines };

    fn begin(_alloc: Global, line: &[u8]) -> Result<PlanReading, Fault> {
        Ok(PlanReading::Headed(grid_told(line)?))
    }

    fn take(self, alloc: Global, _number: u32, line: &[u8]) -> Result<PlanReading, Fault> {
        match self {
            PlanReading::Headed(grid) => {
                let creases = creases_told(alloc, line)?;
                Ok(PlanReading::Within(PlanDraft::new(alloc, grid, creases)))
            }
            PlanReading::Within(draft) => Ok(PlanReading::Within(draft.with_state(alloc, line)?)),
        }
    }

    fn may_end(&self) -> bool {
        match self {
            PlanReading::Headed(_) => false,
            PlanReading::Within(draft) => !draft.is_empty(),
        }
    }
}

impl PlanReading {
    fn told(self) -> Result<Plan, LineError>
        ensures { GivesLines plain result (plan_told self) }
    {
        match self {
            PlanReading::Headed(_) => Err(LineError::NoEnd),
            PlanReading::Within(draft) => Ok(draft.told()),
        }
    }
}

/// The plan of the bytes of a text.
///
/// # Errors
///
/// The fault of the first line that has one, `NoEnd`, or `Memory`.
#[tactic(auto, using(crate::proofs::OneSpelling::one_spelling), unfolding(crate::specs::Plans::plan_of))]
pub fn read_plan(alloc: Global, bytes: &[u8]) -> Result<Plan, LineError>
    ensures reads { GivesLines plain result (plan_of bytes.now) }
    ensures keeps_rules { IfOk result IsPlan }
    ensures one_spelling { HasOneSpelling bytes.now }
{
    read_strictly::<PlanReading>(alloc, bytes)?.told()
}
