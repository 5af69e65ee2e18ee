ghost use Rattle.std.specs.Prelude.{IfOk};
ghost use Rattle.carton_setup.specs.Outcomes.{IsOutcome};
ghost use Rattle.carton_setup.specs.Proposals.{proposals, IsProposal};

use crate::refusal::Refusal;
use crate::setup::{Setup, plan_in, set_up};
use carton_base::Listed;
use carton_text::Plan;
use std::alloc::Global;

/// What a dieline, a job and a plan give: the carton and the task on it, and the plan, of which nothing
/// is known yet but that its text is one.
#[derive(Drop)]
pub struct Proposal {
    pub setup: Setup,
    pub plan: Plan,
}

/// What the bytes of the first three files, a dieline, a job and a plan, give. Faults are looked for in
/// the text of the plan after those of setting up.
pub fn proposal_from(alloc: Global, files: &[Listed<u8>]) -> Result<Proposal, Refusal>
    ensures proposes { IsOutcome (proposals files.now) result }
    ensures keeps_rules { IfOk result IsProposal }
{
    let setup = set_up(alloc, files)?;
    let plan = plan_in(alloc, files)?;
    Ok(Proposal { setup, plan })
}
