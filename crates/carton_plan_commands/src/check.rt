use carton_base::OutOfMemory;
use carton_check::{Checked, check};
use carton_setup::{Command, Proposal, Refusal, Told, checked_text};
use std::alloc::Global;

/// `check`: whether a plan does what a task asks and keeps the panels apart, or its first fault.
#[derive(Clone, Copy, Drop)]
pub struct CheckCommand;

impl Command for CheckCommand {
    type Given = Proposal;

    type Found = Checked;

    ghost use Rattle.std.specs.Prelude.{⊤};
    ghost use Rattle.carton_plan_commands.specs.Check.{IsCheckOf, told_check};
    ghost use Rattle.carton_setup.specs.Outcomes.{values};

    ghost finds = { λ c p. values (IsCheckOf p) };

    ghost is_tellable = { λ checked. ⊤ };

    ghost told = { λ c p checked. told_check p.setup.task.stride checked };

    fn find(&self, _alloc: Global, given: &Proposal) -> Result<Checked, Refusal> {
        let Proposal { setup, plan } = given;
        Ok(check(&setup.carton, &setup.task, plan))
    }

    fn tell(&self, alloc: Global, given: &Proposal, found: Checked) -> Result<Told, OutOfMemory> {
        let text = checked_text(alloc, given.setup.task.stride, found)?.into_bytes();
        match found {
            Checked::Holds(_) => Ok(Told::done(text)),
            Checked::WrongCreases
            | Checked::WrongStart
            | Checked::WrongEnd
            | Checked::NotOneStop(_)
            | Checked::Blocked { .. } => Ok(Told::denied(text)),
        }
    }
}
