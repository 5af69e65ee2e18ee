use carton_base::{Listed, OutOfMemory};
use carton_setup::{Command, Ending, Refusal, Setup, Told};
use carton_text::pose_text;
use carton_words::End;
use std::alloc::Global;

/// `pose`: where the corners of all panels stand in the task's state at an end.
#[derive(Clone, Copy, Drop)]
pub struct PoseCommand {
    pub end: End,
}

impl Command for PoseCommand {
    type Given = Setup;

    type Found = Listed<u8>;

    ghost use Rattle.std.specs.Prelude.{⊤};
    ghost use Rattle.carton_plan_commands.specs.Pose.{IsPoseAt};
    ghost use Rattle.carton_setup.specs.Outcomes.{values};
    ghost use Rattle.carton_setup.specs.Telling.{done};

    ghost finds = { λ c s. values (IsPoseAt c.end s) };

    ghost is_tellable = { λ text. ⊤ };

    ghost told = { λ c s text. done text };

    fn find(&self, alloc: Global, given: &Setup) -> Result<Listed<u8>, Refusal> {
        let text = pose_text(alloc, &given.carton, given.state(self.end))?;
        Ok(Listed::from_vec(text))
    }

    fn tell(&self, _alloc: Global, _given: &Setup, found: Listed<u8>) -> Result<Told, OutOfMemory> {
        Ok(Told {
            text: found,
            ending: Ending::Done,
        })
    }
}
