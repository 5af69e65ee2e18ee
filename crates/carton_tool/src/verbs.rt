ghost use Rattle.std.specs.Prelude.{ℕ, List};
ghost use Rattle.carton_setup.specs.Outcomes.{IsOutcome};
ghost use Rattle.carton_tool.specs.Answers.{tells};
ghost use Rattle.carton_words.specs.Asked.{asked};
ghost use Rattle.carton_words.specs.Commands.{IsCommand};

use carton_base::Listed;
use carton_fixture_commands::{FixtureCommand, VerifyCommand};
use carton_plan_commands::{
    CheckCommand, ClearanceCommand, FlatCommand, MakeCommand, PlanCommand, PoseCommand,
};
use carton_setup::{Refusal, Told};
use carton_words::{Asked, Verb};
use std::alloc::Global;

/// What a command tells for the bytes of its files, which stand in the order of reading.
pub fn tell(alloc: Global, command: &Asked<'_>, files: &[Listed<u8>]) -> Result<Told, Refusal>
    requires { (words : List (List ℕ)) × IsCommand words (asked command.now) }
    ensures { IsOutcome (tells (asked command.now) files.now) result }
{
    match command.verb {
        Verb::Flat => {
            let margin = command.margin();
            carton_setup::tell(alloc, &FlatCommand { margin }, files)
        }
        Verb::Pose => carton_setup::tell(alloc, &PoseCommand { end: command.end() }, files),
        Verb::Plan => carton_setup::tell(alloc, &PlanCommand, files),
        Verb::Check => carton_setup::tell(alloc, &CheckCommand, files),
        Verb::Clearance => carton_setup::tell(alloc, &ClearanceCommand, files),
        Verb::Make => {
            let count = command.count();
            carton_setup::tell(alloc, &MakeCommand { count }, files)
        }
        Verb::Fixture => carton_setup::tell(alloc, &FixtureCommand, files),
        Verb::Verify => carton_setup::tell(alloc, &VerifyCommand, files),
    }
}
