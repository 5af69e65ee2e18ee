ghost use Rattle.std.specs.Prelude.{◌≡◌, ◌<◌, ◌≤◌, All};
ghost use Rattle.carton_base.specs.declared.limits.TheConstants.{MOST_JOINTS};
ghost use Rattle.carton_text.specs.TaskRules.{IsTask};
ghost use Rattle.carton_steps.specs.Estimates.{distance as distance_in, farthest as farthest_in};
ghost use Rattle.carton_steps.specs.Estimates.{steps_left as steps_left_in, estimate_of};

use carton_base::State;
use carton_text::{Task, Team};

fn distance(target: &State, at: &State, place: u8) -> u8
    requires { place < MOST_JOINTS }
    ensures { result ≡ distance_in target.now at.now place }
{
    let k = usize::from(place);
    target.stops[k].abs_diff(at.stops[k])
}

// The largest distance of a member.
fn farthest(target: &State, at: &State, members: &[u8]) -> u8
    requires { All (λ k. k < MOST_JOINTS) members.now }
    ensures { result ≡ farthest_in target.now at.now members.now }
{
    let mut most = 0;
    for place in members {
        most = most.max(distance(target, at, *place));
    }
    most
}

fn steps_left(task: &Task, at: &State, team: &Team) -> u8
    requires stride { 0 < task.now.stride }
    requires members { All (λ k. k < MOST_JOINTS) team.now.places }
    ensures { result ≡ steps_left_in task.now at.now team.now }
{
    farthest(&task.target, at, team.places.as_slice()).div_ceil(task.stride)
}

/// How many grid steps there are at least from this state to the target: the sum over the teams of the
/// largest distance of a member, divided by the stride and rounded up for each team by itself. The
/// state may have any stops.
#[tactic(auto, unfolding(crate::specs::Estimates::estimate_of))]
pub fn estimate(task: &Task, at: &State) -> u32
    requires { IsTask task.now }
    ensures value { result ≡ estimate_of task.now at.now }
    ensures capped { result ≤ 4095 }
{
    let mut sum = 0;
    for team in task.teams.as_slice() {
        sum += u32::from(steps_left(task, at, team));
    }
    sum
}
