ghost use Rattle.std.specs.Prelude.{◌≡◌, ◌<◌, ◌≤◌, ℕ, length, All, IfSome};
ghost use Rattle.std.specs.List.{list_any};
ghost use Rattle.carton_base.specs.declared.limits.TheConstants.{MOST_JOINTS, WIDEST_STEP};
ghost use Rattle.carton_model.specs.Moves.{stop_of, IsStop};
ghost use Rattle.carton_text.specs.TaskRules.{IsTask};
ghost use Rattle.carton_steps.specs.Steps.{toward as toward_in, is_away as is_away_in, stop_after};
ghost use Rattle.carton_steps.specs.Steps.{moved as moved_in, members_of, goal_of, next_of, IsStateOf};
ghost use Rattle.carton_steps.specs.Steps.{IsMove};

use carton_base::State;
use carton_text::Task;

// A stop after one step towards a goal. No grid has stops past those of the grid of 16.
fn toward(stride: u8, goal: i8, stop: i8) -> i8
    requires stride { stride ≤ WIDEST_STEP }
    requires goal { IsStop 16 goal }
    requires stop { IsStop 16 stop }
    ensures { result ≡ toward_in stride goal stop }
{
    let most = stride as i8;
    stop + (goal - stop).clamp(-most, most)
}

// The stop of the joint at a place after one step towards its goal.
fn stop_toward(stride: u8, goal: &State, at: &State, place: u8) -> i8
    requires stride { stride ≤ WIDEST_STEP }
    requires place { place < MOST_JOINTS }
    requires goal { IsStop 16 (stop_of goal.now place) }
    requires at { IsStop 16 (stop_of at.now place) }
    ensures { result ≡ toward_in stride (stop_of goal.now place) (stop_of at.now place) }
{
    let k = usize::from(place);
    toward(stride, goal.stops[k], at.stops[k])
}

// Whether the joint isn't at its goal.
fn is_away(goal: &State, at: &State, place: u8) -> bool
    requires { place < MOST_JOINTS }
    ensures { result ≡ is_away_in goal.now at.now place }
{
    let k = usize::from(place);
    at.stops[k] != goal.stops[k]
}

// Whether one of the members isn't at its goal.
fn is_one_away(goal: &State, at: &State, members: &[u8]) -> bool
    requires { All (λ k. k < MOST_JOINTS) members.now }
    ensures { result ≡ list_any (is_away_in goal.now at.now) members.now }
{
    members.iter().any(|place| is_away(goal, at, *place))
}

// The state after a step of the members.
fn moved(stride: u8, members: &[u8], goal: &State, at: &State) -> State
    requires stride { stride ≤ WIDEST_STEP }
    requires members { All (λ k. k < MOST_JOINTS) members.now }
    requires goal { (k : ℕ) → k < MOST_JOINTS → IsStop 16 (stop_of goal.now k) }
    requires at { (k : ℕ) → k < MOST_JOINTS → IsStop 16 (stop_of at.now k) }
    ensures { result ≡ moved_in stride members.now goal.now at.now }
{
    let mut stops = at.stops;
    for place in members {
        stops[usize::from(*place)] = stop_toward(stride, goal, at, *place);
    }
    State {
        stops,
        grid: at.grid,
    }
}

fn members(task: &Task, team: u8) -> &[u8]
    requires rules { IsTask task.now }
    requires team { team < length task.now.teams }
    ensures value { result.now ≡ members_of task.now team }
    ensures within { All (λ k. k < MOST_JOINTS) result.now }
{
    task.teams.as_slice()[usize::from(team)].places.as_slice()
}

fn goal(task: &Task, forward: bool) -> &State
    ensures { result.now ≡ goal_of task.now forward }
{
    if forward { &task.target } else { &task.start }
}

/// The grid step of a team from this state, towards the target where `forward` and else towards the
/// start: each member goes by the task's stride, or by its distance where that is less, and all other
/// joints stay. None where no member moves.
#[tactic(auto, unfolding(crate::specs::Steps::next_of))]
pub fn next_state(task: &Task, at: &State, team: u8, forward: bool) -> Option<State>
    requires rules { IsTask task.now }
    requires at { IsStateOf task.now at.now }
    requires team { team < length task.now.teams }
    ensures value { result ≡ next_of task.now at.now team forward }
    ensures is_move { IfSome result (IsMove (length task.now.creases) at.now) }
{
    let members = members(task, team);
    let goal = goal(task, forward);
    if !is_one_away(goal, at, members) {
        return None;
    }
    Some(moved(task.stride, members, goal, at))
}
