ghost use Rattle.std.specs.Prelude.{IfSome};
ghost use Rattle.carton_text.specs.TaskRules.{IsTask};
ghost use Rattle.carton_steps.specs.Steps.{IsStateOf};

use carton_base::{EdgeId, State};
use carton_cases::dielines::BARE_TRAY;
use carton_cases::files_of;
use carton_steps::{estimate, next_state};
use carton_text::{Task, fitted};
use std::alloc::Global;

// Two teams with a stride of three: edges 0 and 2, and edge 1.
const JOB: &str =
    "carton job 2 16 3\nstart 0 -2\ntarget 0 5\ntarget 1 -7\ntarget 2 1\nteam 0 2\nend\n";

const FOUR: [EdgeId; 4] = [EdgeId(0), EdgeId(1), EdgeId(2), EdgeId(3)];

fn task(alloc: Global) -> Option<Task>
    ensures { IfSome result IsTask }
{
    let files = files_of(alloc, BARE_TRAY.as_bytes(), JOB.as_bytes())?;
    fitted(alloc, &FOUR, &[], &files.dieline, &files.job).ok()
}

fn step(task: &Task, at: &State, team: u8, forward: bool) -> Option<State>
    requires rules { IsTask task.now }
    requires at { IsStateOf task.now at.now }
    ensures { IfSome result (IsStateOf task.now) }
{
    if usize::from(team) >= task.teams.len() {
        return None;
    }
    next_state(task, at, team, forward)
}

#[test]
fn forward_until_the_target(rt: HostRuntime) {
    let Some(task) = task(rt.alloc()) else {
        panic!(rt; "a task");
    };
    let Some(one) = step(&task, &task.start, 0, true) else {
        panic!(rt; "a step");
    };
    assert!(rt; one.stops[..4] == [1, 0, 1, 0]);
    let Some(two) = step(&task, &one, 0, true) else {
        panic!(rt; "a second step");
    };
    assert!(rt; two.stops[..4] == [4, 0, 1, 0]);
    let Some(three) = step(&task, &two, 0, true) else {
        panic!(rt; "a third step");
    };
    assert!(rt; three.stops[..4] == [5, 0, 1, 0]);
    assert!(rt; step(&task, &three, 0, true).is_none());
}

#[test]
fn back_until_the_start(rt: HostRuntime) {
    let Some(task) = task(rt.alloc()) else {
        panic!(rt; "a task");
    };
    assert!(rt; step(&task, &task.start, 1, false).is_none());
    let Some(one) = step(&task, &task.target, 1, false) else {
        panic!(rt; "a step");
    };
    assert!(rt; one.stops[..4] == [5, -4, 1, 0]);
    let Some(two) = step(&task, &one, 0, false) else {
        panic!(rt; "a second step");
    };
    assert!(rt; two.stops[..4] == [2, -4, 0, 0]);
}

#[test]
fn estimates(rt: HostRuntime) {
    let Some(task) = task(rt.alloc()) else {
        panic!(rt; "a task");
    };
    assert!(rt; estimate(&task, &task.start) == 6);
    assert!(rt; estimate(&task, &task.target) == 0);
    let mut stops = [0; 24];
    stops[0] = 32;
    stops[3] = -32;
    assert!(rt; estimate(&task, &State { stops, grid: 16 }) == 12);
}
