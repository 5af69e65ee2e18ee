ghost use Rattle.std.specs.Prelude.{◌≤◌, length};
ghost use Rattle.carton_base.specs.declared.limits.TheConstants.{MOST_JOINTS};

use carton_base::{EdgeId, Listed, PanelId, State};
use carton_cases::dielines::{BARE_TRAY, FOLDED_TRAY, LOCKED_TRAY};
use carton_cases::{files_of, wrongly_told};
use carton_text::JobError::{
    AngleNotExact, EmptyTeam, LockedEdge, NoAngles, NotAJoint, TooManyTeams,
};
use carton_text::{JobError, Task, Team, fitted, job_for};
use carton_tree::tree;
use std::alloc::{AllocError, Global};

const FOUR: [EdgeId; 4] = [EdgeId(0), EdgeId(1), EdgeId(2), EdgeId(3)];

const THREE: [EdgeId; 3] = [EdgeId(0), EdgeId(1), EdgeId(3)];

const LOCKED: [EdgeId; 1] = [EdgeId(2)];

const THIRTEEN: [EdgeId; 13] = [
    EdgeId(0),
    EdgeId(1),
    EdgeId(2),
    EdgeId(3),
    EdgeId(4),
    EdgeId(5),
    EdgeId(6),
    EdgeId(7),
    EdgeId(8),
    EdgeId(9),
    EdgeId(10),
    EdgeId(11),
    EdgeId(12),
];

fn answer(
    alloc: Global,
    dieline: &str,
    job: &str,
    creases: &[EdgeId],
    locked: &[EdgeId],
) -> Option<Result<Task, JobError>>
    requires { length creases.now ≤ MOST_JOINTS }
{
    let files = files_of(alloc, dieline.as_bytes(), job.as_bytes())?;
    Some(fitted(alloc, creases, locked, &files.dieline, &files.job))
}

// Jobs that don't fit the tray without letters, by what is told of them.
const REFUSED: [(JobError, &[&str]); 8] = [
    (
        NotAJoint(EdgeId(4)),
        &[
            "carton job 1\nstart 4 0\nend\n",
            "carton job 1\ntarget 4 1\nend\n",
            "carton job 1\nteam 4\nend\n",
        ],
    ),
    (
        NotAJoint(EdgeId(2047)),
        &["carton job 1\nstart 2047 0\nend\n"],
    ),
    (
        NotAJoint(EdgeId(7)),
        &["carton job 1\nteam 5\ntarget 6 1\nstart 0 1\nstart 7 1\nstart 2 1\nend\n"],
    ),
    (
        LockedEdge(EdgeId(2)),
        &[
            "carton job 1\nteam 5\ntarget 2 1\nend\n",
            "carton job 1\ntargets fold\nteam 2\nend\n",
        ],
    ),
    (
        NoAngles,
        &[
            "carton job 1\ntargets fold\nteam 0\nend\n",
            "carton job 1\ntarget 0 1\ntarget 1 1\ntarget 3 1\ntargets fold\nend\n",
        ],
    ),
    (EmptyTeam(2), &["carton job 1\nteam 0\nend\n"]),
    (
        EmptyTeam(5),
        &["carton job 1\ntarget 0 1\n#\nteam 0 1\nteam 3\nend\n"],
    ),
    (
        EmptyTeam(4),
        &["carton job 1\nstart 0 -3\ntarget 0 -3\nteam 0\nend\n"],
    ),
];

fn refusal(alloc: Global, job: &str) -> Option<JobError> {
    match answer(alloc, BARE_TRAY, job, &THREE, &LOCKED) {
        Some(Err(refusal)) => Some(refusal),
        _ => None,
    }
}

#[test]
fn jobs_that_do_not_fit(rt: HostRuntime) {
    assert_eq!(rt; wrongly_told(rt.alloc(), refusal, &REFUSED), None);
}

#[test]
fn angles_and_too_many_teams(rt: HostRuntime) {
    let alloc = rt.alloc();
    let fold = "carton job 1\ntargets fold\nend\n";
    assert!(rt;
        answer(alloc, FOLDED_TRAY, fold, &FOUR, &[]) == Some(Err(AngleNotExact(EdgeId(2))))
    );
    let told = "carton job 1\ntargets fold\ntarget 2 5\nend\n";
    assert!(rt; answer(alloc, FOLDED_TRAY, told, &FOUR, &[]).is_some_and(|task| task.is_ok()));
    let many =
        "carton job 1\ntarget 0 1\ntarget 1 1\ntarget 2 1\ntarget 3 1\ntarget 4 1\ntarget 5 1\ntarget 6 1\ntarget 7 1\ntarget 8 1\ntarget 9 1\ntarget 10 1\ntarget 11 1\ntarget 12 1\nend\n";
    assert!(rt; answer(alloc, BARE_TRAY, many, &THIRTEEN, &[]) == Some(Err(TooManyTeams(13))));
    let twelve =
        "carton job 1\ntarget 0 1\ntarget 1 1\ntarget 2 1\ntarget 3 1\ntarget 4 1\ntarget 5 1\ntarget 6 1\ntarget 7 1\ntarget 8 1\ntarget 9 1\ntarget 10 1\ntarget 11 1\nend\n";
    assert!(rt; answer(alloc, BARE_TRAY, twelve, &THIRTEEN, &[]).is_some_and(|task| task.is_ok()));
}

fn team(alloc: Global, places: &[u8]) -> Result<Team, AllocError> {
    let mut found = Listed::new(alloc);
    for place in places {
        found.push(*place)?;
    }
    Ok(Team { places: found })
}

#[test]
fn a_task(rt: HostRuntime) -> Result<(), AllocError> {
    let alloc = rt.alloc();
    let job =
        "carton job 2 16 3\nslack 7\nturns 9\nstart 0 32\nstart 3 -1\ntarget 2 -5\ntargets fold\nteam 2 3\nend\n";
    let mut creases = Listed::new(alloc);
    for edge in FOUR {
        creases.push(edge)?;
    }
    let mut teams = Listed::new(alloc);
    teams.push(team(alloc, &[2, 3])?)?;
    teams.push(team(alloc, &[0])?)?;
    teams.push(team(alloc, &[1])?)?;
    let mut start = [0; 24];
    start[0] = 32;
    start[3] = -1;
    let mut target = [0; 24];
    target[0] = 16;
    target[1] = -32;
    target[2] = -5;
    let wanted = Task {
        creases,
        start: State {
            stops: start,
            grid: 16,
        },
        target: State {
            stops: target,
            grid: 16,
        },
        teams,
        slack: 7,
        turns: 9,
        stride: 3,
    };
    assert!(rt; answer(alloc, FOLDED_TRAY, job, &FOUR, &[]) == Some(Ok(wanted)));
    Ok(())
}

// What is told of a job for the tray with a locked crease.
fn answer_of_carton(alloc: Global, job: &str) -> Option<Result<Task, JobError>> {
    let files = files_of(alloc, LOCKED_TRAY.as_bytes(), job.as_bytes())?;
    let Ok(carton) = tree(alloc, &files.dieline, 4, PanelId(0)) else {
        return None;
    };
    Some(job_for(alloc, &carton, &files.dieline, &files.job))
}

#[test]
fn tasks_of_a_carton(rt: HostRuntime) -> Result<(), AllocError> {
    let alloc = rt.alloc();
    let folds = "carton job 2 16 2\nstart 0 -3\ntarget 0 16\ntarget 3 8\nteam 3\nend\n";
    let Some(Ok(task)) = answer_of_carton(alloc, folds) else {
        panic!(rt; "a task");
    };
    assert!(rt; task.creases.as_slice() == [EdgeId(0), EdgeId(1), EdgeId(3)].as_slice());
    assert!(rt; task.start.grid == 16 && task.stride == 2);
    assert!(rt; task.start.stops[..4] == [-3, 0, 0, 0]);
    assert!(rt; task.target.stops[..4] == [16, 0, 8, 0]);
    let teams = task.teams.as_slice();
    assert!(rt; teams.len() == 2);
    assert!(rt; teams[0].places.as_slice() == [2].as_slice());
    assert!(rt; teams[1].places.as_slice() == [0].as_slice());

    let locked = answer_of_carton(alloc, "carton job 1\ntarget 2 8\nend\n");
    assert!(rt; matches!(locked, Some(Err(JobError::LockedEdge(EdgeId(2))))));
    let none = answer_of_carton(alloc, "carton job 1\ntarget 4 8\nend\n");
    assert!(rt; matches!(none, Some(Err(JobError::NotAJoint(EdgeId(4))))));
    Ok(())
}
