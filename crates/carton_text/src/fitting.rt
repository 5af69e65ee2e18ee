ghost use Rattle.std.specs.Prelude.{◌≡◌, ◌≤◌, length, map, IfOk};
ghost use Rattle.carton_base.specs.Steps.{Gives};
ghost use Rattle.carton_base.specs.declared.limits.TheConstants.{MOST_JOINTS};
ghost use Rattle.carton_model.specs.Dielines.{IsDieline};
ghost use Rattle.carton_text.specs.JobRules.{IsJob};
ghost use Rattle.carton_text.specs.TaskRules.{IsTask};
ghost use Rattle.carton_text.specs.Tasks.{stop_at as stop_at_in, all_stops as all_stops_in, outline};
ghost use Rattle.carton_text.specs.Tasks.{outline_of, task_of};

use crate::course::Course;
use crate::courses::courses;
use crate::job::Job;
use crate::job_error::JobError;
use crate::strangers::only_joints;
use crate::task::Task;
use crate::teams::teams;
use carton_base::{EdgeId, Listed, MOST_JOINTS, RawDieline, State};
use std::alloc::{AllocError, Global};

fn stop_at(stops: &[i8], place: usize) -> i8
    ensures { result ≡ stop_at_in stops.now place }
{
    match stops.get(place) {
        Some(stop) => *stop,
        None => 0,
    }
}

/// The stops of a state: these, and 0 in the places past them.
pub fn all_stops(stops: &[i8]) -> [i8; MOST_JOINTS]
    ensures { result ≡ all_stops_in stops.now }
{
    let mut all = [0; MOST_JOINTS];
    for place in 0..MOST_JOINTS {
        all[place] = stop_at(stops, place);
    }
    all
}

fn start_stops(alloc: Global, courses: &[Course]) -> Result<Vec<i8>, AllocError>
    ensures { IfOk result (λ v. v.items ≡ map (λ c. c.start.0) courses.now) }
{
    courses.iter().map(|course| course.start.0).collect(alloc)
}

fn target_stops(alloc: Global, courses: &[Course]) -> Result<Vec<i8>, AllocError>
    ensures { IfOk result (λ v. v.items ≡ map (λ c. c.target.0) courses.now) }
{
    courses.iter().map(|course| course.target.0).collect(alloc)
}

fn copied(alloc: Global, edges: &[EdgeId]) -> Result<Vec<EdgeId>, AllocError>
    ensures { IfOk result (λ v. v.items ≡ edges.now) }
{
    edges.iter().copied().collect(alloc)
}

fn made(alloc: Global, creases: &[EdgeId], raw: &RawDieline, job: &Job) -> Result<Task, JobError>
    requires few { length creases.now ≤ MOST_JOINTS }
    requires dieline { IsDieline raw.now }
    requires job { IsJob job.now }
    ensures { Gives JobError.Memory outline result (outline_of creases.now raw.now.angles job.now) }
{
    if job.from_file && raw.angles.is_none() {
        return Err(JobError::NoAngles);
    }
    let courses = courses(alloc, job, raw, creases)?;
    let teams = teams(alloc, &courses, job.teams.as_slice())?;
    let starts = start_stops(alloc, &courses)?;
    let targets = target_stops(alloc, &courses)?;
    let creases = copied(alloc, creases)?;
    Ok(Task {
        creases: Listed::from_vec(creases),
        start: State {
            stops: all_stops(&starts),
            grid: job.grid,
        },
        target: State {
            stops: all_stops(&targets),
            grid: job.grid,
        },
        teams,
        slack: job.slack,
        turns: job.turns,
        stride: job.stride,
    })
}

/// The task of a job on a carton that has these free joints, in the order of their edges, and these
/// locked ones.
///
/// # Errors
///
/// The first rule by which the job doesn't fit, or `Memory`.
#[tactic(auto, unfolding(crate::specs::Tasks::task_of))]
pub fn fitted(
    alloc: Global,
    creases: &[EdgeId],
    locked: &[EdgeId],
    raw: &RawDieline,
    job: &Job,
) -> Result<Task, JobError>
    requires few { length creases.now ≤ MOST_JOINTS }
    requires dieline { IsDieline raw.now }
    requires job { IsJob job.now }
    ensures fits { Gives JobError.Memory outline result
        (task_of creases.now locked.now raw.now.angles job.now) }
    ensures keeps_rules { IfOk result IsTask }
{
    only_joints(creases, locked, job)?;
    made(alloc, creases, raw, job)
}
