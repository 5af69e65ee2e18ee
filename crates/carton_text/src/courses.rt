ghost use Rattle.std.specs.Prelude.{◌≡◌, ◌≤◌, length, unsigned_abs, IfOk};
ghost use Rattle.carton_base.specs.Grid.{IsGrid};
ghost use Rattle.carton_base.specs.Steps.{Gives, entries_from};
ghost use Rattle.carton_model.specs.Dielines.{IsDieline};
ghost use Rattle.carton_text.specs.JobRules.{IsJob};
ghost use Rattle.carton_text.specs.Tasks.{stop_set as stop_set_in, on_grid as on_grid_in};
ghost use Rattle.carton_text.specs.Tasks.{file_stop as file_stop_in, target_unset as target_unset_in};
ghost use Rattle.carton_text.specs.Tasks.{target_or, course_of};

use crate::course::Course;
use crate::job::{Job, Setting};
use crate::job_error::JobError;
use carton_base::{EdgeId, RawDieline, Stop};
use std::alloc::Global;

const FLAT: Stop = Stop(0);

// The stop that one of the settings gives the edge.
fn stop_set(settings: &[Setting], edge: EdgeId) -> Option<Stop>
    ensures { result ≡ stop_set_in settings.now edge }
{
    for setting in settings {
        if setting.edge == edge {
            return Some(setting.stop);
        }
    }
    None
}

// A stop of eight to a right angle, on a grid.
fn on_grid(grid: u8, stop: Stop) -> Stop
    requires grid { IsGrid grid }
    requires stop { unsigned_abs stop.0 ≤ 16 }
    ensures { result ≡ on_grid_in grid stop }
{
    Stop(stop.0 * (grid / 8) as i8)
}

// The stop that the file's angle of the edge has.
fn file_stop(grid: u8, raw: &RawDieline, edge: EdgeId) -> Option<Stop>
    requires grid { IsGrid grid }
    requires dieline { IsDieline raw.now }
    ensures { result ≡ file_stop_in grid raw.now.angles edge }
{
    let angles = match &raw.angles {
        Some(angles) => angles.as_slice(),
        None => return None,
    };
    match angles.get(usize::from(edge.0)) {
        Some(Some(stop)) => Some(on_grid(grid, *stop)),
        _ => None,
    }
}

// Where a joint goes that no target line names.
fn target_unset(job: &Job, raw: &RawDieline, edge: EdgeId) -> Result<Stop, JobError>
    requires job { IsJob job.now }
    requires dieline { IsDieline raw.now }
    ensures { result ≡ target_unset_in job.now raw.now.angles edge }
{
    if job.from_file {
        file_stop(job.grid, raw, edge).ok_or(JobError::AngleNotExact(edge))
    } else {
        Ok(FLAT)
    }
}

fn target(job: &Job, raw: &RawDieline, edge: EdgeId) -> Result<Stop, JobError>
    requires job { IsJob job.now }
    requires dieline { IsDieline raw.now }
    ensures { result ≡ target_or (target_unset_in job.now raw.now.angles edge) (stop_set_in job.now.targets
        edge) }
{
    match stop_set(job.targets.as_slice(), edge) {
        Some(stop) => Ok(stop),
        None => target_unset(job, raw, edge),
    }
}

#[tactic(auto, unfolding(crate::specs::Tasks::course_of))]
fn course(job: &Job, raw: &RawDieline, edge: EdgeId) -> Result<Course, JobError>
    requires job { IsJob job.now }
    requires dieline { IsDieline raw.now }
    ensures { result ≡ course_of job.now raw.now.angles edge }
{
    let target = target(job, raw, edge)?;
    let start = stop_set(job.starts.as_slice(), edge).unwrap_or(FLAT);
    Ok(Course {
        edge,
        start,
        target,
    })
}

/// From where to where each of the free joints goes.
pub fn courses(
    alloc: Global,
    job: &Job,
    raw: &RawDieline,
    creases: &[EdgeId],
) -> Result<Vec<Course>, JobError>
    requires job { IsJob job.now }
    requires dieline { IsDieline raw.now }
    ensures value { Gives JobError.Memory (λ v. v.items) result
        (entries_from (λ i. course_of job.now raw.now.angles) 0 creases.now) }
    ensures count { IfOk result (λ v. length v.items ≡ length creases.now) }
{
    let mut found = Vec::new(alloc);
    for edge in creases {
        found.push(course(job, raw, *edge)?)?;
    }
    Ok(found)
}
