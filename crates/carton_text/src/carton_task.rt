ghost use Rattle.std.specs.Prelude.{◌≡◌, ◌++◌, IfOk, OnOk};
ghost use Rattle.carton_base.specs.Steps.{Gives};
ghost use Rattle.carton_model.specs.Dielines.{IsDieline};
ghost use Rattle.carton_text.specs.JobRules.{IsJob};
ghost use Rattle.carton_text.specs.TaskRules.{IsTask};
ghost use Rattle.carton_text.specs.Tasks.{outline};
ghost use Rattle.carton_text.specs.CartonTasks.{given, locked_edge as locked_edge_in};
ghost use Rattle.carton_text.specs.CartonTasks.{locked_joints as locked_joints_in, task_for};

use crate::fitting::fitted;
use crate::job::Job;
use crate::job_error::JobError;
use crate::task::Task;
use carton_base::{EdgeId, PanelId, RawDieline};
use carton_tree::{Carton, Joint};
use std::alloc::{AllocError, Global};

fn locked_edge(joint: Option<Joint>) -> Option<EdgeId>
    ensures { result ≡ locked_edge_in joint }
{
    match joint {
        Some(joint) if joint.turn.place.is_none() => Some(joint.edge),
        _ => None,
    }
}

// Adds an edge, if there is one.
fn add(found: &mut Vec<EdgeId>, edge: Option<EdgeId>) -> Result<(), AllocError>
    ensures { OnOk result (found.new.items ≡ found.old.items ++ given edge) }
{
    match edge {
        Some(edge) => Ok(found.push(edge)?),
        None => Ok(()),
    }
}

fn locked_joints(alloc: Global, carton: &Carton) -> Result<Vec<EdgeId>, AllocError>
    ensures { IfOk result (λ v. v.items ≡ locked_joints_in carton.now) }
{
    let mut found = Vec::new(alloc);
    for panel in 0..carton.panels() {
        add(&mut found, locked_edge(carton.joint(PanelId(panel))))?;
    }
    Ok(found)
}

/// The task of a job on the carton of this dieline.
///
/// # Errors
///
/// The first rule by which the job doesn't fit, or `Memory`.
pub fn job_for(
    alloc: Global,
    carton: &Carton,
    raw: &RawDieline,
    job: &Job,
) -> Result<Task, JobError>
    requires dieline { IsDieline raw.now }
    requires job { IsJob job.now }
    ensures fits { Gives JobError.Memory outline result (task_for carton.now raw.now job.now) }
    ensures keeps_rules { IfOk result IsTask }
{
    let locked = locked_joints(alloc, carton)?;
    fitted(alloc, carton.creases(), &locked, raw, job)
}
