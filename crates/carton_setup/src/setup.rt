ghost use Rattle.std.specs.Prelude.{◌≡◌, length, IfOk};
ghost use Rattle.carton_model.specs.Dielines.{IsDieline};
ghost use Rattle.carton_model.specs.Moves.{IsState};
ghost use Rattle.carton_text.specs.JobRules.{IsJob};
ghost use Rattle.carton_text.specs.PlanRules.{AreCreases, IsPlan};
ghost use Rattle.carton_text.specs.TaskRules.{IsTask};
ghost use Rattle.carton_tree.specs.Cartons.{IsCarton};
ghost use Rattle.carton_setup.specs.Outcomes.{IsOutcome};
ghost use Rattle.carton_setup.specs.Setups.{dielines, jobs, plans, cartons, tasks, setups, IsRight, state_at};

use crate::accepting::accept;
use crate::files::bytes_at;
use crate::refusal::Refusal;
use carton_base::{Listed, PanelId, RawDieline, State};
use carton_fold::read_dieline;
use carton_text::{Job, Plan, Task, job_for, read_job, read_plan};
use carton_tree::{Carton, tree};
use carton_words::{End, FileKind};
use std::alloc::Global;

/// What a dieline and a job give: the carton, and the task on it.
#[derive(Drop)]
pub struct Setup {
    pub carton: Carton,
    pub task: Task,
}

impl Setup {
    /// The state of the task at an end.
    pub fn state(&self, end: End) -> &State
        requires { IsRight self.now }
        ensures state { result.now ≡ state_at end self.now.task }
        ensures of_carton { IsState (length self.now.carton.creases) result.now }
    {
        match end {
            End::Start => &self.task.start,
            End::Target => &self.task.target,
        }
    }
}

/// The dieline of the first file.
pub fn dieline_in(alloc: Global, files: &[Listed<u8>]) -> Result<RawDieline, Refusal>
    ensures reads { IsOutcome (dielines files.now) result }
    ensures keeps_rules { IfOk result IsDieline }
{
    accept(FileKind::Dieline, read_dieline(alloc, bytes_at(files, 0)))
}

// The job of the second file.
fn job_in(alloc: Global, files: &[Listed<u8>]) -> Result<Job, Refusal>
    ensures reads { IsOutcome (jobs files.now) result }
    ensures keeps_rules { IfOk result IsJob }
{
    accept(FileKind::Job, read_job(alloc, bytes_at(files, 1)))
}

/// The plan of the third file.
pub fn plan_in(alloc: Global, files: &[Listed<u8>]) -> Result<Plan, Refusal>
    ensures reads { IsOutcome (plans files.now) result }
    ensures keeps_rules { IfOk result IsPlan }
{
    accept(FileKind::Plan, read_plan(alloc, bytes_at(files, 2)))
}

// The carton of a dieline, with the margin and the root that the job names.
fn carton_in(alloc: Global, raw: &RawDieline, job: &Job) -> Result<Carton, Refusal>
    requires dieline { IsDieline raw.now }
    requires job { IsJob job.now }
    ensures hangs { IsOutcome (cartons raw.now job.now) result }
    ensures keeps_rules { IfOk result IsCarton }
    ensures creases { IfOk result (λ t. AreCreases t.creases) }
{
    let hung = tree(alloc, raw, job.margin, PanelId(job.root));
    accept(FileKind::Dieline, hung)
}

// The task of the job on the carton.
fn task_in(alloc: Global, carton: &Carton, raw: &RawDieline, job: &Job) -> Result<Task, Refusal>
    requires dieline { IsDieline raw.now }
    requires job { IsJob job.now }
    ensures fits { IsOutcome (tasks carton.now raw.now job.now) result }
    ensures keeps_rules { IfOk result IsTask }
    ensures creases { IfOk result (λ task. task.creases ≡ carton.now.creases) }
{
    accept(FileKind::Job, job_for(alloc, carton, raw, job))
}

/// What the bytes of the first two files, a dieline and a job, give. Faults are looked for in this
/// order: the text of
/// the dieline, the text of the job, the tree of the panels, and that the job fits.
pub fn set_up(alloc: Global, files: &[Listed<u8>]) -> Result<Setup, Refusal>
    ensures sets_up { IsOutcome (setups files.now) result }
    ensures keeps_rules { IfOk result IsRight }
{
    let raw = dieline_in(alloc, files)?;
    let job = job_in(alloc, files)?;
    let carton = carton_in(alloc, &raw, &job)?;
    let task = task_in(alloc, &carton, &raw, &job)?;
    Ok(Setup { carton, task })
}
