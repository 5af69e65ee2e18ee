ghost use Rattle.std.specs.Prelude.{◌≡◌, ◌↔◌, ◌≤◌, IfSome, IsTrue};
ghost use Rattle.carton_cases.specs.Cases.{AreFiles, IsCase, IsSetup};
ghost use Rattle.carton_text.specs.PlanRules.{IsPlan};

use carton_base::{EdgeId, PanelId, RawDieline};
use carton_catalogue::{Catalogue, fit_catalogue, read_catalogue};
use carton_fold::read_dieline;
use carton_text::{Job, Plan, Task, job_for, read_job, read_plan};
use carton_tree::{Carton, tree};
use std::alloc::Global;

/// A dieline and a job, as they are read.
#[derive(Drop)]
pub struct Files {
    pub dieline: RawDieline,
    pub job: Job,
}

/// A carton and a task of it.
#[derive(Drop)]
pub struct Case {
    pub carton: Carton,
    pub task: Task,
}

/// A carton, a task and a plan of it, and a catalogue.
#[derive(Drop)]
pub struct Setup {
    pub carton: Carton,
    pub task: Task,
    pub plan: Plan,
    pub catalogue: Catalogue,
}

/// The dieline and the job of these bytes; None where one of them is refused.
pub fn files_of(alloc: Global, dieline: &[u8], job: &[u8]) -> Option<Files>
    ensures { IfSome result AreFiles }
{
    let Ok(dieline) = read_dieline(alloc, dieline) else {
        return None;
    };
    let Ok(job) = read_job(alloc, job) else {
        return None;
    };
    Some(Files { dieline, job })
}

/// The carton of a dieline's text with this margin and this root; None where there is none.
pub fn carton_of(alloc: Global, text: &str, margin: u16, root: u8) -> Option<Carton>
    requires { margin ≤ 1000 }
{
    let Ok(dieline) = read_dieline(alloc, text.as_bytes()) else {
        return None;
    };
    tree(alloc, &dieline, margin, PanelId(root)).ok()
}

fn are_same(first: &[EdgeId], second: &[EdgeId]) -> bool
    ensures { IsTrue result ↔ first.now ≡ second.now }
{
    first == second
}

/// The carton and the task of the texts of a dieline and a job; None where one of them is refused.
pub fn case_of(alloc: Global, dieline: &str, job: &str) -> Option<Case>
    ensures { IfSome result IsCase }
{
    let files = files_of(alloc, dieline.as_bytes(), job.as_bytes())?;
    let root = PanelId(files.job.root);
    let Ok(carton) = tree(alloc, &files.dieline, files.job.margin, root) else {
        return None;
    };
    let Ok(task) = job_for(alloc, &carton, &files.dieline, &files.job) else {
        return None;
    };
    if are_same(task.creases.as_slice(), carton.creases()) {
        Some(Case { carton, task })
    } else {
        None
    }
}

/// The plan of a text; None where it is refused.
pub fn plan_of(alloc: Global, text: &str) -> Option<Plan>
    ensures { IfSome result IsPlan }
{
    match read_plan(alloc, text.as_bytes()) {
        Ok(plan) => Some(plan),
        Err(_) => None,
    }
}

/// All that a fixture is made of, from its texts; None where one of them is refused or the catalogue
/// doesn't fit.
pub fn setup_of(
    alloc: Global,
    dieline: &str,
    job: &str,
    plan: &str,
    catalogue: &str,
) -> Option<Setup>
    ensures { IfSome result IsSetup }
{
    let Case { carton, task } = case_of(alloc, dieline, job)?;
    let plan = plan_of(alloc, plan)?;
    let Ok(catalogue) = read_catalogue(alloc, catalogue.as_bytes()) else {
        return None;
    };
    match fit_catalogue(&carton, &task, &plan, &catalogue) {
        Ok(()) => Some(Setup {
            carton,
            task,
            plan,
            catalogue,
        }),
        Err(_) => None,
    }
}
