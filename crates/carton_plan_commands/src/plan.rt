ghost use Rattle.std.specs.Prelude.{◌≡◌, IfOk, string_bytes};
ghost use Rattle.carton_search.specs.Ends.{IsEnd};
ghost use Rattle.carton_text.specs.TaskRules.{IsTask};
ghost use Rattle.carton_setup.specs.Outcomes.{IsOutcome, values};
ghost use Rattle.carton_setup.specs.Setups.{IsRight};
ghost use Rattle.carton_plan_commands.specs.Plan.{start_line as start_line_of};
ghost use Rattle.carton_plan_commands.specs.Plan.{no_plan_line as no_plan_line_of};
ghost use Rattle.carton_plan_commands.specs.Plan.{turns_line as turns_line_of, IsPlanned, IsWritable};

use carton_base::{OutOfMemory, PanelId};
use carton_judge::{Judge, RangeJudge};
use carton_search::{SearchEnd, search};
use carton_setup::{Command, Refusal, Setup, Told};
use carton_text::{Plan, Task, write_plan};
use std::alloc::{AllocError, Global};

/// What came of planning: a plan with fewest moves, or why there is none: two panels aren't parted well
/// at the start, there is no path, or the turns were spent after so many moves.
#[derive(Debug, Drop)]
pub enum Planned {
    Found(Plan),
    StartBlocked { a: PanelId, b: PanelId },
    NoPath,
    OutOfTurns { moves: u32 },
}

/// The line of two panels that aren't parted well at the start.
pub fn start_line(alloc: Global, a: PanelId, b: PanelId) -> Result<String, AllocError>
    ensures { IfOk result (λ text. string_bytes text ≡ start_line_of a.0 b.0) }
{
    format!(in alloc; "start blocked {} {}\n", a.0, b.0)
}

/// The line where there is no path.
pub fn no_plan_line(alloc: Global) -> Result<String, AllocError>
    ensures { IfOk result (λ text. string_bytes text ≡ no_plan_line_of) }
{
    String::from_str(alloc, "no plan\n")
}

/// The line where the turns were spent after so many moves.
pub fn turns_line(alloc: Global, moves: u32) -> Result<String, AllocError>
    ensures { IfOk result (λ text. string_bytes text ≡ turns_line_of moves) }
{
    format!(in alloc; "out of turns {moves}\n")
}

// How the search for the task ends past a judge of its carton.
fn searched_by<J: Judge>(alloc: Global, task: &Task, judge: &mut J) -> SearchEnd
    requires task { IsTask task.now }
    requires creases { task.now.creases ≡ (J.carton judge.old).creases }
    requires slack { task.now.slack ≡ J.slack judge.old }
    ensures { IsEnd task.now (J.carton judge.old) result }
{
    search(alloc, task, judge)
}

// How the search for the task ends. Each joint stays between its start and its target.
fn searched(alloc: Global, setup: &Setup) -> SearchEnd
    requires { IsRight setup.now }
    ensures { IsEnd setup.now.task setup.now.carton result }
{
    let Setup { carton, task } = setup;
    let mut judge = RangeJudge::over(carton, task.slack, &task.start, &task.target);
    searched_by(alloc, task, &mut judge)
}

// What comes of planning for a carton and a task.
fn planned_for(alloc: Global, setup: &Setup) -> Result<Planned, Refusal>
    requires { IsRight setup.now }
    ensures planned { IsOutcome (values (IsPlanned setup.now)) result }
    ensures writable { IfOk result IsWritable }
{
    match searched(alloc, setup) {
        SearchEnd::Found(plan) => Ok(Planned::Found(plan)),
        SearchEnd::StartBlocked { a, b } => Ok(Planned::StartBlocked { a, b }),
        SearchEnd::NoPath => Ok(Planned::NoPath),
        SearchEnd::OutOfTurns { moves } => Ok(Planned::OutOfTurns { moves }),
        SearchEnd::Memory => Err(Refusal::NoMemory),
    }
}

/// `plan`: a plan with fewest moves, or why there is none.
#[derive(Clone, Copy, Drop)]
pub struct PlanCommand;

impl Command for PlanCommand {
    type Given = Setup;

    type Found = Planned;

    ghost use Rattle.carton_plan_commands.specs.Plan.{told_plan, IsPlanned, IsWritable};
    ghost use Rattle.carton_setup.specs.Outcomes.{values};

    ghost finds = { λ c s. values (IsPlanned s) };

    ghost is_tellable = { IsWritable };

    ghost told = { λ c s answer. told_plan answer };

    fn find(&self, alloc: Global, given: &Setup) -> Result<Planned, Refusal> {
        planned_for(alloc, given)
    }

    fn tell(&self, alloc: Global, _given: &Setup, found: Planned) -> Result<Told, OutOfMemory> {
        match found {
            Planned::Found(plan) => Ok(Told::done(write_plan(alloc, &plan)?)),
            Planned::StartBlocked { a, b } => {
                Ok(Told::denied(start_line(alloc, a, b)?.into_bytes()))
            }
            Planned::NoPath => Ok(Told::denied(no_plan_line(alloc)?.into_bytes())),
            Planned::OutOfTurns { moves } => {
                Ok(Told::spent(turns_line(alloc, moves)?.into_bytes()))
            }
        }
    }
}
