ghost use Rattle.std.specs.Prelude.{◌≡◌, ◌<◌, ◌≤◌, IfOk, string_bytes};
ghost use Rattle.carton_base.specs.declared.limits.TheConstants.{MOST_STATES};
ghost use Rattle.carton_words.specs.declared.givens.TheConstants.{MOST_MADE};
ghost use Rattle.carton_search.specs.Paths.{moves_of as moves_of_states};
ghost use Rattle.carton_plan_commands.specs.Plan.{plannings};
ghost use Rattle.carton_plan_commands.specs.Make.{made_files as made_files_of};
ghost use Rattle.carton_plan_commands.specs.Make.{planned_line as planned_line_of};
ghost use Rattle.carton_plan_commands.specs.Make.{told_line as told_line_of, made_line as made_line_of};
ghost use Rattle.carton_plan_commands.specs.Make.{planned_moves as planned_moves_of};
ghost use Rattle.carton_plan_commands.specs.Make.{moves_in as moves_in_of, AreLinesOf};

use crate::plan::{PlanCommand, Planned, no_plan_line, start_line, turns_line};
use carton_base::{Listed, OutOfMemory, State};
use carton_made::{kind_of, made_dieline, made_job, size_of};
use carton_setup::{BadFile, Command, Ending, Nothing, Refusal, Told, find, refusal_text};
use std::alloc::{AllocError, Global};

// The files that are made of number k, a dieline and a job.
fn made_files(alloc: Global, k: u32) -> Result<Vec<Listed<u8>>, OutOfMemory>
    requires { k < MOST_MADE }
    ensures { IfOk result (λ files. files.items ≡ made_files_of k) }
{
    let dieline = Listed::from_vec(made_dieline(alloc, k)?);
    let job = Listed::from_vec(made_job(alloc, k)?);
    Ok(vec![in alloc; dieline, job]?)
}

// What comes of planning for the made dieline and the made job of number k.
fn outcome_at(alloc: Global, k: u32) -> Result<Result<Planned, BadFile>, OutOfMemory>
    requires { k < MOST_MADE }
    ensures planned { IfOk result (plannings (made_files_of k)) }
    ensures few { IfOk result (λ outcome. moves_in_of outcome ≤ MOST_STATES) }
{
    let files = made_files(alloc, k)?;
    match find(alloc, &PlanCommand, &files) {
        Ok(answer) => Ok(Ok(answer)),
        Err(Refusal::Bad(file)) => Ok(Err(file)),
        Err(Refusal::NoMemory) => Err(OutOfMemory),
    }
}

// The number of moves of a path.
fn moves_of(states: &[State]) -> u32
    requires { moves_of_states states.now ≤ MOST_STATES }
    ensures { result ≡ moves_of_states states.now }
{
    match states {
        [] => 0,
        [_, rest @ ..] => rest.len() as u32,
    }
}

// The moves of a plan; there are none where there is no plan.
fn planned_moves(answer: &Planned) -> u32
    requires { planned_moves_of answer.now ≤ MOST_STATES }
    ensures { result ≡ planned_moves_of answer.now }
{
    match answer {
        Planned::Found(plan) => moves_of(plan.states.as_slice()),
        Planned::StartBlocked { .. } | Planned::NoPath | Planned::OutOfTurns { .. } => 0,
    }
}

fn moves_in(outcome: &Result<Planned, BadFile>) -> u32
    requires { moves_in_of outcome.now ≤ MOST_STATES }
    ensures { result ≡ moves_in_of outcome.now }
{
    match outcome {
        Ok(answer) => planned_moves(answer),
        Err(_) => 0,
    }
}

// The number of moves of a plan, and else the line that `plan` tells.
fn planned_line(alloc: Global, answer: &Planned) -> Result<String, AllocError>
    requires { planned_moves_of answer.now ≤ MOST_STATES }
    ensures { IfOk result (λ line. string_bytes line ≡ planned_line_of answer.now) }
{
    match answer {
        Planned::Found(plan) => {
            let moves = moves_of(plan.states.as_slice());
            format!(in alloc; "moves {moves}\n")
        }
        Planned::StartBlocked { a, b } => start_line(alloc, *a, *b),
        Planned::NoPath => no_plan_line(alloc),
        Planned::OutOfTurns { moves } => turns_line(alloc, *moves),
    }
}

// What is told of an outcome.
fn told_line(alloc: Global, outcome: &Result<Planned, BadFile>) -> Result<String, AllocError>
    requires { moves_in_of outcome.now ≤ MOST_STATES }
    ensures { IfOk result (λ line. string_bytes line ≡ told_line_of outcome.now) }
{
    match outcome {
        Ok(answer) => planned_line(alloc, answer),
        Err(file) => refusal_text(alloc, *file),
    }
}

// The line of number k.
fn made_line(
    alloc: Global,
    k: u32,
    outcome: &Result<Planned, BadFile>,
) -> Result<String, AllocError>
    requires k { k < MOST_MADE }
    requires few { moves_in_of outcome.now ≤ MOST_STATES }
    ensures { IfOk result (λ line. string_bytes line ≡ made_line_of k outcome.now) }
{
    let kind = kind_of(k).name();
    let size = size_of(k);
    let told = told_line(alloc, outcome)?;
    format!(in alloc; "{kind} {k} size {size} {told}")
}

// The lines of so many numbers, and the moves of all their plans.
fn lines_of(alloc: Global, count: u32) -> Result<(Vec<u8>, u32), OutOfMemory>
    requires { count ≤ MOST_MADE }
    ensures { IfOk result (λ r. AreLinesOf count r.0.items r.1) }
{
    let mut lines = Vec::new(alloc);
    let mut total = 0;
    for k in 0..count {
        let outcome = outcome_at(alloc, k)?;
        lines.extend_from_slice(made_line(alloc, k, &outcome)?.as_bytes())?;
        total += moves_in(&outcome);
    }
    Ok((lines, total))
}

/// `make`: what comes of planning for so many made cartons.
#[derive(Clone, Copy, Drop)]
pub struct MakeCommand {
    pub count: u16,

    ghost few: { count ≤ MOST_MADE },
}

impl Command for MakeCommand {
    type Given = Nothing;

    type Found = Listed<u8>;

    ghost use Rattle.std.specs.Prelude.{⊤};
    ghost use Rattle.carton_plan_commands.specs.Make.{IsMadeText};
    ghost use Rattle.carton_setup.specs.Outcomes.{values};
    ghost use Rattle.carton_setup.specs.Telling.{done};

    ghost finds = { λ c nothing. values (IsMadeText c.count) };

    ghost is_tellable = { λ text. ⊤ };

    ghost told = { λ c nothing text. done text };

    fn find(&self, alloc: Global, _given: &Nothing) -> Result<Listed<u8>, Refusal> {
        let (mut text, total) = lines_of(alloc, u32::from(self.count))?;
        let last = format!(in alloc; "total {total}\n")?;
        text.extend_from_slice(last.as_bytes())?;
        Ok(Listed::from_vec(text))
    }

    fn tell(
        &self,
        _alloc: Global,
        _given: &Nothing,
        found: Listed<u8>,
    ) -> Result<Told, OutOfMemory> {
        Ok(Told {
            text: found,
            ending: Ending::Done,
        })
    }
}
