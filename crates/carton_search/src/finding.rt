ghost use Rattle.std.specs.Prelude.{◌≡◌, ◌≤◌, ℕ, List, length, pos, [], IfOk, OnOk};
ghost use Rattle.carton_base.specs.declared.motion.State.{State};
ghost use Rattle.carton_tree.specs.Trees.{Tree};
ghost use Rattle.carton_text.specs.TaskRules.{IsTask};
ghost use Rattle.carton_search.specs.Clear.{AreApart};
ghost use Rattle.carton_search.specs.Paths.{IsSlackPath, IsWithinTurns, moves_of};
ghost use Rattle.carton_search.specs.Ends.{IfFound, IfStartBlocked, IfNoPath, IfOutOfTurns, IsFoundOrMemory};
ghost use Rattle.carton_search.specs.Ends.{IsTurnsCause, IsPlanFor, IsClearPath, IsShortest, AreBlockedAt};
ghost use Rattle.carton_search.specs.Ends.{IsEnd};
ghost use Rattle.carton_search.specs.Knowledge.{IsBlank};
ghost use Rattle.carton_search.specs.Turns.{Suits, Going, room_of};

use crate::exploring::{Outcome, explore};
use crate::known::{Entry, Known};
use crate::search_end::SearchEnd;
use crate::tracing::path_to;
use carton_base::{EdgeId, Listed, MOST_STATES, OutOfMemory, State};
use carton_judge::Judge;
use carton_part::Verdict;
use carton_steps::estimate;
use carton_text::{Plan, Task};
use std::alloc::Global;

// What a search takes before it judges anything: room for the states that it may find, and the creases
// and the list of states of a plan.
#[derive(Drop)]
struct Room {
    known: Known,
    creases: Listed<EdgeId>,
    path: Vec<State>,
}

fn room_for(alloc: Global, task: &Task) -> Result<Room, OutOfMemory>
    requires { IsTask task.now }
    ensures known { IfOk result (λ r. IsBlank r.known (room_of task.now)) }
    ensures creases { IfOk result (λ r. r.creases ≡ task.now.creases) }
    ensures path { IfOk result (λ r. r.path.items ≡ []) }
{
    let steps = 2 * task.teams.len() as u32;
    let known = Known::with_room(alloc, 1 + steps * task.turns)?;
    let mut creases = Vec::with_capacity(alloc, task.creases.len())?;
    creases.extend_from_slice(task.creases.as_slice())?;
    Ok(Room {
        known,
        creases: Listed::from_vec(creases),
        path: Vec::with_capacity(alloc, MOST_STATES)?,
    })
}

// Lets the start wait.
fn begin(known: &mut Known, task: &Task) -> Result<(), OutOfMemory>
    requires rules { IsTask task.now }
    requires blank { IsBlank known.old (room_of task.now) }
    ensures { OnOk result ((carton : Tree) → Going task.now carton known.new 0 0) }
{
    let number = known.add(Entry {
        state: task.start,
        parent: 0,
        moves: 0,
        tried: false,
    })?;
    known.put(number, estimate(task, &task.start));
    Ok(())
}

// Searches, and takes all memory but that for the index of states before the judge's first call.
fn find<J: Judge>(alloc: Global, task: &Task, judge: &mut J) -> Result<SearchEnd, OutOfMemory>
    requires { Suits task.now (J.carton judge.old) (J.slack judge.old) }
    ensures end { IfOk result (IsEnd task.now (J.carton judge.old)) }
    ensures carton { J.carton judge.new ≡ J.carton judge.old }
    ensures slack { J.slack judge.new ≡ J.slack judge.old }
{
    let Room {
        mut known,
        creases,
        path,
    } = room_for(alloc, task)?;
    if let Verdict::Blocked { a, b, .. } = judge.state(&task.start) {
        return Ok(SearchEnd::StartBlocked { a, b });
    }
    begin(&mut known, task)?;
    match explore(&mut known, task, judge)? {
        Outcome::Arrived(number) => Ok(SearchEnd::Found(Plan {
            creases,
            states: Listed::from_vec(path_to(&known, number, path)?),
        })),
        Outcome::NoWay => Ok(SearchEnd::NoPath),
        Outcome::Stopped(moves) => Ok(SearchEnd::OutOfTurns { moves }),
    }
}

/// Searches for a plan with fewest moves, whose moves are grid steps that the judge clears. A turn is
/// one state whose steps are tried; the search stops once `turns` of the task are used up and the next
/// state isn't the target. It takes memory for the queue, for what is kept beside each state and for
/// the plan before the judge's first call; after that only the index of the states grows.
pub fn search<J: Judge>(alloc: Global, task: &Task, judge: &mut J) -> SearchEnd
    requires task { IsTask task.now }
    requires creases { task.now.creases ≡ (J.carton judge.old).creases }
    requires slack { task.now.slack ≡ J.slack judge.old }
    ensures found_plan { IfFound result (IsPlanFor task.now) }
    ensures found_path { IfFound result (λ plan. IsClearPath task.now (J.carton judge.old) plan.states) }
    ensures found_start { IfFound result (λ plan. AreApart (J.carton judge.old) (pos 0) task.now.start) }
    ensures found_least { IfFound result (λ plan. IsShortest task.now (J.carton judge.old) plan.states) }
    ensures found_still { IfFound result (λ plan. task.now.start ≡ task.now.target → length plan.states ≡ 1) }
    ensures found_turns { IfFound result (λ plan. moves_of plan.states ≤ task.now.turns) }
    ensures start_blocked { IfStartBlocked result
        (λ a b. AreBlockedAt task.now (J.carton judge.old) task.now.start a.0 b.0) }
    ensures no_path { IfNoPath result ((p : List State) → IsSlackPath task.now (J.carton judge.old) p → ⊥) }
    ensures no_path_start { IfNoPath result (AreApart (J.carton judge.old) (pos 0) task.now.start) }
    ensures turns_few { IfOutOfTurns result (λ moves. (p : List State)
        → IsSlackPath task.now (J.carton judge.old) p → moves ≤ moves_of p) }
    ensures turns_cause { IfOutOfTurns result (IsTurnsCause task.now (J.carton judge.old)) }
    ensures budget { (p : List State) → IsSlackPath task.now (J.carton judge.old) p
        → IsWithinTurns task.now (moves_of p) → IsFoundOrMemory result }
    ensures carton { J.carton judge.new ≡ J.carton judge.old }
    ensures slack { J.slack judge.new ≡ J.slack judge.old }
{
    match find(alloc, task, judge) {
        Ok(end) => end,
        Err(_) => SearchEnd::Memory,
    }
}
