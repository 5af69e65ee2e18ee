ghost use Rattle.std.specs.Prelude.{◌≡◌, ◌+◌, ◌*◌, ◌<◌, false, Some, slice_get, length, OnOk};
ghost use Rattle.carton_steps.specs.Steps.{step_of, IsMove};
ghost use Rattle.carton_search.specs.Known.{Has};
ghost use Rattle.carton_search.specs.declared.known.Entry.{Entry};
ghost use Rattle.carton_search.specs.Turns.{Suits, AreTried, steps_of};

use crate::judging::is_clear;
use crate::known::{Entry, Known};
use carton_base::{OutOfMemory, State};
use carton_judge::Judge;
use carton_steps::{estimate, next_state};
use carton_text::Task;

// A step of a turn: the state whose steps are tried, by its number, how many turns there were with this
// one, and the number of the step.
#[derive(Clone, Copy)]
pub struct Turn {
    pub number: u32,
    pub entry: Entry,
    pub count: u32,
    pub step: u8,
}

fn at_step(turn: &Turn, step: u8) -> Turn
    ensures { result ≡ record turn.now { step = step } }
{
    Turn {
        number: turn.number,
        entry: turn.entry,
        count: turn.count,
        step,
    }
}

// What is known of a state to which the turn leads.
fn next_entry(turn: &Turn, to: &State) -> Entry
    requires { turn.now.entry.moves < 4096 }
    ensures { result ≡ record {
      state = to.now;
      parent = turn.now.number;
      moves = turn.now.entry.moves + 1;
      tried = false;
    } }
{
    Entry {
        state: *to,
        parent: turn.number,
        moves: turn.entry.moves + 1,
        tried: false,
    }
}

// Judges a step to a state that wasn't found before.
fn find_new<J: Judge>(
    known: &mut Known,
    task: &Task,
    judge: &mut J,
    turn: &Turn,
    to: &State,
) -> Result<(), OutOfMemory>
    requires suits { Suits task.now (J.carton judge.old) (J.slack judge.old) }
    requires trying { AreTried task.now (J.carton judge.old) known.old turn.now turn.now.step }
    requires less { turn.now.step < steps_of task.now }
    requires to { step_of task.now turn.now.entry.state turn.now.step ≡ Some to.now }
    requires moves { IsMove (length task.now.creases) turn.now.entry.state to.now }
    requires new { Has known.old.entries to.now → ⊥ }
    ensures trying { OnOk result (AreTried task.now (J.carton judge.old) known.new turn.now
        (turn.now.step + 1)) }
    ensures carton { J.carton judge.new ≡ J.carton judge.old }
    ensures slack { J.slack judge.new ≡ J.slack judge.old }
{
    if !is_clear(judge, &turn.entry.state, to) {
        return Ok(());
    }
    let entry = next_entry(turn, to);
    let number = known.add(entry)?;
    known.put(number, entry.moves + estimate(task, to));
    Ok(())
}

// Judges a step to a state that was found before, where it leads there by fewer moves.
fn find_again<J: Judge>(
    known: &mut Known,
    task: &Task,
    judge: &mut J,
    turn: &Turn,
    to: &State,
    number: u32,
)
    requires suits { Suits task.now (J.carton judge.old) (J.slack judge.old) }
    requires trying { AreTried task.now (J.carton judge.old) known.old turn.now turn.now.step }
    requires less { turn.now.step < steps_of task.now }
    requires to { step_of task.now turn.now.entry.state turn.now.step ≡ Some to.now }
    requires moves { IsMove (length task.now.creases) turn.now.entry.state to.now }
    requires there { (e : Entry) × (slice_get known.old.entries number ≡ Some e) × (e.state ≡ to.now) }
    ensures trying { AreTried task.now (J.carton judge.old) known.new turn.now (turn.now.step + 1) }
    ensures carton { J.carton judge.new ≡ J.carton judge.old }
    ensures slack { J.slack judge.new ≡ J.slack judge.old }
{
    let old = known.entry(number);
    if old.tried {
        return;
    }
    if old.moves <= turn.entry.moves + 1 {
        return;
    }
    if !is_clear(judge, &turn.entry.state, to) {
        return;
    }
    let entry = next_entry(turn, to);
    let left = estimate(task, to);
    known.write(number, &entry);
    known.lower(number, old.moves + left, entry.moves + left);
}

// Tries a step of a turn. The last team is tried first and each team's way back before its way
// forward: of states with one priority the queue gives the newest, so the teams go on in their order.
fn try_step<J: Judge>(
    known: &mut Known,
    task: &Task,
    judge: &mut J,
    turn: &Turn,
) -> Result<(), OutOfMemory>
    requires suits { Suits task.now (J.carton judge.old) (J.slack judge.old) }
    requires trying { AreTried task.now (J.carton judge.old) known.old turn.now turn.now.step }
    requires less { turn.now.step < steps_of task.now }
    ensures trying { OnOk result (AreTried task.now (J.carton judge.old) known.new turn.now
        (turn.now.step + 1)) }
    ensures carton { J.carton judge.new ≡ J.carton judge.old }
    ensures slack { J.slack judge.new ≡ J.slack judge.old }
{
    let team = task.teams.len() as u8 - 1 - turn.step / 2;
    let Some(to) = next_state(task, &turn.entry.state, team, turn.step % 2 == 1) else {
        return Ok(());
    };
    match known.number_of(&to) {
        Some(number) => {
            find_again(known, task, judge, turn, &to, number);
            Ok(())
        }
        None => find_new(known, task, judge, turn, &to),
    }
}

// Tries all steps of a turn, which begins at step 0.
pub fn try_steps<J: Judge>(
    known: &mut Known,
    task: &Task,
    judge: &mut J,
    turn: &Turn,
) -> Result<(), OutOfMemory>
    requires suits { Suits task.now (J.carton judge.old) (J.slack judge.old) }
    requires trying { AreTried task.now (J.carton judge.old) known.old turn.now 0 }
    ensures trying { OnOk result (AreTried task.now (J.carton judge.old) known.new turn.now
        (steps_of task.now)) }
    ensures carton { J.carton judge.new ≡ J.carton judge.old }
    ensures slack { J.slack judge.new ≡ J.slack judge.old }
{
    let steps = 2 * task.teams.len() as u8;
    for step in 0..steps {
        try_step(known, task, judge, &at_step(turn, step))?;
    }
    Ok(())
}
