ghost use Rattle.std.specs.Prelude.{◌≡◌, IfOk};
ghost use Rattle.carton_search.specs.Turns.{Suits, Going, IsOutcome};

use crate::known::{BUCKETS, Entry, Known, is_same};
use crate::turns::{Turn, try_steps};
use carton_base::OutOfMemory;
use carton_judge::Judge;
use carton_text::Task;

// How the tries end: at the target, whose number is told, with nothing left to try, or stopped where no
// path that is clear by the slack has fewer than so many moves.
#[derive(Clone, Copy)]
pub enum Outcome {
    Arrived(u32),
    NoWay,
    Stopped(u32),
}

// Tries the steps of the states that wait, those of least priority first.
pub fn explore<J: Judge>(
    known: &mut Known,
    task: &Task,
    judge: &mut J,
) -> Result<Outcome, OutOfMemory>
    requires suits { Suits task.now (J.carton judge.old) (J.slack judge.old) }
    requires going { Going task.now (J.carton judge.old) known.old 0 0 }
    ensures outcome { IfOk result (λ o. IsOutcome task.now (J.carton judge.old) known.new o) }
    ensures carton { J.carton judge.new ≡ J.carton judge.old }
    ensures slack { J.slack judge.new ≡ J.slack judge.old }
{
    let mut turns: u32 = 0;
    'turn: loop {
        let Some((number, priority)) = known.take() else {
            if known.dropped() {
                return Ok(Outcome::Stopped(BUCKETS));
            }
            return Ok(Outcome::NoWay);
        };
        let found = known.entry(number);
        if is_same(&found.state, &task.target) {
            return Ok(Outcome::Arrived(number));
        }
        if turns >= task.turns {
            return Ok(Outcome::Stopped(priority));
        }
        let entry = Entry {
            state: found.state,
            parent: found.parent,
            moves: found.moves,
            tried: true,
        };
        known.write(number, &entry);
        turns += 1;
        let turn = Turn {
            number,
            entry,
            count: turns,
            step: 0,
        };
        try_steps(known, task, judge, &turn)?;
    }
}
