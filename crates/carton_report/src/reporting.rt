ghost use Rattle.std.specs.Prelude.{◌≡◌, ℕ, ◌+◌, ◌<◌, ◌≤◌, List, length, pos, ◌*ℤ◌, IfOk};
ghost use Rattle.carton_text.specs.PlanRules.{IsPlan};
ghost use Rattle.carton_text.specs.TaskRules.{IsTask};
ghost use Rattle.carton_text.specs.PlanMoves.{AreMoves};
ghost use Rattle.carton_text.specs.TaskPlans.{HasMoves};
ghost use Rattle.carton_check.specs.Sound.{IsSound, KeepsApart};
ghost use Rattle.carton_report.specs.Clearances.{AreRows, IsCleared, IsRow, IsRowsOrMemory};

use crate::cleared::{Cleared, Row};
use crate::tightest::{Tight, tightest};
use carton_base::{Listed, OutOfMemory, State};
use carton_check::{Checked, check};
use carton_text::{Plan, Task, move_at};
use carton_tree::Carton;
use std::alloc::Global;

// The row of move i, in which all panels keep apart.
fn row_at(carton: &Carton, states: &[State], i: usize) -> Row
    requires moves { AreMoves states.now }
    requires inside { i + 1 < length states.now }
    requires apart { KeepsApart carton.now states.now (pos 0) }
    ensures { IsRow carton.now states.now i result }
{
    let step = i as u32;
    let motion = move_at(states, i);
    match tightest(carton, &motion) {
        Some(
            Tight {
                clear,
                a,
                b,
                moment,
            },
        ) => Row::Tight {
            step,
            clear,
            a,
            b,
            moment,
        },
        None => Row::Wide { step },
    }
}

// The rows of all moves, in order.
fn rows(alloc: Global, carton: &Carton, states: &[State]) -> Result<Listed<Row>, OutOfMemory>
    requires moves { AreMoves states.now }
    requires some_state { 1 ≤ length states.now }
    requires apart { KeepsApart carton.now states.now (pos 0) }
    ensures count { IfOk result (λ rows. length rows + 1 ≡ length states.now) }
    ensures each { IfOk result (AreRows carton.now states.now) }
{
    let mut rows = Listed::new(alloc);
    for i in 0..states.len() - 1 {
        rows.push(row_at(carton, states, i))?;
    }
    Ok(rows)
}

/// How far panels that share no crease stay parted in each move of a plan, where its check says that
/// it holds. The plan is judged once.
pub fn clearances(alloc: Global, carton: &Carton, task: &Task, plan: &Plan) -> Cleared
    requires task { IsTask task.now }
    requires plan { IsPlan plan.now }
    ensures cleared { IsCleared carton.now task.now plan.now result }
    ensures sound { (rows : List Row) → result ≡ Cleared.Rows rows → IsSound carton.now task.now plan.now }
    ensures slack_clear { HasMoves task.now plan.now
        → KeepsApart carton.now plan.now.states (pos 2 *ℤ pos task.now.slack) → IsRowsOrMemory result }
{
    let answer = check(carton, task, plan);
    let Checked::Holds(_) = answer else {
        return Cleared::Fails(answer);
    };
    match rows(alloc, carton, plan.states.as_slice()) {
        Ok(rows) => Cleared::Rows(rows),
        Err(_) => Cleared::Memory,
    }
}
