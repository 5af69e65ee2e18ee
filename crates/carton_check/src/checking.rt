ghost use Rattle.std.specs.Prelude.{◌≡◌, ℕ, pos, ◌*ℤ◌, IfSome, None};
ghost use Rattle.carton_text.specs.PlanRules.{IsPlan};
ghost use Rattle.carton_text.specs.TaskRules.{IsTask};
ghost use Rattle.carton_text.specs.TaskPlans.{HasMoves};
ghost use Rattle.carton_tree.specs.Cartons.{IsCarton};
ghost use Rattle.carton_tree.specs.Trees.{Tree};
ghost use Rattle.carton_check.specs.Checks.{IsChecked};
ghost use Rattle.carton_check.specs.Sound.{IsSound, KeepsApart};

use crate::checked::Checked;
use crate::comparing::{are_same, begins_with, ends_with};
use crate::judging::judged;
use crate::strides::first_wide;
use carton_text::{Plan, Task};
use carton_tree::Carton;

// The first difference between the plan and what the task asks.
fn difference(task: &Task, plan: &Plan) -> Option<Checked>
    requires task { IsTask task.now }
    requires plan { IsPlan plan.now }
    ensures some { IfSome result (λ answer. (t : Tree) → IsChecked t task.now plan.now answer) }
    ensures none { result ≡ None → HasMoves task.now plan.now }
{
    if !are_same(plan.creases.as_slice(), task.creases.as_slice()) {
        return Some(Checked::WrongCreases);
    }
    let states = plan.states.as_slice();
    if !begins_with(states, &task.start) {
        return Some(Checked::WrongStart);
    }
    if !ends_with(states, &task.target) {
        return Some(Checked::WrongEnd);
    }
    let step = first_wide(task.creases.len(), task.stride, states)?;
    Some(Checked::NotOneStop(step))
}

// The carton keeps the rules of one.
fn keeps_rules(carton: &Carton)
    ensures { IsCarton carton.now }
{
    let _ = carton.panels();
}

/// What is told of a plan for the task on its carton.
pub fn check(carton: &Carton, task: &Task, plan: &Plan) -> Checked
    requires task { IsTask task.now }
    requires plan { IsPlan plan.now }
    ensures checked { IsChecked carton.now task.now plan.now result }
    ensures sound { (moves : ℕ) → result ≡ Checked.Holds moves → IsSound carton.now task.now plan.now }
    ensures slack_clear { HasMoves task.now plan.now
        → KeepsApart carton.now plan.now.states (pos 2 *ℤ pos task.now.slack) → (moves : ℕ)
        × (result ≡ Checked.Holds moves) }
{
    keeps_rules(carton);
    match difference(task, plan) {
        Some(answer) => answer,
        None => judged(carton, task.slack, plan.states.as_slice()),
    }
}
