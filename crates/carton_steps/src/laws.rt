ghost use Rattle.std.specs.Prelude.{◌≡◌, ◌+◌, ◌≤◌, length};
ghost use Rattle.carton_base.specs.declared.motion.State.{State};
ghost use Rattle.carton_model.specs.Moves.{IsState};
ghost use Rattle.carton_text.specs.declared.task.Task.{Task};
ghost use Rattle.carton_text.specs.TaskRules.{IsTask};
ghost use Rattle.carton_steps.specs.Steps.{IsGridStep};
ghost use Rattle.carton_steps.specs.Estimates.{estimate_of};

/// What a best-first search asks of the estimate: it is 0 at the target, falls by at most one in each
/// grid step, whatever stops the state has, and is low at every state of the task's joints.
pub fn estimate_laws()
    ensures none_left { (t : Task) → IsTask t → estimate_of t t.target ≡ 0 }
    ensures falls { (t : Task) (a b : State) → IsTask t → IsGridStep t a b
        → estimate_of t a ≤ estimate_of t b + 1 }
    ensures low { (t : Task) (s : State) → IsTask t → IsState (length t.creases) s → estimate_of t s ≤ 768 }
{}
