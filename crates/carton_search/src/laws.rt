ghost use Rattle.std.specs.Prelude.{◌≡◌, List};
ghost use Rattle.carton_base.specs.declared.motion.State.{State};
ghost use Rattle.carton_tree.specs.Trees.{Tree};
ghost use Rattle.carton_text.specs.declared.task.Task.{Task};
ghost use Rattle.carton_search.specs.declared.search_end.SearchEnd.{SearchEnd};
ghost use Rattle.carton_search.specs.Paths.{IsSlackPath, IsWithinTurns, moves_of};
ghost use Rattle.carton_search.specs.Ends.{IsEnd, IsFoundOrMemory};

use crate::known::BUCKETS;

/// By what the ends say alone a search finds a plan where a slack path is within the budget of turns,
/// unless memory runs out.
pub fn budget_law()
    ensures { (task : Task) (carton : Tree) (end : SearchEnd) → IsEnd task carton end → (p : List State)
        → IsSlackPath task carton p → IsWithinTurns task (moves_of p) → IsFoundOrMemory end }
{}

/// How many priorities the queue of a search tells apart, as a number.
pub fn limits_in_numbers()
    ensures numbers { (BUCKETS ≡ 4096) }
{}
