ghost use Rattle.std.specs.Prelude.{◌≡◌, ℕ, length};
ghost use Rattle.carton_model.specs.Moves.{IsState, IsMotion};
ghost use Rattle.carton_tree.specs.Trees.{Tree};
ghost use Rattle.carton_part.specs.Answers.{IsVerdictOf};
ghost use Rattle.carton_judge.specs.Verdicts.{IsVerdictAt};

use carton_base::{Motion, State};
use carton_part::Verdict;

/// Tells of states and moves of a carton whether its panels that share no crease keep apart. Two
/// panels whose best gap lies from 0 to the slack may be told either way, and not each time alike.
pub trait Judge {
    // The carton that is judged, and by how much panels have to be parted that are told to be clear
    // in any case, in dieline units. No call changes them.
    ghost carton: { Self → Tree };

    ghost slack: { Self → ℕ };

    /// The verdict on a state. The moment of a pair that is blocked is 0/1.
    fn state(&mut self, at: &State) -> Verdict
        requires { IsState (length (carton self.now).creases) at.now }
        ensures carton { carton self.new ≡ carton self.old }
        ensures slack { slack self.new ≡ slack self.old }
        ensures verdict { IsVerdictAt (carton self.old) at.now (slack self.old) result };

    /// The verdict on a move.
    fn step(&mut self, motion: &Motion) -> Verdict
        requires { IsMotion (length (carton self.now).creases) motion.now }
        ensures carton { carton self.new ≡ carton self.old }
        ensures slack { slack self.new ≡ slack self.old }
        ensures verdict { IsVerdictOf (carton self.old) motion.now (slack self.old) result };
}
