ghost use Rattle.std.specs.Prelude.{◌≡◌, ℕ, ◌<◌};
ghost use Rattle.carton_base.specs.declared.limits.TheConstants.{MOST_HALVINGS};
ghost use Rattle.carton_reach.specs.Reaches.{Within};
ghost use Rattle.carton_part.specs.Walks.{AreSameMoments};

use carton_base::Piece;

/// What a look at a piece of a move tells.
#[derive(Clone, Copy, Debug, PartialEq, Eq)]
pub enum Sight {
    /// Every moment of the piece is good.
    Good,
    /// Every moment of the piece is bad.
    Bad,
    /// Halves of the piece may tell more.
    Open,
}

/// Tells of pieces of a move whether their moments are good or bad. A moment may be both. What is
/// placed for one piece may be kept for the next.
pub trait Look {
    // The moments n / d of the move that are good, and those that are bad. No look changes them.
    ghost good: { Self → ℕ → ℕ → Type 0 };

    ghost bad: { Self → ℕ → ℕ → Type 0 };

    /// What a look at the piece tells. At depth 36 it isn't left open.
    fn see(&mut self, piece: Piece) -> Sight
        ensures good { result ≡ Sight.Good → Within piece.index piece.depth (good self.old) }
        ensures bad { result ≡ Sight.Bad → Within piece.index piece.depth (bad self.old) }
        ensures open { result ≡ Sight.Open → piece.depth < MOST_HALVINGS }
        ensures same_good { AreSameMoments (good self.new) (good self.old) }
        ensures same_bad { AreSameMoments (bad self.new) (bad self.old) };
}
