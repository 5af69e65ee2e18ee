ghost use Rattle.std.specs.Prelude.{◌≡◌, ◌+◌, ◌^◌, ◌≤◌, None, IfSome};
ghost use Rattle.carton_part.specs.Answers.{IsHalvedMoment};
ghost use Rattle.carton_part.specs.Parted.{AtEachMoment};
ghost use Rattle.carton_part.specs.Walks.{AreSameMoments, Follows};

use crate::sight::{Look, Sight};
use carton_base::{Moment, Piece};

/// The largest piece that starts where this one ends and is no shorter, None at the end of the move.
pub fn next(piece: Piece) -> Option<Piece>
    ensures some { IfSome result (λ n. Follows piece.index piece.depth n.index n.depth) }
    ensures none { result ≡ None → piece.index + 1 ≡ 2 ^ piece.depth }
{
    let mut index = piece.index + 1;
    let mut depth = piece.depth;
    while depth > 0 && index % 2 == 0 {
        index /= 2;
        depth -= 1;
    }
    if depth == 0 {
        return None;
    }
    Some(Piece { index, depth })
}

/// What a walk over the pieces of a move has found.
#[derive(Clone, Copy, Debug, PartialEq, Eq)]
pub struct Walked {
    /// A moment that is bad, None where every moment is good.
    pub bad: Option<Moment>,
    /// How many pieces were looked at.
    pub pieces: u64,
}

/// Looks at piece after piece of a move from its beginning, where the first piece is given, and halves
/// each that a look leaves open.
pub fn walk<L: Look>(look: &mut L, start: Piece) -> Walked
    requires start { start.index ≡ 0 }
    ensures good { result.bad ≡ None → AtEachMoment (L.good look.old) }
    ensures bad { IfSome result.bad (λ m. IsHalvedMoment m (L.bad look.old)) }
    ensures pieces { 1 ≤ result.pieces }
    ensures same_good { AreSameMoments (L.good look.new) (L.good look.old) }
    ensures same_bad { AreSameMoments (L.bad look.new) (L.bad look.old) }
{
    let mut piece = start;
    let mut pieces = 0u64;
    loop {
        pieces = pieces.saturating_add(1);
        match look.see(piece) {
            Sight::Good => match next(piece) {
                Some(after) => piece = after,
                None => return Walked { bad: None, pieces },
            },
            Sight::Bad => {
                let bad = Some(piece.first());
                return Walked { bad, pieces };
            }
            Sight::Open => piece = piece.halves().0,
        }
    }
}
