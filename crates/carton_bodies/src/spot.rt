ghost use Rattle.std.specs.Prelude.{◌≡◌, ◌<◌, ◌≤◌, ◌^◌, length, All};
ghost use Rattle.carton_base.specs.declared.limits.TheConstants.{LONGEST_PATH, MOST_JOINTS};
ghost use Rattle.carton_model.specs.Moves.{IsMotion};
ghost use Rattle.carton_model.specs.Dielines.{IsNear};
ghost use Rattle.carton_model.specs.Turning.{IsTurn};
ghost use Rattle.carton_reach.specs.Reaches.{Within};
ghost use Rattle.carton_bodies.specs.Spots.{flat_point, IsAt, IsSmall, IsNarrow};

use carton_base::{Bounds, Motion, Piece, Point, Triple, Turn};
use carton_enclose::Enclose;
use carton_place::place;

/// Where a point stands at every moment of a piece of a move, within bounds in units of 2^-40.
#[derive(Clone, Copy, Debug)]
pub struct Spot {
    pub x: Bounds,
    pub y: Bounds,
    pub z: Bounds,
}

// The two bounds of an enclosure.
fn bounds_of<E: Enclose>(e: E) -> Bounds
    ensures low { result.lo ≡ E.low_of e }
    ensures high { result.hi ≡ E.high_of e }
{
    Bounds {
        lo: e.low(),
        hi: e.high(),
    }
}

/// Where a flat place stands after the turns, the first one first, over the piece of the move.
pub fn flat_point_at<E: Enclose>(
    turns: &[Turn],
    motion: &Motion,
    point: &Point,
    piece: Piece,
) -> Spot
    requires count { length turns.now ≤ LONGEST_PATH }
    requires turns { All IsTurn turns.now }
    requires motion { IsMotion MOST_JOINTS motion.now }
    requires near { IsNear point.now }
    ensures at { Within piece.index piece.depth
        (λ n d. IsAt result (flat_point motion.now turns.now n d point.now)) }
    ensures small { IsSmall result }
    ensures narrow { piece.depth ≡ 36 → IsNarrow result }
{
    let corner = Triple {
        x: i64::from(point.x),
        y: i64::from(point.y),
        w: 1,
    };
    let at = place::<E>(turns, corner, motion, piece);
    Spot {
        x: bounds_of(at.x),
        y: bounds_of(at.y),
        z: bounds_of(at.z),
    }
}
