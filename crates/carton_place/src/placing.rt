ghost use Rattle.std.specs.Prelude.{◌≡◌, ℕ, ◌+◌, ◌-◌, ◌*◌, ◌<◌, ◌≤◌, ◌^◌, List, length, get_or, All, pos};
ghost use Rattle.std.specs.Prelude.{◌≤ℤ◌, ◌<ℤ◌, unsigned_abs};
ghost use Rattle.carton_base.specs.Fractions.{IsRounded};
ghost use Rattle.carton_base.specs.Moments.{IsMoment, InPiece};
ghost use Rattle.carton_base.specs.declared.limits.TheConstants.{FARTHEST, LONGEST_PATH, MOST_JOINTS};
ghost use Rattle.carton_model.specs.Parting.{Position};
ghost use Rattle.carton_model.specs.Points.{IsNearPoint};
ghost use Rattle.carton_model.specs.Moves.{IsMotion, fold_at};
ghost use Rattle.carton_model.specs.Turning.{Angle, IsTurn, laid, placed, turned_through};
ghost use Rattle.carton_enclose.specs.Held.{size_of, spread_of};
ghost use Rattle.carton_place.specs.Held.{HoldsPosition, HoldSwings, IsSwingWithin, greatest};
ghost use Rattle.carton_place.specs.Sizes.{edge_of_sheet};
ghost use Rattle.carton_place.specs.Swings.{IsPartAt, IsSwingOver, ChangesWithin, IsFlatWithin};

use crate::joints::{still, swing_over};
use crate::swings::Swing;
use crate::turns::turn_through;
use carton_base::{Bounds, LONGEST_PATH, Motion, Piece, Triple, Turn, fraction};
use carton_enclose::{Enclose, Space};

/// How the joints of these turns swing over a piece of a move, in the first places, one for each turn.
pub fn swings_over(turns: &[Turn], motion: &Motion, piece: Piece) -> [Swing; LONGEST_PATH]
    requires count { length turns.now ≤ LONGEST_PATH }
    requires turns { All IsTurn turns.now }
    requires motion { IsMotion MOST_JOINTS motion.now }
    ensures length { length result ≡ LONGEST_PATH }
    ensures swings { (k : ℕ) (s : Swing) (t : Turn) → k < length turns.now
        → IsSwingOver motion.now (get_or turns.now k t).place piece.index piece.depth (get_or result k s) }
{
    let mut swings = [still(); LONGEST_PATH];
    for i in 0..turns.len() {
        swings[i] = swing_over(&turns[i], motion, piece);
    }
    swings
}

/// Where a flat place stands after turns, by one swing for each. Its coordinates lie within `x` and
/// `y`, in units of 2^-40.
pub fn place_from<E: Enclose>(turns: &[Turn], swings: &[Swing], x: Bounds, y: Bounds) -> Space<E>
    requires count { length turns.now ≤ LONGEST_PATH }
    requires turns { All IsTurn turns.now }
    requires one_each { length swings.now ≡ length turns.now }
    requires x { size_of x.lo x.hi ≤ edge_of_sheet }
    requires y { size_of y.lo y.hi ≤ edge_of_sheet }
    ensures holds { (m d : ℕ) (angles : List Angle) (q : Position) → IsMoment m d
        → HoldSwings swings.now m d angles → IsFlatWithin x y q
        → HoldsPosition E.holds result m d (turned_through turns.now angles q) }
    ensures size { greatest E.size result ≤ 2 ^ 63 }
    ensures spread { (e : ℕ) → 2 ≤ e → spread_of x.lo x.hi ≤ 1 → spread_of y.lo y.hi ≤ 1
        → All (IsSwingWithin e) swings.now
        → greatest E.spread result ≤ 2 ^ 27 * e }
{
    turn_through(
        turns,
        swings,
        Space {
            x: E::between(x),
            y: E::between(y),
            z: E::whole(0),
        },
    )
}

// The coordinate n / w in units of 2^-40, rounded down and up.
fn coordinate(n: i64, w: i64) -> Bounds
    requires positive { pos 0 <ℤ w }
    requires near { unsigned_abs n ≤ FARTHEST * unsigned_abs w }
    ensures rounded { IsRounded n (unsigned_abs w) result.lo result.hi }
    ensures size { size_of result.lo result.hi ≤ edge_of_sheet }
    ensures spread { spread_of result.lo result.hi ≤ 1 }
{
    fraction(n as i128, w as i128)
}

/// Where the corner stands after the turns, the first one first, at every moment of the piece of the
/// move, in units of 2^-40.
pub fn place<E: Enclose>(turns: &[Turn], corner: Triple, motion: &Motion, piece: Piece) -> Space<E>
    requires count { length turns.now ≤ LONGEST_PATH }
    requires turns { All IsTurn turns.now }
    requires near { IsNearPoint corner }
    requires fine { corner.w ≤ℤ pos (2 ^ 45) }
    requires motion { IsMotion MOST_JOINTS motion.now }
    ensures holds { (m n d : ℕ) → IsMoment m d → IsPartAt piece.index piece.depth m n d
        → HoldsPosition E.holds result m d (placed (fold_at motion.now n d) turns.now (laid corner)) }
    ensures within { (n d : ℕ) → IsMoment n d → InPiece piece.index piece.depth n d
        → HoldsPosition E.holds result (n * 2 ^ piece.depth - piece.index * d) d
        (placed (fold_at motion.now n d) turns.now (laid corner)) }
    ensures size { greatest E.size result ≤ 2 ^ 63 }
    ensures spread { (c : ℕ) → ChangesWithin c motion.now turns.now
        → greatest E.spread result * (motion.now.from.grid * 2 ^ piece.depth)
        ≤ 2 ^ 27 * (2 * (motion.now.from.grid * 2 ^ piece.depth) + 2 ^ 41 * c) }
{
    let swings = swings_over(turns, motion, piece);
    let x = coordinate(corner.x, corner.w);
    let y = coordinate(corner.y, corner.w);
    place_from(turns, &swings[..turns.len()], x, y)
}
