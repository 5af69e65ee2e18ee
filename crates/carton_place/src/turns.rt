ghost use Rattle.std.specs.Prelude.{◌≡◌, ℕ, ◌+◌, ◌*◌, ◌<◌, ◌≤◌, ◌^◌, List, length, All, ℤ, unsigned_abs};
ghost use Rattle.carton_base.specs.Moments.{IsMoment};
ghost use Rattle.carton_model.specs.Parting.{Position};
ghost use Rattle.carton_model.specs.Turning.{Angle, IsTurn, with_side, turned_about, turned_by};
ghost use Rattle.carton_model.specs.Turning.{turned_through, exchanged};
ghost use Rattle.carton_enclose.specs.Held.{HoldsWhole};
ghost use Rattle.carton_place.specs.Held.{HoldsPosition, HoldsAngle, HoldsSwing, HoldSwings, IsRatioWithin};
ghost use Rattle.carton_place.specs.Held.{IsSwingWithin, greatest};
ghost use Rattle.carton_place.specs.Sizes.{edge_of_sheet, overhang, HasRoomFor};

use crate::ratios::{Ratio, ratio_of};
use crate::swings::Swing;
use carton_base::Turn;
use carton_enclose::{Enclose, Space, turn_pair};

// The place of a line of the dieline, at every moment.
fn line_at<E: Enclose>(at: i32) -> E
    requires near { unsigned_abs at ≤ 8191 }
    ensures holds { HoldsWhole E.holds at result }
    ensures size { E.size result ≤ edge_of_sheet }
    ensures spread { E.spread result ≡ 0 }
{
    E::whole(at as i64)
}

// The position after a turn about the line x = at.
fn turn_about<E: Enclose>(at: i32, ratio: Ratio<E>, p: Space<E>) -> Space<E>
    requires near { unsigned_abs at ≤ 8191 }
    requires ratio { IsRatioWithin E.size (2 ^ 40) ratio }
    requires room { greatest E.size p ≤ 2 ^ 63 }
    ensures holds { (n d : ℕ) (a : Angle) (q : Position) → IsMoment n d → HoldsAngle E.holds ratio n d a
        → HoldsPosition E.holds p n d q
        → HoldsPosition E.holds result n d (turned_about at a q) }
    ensures size { greatest E.size result ≤ 2 * greatest E.size p + overhang }
    ensures spread { (e : ℕ) → IsRatioWithin E.spread e ratio
        → greatest E.spread result * 2 ^ 40 ≤ 2 * (greatest E.spread p * 2 ^ 40)
        + e * (2 * greatest E.size p + edge_of_sheet) + 4 * 2 ^ 40 }
{
    let line: E = line_at(at);
    let (across, z) = turn_pair(p.x.sub(line), p.z, ratio.cos, ratio.sin);
    Space {
        x: line.add(across),
        y: p.y,
        z,
    }
}

// The position with its two flat parts exchanged.
fn exchange<E: Enclose>(p: Space<E>) -> Space<E>
    ensures holds { (n d : ℕ) (q : Position) → HoldsPosition E.holds p n d q
        → HoldsPosition E.holds result n d (exchanged q) }
    ensures size { greatest E.size result ≡ greatest E.size p }
    ensures spread { greatest E.spread result ≡ greatest E.spread p }
{
    Space {
        x: p.y,
        y: p.x,
        z: p.z,
    }
}

// The ratio as a joint of this sign turns.
fn on_side<E: Enclose>(sign: i8, ratio: Ratio<E>) -> Ratio<E>
    requires sign { unsigned_abs sign ≡ 1 }
    requires ratio { IsRatioWithin E.size (2 ^ 40) ratio }
    ensures holds { (n d : ℕ) (a : Angle) → IsMoment n d → HoldsAngle E.holds ratio n d a
        → HoldsAngle E.holds result n d (with_side sign a) }
    ensures size { IsRatioWithin E.size (2 ^ 40) result }
    ensures spread { (e : ℕ) → IsRatioWithin E.spread e ratio → IsRatioWithin E.spread e result }
{
    if sign > 0 {
        return ratio;
    }
    Ratio {
        cos: ratio.cos,
        sin: ratio.sin.neg(),
    }
}

// The position after the turn of one joint.
fn turn_once<E: Enclose>(turn: &Turn, swing: &Swing, p: Space<E>) -> Space<E>
    requires turn { IsTurn turn.now }
    requires room { greatest E.size p ≤ 2 ^ 63 }
    ensures holds { (n d : ℕ) (a : Angle) (q : Position) → IsMoment n d → HoldsSwing swing.now n d a
        → HoldsPosition E.holds p n d q
        → HoldsPosition E.holds result n d (turned_by turn.now a q) }
    ensures size { greatest E.size result ≤ 2 * greatest E.size p + overhang }
    ensures spread { (e : ℕ) → IsSwingWithin e swing.now
        → greatest E.spread result * 2 ^ 40 ≤ 2 * (greatest E.spread p * 2 ^ 40)
        + e * (2 * greatest E.size p + edge_of_sheet) + 4 * 2 ^ 40 }
{
    let ratio = on_side(turn.sign, ratio_of(swing));
    if turn.upright {
        return turn_about(turn.at, ratio, p);
    }
    exchange(turn_about(turn.at, ratio, exchange(p)))
}

/// The position after turns, the first one first, by one swing for each. It holds for whatever
/// angles the swings hold, of a move or of any other folds.
pub fn turn_through<E: Enclose>(turns: &[Turn], swings: &[Swing], p: Space<E>) -> Space<E>
    requires turns { All IsTurn turns.now }
    requires one_each { length swings.now ≡ length turns.now }
    requires room { HasRoomFor (length turns.now) (greatest E.size p) }
    ensures holds { (n d : ℕ) (angles : List Angle) (q : Position) → IsMoment n d
        → HoldSwings swings.now n d angles → HoldsPosition E.holds p n d q
        → HoldsPosition E.holds result n d (turned_through turns.now angles q) }
    ensures size { greatest E.size result + overhang ≤ 2 ^ length turns.now * (greatest E.size p + overhang) }
    ensures spread { (e : ℕ) → All (IsSwingWithin e) swings.now
        → greatest E.spread result + 4 ≤ 2 ^ length turns.now * (greatest E.spread p + 4)
        + length turns.now * (3 * 2 ^ 21 * e) }
{
    let Some((turn, turns)) = turns.split_first() else {
        return p;
    };
    let Some((swing, swings)) = swings.split_first() else {
        return p;
    };
    turn_through(turns, swings, turn_once(turn, swing, p))
}
