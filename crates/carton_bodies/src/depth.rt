ghost use Rattle.std.specs.Prelude.{◌≡◌, ℕ, ◌<◌, ◌≤◌, ◌^◌, ◌*◌, length, ℤ, pos, ◌+ℤ◌, ◌-ℤ◌, ◌*ℤ◌, neg_ℤ};
ghost use Rattle.std.specs.Prelude.{◌≤ℤ◌, unsigned_abs};
ghost use Rattle.std.specs.Int.{int_min};
ghost use Rattle.carton_base.specs.Rounding.{IsBetween};
ghost use Rattle.carton_base.specs.declared.limits.TheConstants.{MOST_STATES};
ghost use Rattle.carton_bodies.specs.Boxes.{IsStroke};
ghost use Rattle.carton_enclose.specs.Held.{size_of};
ghost use Rattle.carton_model.specs.Parting.{Position, along as along_normal};
ghost use Rattle.carton_bodies.specs.Depths.{IsDepthAt, IsDepthIn, IsScaled};
ghost use Rattle.carton_bodies.specs.HalfSpaces.{side_of, sides_of};
ghost use Rattle.carton_bodies.specs.Spots.{IsAt, IsSmall, IsNarrow};

use crate::half_space::HalfSpace;
use crate::shift::{ends_of, rate_along, shift_over};
use crate::spot::Spot;
use carton_base::{Bounds, Piece, UNIT, product};

// c times x, a number of units.
fn times(c: i8, x: i128) -> i128
    requires { unsigned_abs x ≤ 2 ^ 63 }
    ensures value { result ≡ c *ℤ x }
    ensures size { unsigned_abs result ≤ 2 ^ 70 }
{
    product::<7, 63>(i128::from(c), x)
}

// c times a number within the bounds.
fn scaled(c: i8, all: Bounds) -> Bounds
    requires { size_of all.lo all.hi ≤ 2 ^ 63 }
    ensures scaled { IsScaled c all.lo all.hi result.lo result.hi }
    ensures size { size_of result.lo result.hi ≤ 2 ^ 70 }
{
    ends_of(times(c, all.lo), times(c, all.hi))
}

// A number within the first bounds and one within the second, added.
fn added(a: Bounds, b: Bounds) -> Bounds
    requires first { size_of a.lo a.hi ≤ 2 ^ 117 }
    requires second { size_of b.lo b.hi ≤ 2 ^ 117 }
    ensures low { result.lo ≡ a.lo +ℤ b.lo }
    ensures high { result.hi ≡ a.hi +ℤ b.hi }
{
    Bounds {
        lo: a.lo + b.lo,
        hi: a.hi + b.hi,
    }
}

// A number within the bounds, with its sign turned.
fn turned(all: Bounds) -> Bounds
    requires { size_of all.lo all.hi ≤ 2 ^ 116 }
    ensures low { result.lo ≡ neg_ℤ all.hi }
    ensures high { result.hi ≡ neg_ℤ all.lo }
{
    Bounds {
        lo: -all.hi,
        hi: -all.lo,
    }
}

// This number alone.
fn exactly(x: i128) -> Bounds
    ensures low { result.lo ≡ x }
    ensures high { result.hi ≡ x }
{
    Bounds { lo: x, hi: x }
}

// How far the spot lies along the normal of the half-space.
fn along(face: &HalfSpace, spot: &Spot) -> Bounds
    requires { IsSmall spot.now }
    ensures holds { (q : Position) → IsAt spot.now q
        → IsBetween result.lo result.hi (along_normal face.now.u face.now.v face.now.s q) (unsigned_abs q.w) }
    ensures size { size_of result.lo result.hi ≤ 2 ^ 72 }
    ensures close { IsNarrow spot.now → result.hi ≤ℤ (result.lo +ℤ pos (6912 * 2 ^ 27)) }
{
    let x = scaled(face.u, spot.x);
    let y = scaled(face.v, spot.y);
    let z = scaled(face.s, spot.z);
    added(added(x, y), z)
}

// How deep the spot lies in the half-space over the piece of this move.
fn depth_at(face: &HalfSpace, stroke: [i32; 3], step: u32, piece: Piece, spot: &Spot) -> Bounds
    requires stroke { IsStroke stroke }
    requires step { step < MOST_STATES }
    requires small { IsSmall spot.now }
    ensures { IsDepthAt (side_of face.now) stroke step spot.now piece.index piece.depth result }
{
    let shift = shift_over(rate_along(stroke, face), step, piece);
    let offset = product::<31, 40>(i128::from(face.offset), UNIT);
    let place = turned(along(face, spot));
    added(added(exactly(offset), shift), place)
}

// The lesser of two depths.
fn lesser(a: Bounds, b: Bounds) -> Bounds
    ensures low { result.lo ≡ int_min a.lo b.lo }
    ensures high { result.hi ≡ int_min a.hi b.hi }
{
    Bounds {
        lo: a.lo.min(b.lo),
        hi: a.hi.min(b.hi),
    }
}

/// How deep the spot lies in the body of these faces over the piece of this move: at all of them, or,
/// where it lies outside throughout, at the first ones that tell so.
pub fn depth_in(
    faces: &[HalfSpace],
    stroke: [i32; 3],
    step: u32,
    piece: Piece,
    spot: &Spot,
) -> Bounds
    requires some { 0 < length faces.now }
    requires stroke { IsStroke stroke }
    requires step { step < MOST_STATES }
    requires small { IsSmall spot.now }
    ensures { IsDepthIn (sides_of faces.now) stroke step spot.now piece.index piece.depth result }
{
    let mut least = depth_at(&faces[0], stroke, step, piece, spot);
    for k in 1..faces.len() {
        if least.hi < 0 {
            return least;
        }
        least = lesser(least, depth_at(&faces[k], stroke, step, piece, spot));
    }
    least
}
