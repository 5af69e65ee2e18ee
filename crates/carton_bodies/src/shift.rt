ghost use Rattle.std.specs.Prelude.{◌≡◌, ◌+◌, ◌-◌, ◌*◌, ◌<◌, ◌≤◌, ◌^◌, pos, ◌+ℤ◌, ◌*ℤ◌};
ghost use Rattle.std.specs.Prelude.{unsigned_abs};
ghost use Rattle.std.specs.Int.{int_min, int_max};
ghost use Rattle.carton_base.specs.declared.limits.TheConstants.{MOST_STATES, MOST_HALVINGS};
ghost use Rattle.carton_bodies.specs.Bodies.{stroke_along};
ghost use Rattle.carton_bodies.specs.Boxes.{IsStroke};
ghost use Rattle.carton_enclose.specs.Held.{size_of};
ghost use Rattle.carton_bodies.specs.Shifts.{IsShift};

use crate::half_space::HalfSpace;
use carton_base::{Bounds, Piece, product, sum};

// c times a part of a stroke.
fn part_along(c: i8, part: i32) -> i128
    requires { unsigned_abs part ≤ 2 ^ 17 }
    ensures value { result ≡ c *ℤ part }
    ensures size { unsigned_abs result ≤ 2 ^ 24 }
{
    product::<7, 17>(i128::from(c), i128::from(part))
}

// Three such parts added.
fn parts_added(x: i128, y: i128, z: i128) -> i128
    requires x { unsigned_abs x ≤ 2 ^ 24 }
    requires y { unsigned_abs y ≤ 2 ^ 24 }
    requires z { unsigned_abs z ≤ 2 ^ 24 }
    ensures value { result ≡ x +ℤ y +ℤ z }
    ensures size { unsigned_abs result ≤ 2 ^ 26 }
{
    sum::<25>(sum::<24>(x, y), z)
}

/// How far the stroke of one move goes along the normal of a half-space.
pub fn rate_along(stroke: [i32; 3], face: &HalfSpace) -> i128
    requires { IsStroke stroke }
    ensures value { result ≡ stroke_along face.now.u face.now.v face.now.s stroke }
    ensures size { unsigned_abs result ≤ 2 ^ 26 }
{
    let x = part_along(face.u, stroke[0]);
    let y = part_along(face.v, stroke[1]);
    let z = part_along(face.s, stroke[2]);
    parts_added(x, y, z)
}

// How many units of 2^-40 one piece of this depth is of a move.
fn units_of(depth: u8) -> i128
    requires { depth ≤ MOST_HALVINGS }
    ensures value { result ≡ pos (2 ^ (40 - depth)) }
    ensures size { unsigned_abs result ≤ 2 ^ 40 }
{
    i128::from(1u64 << (40 - depth))
}

// How many pieces of this depth have gone by where the piece of this move begins.
fn pieces_before(step: u32, piece: Piece) -> i128
    requires { step < MOST_STATES }
    ensures value { result ≡ pos (step * 2 ^ piece.depth + piece.index) }
    ensures size { unsigned_abs result ≤ 2 ^ 49 }
{
    let first = piece.first();
    let gone = product::<12, 36>(i128::from(step), i128::from(first.den));
    sum::<48>(gone, i128::from(first.num))
}

/// The bounds of two numbers.
pub fn ends_of(a: i128, b: i128) -> Bounds
    ensures low { result.lo ≡ int_min a b }
    ensures high { result.hi ≡ int_max a b }
{
    Bounds {
        lo: a.min(b),
        hi: a.max(b),
    }
}

/// How far a body that goes so far in each move shifts over the piece of this move, in units of 2^-40.
pub fn shift_over(rate: i128, step: u32, piece: Piece) -> Bounds
    requires rate { unsigned_abs rate ≤ 2 ^ 26 }
    requires step { step < MOST_STATES }
    ensures shift { IsShift rate step piece.index piece.depth result }
    ensures size { size_of result.lo result.hi ≤ 2 ^ 116 }
{
    let more = product::<26, 40>(rate, units_of(piece.depth));
    let begin = product::<66, 49>(more, pieces_before(step, piece));
    ends_of(begin, sum::<115>(begin, more))
}
