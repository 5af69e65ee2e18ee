ghost use Rattle.std.specs.Prelude.{◌≡◌, ◌<◌, ◌≤◌, ◌^◌, length, pos, ◌+ℤ◌, ◌*ℤ◌, unsigned_abs};
ghost use Rattle.std.specs.Prelude.{slice_index_or};
ghost use Rattle.std.specs.Int.{int_min, int_max};
ghost use Rattle.carton_base.specs.Directions.{IsSign};
ghost use Rattle.carton_base.specs.declared.limits.TheConstants.{MOST_STATES};
ghost use Rattle.carton_bodies.specs.Bodies.{stroke_along};
ghost use Rattle.carton_bodies.specs.Boxes.{IsBox};
ghost use Rattle.carton_enclose.specs.Points.{AreSigns};
ghost use Rattle.carton_reach.specs.Axes.{axis_at};
ghost use Rattle.carton_bodies.specs.Extents.{AreEndsOn, AreExtents, IsExtentBy};

use crate::moving::Moving;
use crate::span::{Span, span_of};
use carton_base::{Cuboid, DIRECTIONS, Piece, UNIT, product, sum};

/// How far a body reaches along an axis over a piece of its move, in units of 2^-40. Of its places
/// the one that lies least far goes between the least bounds, and the one that lies farthest
/// between the greatest.
#[derive(Clone, Copy)]
pub struct Extent {
    pub least_low: i128,
    pub least_high: i128,
    pub greatest_low: i128,
    pub greatest_high: i128,
}

/// How far it reaches along each of the 13 axes, in their order.
#[derive(Clone, Copy)]
pub struct Extents {
    pub axes: [Extent; 13],
}

const NOWHERE: Extent = Extent {
    least_low: 0,
    least_high: 0,
    greatest_low: 0,
    greatest_high: 0,
};

// One of the 13 axes: the second half of the 26 directions.
fn axis(a: usize) -> [i8; 3]
    requires { a < 13 }
    ensures { result ≡ axis_at a }
{
    DIRECTIONS[13 + a]
}

// c times the number, for c of -1, 0 and 1.
fn signed(c: i8, a: i32) -> i128
    requires { IsSign c }
    ensures value { result ≡ c *ℤ a }
    ensures size { unsigned_abs result ≤ 2 ^ 31 }
{
    product::<0, 31>(i128::from(c), i128::from(a))
}

// The least and the greatest of some numbers.
#[derive(Clone, Copy)]
struct Ends {
    least: i128,
    greatest: i128,
}

fn ends_of(a: i128, b: i128) -> Ends
    ensures least { result.least ≡ int_min a b }
    ensures greatest { result.greatest ≡ int_max a b }
{
    Ends {
        least: a.min(b),
        greatest: a.max(b),
    }
}

// The ends of c times a and c times b.
fn signed_ends(c: i8, a: i32, b: i32) -> Ends
    requires { IsSign c }
    ensures least { result.least ≡ int_min (c *ℤ a) (c *ℤ b) }
    ensures greatest { result.greatest ≡ int_max (c *ℤ a) (c *ℤ b) }
    ensures small_least { unsigned_abs result.least ≤ 2 ^ 31 }
    ensures small_greatest { unsigned_abs result.greatest ≤ 2 ^ 31 }
{
    ends_of(signed(c, a), signed(c, b))
}

// Three numbers added.
fn total(x: i128, y: i128, z: i128) -> i128
    requires x { unsigned_abs x ≤ 2 ^ 31 }
    requires y { unsigned_abs y ≤ 2 ^ 31 }
    requires z { unsigned_abs z ≤ 2 ^ 31 }
    ensures value { result ≡ x +ℤ y +ℤ z }
    ensures size { unsigned_abs result ≤ 2 ^ 33 }
{
    sum::<32>(sum::<31>(x, y), z)
}

// How far the box reaches along the direction.
fn ends_along(v: [i8; 3], shape: &Cuboid) -> Ends
    requires { AreSigns v }
    ensures ends { AreEndsOn (slice_index_or v 0 (pos 0)) (slice_index_or v 1 (pos 0))
        (slice_index_or v 2 (pos 0))
        shape.now result }
    ensures small_least { unsigned_abs result.least ≤ 2 ^ 33 }
    ensures small_greatest { unsigned_abs result.greatest ≤ 2 ^ 33 }
{
    let x = signed_ends(v[0], shape.x0, shape.x1);
    let y = signed_ends(v[1], shape.y0, shape.y1);
    let z = signed_ends(v[2], shape.z0, shape.z1);
    Ends {
        least: total(x.least, y.least, z.least),
        greatest: total(x.greatest, y.greatest, z.greatest),
    }
}

// How far the stroke goes along the direction in a move.
fn speed_along(v: [i8; 3], stroke: [i32; 3]) -> i128
    requires { AreSigns v }
    ensures value { result
        ≡ stroke_along (slice_index_or v 0 (pos 0)) (slice_index_or v 1 (pos 0)) (slice_index_or v 2 (pos 0))
        stroke }
    ensures size { unsigned_abs result ≤ 2 ^ 33 }
{
    let x = signed(v[0], stroke[0]);
    let y = signed(v[1], stroke[1]);
    let z = signed(v[2], stroke[2]);
    total(x, y, z)
}

// How far something of this speed has gone at two times.
fn gone(speed: i128, times: Span) -> Ends
    requires speed { unsigned_abs speed ≤ 2 ^ 33 }
    requires early { unsigned_abs times.from ≤ 2 ^ 78 }
    requires late { unsigned_abs times.upto ≤ 2 ^ 78 }
    ensures least { result.least ≡ int_min (speed *ℤ times.from) (speed *ℤ times.upto) }
    ensures greatest { result.greatest ≡ int_max (speed *ℤ times.from) (speed *ℤ times.upto) }
    ensures small_least { unsigned_abs result.least ≤ 2 ^ 111 }
    ensures small_greatest { unsigned_abs result.greatest ≤ 2 ^ 111 }
{
    ends_of(
        product::<33, 78>(speed, times.from),
        product::<33, 78>(speed, times.upto),
    )
}

// The extent of what reaches as far as these ends at time 0, and moves at this speed.
fn extent_by(ends: Ends, speed: i128, times: Span) -> Extent
    requires least { unsigned_abs ends.least ≤ 2 ^ 33 }
    requires greatest { unsigned_abs ends.greatest ≤ 2 ^ 33 }
    requires speed { unsigned_abs speed ≤ 2 ^ 33 }
    requires early { unsigned_abs times.from ≤ 2 ^ 78 }
    requires late { unsigned_abs times.upto ≤ 2 ^ 78 }
    ensures { IsExtentBy ends.least ends.greatest speed times result }
{
    let near = product::<33, 40>(ends.least, UNIT);
    let far = product::<33, 40>(ends.greatest, UNIT);
    let way = gone(speed, times);
    Extent {
        least_low: sum::<111>(near, way.least),
        least_high: sum::<111>(near, way.greatest),
        greatest_low: sum::<111>(far, way.least),
        greatest_high: sum::<111>(far, way.greatest),
    }
}

/// How far the body reaches along the 13 axes over a piece of its move.
pub fn extents_over(body: &Moving, piece: Piece) -> Extents
    requires shape { IsBox body.now.shape }
    requires step { body.now.step ≤ MOST_STATES }
    ensures whole { length result.axes ≡ 13 }
    ensures extents { AreExtents body.now piece.index piece.depth result.axes }
{
    let times = span_of(body.step, piece);
    let mut axes = [NOWHERE; 13];
    for a in 0..13 {
        let v = axis(a);
        let ends = ends_along(v, &body.shape);
        axes[a] = extent_by(ends, speed_along(v, body.stroke), times);
    }
    Extents { axes }
}
