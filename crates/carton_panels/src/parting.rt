ghost use Rattle.std.specs.Prelude.{◌≡◌, ◌≤◌, ◌^◌, All, IsTrue, ◌↔◌, pos, unsigned_abs, slice_index_or};
ghost use Rattle.carton_base.specs.Directions.{IsSign, IsDirection};
ghost use Rattle.carton_model.specs.Parting.{IsFarther, along};
ghost use Rattle.carton_model.specs.Points.{IsSmall};
ghost use Rattle.carton_model.specs.Turning.{laid};
ghost use Rattle.carton_panels.specs.Flat.{IsFlatParted};

use crate::shape::PanelShape;
use carton_base::{DIRECTIONS, Triple, product, sum};

// A direction in the plane, with parts -1, 0 and 1.
#[derive(Clone, Copy)]
struct Heading {
    u: i8,
    v: i8,
    ghost u_sign: { IsSign u },
    ghost v_sign: { IsSign v },
}

// The part of a direction that lies in the plane.
fn in_plane(direction: &[i8; 3]) -> Heading
    requires { IsDirection (slice_index_or direction.now 0 (pos 0)) (slice_index_or direction.now 1 (pos 0))
        (slice_index_or direction.now 2 (pos 0)) }
    ensures u { result.u ≡ slice_index_or direction.now 0 (pos 0) }
    ensures v { result.v ≡ slice_index_or direction.now 1 (pos 0) }
{
    Heading {
        u: direction[0],
        v: direction[1],
    }
}

// How far the flat point lies along the heading, times its w.
fn along(h: Heading, t: Triple) -> i128
    requires { IsSmall t }
    ensures value { result ≡ along h.u h.v (pos 0) (laid t) }
    ensures size { unsigned_abs result ≤ 2 ^ 46 }
{
    sum::<45>(
        product::<0, 45>(i128::from(h.u), i128::from(t.x)),
        product::<0, 45>(i128::from(h.v), i128::from(t.y)),
    )
}

// Whether the second flat point lies farther along the heading than the first.
fn is_farther(h: Heading, p: Triple, q: Triple) -> bool
    requires p { IsSmall p }
    requires q { IsSmall q }
    ensures { IsTrue result ↔ IsFarther (pos 0) h.u h.v (pos 0) (laid p) (laid q) }
{
    product::<46, 45>(along(h, p), i128::from(q.w))
        < product::<46, 45>(along(h, q), i128::from(p.w))
}

// Whether all these flat points lie farther along the heading than the first.
fn are_farther(h: Heading, p: Triple, second: &[Triple]) -> bool
    requires p { IsSmall p }
    requires second { All IsSmall second.now }
    ensures { IsTrue result ↔ All (λ q. IsFarther (pos 0) h.u h.v (pos 0) (laid p) (laid q)) second.now }
{
    second.iter().all(|q| is_farther(h, p, *q))
}

// Whether each of the second flat points lies farther along the heading than each of the first.
fn parts(h: Heading, first: &[Triple], second: &[Triple]) -> bool
    requires first { All IsSmall first.now }
    requires second { All IsSmall second.now }
    ensures { IsTrue result
        ↔ All (λ p. All (λ q. IsFarther (pos 0) h.u h.v (pos 0) (laid p) (laid q)) second.now) first.now }
{
    for p in first {
        if !are_farther(h, *p, second) {
            return false;
        }
    }
    true
}

/// Whether some direction of `DIRECTIONS` parts the two shrunk panels by more than 0 in the flat
/// dieline. By their corners: a direction parts two panels exactly where it parts their corners.
pub fn flat_parted(a: &PanelShape, b: &PanelShape) -> bool
    ensures { IsTrue result ↔ IsFlatParted a.now.margin a.now.places b.now.margin b.now.places }
{
    let first = a.shrunk();
    let second = b.shrunk();
    for direction in &DIRECTIONS {
        if parts(in_plane(direction), first, second) {
            return true;
        }
    }
    false
}
