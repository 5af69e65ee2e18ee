ghost use Rattle.std.specs.Prelude.{ℕ, ◌^◌, ◌<◌, ◌≤◌, ◌+◌, ℤ, ◌*ℤ◌};
ghost use Rattle.carton_base.specs.Moments.{IsMoment};
ghost use Rattle.carton_base.specs.Directions.{IsSign};
ghost use Rattle.carton_enclose.specs.Points.{AreSigns, dot, HoldsPoint};

use crate::{Enclose, Space};

// c times the number, for c of -1, 0 and 1.
fn signed<E: Enclose>(c: i8, e: E) -> E
    requires sign { IsSign c }
    requires room { E.size e ≤ 2 ^ 84 }
    ensures holds { (n d : ℕ) (x : ℤ) (w : ℕ) → IsMoment n d → 0 < w → E.holds e n d x w
        → E.holds result n d (c *ℤ x) w }
    ensures size { E.size result ≤ E.size e }
    ensures spread { E.spread result ≤ E.spread e }
{
    match c {
        0 => E::whole(0),
        1 => e,
        _ => e.neg(),
    }
}

/// The product v.p of a direction, whose parts are -1, 0 and 1, and a position.
pub fn dot3<E: Enclose>(v: [i8; 3], p: Space<E>) -> E
    requires direction { AreSigns v }
    requires x { E.size p.x ≤ 2 ^ 82 }
    requires y { E.size p.y ≤ 2 ^ 82 }
    requires z { E.size p.z ≤ 2 ^ 82 }
    ensures holds { (n d : ℕ) (x y z : ℤ) (w : ℕ) → IsMoment n d → 0 < w → HoldsPoint E.holds p n d x y z w
        → E.holds result n d (dot v x y z) w }
    ensures size { E.size result ≤ E.size p.x + E.size p.y + E.size p.z }
    ensures spread { E.spread result ≤ E.spread p.x + E.spread p.y + E.spread p.z }
{
    let x = signed(v[0], p.x);
    let y = signed(v[1], p.y);
    let z = signed(v[2], p.z);
    x.add(y).add(z)
}
