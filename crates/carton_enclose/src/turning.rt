ghost use Rattle.std.specs.Prelude.{ℕ, ◌^◌, ◌<◌, ◌≤◌, ◌+◌, ◌*◌, max, ℤ, ◌+ℤ◌, ◌-ℤ◌, ◌*ℤ◌};
ghost use Rattle.carton_base.specs.Moments.{IsMoment};
ghost use Rattle.carton_enclose.specs.Held.{HoldsProduct};

use crate::Enclose;

// The product of a cosine or sine and a part of a position.
fn scaled<E: Enclose>(a: E, b: E) -> E
    requires ratio { E.size a ≤ 2 ^ 41 }
    requires part { E.size b ≤ 2 ^ 80 }
    ensures holds { HoldsProduct E.holds a b result }
    ensures room { E.size result ≤ 2 ^ 84 }
    ensures size { E.size result * 2 ^ 40 ≤ E.size a * E.size b + 2 ^ 40 }
    ensures spread { E.spread result * 2 ^ 40 ≤ E.size a * E.spread b + E.size b * E.spread a + 2 * 2 ^ 40 }
{
    a.mul(b)
}

/// The pair (r, z) turned by the angle of this cosine and sine: (cos*r - sin*z, sin*r + cos*z).
pub fn turn_pair<E: Enclose>(r: E, z: E, cos: E, sin: E) -> (E, E)
    requires r { E.size r ≤ 2 ^ 80 }
    requires z { E.size z ≤ 2 ^ 80 }
    requires cos { E.size cos ≤ 2 ^ 41 }
    requires sin { E.size sin ≤ 2 ^ 41 }
    ensures first_holds { (n d : ℕ) (x y c s : ℤ) (v w : ℕ) → IsMoment n d → 0 < v → 0 < w
        → E.holds cos n d c v → E.holds sin n d s v → E.holds r n d x w → E.holds z n d y w
        → E.holds result.0 n d (c *ℤ x -ℤ s *ℤ y) (v * w) }
    ensures second_holds { (n d : ℕ) (x y c s : ℤ) (v w : ℕ) → IsMoment n d → 0 < v → 0 < w
        → E.holds cos n d c v → E.holds sin n d s v → E.holds r n d x w → E.holds z n d y w
        → E.holds result.1 n d (s *ℤ x +ℤ c *ℤ y) (v * w) }
    ensures first_size { E.size result.0 * 2 ^ 40 ≤ max (E.size cos) (E.size sin) * (E.size r + E.size z)
        + 2 * 2 ^ 40 }
    ensures second_size { E.size result.1 * 2 ^ 40 ≤ max (E.size cos) (E.size sin) * (E.size r + E.size z)
        + 2 * 2 ^ 40 }
    ensures first_spread { E.spread result.0 * 2 ^ 40
        ≤ max (E.size cos) (E.size sin) * (E.spread r + E.spread z)
        + max (E.spread cos) (E.spread sin) * (E.size r + E.size z) + 4 * 2 ^ 40 }
    ensures second_spread { E.spread result.1 * 2 ^ 40
        ≤ max (E.size cos) (E.size sin) * (E.spread r + E.spread z)
        + max (E.spread cos) (E.spread sin) * (E.size r + E.size z) + 4 * 2 ^ 40 }
{
    let cr = scaled(cos, r);
    let sz = scaled(sin, z);
    let sr = scaled(sin, r);
    let cz = scaled(cos, z);
    (cr.sub(sz), sr.add(cz))
}
