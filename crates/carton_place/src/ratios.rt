ghost use Rattle.std.specs.Prelude.{ℕ, ◌<◌, ◌≤◌, ◌^◌, ℤ, ◌-ℤ◌, unsigned_abs};
ghost use Rattle.carton_base.specs.Moments.{IsMoment};
ghost use Rattle.carton_model.specs.Turning.{Angle};
ghost use Rattle.carton_place.specs.Held.{HoldsOnRamp, HoldsSwing, HoldsAngle, IsRatioWithin, IsSwingWithin};

use crate::swings::{Ramp, Swing};
use carton_enclose::Enclose;

/// The cosine and the sine of one joint's fold over a piece of a move, enclosed.
#[derive(Clone, Copy, Drop)]
pub struct Ratio<E> {
    pub cos: E,
    pub sin: E,
}

// The numbers of a ramp, moment by moment.
fn along_ramp<E: Enclose>(r: &Ramp) -> E
    ensures holds { (n d : ℕ) (x : ℤ) (v : ℕ) → IsMoment n d → 0 < v → HoldsOnRamp r.now n d x v
        → E.holds result n d x v }
    ensures size { E.size result ≤ 2 ^ 40 }
    ensures spread { E.spread result ≤ unsigned_abs (r.now.all.hi -ℤ r.now.all.lo) }
{
    let ramp = *r;
    E::ramp(ramp.start, ramp.slope, ramp.all)
}

/// The cosine and the sine of a swing, enclosed.
pub fn ratio_of<E: Enclose>(s: &Swing) -> Ratio<E>
    ensures holds { (n d : ℕ) (a : Angle) → IsMoment n d → HoldsSwing s.now n d a
        → HoldsAngle E.holds result n d a }
    ensures size { IsRatioWithin E.size (2 ^ 40) result }
    ensures spread { (e : ℕ) → IsSwingWithin e s.now → IsRatioWithin E.spread e result }
{
    Ratio {
        cos: along_ramp(&s.cos),
        sin: along_ramp(&s.sin),
    }
}
