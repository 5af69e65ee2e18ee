ghost use Rattle.std.specs.Prelude.{◌≡◌, ℕ, ◌<◌, ◌≤◌, ◌^◌, List, length, All, Some, ℤ, pos};
ghost use Rattle.carton_base.specs.Rounding.{IsBetween};
ghost use Rattle.carton_base.specs.declared.limits.TheConstants.{LONGEST_PATH};
ghost use Rattle.carton_model.specs.Parting.{Position};
ghost use Rattle.carton_model.specs.Points.{IsNearPoint};
ghost use Rattle.carton_model.specs.Turning.{Angle, IsTurn, laid, turned_through};
ghost use Rattle.carton_enclose.specs.Held.{size_of, spread_of};
ghost use Rattle.carton_fix.specs.declared.fix.Fix.{Fix};
ghost use Rattle.carton_place.specs.Held.{HoldsPosition, HoldSwings, IsSwingWithin, greatest};
ghost use Rattle.carton_text.specs.Poses.{both, spot_text, AreThousandths, IsSpotOf};

use carton_base::{Triple, Turn, UNIT, ceil_div, floor_div};
use carton_enclose::Space;
use carton_fix::Fix;
use carton_place::{Swing, place_from};
use carton_tree::start_of;
use std::fmt;

/// Two whole numbers of thousandths of a dieline unit, between which a coordinate lies.
#[derive(Clone, Copy)]
pub struct Thousandths {
    pub low: i128,
    pub high: i128,
}

impl fmt::Display for Thousandths {
    ghost output = { λ b. Some (both b) };

    fn fmt<W: fmt::Write>(&self, f: &mut fmt::Formatter<W>) -> fmt::Result {
        write!(f, "{} {}", self.low, self.high)
    }
}

/// Where a point stands in the world.
#[derive(Clone, Copy)]
pub struct Spot {
    pub x: Thousandths,
    pub y: Thousandths,
    pub z: Thousandths,
}

impl fmt::Display for Spot {
    ghost output = { λ s. Some (spot_text s) };

    #[tactic(auto, unfolding(crate::specs::Poses::spot_text))]
    fn fmt<W: fmt::Write>(&self, f: &mut fmt::Formatter<W>) -> fmt::Result {
        write!(f, "x {} y {} z {}", self.x, self.y, self.z)
    }
}

// The thousandths between which a number lies.
fn in_thousandths(number: Fix) -> Thousandths
    requires size { size_of number.lo number.hi ≤ 2 ^ 63 }
    requires close { spread_of number.lo number.hi ≤ 2 ^ 28 }
    ensures { (x : ℤ) (v : ℕ) → IsBetween number.lo number.hi x v → AreThousandths result x (pos v) }
{
    Thousandths {
        low: floor_div(1000 * number.lo, UNIT),
        high: ceil_div(1000 * number.hi, UNIT),
    }
}

// The thousandths of a place that is known to about a quarter of one.
fn spot_in(place: Space<Fix>) -> Spot
    requires size { greatest (λ (f : Fix). size_of f.lo f.hi) place ≤ 2 ^ 63 }
    requires close { greatest (λ (f : Fix). spread_of f.lo f.hi) place ≤ 2 ^ 28 }
    ensures { (n d : ℕ) (p : Position)
        → HoldsPosition (λ (f : Fix) n d x v. IsBetween f.lo f.hi x v) place n d p → IsSpotOf result p }
{
    Spot {
        x: in_thousandths(place.x),
        y: in_thousandths(place.y),
        z: in_thousandths(place.z),
    }
}

/// Where a flat point stands after turns, by one swing for each, of joints that stand still.
pub fn spot_of(turns: &[Turn], swings: &[Swing], point: Triple) -> Spot
    requires count { length turns.now ≤ LONGEST_PATH }
    requires turns { All IsTurn turns.now }
    requires one_each { length swings.now ≡ length turns.now }
    requires still { All (IsSwingWithin 2) swings.now }
    requires near { IsNearPoint point }
    ensures { (angles : List Angle) → HoldSwings swings.now 0 1 angles
        → IsSpotOf result (turned_through turns.now angles (laid point)) }
{
    let start = start_of(point);
    spot_in(place_from(turns, swings, start.x, start.y))
}
