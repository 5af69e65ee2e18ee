ghost use Rattle.std.specs.Prelude.{◌^◌, pos, neg_ℤ, ◌≤ℤ◌};
ghost use Rattle.carton_base.specs.Rounding.{unit};

use carton_base::Bounds;

/// A number from -1 to 1 over the moments t of a piece, from 0 to 1: within `all`, and a number of
/// `start` plus t times one of `slope`. In units of 2^-40.
#[derive(Clone, Copy, Debug, PartialEq, Eq)]
pub struct Ramp {
    pub start: Bounds,
    pub slope: Bounds,
    pub all: Bounds,
    pub ghost start_low: { neg_ℤ unit ≤ℤ start.lo },
    pub ghost start_high: { start.hi ≤ℤ unit },
    pub ghost slope_low: { neg_ℤ (pos (2 ^ 44)) ≤ℤ slope.lo },
    pub ghost slope_high: { slope.hi ≤ℤ pos (2 ^ 44) },
    pub ghost all_low: { neg_ℤ unit ≤ℤ all.lo },
    pub ghost all_high: { all.hi ≤ℤ unit },
    pub ghost meets_below: { start.lo ≤ℤ all.hi },
    pub ghost meets_above: { all.lo ≤ℤ start.hi },
}

/// How the cosine and the sine of one joint's fold go over a piece of a move. It serves all points
/// that the joint turns.
#[derive(Clone, Copy, Debug, PartialEq, Eq)]
pub struct Swing {
    pub cos: Ramp,
    pub sin: Ramp,
}
