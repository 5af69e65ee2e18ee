ghost use Rattle.std.specs.Prelude.{◌≡◌, refl, ◌^◌, ◌≤◌, ◌*◌, ◌*ℤ◌, ◌≤ℤ◌, unsigned_abs};
ghost use Rattle.std.specs.Int.{int_min, int_max};
ghost use Rattle.carton_base.specs.Rounding.{unit, IsFloor, IsCeil, IsBetween};
ghost use Rattle.carton_enclose.specs.Held.{size_of, spread_of};
ghost use Rattle.carton_fix.specs.Corners.{least_corner_of, greatest_corner_of};

use carton_base::{Bounds, UNIT, ceil_div, floor_div};
use carton_enclose::Enclose;

/// A number that lies from lo to hi at every moment, in units of 2^-40.
#[derive(Clone, Copy, Debug, Drop)]
pub struct Fix {
    pub lo: i128,
    pub hi: i128,
    pub ghost ordered: { lo ≤ℤ hi },
    pub ghost bounded: { size_of lo hi ≤ 2 ^ 100 },
}

impl Enclose for Fix {
    ghost use Rattle.carton_enclose.proofs.Ends.{same_fraction, spread_is_gap};

    ghost holds = { λ f n d x v. IsBetween f.lo f.hi x v };

    ghost low_of = { λ f. f.lo };

    ghost high_of = { λ f. f.hi };

    ghost size = { λ f. size_of f.lo f.hi };

    ghost spread = { λ f. spread_of f.lo f.hi };

    fn whole(n: i64) -> Self {
        let exact = n as i128 * UNIT;
        Fix {
            lo: exact,
            hi: exact,
        }
    }

    fn between(all: Bounds) -> Self {
        Fix {
            lo: all.lo,
            hi: all.hi,
        }
    }

    fn ramp(_start: Bounds, _slope: Bounds, all: Bounds) -> Self {
        Self::between(all)
    }

    fn add(self, other: Self) -> Self {
        Fix {
            lo: self.lo + other.lo,
            hi: self.hi + other.hi,
        }
    }

    fn sub(self, other: Self) -> Self {
        self.add(other.neg())
    }

    fn neg(self) -> Self {
        Fix {
            lo: -self.hi,
            hi: -self.lo,
        }
    }

    fn mul(self, other: Self) -> Self {
        outward(corners(self, other))
    }

    fn low(self) -> i128 {
        self.lo
    }

    fn high(self) -> i128 {
        self.hi
    }

    fn spread(self) -> i128 {
        self.hi - self.lo
    }

    ghost enclosed = { λ e n d x v m p h. h };

    ghost same = { λ e n d x y v w m p q s h. same_fraction e.lo e.hi x y v w p q s h };

    ghost sized = { λ e. refl };

    ghost apart = { λ e. spread_is_gap e.lo e.hi e.ordered };
}

// The least and the greatest of the two products of x and an end of b.
fn times(x: i128, b: Fix) -> Bounds
    requires { unsigned_abs x * size_of b.lo b.hi ≤ 2 ^ 125 }
    ensures least { result.lo ≡ int_min (x *ℤ b.lo) (x *ℤ b.hi) }
    ensures greatest { result.hi ≡ int_max (x *ℤ b.lo) (x *ℤ b.hi) }
{
    let low = x * b.lo;
    let high = x * b.hi;
    Bounds {
        lo: low.min(high),
        hi: low.max(high),
    }
}

// The least and the greatest of the four products of an end of a and an end of b.
fn corners(a: Fix, b: Fix) -> Bounds
    requires { size_of a.lo a.hi * size_of b.lo b.hi ≤ 2 ^ 125 }
    ensures least { result.lo ≡ least_corner_of a.lo a.hi b.lo b.hi }
    ensures greatest { result.hi ≡ greatest_corner_of a.lo a.hi b.lo b.hi }
{
    let low = times(a.lo, b);
    let high = times(a.hi, b);
    Bounds {
        lo: low.lo.min(high.lo),
        hi: low.hi.max(high.hi),
    }
}

// The same numbers, in units of 2^-80, with each end rounded outward to units of 2^-40.
fn outward(all: Bounds) -> Fix
    requires { size_of all.lo all.hi ≤ 2 ^ 125 }
    ensures low { IsFloor all.lo unit result.lo }
    ensures high { IsCeil all.hi unit result.hi }
{
    Fix {
        lo: floor_div(all.lo, UNIT),
        hi: ceil_div(all.hi, UNIT),
    }
}
