ghost use Rattle.std.specs.Prelude.{◌≡◌, ℕ, ◌^◌, ◌<◌, ◌≤◌, ◌+◌, ◌*◌, max, ℤ, pos, ◌-ℤ◌, ◌*ℤ◌, ◌≤ℤ◌};
ghost use Rattle.std.specs.Prelude.{unsigned_abs};
ghost use Rattle.carton_base.specs.Rounding.{unit, IsBetween};
ghost use Rattle.carton_base.specs.Moments.{IsMoment};
ghost use Rattle.carton_enclose.specs.Held.{size_of, spread_of, Meet, HoldsWhole, HoldsAll, HoldsRamp};
ghost use Rattle.carton_enclose.specs.Held.{HoldsSum, HoldsDifference, HoldsNegation, HoldsProduct};

use carton_base::Bounds;

/// A number that changes over a piece of a move, known to lie between bounds at every moment t of the piece,
/// from 0 at its start to 1 at its end. The bounds are in units of 2^-40, and so are sizes and spreads:
/// the size is the larger of |low| and |high|, and the spread is high - low.
pub trait Enclose: Copy {
    // At the moment n / d of the piece it holds the fraction x / v, v > 0.
    ghost holds: { Self → ℕ → ℕ → ℤ → ℕ → Type 0 };

    // The bounds, their size and their spread, in units.
    ghost low_of: { Self → ℤ };

    ghost high_of: { Self → ℤ };

    ghost size: { Self → ℕ };

    ghost spread: { Self → ℕ };

    /// Exactly n, at every moment.
    fn whole(n: i64) -> Self
        requires { unsigned_abs n ≤ 2 ^ 31 }
        ensures holds { HoldsWhole holds n result }
        ensures low { low_of result ≡ n *ℤ unit }
        ensures high { high_of result ≡ n *ℤ unit }
        ensures size { size result ≡ unsigned_abs n * 2 ^ 40 }
        ensures spread { spread result ≡ 0 };

    /// Some number within the bounds, at every moment.
    fn between(all: Bounds) -> Self
        requires { size_of all.lo all.hi ≤ 2 ^ 84 }
        ensures holds { HoldsAll holds all.lo all.hi result }
        ensures size { size result ≤ size_of all.lo all.hi }
        ensures spread { spread result ≤ spread_of all.lo all.hi };

    /// A number that is within `all` and is a number of `start` plus t times one of `slope`, at
    /// every moment t.
    fn ramp(start: Bounds, slope: Bounds, all: Bounds) -> Self
        requires start { size_of start.lo start.hi ≤ 2 ^ 84 }
        requires slope { size_of slope.lo slope.hi ≤ 2 ^ 84 }
        requires all { size_of all.lo all.hi ≤ 2 ^ 84 }
        requires meet { Meet start.lo start.hi all.lo all.hi }
        ensures holds { HoldsRamp holds start.lo start.hi slope.lo slope.hi all.lo all.hi result }
        ensures size { size result ≤ size_of all.lo all.hi }
        ensures spread { spread result ≤ spread_of all.lo all.hi };

    /// The sum, moment by moment.
    fn add(self, other: Self) -> Self
        requires left { size self ≤ 2 ^ 84 }
        requires right { size other ≤ 2 ^ 84 }
        ensures holds { HoldsSum holds self other result }
        ensures size { size result ≤ size self + size other }
        ensures spread { spread result ≤ spread self + spread other };

    /// The difference, moment by moment.
    fn sub(self, other: Self) -> Self
        requires left { size self ≤ 2 ^ 84 }
        requires right { size other ≤ 2 ^ 84 }
        ensures holds { HoldsDifference holds self other result }
        ensures size { size result ≤ size self + size other }
        ensures spread { spread result ≤ spread self + spread other };

    /// The number with its sign turned, moment by moment.
    fn neg(self) -> Self
        requires { size self ≤ 2 ^ 84 }
        ensures holds { HoldsNegation holds self result }
        ensures size { size result ≤ size self }
        ensures spread { spread result ≡ spread self };

    /// The product, moment by moment, with its bounds rounded outward.
    fn mul(self, other: Self) -> Self
        requires { size self * size other ≤ 2 ^ 125 }
        ensures holds { HoldsProduct holds self other result }
        ensures size { size result * 2 ^ 40 ≤ size self * size other + 2 ^ 40 }
        ensures spread { spread result * 2 ^ 40 ≤ size self * spread other + size other * spread self
            + 2 * 2 ^ 40 };

    /// A bound below the number at every moment.
    fn low(self) -> i128
        ensures value { result ≡ low_of self }
        ensures below { (n d : ℕ) (x : ℤ) (v : ℕ) → IsMoment n d → 0 < v → holds self n d x v
            → (result *ℤ pos v) ≤ℤ (x *ℤ unit) };

    /// A bound above the number at every moment.
    fn high(self) -> i128
        ensures value { result ≡ high_of self }
        ensures above { (n d : ℕ) (x : ℤ) (v : ℕ) → IsMoment n d → 0 < v → holds self n d x v
            → (x *ℤ unit) ≤ℤ (result *ℤ pos v) };

    /// How far apart the two bounds are.
    fn spread(self) -> i128
        ensures value { result ≡ high_of self -ℤ low_of self }
        ensures natural { result ≡ pos (spread self) };

    // What is held at any moment lies between the two bounds.
    ghost enclosed: { (e : Self) (n d : ℕ) (x : ℤ) (v : ℕ) → IsMoment n d → 0 < v → holds e n d x v
        → IsBetween (low_of e) (high_of e) x v };

    // Whether a fraction is held doesn't depend on how it is written.
    ghost same: { (e : Self) (n d : ℕ) (x y : ℤ) (v w : ℕ) → IsMoment n d → 0 < v → 0 < w
        → x *ℤ pos w ≡ y *ℤ pos v → holds e n d x v → holds e n d y w };

    // The size and the spread are those of the two bounds, so the low bound is at most the high one.
    ghost sized: { (e : Self) → size e ≡ size_of (low_of e) (high_of e) };

    ghost apart: { (e : Self) → pos (spread e) ≡ high_of e -ℤ low_of e };
}
