ghost use Rattle.std.specs.Prelude.{◌≡◌, ◌≤◌, ◌^◌, pos, ◌-ℤ◌, ◌≤ℤ◌, ◌<ℤ◌, unsigned_abs};
ghost use Rattle.carton_base.specs.Rounding.{IsBetween};
ghost use Rattle.carton_model.specs.HalfTurns.{half_cosine, half_sine, cosine, sine, square_sum};
ghost use Rattle.carton_halfturn.specs.Values.{HasFolds, IsProper, IsValue, IsCosine, IsSine, InUnit};

use crate::folds::Fold;
use crate::spans::FoldSpan;
use carton_base::{Bounds, difference, double, fraction, product, square, sum};

/// The folds at the two ends of a span.
#[derive(Clone, Copy)]
pub struct Ends {
    pub first: Fold,
    pub last: Fold,
}

// The folds at the two ends.
pub fn ends_of(f: FoldSpan) -> Ends
    ensures { HasFolds f result.first result.last }
{
    let FoldSpan { from, to, den } = f;
    Ends {
        first: Fold { num: from, den },
        last: Fold { num: to, den },
    }
}

// Two numbers in the ratio of cosine and sine of half a fold's angle.
#[derive(Clone, Copy)]
struct HalfPair {
    c: i128,
    s: i128,
}

fn half_pair(f: Fold) -> HalfPair
    ensures c { result.c ≡ half_cosine f.num (unsigned_abs f.den) }
    ensures s { result.s ≡ half_sine f.num (unsigned_abs f.den) }
    ensures c_size { unsigned_abs result.c ≤ 2 ^ 40 }
    ensures s_size { unsigned_abs result.s ≤ 2 ^ 40 }
{
    let n = f.num as i128;
    let d = f.den as i128;
    if n > d {
        HalfPair { c: 2 * d - n, s: d }
    } else if n < -d {
        HalfPair {
            c: 2 * d + n,
            s: -d,
        }
    } else {
        HalfPair { c: d, s: n }
    }
}

// The cosine cos/over and the sine sin/over of a fold.
#[derive(Clone, Copy)]
struct Ratios {
    cos: i128,
    sin: i128,
    over: i128,
    ghost cos_size: { unsigned_abs cos ≤ 2 ^ 81 },
    ghost sin_size: { unsigned_abs sin ≤ 2 ^ 81 },
    ghost over_size: { unsigned_abs over ≤ 2 ^ 81 },
}

fn ratios_of(f: Fold) -> Ratios
    ensures cos { result.cos ≡ cosine f.num (unsigned_abs f.den) }
    ensures sin { result.sin ≡ sine f.num (unsigned_abs f.den) }
    ensures over { result.over ≡ pos (square_sum f.num (unsigned_abs f.den)) }
    ensures proper { IsProper result.cos result.sin result.over }
{
    let HalfPair { c, s } = half_pair(f);
    let cc = square::<40>(c);
    let ss = square::<40>(s);
    Ratios {
        cos: difference::<80>(cc, ss),
        sin: double::<80>(product::<40, 40>(c, s)),
        over: sum::<80>(cc, ss),
    }
}

// The fraction part/over, which lies from -1 to 1, rounded down and up, in units of 2^-40.
fn ratio(part: i128, over: i128) -> Bounds
    requires within { unsigned_abs part ≤ unsigned_abs over }
    requires size { unsigned_abs over ≤ 2 ^ 81 }
    requires positive { pos 0 <ℤ over }
    ensures { IsValue part (unsigned_abs over) result.lo result.hi }
{
    fraction(part, over)
}

/// The cosine of the fold, rounded down and up, in units of 2^-40.
pub fn cos_at(f: Fold) -> Bounds
    ensures { IsCosine f result.lo result.hi }
{
    let turn = ratios_of(f);
    ratio(turn.cos, turn.over)
}

/// The sine of the fold, rounded down and up, in units of 2^-40.
pub fn sin_at(f: Fold) -> Bounds
    ensures { IsSine f result.lo result.hi }
{
    let turn = ratios_of(f);
    ratio(turn.sin, turn.over)
}

/// The cosine at the first end of the span, in units of 2^-40.
pub fn cos_start(f: FoldSpan) -> Bounds
    ensures encloses { let e = unsigned_abs f.den in
        IsBetween result.lo result.hi (cosine f.from e) (square_sum f.from e) }
    ensures within { InUnit result.lo result.hi }
    ensures spread { (result.hi -ℤ result.lo) ≤ℤ pos 1 }
{
    cos_at(ends_of(f).first)
}

/// The sine at the first end of the span, in units of 2^-40.
pub fn sin_start(f: FoldSpan) -> Bounds
    ensures encloses { let e = unsigned_abs f.den in
        IsBetween result.lo result.hi (sine f.from e) (square_sum f.from e) }
    ensures within { InUnit result.lo result.hi }
    ensures spread { (result.hi -ℤ result.lo) ≤ℤ pos 1 }
{
    sin_at(ends_of(f).first)
}
