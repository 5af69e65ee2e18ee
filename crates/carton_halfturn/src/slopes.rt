ghost use Rattle.std.specs.Prelude.{◌≡◌, IsTrue, ◌↔◌, ◌*◌, ◌≤◌, ◌^◌, pos, neg_ℤ, ◌-ℤ◌, ◌+ℤ◌, ◌*ℤ◌, ◌≤ℤ◌};
ghost use Rattle.std.specs.Prelude.{unsigned_abs};
ghost use Rattle.carton_halfturn.specs.Spans.{LeadsCosine, LeadsSine, InOneStretch, IsEven};
ghost use Rattle.carton_halfturn.specs.Slopes.{IsGentle, IsModest, InSixteen, IsRate, IsBend, IsReach};
ghost use Rattle.carton_halfturn.specs.Values.{InUnit};

use crate::ranges::{Range, range_of};
use crate::spans::FoldSpan;
use crate::values::{cos_at, ends_of, sin_at};
use carton_base::{Bounds, fraction, square};

// The folds lie within a right angle, or past it one way, and no more than a right angle apart.
fn is_even(r: Range) -> bool
    ensures { IsTrue result ↔ IsEven r.low r.high r.den }
{
    if r.high - r.low > r.den {
        return false;
    }
    if r.low >= r.den {
        return true;
    }
    if r.high <= -r.den {
        return true;
    }
    if r.low < -r.den {
        return false;
    }
    r.high <= r.den
}

// How far a value may leave its chord over the span, for each whole span that passes: twice the
// square of the fold's change, which bounds half the second derivative.
fn bend(f: FoldSpan) -> i128
    requires near { unsigned_abs (f.to -ℤ f.from) ≤ unsigned_abs f.den }
    ensures bend { IsBend f result }
    ensures from { pos 0 ≤ℤ result }
    ensures upto { result ≤ℤ pos (2 ^ 41) }
{
    let step = square::<40>((f.to - f.from) as i128);
    let den = square::<40>(f.den as i128);
    fraction(2 * step, den).hi
}

// How far a value may go over the span: twice the fold's change.
fn reach(f: FoldSpan) -> i128
    ensures reach { IsReach f result }
    ensures from { pos 0 ≤ℤ result }
    ensures upto { result ≤ℤ pos (2 ^ 43) }
{
    let step = (f.to - f.from) as i128;
    fraction(2 * step.abs(), f.den as i128).hi
}

// The change from a value of the first bounds to one of the last, give or take so much.
fn change(first: Bounds, last: Bounds, by: i128) -> Bounds
    requires first { InUnit first.lo first.hi }
    requires last { InUnit last.lo last.hi }
    requires from { pos 0 ≤ℤ by }
    requires upto { by ≤ℤ pos (2 ^ 41) }
    ensures low { result.lo ≡ last.lo -ℤ first.hi -ℤ by }
    ensures high { result.hi ≡ last.hi -ℤ first.lo +ℤ by }
    ensures within { InSixteen result.lo result.hi }
{
    Bounds {
        lo: last.lo - first.hi - by,
        hi: last.hi - first.lo + by,
    }
}

// So much either way.
fn either_way(by: i128) -> Bounds
    requires from { pos 0 ≤ℤ by }
    requires upto { by ≤ℤ pos (2 ^ 43) }
    ensures low { result.lo ≡ neg_ℤ by }
    ensures high { result.hi ≡ by }
    ensures within { InSixteen result.lo result.hi }
{
    Bounds { lo: -by, hi: by }
}

// The rates from a value at the first end to one at the last, widened for the way between them.
fn rates(f: FoldSpan, first: Bounds, last: Bounds) -> Bounds
    requires first { InUnit first.lo first.hi }
    requires last { InUnit last.lo last.hi }
    requires first_tight { (first.hi -ℤ first.lo) ≤ℤ pos 1 }
    requires last_tight { (last.hi -ℤ last.lo) ≤ℤ pos 1 }
    ensures rate { IsRate f first last result }
    ensures spread { InOneStretch f → IsGentle f result.lo result.hi }
    ensures modest { IsModest f result.lo result.hi }
    ensures within { InSixteen result.lo result.hi }
{
    if is_even(range_of(f)) {
        return change(first, last, bend(f));
    }
    either_way(reach(f))
}

/// Bounds of the rate at which the cosine leaves that of the first end, in units of 2^-40 for the
/// whole span: the change from end to end, give or take twice the square of the fold's change.
pub fn cos_slope(f: FoldSpan) -> Bounds
    ensures leads { LeadsCosine f result.lo result.hi }
    ensures spread { InOneStretch f → IsGentle f result.lo result.hi }
    ensures modest { IsModest f result.lo result.hi }
    ensures within { InSixteen result.lo result.hi }
{
    let ends = ends_of(f);
    rates(f, cos_at(ends.first), cos_at(ends.last))
}

/// Bounds of the rate at which the sine leaves that of the first end, likewise.
pub fn sin_slope(f: FoldSpan) -> Bounds
    ensures leads { LeadsSine f result.lo result.hi }
    ensures spread { InOneStretch f → IsGentle f result.lo result.hi }
    ensures modest { IsModest f result.lo result.hi }
    ensures within { InSixteen result.lo result.hi }
{
    let ends = ends_of(f);
    rates(f, sin_at(ends.first), sin_at(ends.last))
}
