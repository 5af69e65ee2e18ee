ghost use Rattle.std.specs.Prelude.{◌≡◌, ◌≤ℤ◌};
ghost use Rattle.carton_halfturn.specs.Spans.{EnclosesCosine, EnclosesSine, IsNarrow};
ghost use Rattle.carton_halfturn.specs.Values.{InUnit};

use crate::ranges::{crest, farthest, nearest, range_of, trough};
use crate::spans::FoldSpan;
use crate::values::{cos_at, sin_at};
use carton_base::Bounds;

// From the least number of the one to the greatest of the other.
fn between(low: Bounds, high: Bounds) -> Bounds
    requires { low.lo ≤ℤ high.hi }
    ensures lo { result.lo ≡ low.lo }
    ensures hi { result.hi ≡ high.hi }
{
    Bounds {
        lo: low.lo,
        hi: high.hi,
    }
}

/// Bounds of the cosine over the whole span, in units of 2^-40. It falls on both sides of flat.
pub fn cos_bounds(f: FoldSpan) -> Bounds
    ensures encloses { EnclosesCosine f result.lo result.hi }
    ensures spread { IsNarrow f result.lo result.hi }
    ensures within { InUnit result.lo result.hi }
{
    let range = range_of(f);
    between(cos_at(farthest(range)), cos_at(nearest(range)))
}

/// Bounds of the sine over the whole span, in units of 2^-40. It rises up to a right angle and falls
/// past it, and turns its sign with the fold.
pub fn sin_bounds(f: FoldSpan) -> Bounds
    ensures encloses { EnclosesSine f result.lo result.hi }
    ensures spread { IsNarrow f result.lo result.hi }
    ensures within { InUnit result.lo result.hi }
{
    let folds = range_of(f);
    between(sin_at(trough(folds)), sin_at(crest(folds)))
}
