ghost use Rattle.std.specs.Prelude.{◌≡◌, ◌*◌, ◌≤◌, ◌^◌, pos, neg_ℤ, ◌-ℤ◌, ◌≤ℤ◌, ◌<ℤ◌, unsigned_abs};
ghost use Rattle.carton_halfturn.specs.Ranges.{IsNearest, IsFarthest, IsCrest};
ghost use Rattle.carton_halfturn.specs.Spans.{IsRangeOf};

use crate::folds::Fold;
use crate::spans::FoldSpan;

/// The folds from low/den to high/den.
#[derive(Clone, Copy)]
pub struct Range {
    pub low: i64,
    pub high: i64,
    pub den: i64,
    pub ghost positive: { pos 0 <ℤ den },
    pub ghost fine: { den ≤ℤ pos (2 ^ 40) },
    pub ghost ordered: { low ≤ℤ high },
    pub ghost least: { neg_ℤ (pos (2 * unsigned_abs den)) ≤ℤ low },
    pub ghost greatest: { high ≤ℤ pos (2 * unsigned_abs den) },
}

/// The folds that the span passes.
pub fn range_of(f: FoldSpan) -> Range
    ensures { IsRangeOf f result.low result.high result.den }
{
    if f.from <= f.to {
        return Range {
            low: f.from,
            high: f.to,
            den: f.den,
        };
    }
    Range {
        low: f.to,
        high: f.from,
        den: f.den,
    }
}

// The same folds, each turned the other way.
fn turned(r: Range) -> Range
    ensures low { result.low ≡ neg_ℤ r.high }
    ensures high { result.high ≡ neg_ℤ r.low }
    ensures den { result.den ≡ r.den }
{
    Range {
        low: -r.high,
        high: -r.low,
        den: r.den,
    }
}

// The fold turned the other way.
fn opposite(f: Fold) -> Fold
    ensures num { result.num ≡ neg_ℤ f.num }
    ensures den { result.den ≡ f.den }
{
    Fold {
        num: -f.num,
        den: f.den,
    }
}

// One of the folds.
fn fold_at(r: Range, num: i64) -> Fold
    requires from { r.low ≤ℤ num }
    requires upto { num ≤ℤ r.high }
    ensures num { result.num ≡ num }
    ensures den { result.den ≡ r.den }
{
    Fold { num, den: r.den }
}

/// The fold that lies nearest to flat.
pub fn nearest(r: Range) -> Fold
    ensures den { result.den ≡ r.den }
    ensures nearest { IsNearest r.low r.high result.num }
{
    let num = if r.low >= 0 {
        r.low
    } else if r.high <= 0 {
        r.high
    } else {
        0
    };
    fold_at(r, num)
}

/// The fold that lies farthest from flat.
pub fn farthest(r: Range) -> Fold
    ensures den { result.den ≡ r.den }
    ensures farthest { IsFarthest r.low r.high result.num }
{
    if r.high >= -r.low {
        return fold_at(r, r.high);
    }
    fold_at(r, r.low)
}

/// The fold that has the greatest sine.
pub fn crest(r: Range) -> Fold
    ensures den { result.den ≡ r.den }
    ensures crest { IsCrest r.low r.high r.den result.num }
{
    if r.low >= r.den {
        return fold_at(r, r.low);
    }
    if r.high >= r.den {
        return fold_at(r, r.den);
    }
    if r.low + r.high >= -2 * r.den {
        return fold_at(r, r.high);
    }
    fold_at(r, r.low)
}

/// The fold that has the least sine.
pub fn trough(r: Range) -> Fold
    ensures den { result.den ≡ r.den }
    ensures trough { IsCrest (neg_ℤ r.high) (neg_ℤ r.low) r.den (neg_ℤ result.num) }
{
    opposite(crest(turned(r)))
}
