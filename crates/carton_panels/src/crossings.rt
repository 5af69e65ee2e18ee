ghost use Rattle.std.specs.Prelude.{◌≡◌, ℕ, ◌<◌, ◌≤◌, ◌^◌, length, All, Any, Contains, IsTrue, ◌↔◌, IfOk};
ghost use Rattle.std.specs.Prelude.{OnOk, IfErr, slice_index_or, ℤ, pos, neg_ℤ, ◌-ℤ◌, ◌*ℤ◌, ◌<ℤ◌};
ghost use Rattle.std.specs.Prelude.{unsigned_abs};
ghost use Rattle.carton_base.specs.declared.numbers.Triple.{Triple};
ghost use Rattle.carton_panels.specs.Panels.{Side, sides_of};
ghost use Rattle.carton_panels.specs.Shrinking.{IsSamePoint};
ghost use Rattle.carton_model.specs.Points.{IsSmall};
ghost use Rattle.carton_panels.specs.Insets.{KeepsAll, inset};
ghost use Rattle.carton_panels.specs.Crossings.{CoversPair, CoversRow, HasParts, IsCovered, IsCrossing};
ghost use Rattle.carton_panels.specs.Crossings.{IsInsetCorner, IsGathered, IsPointOf};

use crate::around::next_in_round;
use crate::error::PanelError;
use crate::inset::Inset;
use carton_base::{Triple, difference, product};
use std::alloc::Global;

// p*s - r*q.
fn determinant(p: i128, q: i128, r: i128, s: i128) -> i128
    requires p { unsigned_abs p ≤ 2 ^ 30 }
    requires q { unsigned_abs q ≤ 2 ^ 14 }
    requires r { unsigned_abs r ≤ 2 ^ 30 }
    requires s { unsigned_abs s ≤ 2 ^ 14 }
    ensures value { result ≡ p *ℤ s -ℤ r *ℤ q }
    ensures size { unsigned_abs result ≤ 2 ^ 45 }
{
    difference::<44>(product::<30, 14>(p, s), product::<30, 14>(r, q))
}

// The triple of these parts.
fn triple(x: i128, y: i128, w: i128) -> Triple
    requires x { unsigned_abs x ≤ 2 ^ 45 }
    requires y { unsigned_abs y ≤ 2 ^ 45 }
    requires w { unsigned_abs w ≤ 2 ^ 45 }
    requires positive { pos 0 <ℤ w }
    ensures parts { HasParts result x y w }
    ensures small { IsSmall result }
{
    Triple {
        x: x as i64,
        y: y as i64,
        w: w as i64,
    }
}

// The flat point (x/w, y/w), if w isn't 0.
fn point(x: i128, y: i128, w: i128) -> Option<Triple>
    requires x { unsigned_abs x ≤ 2 ^ 45 }
    requires y { unsigned_abs y ≤ 2 ^ 45 }
    requires w { unsigned_abs w ≤ 2 ^ 45 }
    ensures { IsPointOf x y w result }
{
    if w > 0 {
        Some(triple(x, y, w))
    } else if w < 0 {
        Some(triple(-x, -y, -w))
    } else {
        None
    }
}

// Where the inset lines of the sides at i and j cross, by Cramer's rule.
fn crossing_at(face: Inset<'_>, i: usize, j: usize) -> Option<Triple>
    requires i { i < length face.places.now }
    requires j { j < length face.places.now }
    ensures { (d : Side)
        → IsCrossing face.entry.margin (slice_index_or (sides_of face.entry.places.now) i d) (slice_index_or
        (sides_of face.entry.places.now) j d) result }
{
    let first = face.line(i);
    let second = face.line(j);
    let x = determinant(first.e, first.b, second.e, second.b);
    let y = determinant(second.e, second.a, first.e, first.a);
    let w = determinant(first.a, first.b, second.a, second.b);
    point(x, y, w)
}

// Whether a*b = c*d.
fn has_same_product(a: i64, b: i64, c: i64, d: i64) -> bool
    requires a { unsigned_abs a ≤ 2 ^ 45 }
    requires b { unsigned_abs b ≤ 2 ^ 45 }
    requires c { unsigned_abs c ≤ 2 ^ 45 }
    requires d { unsigned_abs d ≤ 2 ^ 45 }
    ensures { IsTrue result ↔ a *ℤ b ≡ c *ℤ d }
{
    product::<45, 45>(i128::from(a), i128::from(b))
        == product::<45, 45>(i128::from(c), i128::from(d))
}

// Whether two triples stand for one flat point.
fn is_same_point(a: Triple, b: Triple) -> bool
    requires a { IsSmall a }
    requires b { IsSmall b }
    ensures { IsTrue result ↔ IsSamePoint a b }
{
    has_same_product(a.x, b.w, b.x, a.w) && has_same_product(a.y, b.w, b.y, a.w)
}

// Whether the flat point is one of those found.
pub fn is_found(found: &[Triple], t: Triple) -> bool
    requires found { All IsSmall found.now }
    requires t { IsSmall t }
    ensures { IsTrue result ↔ Any (λ k. IsSamePoint k t) found.now }
{
    for k in found {
        if is_same_point(*k, t) {
            return true;
        }
    }
    false
}

// Adds the flat point to those found where it keeps all inequalities and is none of them.
fn add(found: &mut Vec<Triple>, face: Inset<'_>, t: Triple) -> Result<(), PanelError>
    requires t { IsSmall t }
    requires corner { IsInsetCorner face.margin face.places.now t }
    requires gathered { IsGathered face.margin face.places.now found.old.items }
    ensures gathered { OnOk result (IsGathered face.entry.margin face.entry.places.now found.new.items) }
    ensures grows { OnOk result ((k : Triple) → Contains found.old.items k → Contains found.new.items k) }
    ensures covers { OnOk result (KeepsAll face.entry.margin face.entry.places.now t.x t.y t.w
        → IsCovered found.new.items t.x t.y t.w) }
    ensures err { IfErr result (λ e. e ≡ PanelError.Memory) }
{
    if face.keeps_all(t) && !is_found(found, t) {
        found.push(t)?;
    }
    Ok(())
}

// Adds where the inset lines of the sides at i and j cross, if it keeps all inequalities.
fn add_pair(found: &mut Vec<Triple>, face: Inset<'_>, i: usize, j: usize) -> Result<(), PanelError>
    requires i { i < length face.places.now }
    requires j { j < length face.places.now }
    requires gathered { IsGathered face.margin face.places.now found.old.items }
    ensures gathered { OnOk result (IsGathered face.entry.margin face.entry.places.now found.new.items) }
    ensures grows { OnOk result ((k : Triple) → Contains found.old.items k → Contains found.new.items k) }
    ensures covers { OnOk result
        ((d : Side)
        → CoversPair face.entry.margin face.entry.places.now found.new.items (slice_index_or
        (sides_of face.entry.places.now) i d) (slice_index_or (sides_of face.entry.places.now) j d)) }
    ensures err { IfErr result (λ e. e ≡ PanelError.Memory) }
{
    let Some(t) = crossing_at(face, i, j) else {
        return Ok(());
    };
    // Most crossings lie outside the side after the first, so that not all sides are looked at.
    if face.gap(next_in_round(i, face.places.len()), t) < 0 {
        return Ok(());
    }
    add(found, face, t)
}

// Adds where the inset line of the side at i crosses those of the later sides.
fn add_crossings(found: &mut Vec<Triple>, face: Inset<'_>, i: usize) -> Result<(), PanelError>
    requires i { i < length face.places.now }
    requires gathered { IsGathered face.margin face.places.now found.old.items }
    ensures gathered { OnOk result (IsGathered face.entry.margin face.entry.places.now found.new.items) }
    ensures grows { OnOk result ((k : Triple) → Contains found.old.items k → Contains found.new.items k) }
    ensures covers { OnOk result (CoversRow face.entry.margin face.entry.places.now found.new.items i
        (length face.entry.places.now)) }
    ensures err { IfErr result (λ e. e ≡ PanelError.Memory) }
{
    for j in i + 1..face.places.len() {
        add_pair(found, face, i, j)?;
    }
    Ok(())
}

// The corners of what the margin leaves of a convex face, each once: where the inset lines of two
// sides cross, if that point keeps the inequalities of all sides.
pub fn inset_corners(alloc: Global, face: Inset<'_>) -> Result<Vec<Triple>, PanelError>
    ensures gathered { IfOk result (λ v. IsGathered face.entry.margin face.entry.places.now v.items) }
    ensures covers { IfOk result (λ v. (i : ℕ) → i < length face.entry.places.now
        → CoversRow face.entry.margin face.entry.places.now v.items i (length face.entry.places.now)) }
    ensures err { IfErr result (λ e. e ≡ PanelError.Memory) }
{
    let mut found = Vec::new(alloc);
    for i in 0..face.places.len() {
        add_crossings(&mut found, face, i)?;
    }
    Ok(found)
}
