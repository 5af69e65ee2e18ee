ghost use Rattle.std.specs.Prelude.{◌≡◌, ◌⊎◌, ℕ, ◌<◌, ◌≤◌, length, Contains, IsTrue, ◌↔◌, slice_get};
ghost use Rattle.std.specs.Prelude.{slice_index_or};
ghost use Rattle.carton_model.specs.Dielines.{IsDieline};
ghost use Rattle.carton_panels.specs.Creases.{Joins};
ghost use Rattle.carton_tree.specs.Joints.{IsSlanted, IsJointOf, IsJoint, edge_at, vertices_of};
ghost use Rattle.carton_tree.specs.Rules.{Never, IsThreefold, IsOneWay, IsSlantedJoint};
ghost use Rattle.carton_tree.specs.Steps.{AreBesides, IsLeastEdge, IsPairAnswer, GoBoth};

use crate::besides::Beside;
use crate::sides::{goes, vertices_of};
use carton_base::{EdgeId, Letter, PanelId, RawDieline};

// The least edge that is a side of three panels.
pub fn first_threefold(raw: &RawDieline, besides: &[Beside]) -> Option<EdgeId>
    requires dieline { IsDieline raw.now }
    requires besides { AreBesides raw.now besides.now }
    requires whole { length besides.now ≡ length raw.now.edges }
    ensures { IsLeastEdge (IsThreefold raw.now) result }
{
    for k in 0..besides.len() {
        if let Beside::More = besides[k] {
            return Some(EdgeId(k as u16));
        }
    }
    None
}

// Whether two panels go along the edge in the same direction.
fn is_one_way(raw: &RawDieline, k: usize, first: PanelId, second: PanelId) -> bool
    requires k { k < length raw.now.edges }
    requires first { first.0 < length raw.now.faces }
    requires second { second.0 < length raw.now.faces }
    ensures { IsTrue result ↔ GoBoth raw.now k first.0 second.0 }
{
    let edge = raw.edges.as_slice()[k];
    let one = vertices_of(raw, first);
    let other = vertices_of(raw, second);
    (goes(one, edge.p, edge.q) && goes(other, edge.p, edge.q))
        || (goes(one, edge.q, edge.p) && goes(other, edge.q, edge.p))
}

// The least edge along which two panels go in the same direction.
pub fn first_one_way(raw: &RawDieline, besides: &[Beside]) -> Option<EdgeId>
    requires dieline { IsDieline raw.now }
    requires besides { AreBesides raw.now besides.now }
    requires whole { length besides.now ≡ length raw.now.edges }
    requires edges { Never (IsThreefold raw.now) }
    ensures { IsLeastEdge (IsOneWay raw.now) result }
{
    for k in 0..besides.len() {
        if let Beside::Two(first, second) = besides[k] {
            if is_one_way(raw, k, first, second) {
                return Some(EdgeId(k as u16));
            }
        }
    }
    None
}

// Whether an edge of this letter joins two panels.
fn joins(letter: Letter) -> bool
    ensures { IsTrue result ↔ Joins letter }
{
    match letter {
        Letter::Mountain | Letter::Valley | Letter::Flat | Letter::Unassigned => true,
        Letter::Boundary | Letter::Cut => false,
    }
}

// The two panels that the edge joins.
pub fn joined_at(raw: &RawDieline, besides: &[Beside], k: usize) -> Option<(PanelId, PanelId)>
    requires dieline { IsDieline raw.now }
    requires besides { AreBesides raw.now besides.now }
    requires whole { length besides.now ≡ length raw.now.edges }
    requires edges { Never (IsThreefold raw.now) }
    requires k { k < length raw.now.edges }
    ensures { IsPairAnswer raw.now k result }
{
    if !joins(raw.letters.as_slice()[k]) {
        return None;
    }
    match besides[k] {
        Beside::Two(first, second) => Some((first, second)),
        _ => None,
    }
}

// Whether the edge is parallel to no axis.
fn is_slanted(raw: &RawDieline, k: usize) -> bool
    requires dieline { IsDieline raw.now }
    requires k { k < length raw.now.edges }
    ensures { IsTrue result ↔ IsSlanted raw.now k }
{
    let edge = raw.edges.as_slice()[k];
    let from = raw.vertices.as_slice()[edge.p as usize];
    let to = raw.vertices.as_slice()[edge.q as usize];
    from.x != to.x && from.y != to.y
}

// The least joint that is parallel to no axis.
pub fn first_slanted(raw: &RawDieline, besides: &[Beside]) -> Option<EdgeId>
    requires dieline { IsDieline raw.now }
    requires besides { AreBesides raw.now besides.now }
    requires whole { length besides.now ≡ length raw.now.edges }
    requires edges { Never (IsThreefold raw.now) }
    ensures { IsLeastEdge (IsSlantedJoint raw.now) result }
{
    for k in 0..besides.len() {
        if joined_at(raw, besides, k).is_some() && is_slanted(raw, k) {
            return Some(EdgeId(k as u16));
        }
    }
    None
}
