ghost use Rattle.std.specs.Prelude.{◌≡◌, ◌<◌, ℕ, length, IsTrue, ◌↔◌, Any, slice_get};
ghost use Rattle.carton_base.specs.declared.dieline.Letter.{Letter};
ghost use Rattle.carton_model.specs.Dielines.{IsDieline};
ghost use Rattle.carton_panels.specs.Around.{around};
ghost use Rattle.carton_panels.specs.Panels.{face_at};
ghost use Rattle.carton_panels.specs.Creases.{Joins, HasEnds, IsSideOf, IsCommonCrease, IsCommonCreaseAnswer};

use crate::around::next_in_round;
use carton_base::{EdgeId, Ends, Letter, PanelId, RawDieline};

// Whether an edge of this letter joins two faces.
fn joins(letter: Letter) -> bool
    ensures { IsTrue result ↔ Joins letter }
{
    match letter {
        Letter::Mountain | Letter::Valley | Letter::Flat | Letter::Unassigned => true,
        Letter::Boundary | Letter::Cut => false,
    }
}

// Whether the two ends of the edge are p and q, either way round.
fn has_ends(edge: Ends, p: u16, q: u16) -> bool
    ensures { IsTrue result ↔ HasEnds edge p q }
{
    (edge.p == p && edge.q == q) || (edge.p == q && edge.q == p)
}

// Whether the edge goes along a side of the face with these vertices.
fn has_side(vertices: &[u16], edge: Ends) -> bool
    ensures { IsTrue result ↔ Any (λ s. HasEnds edge s.from s.to) (around vertices.now) }
{
    for k in 0..vertices.len() {
        if has_ends(
            edge,
            vertices[k],
            vertices[next_in_round(k, vertices.len())],
        ) {
            return true;
        }
    }
    false
}

// Whether no earlier edge has the two ends of this one.
fn is_first(earlier: &[Ends], edge: Ends) -> bool
    ensures { IsTrue result ↔ ¬ (Any (λ e. HasEnds e edge.p edge.q) earlier.now) }
{
    !earlier.iter().any(|e| has_ends(*e, edge.p, edge.q))
}

// Whether edge k is a side of the face with these vertices.
fn is_side(edges: &[Ends], vertices: &[u16], k: usize) -> bool
    requires { k < length edges.now }
    ensures { IsTrue result ↔ IsSideOf edges.now vertices.now k }
{
    has_side(vertices, edges[k]) && is_first(&edges[..k], edges[k])
}

// Whether the letter at k lets its edge join two faces.
fn joins_at(letters: &[Letter], k: usize) -> bool
    requires { k < length letters.now }
    ensures { IsTrue result ↔ ((l : Letter) → slice_get letters.now k ≡ Some l → Joins l) }
{
    joins(letters[k])
}

// Whether edge k is a side of both faces.
fn is_shared(edges: &[Ends], first: &[u16], second: &[u16], k: usize) -> bool
    requires { k < length edges.now }
    ensures { IsTrue result ↔ IsSideOf edges.now first.now k × IsSideOf edges.now second.now k }
{
    is_side(edges, first, k) && is_side(edges, second, k)
}

// Whether edge k joins the two faces with these vertices.
fn is_common(raw: &RawDieline, first: &[u16], second: &[u16], k: usize) -> bool
    requires edges { k < length raw.now.edges }
    requires letters { k < length raw.now.letters }
    ensures { IsTrue result ↔ IsCommonCrease raw.now first.now second.now k }
{
    joins_at(raw.letters.as_slice(), k) && is_shared(raw.edges.as_slice(), first, second, k)
}

/// The vertices of a face, by their numbers in the dieline.
pub fn vertices_of(raw: &RawDieline, face: PanelId) -> &[u16]
    requires { face.0 < length raw.now.faces }
    ensures { result.now ≡ (face_at raw.now face.0).corners }
{
    raw.faces.as_slice()[face.0 as usize].corners.as_slice()
}

/// The first edge that joins the two faces: one whose letter lets it join and that is a side of
/// both. Of two edges with the same two ends only the first is a side.
pub fn common_crease(raw: &RawDieline, a: PanelId, b: PanelId) -> Option<EdgeId>
    requires dieline { IsDieline raw.now }
    requires a { a.0 < length raw.now.faces }
    requires b { b.0 < length raw.now.faces }
    ensures { IsCommonCreaseAnswer raw.now (face_at raw.now a.0).corners (face_at raw.now b.0).corners
        result }
{
    let first = vertices_of(raw, a);
    let second = vertices_of(raw, b);
    for k in 0..raw.edges.len() {
        if is_common(raw, first, second, k) {
            return Some(EdgeId(k as u16));
        }
    }
    None
}
