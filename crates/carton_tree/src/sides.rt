ghost use Rattle.std.specs.Prelude.{◌≡◌, ◌≢◌, ℕ, ◌<◌, ◌≤◌, length, Any, Contains, IsTrue, ◌↔◌, IfOk, IfErr};
ghost use Rattle.std.specs.Prelude.{slice_index_or};
ghost use Rattle.carton_base.specs.declared.ids.PanelId.{PanelId};
ghost use Rattle.carton_base.specs.declared.limits.TheConstants.{MOST_EDGES};
ghost use Rattle.carton_model.specs.Dielines.{IsDieline};
ghost use Rattle.carton_panels.specs.Around.{Step, around};
ghost use Rattle.carton_panels.specs.Creases.{HasEnds};
ghost use Rattle.carton_tree.specs.Joints.{vertices_of};
ghost use Rattle.carton_tree.specs.Rules.{IsBare, IsSooner};
ghost use Rattle.carton_tree.specs.Steps.{IsEdgeAnswer, AreSides, AreAllSides};

use crate::error::TreeError;
use carton_base::{EdgeId, Ends, Listed, PanelId, RawDieline};
use std::alloc::Global;

// Whether the edge goes between p and q, either way.
fn is_between(edge: Ends, p: u16, q: u16) -> bool
    ensures { IsTrue result ↔ HasEnds edge p q }
{
    // The sum of the ends sorts out most edges, whichever way they go.
    if edge.p as u32 + edge.q as u32 != p as u32 + q as u32 {
        return false;
    }
    (edge.p == p && edge.q == q) || (edge.p == q && edge.q == p)
}

// The first edge between p and q.
fn edge_between(edges: &[Ends], p: u16, q: u16) -> Option<EdgeId>
    requires { length edges.now ≤ MOST_EDGES }
    ensures { IsEdgeAnswer edges.now p q result }
{
    for k in 0..edges.len() {
        if is_between(edges[k], p, q) {
            return Some(EdgeId(k as u16));
        }
    }
    None
}

// The vertices of a face, as places in the dieline's list of vertices.
pub fn vertices_of(raw: &RawDieline, face: PanelId) -> &[u16]
    requires { face.0 < length raw.now.faces }
    ensures { result.now ≡ vertices_of raw.now face.0 }
{
    raw.faces.as_slice()[face.0 as usize].corners.as_slice()
}

// The two vertices of side i.
fn side_at(vertices: &[u16], i: usize) -> (u16, u16)
    requires { i < length vertices.now }
    ensures { (d : Step ℕ) → slice_index_or (around vertices.now) i d ≡ record {
      from = result.0;
      to = result.1;
    } }
{
    let next = if i + 1 < vertices.len() {
        vertices[i + 1]
    } else {
        vertices[0]
    };
    (vertices[i], next)
}

// Whether the face with these vertices goes from p to q along one of its sides.
pub fn goes(vertices: &[u16], p: u16, q: u16) -> bool
    ensures { IsTrue result ↔ Contains (around vertices.now) (record { from = p; to = q }) }
{
    for i in 0..vertices.len() {
        let (from, to) = side_at(vertices, i);
        if from == p && to == q {
            return true;
        }
    }
    false
}

// The edges that the sides of a face are.
fn sides_of(alloc: Global, raw: &RawDieline, face: PanelId) -> Result<Vec<EdgeId>, TreeError>
    requires dieline { IsDieline raw.now }
    requires face { face.0 < length raw.now.faces }
    ensures sides { IfOk result (λ v. AreSides raw.now face.0 v.items) }
    ensures bare { IfErr result (λ e. e ≢ TreeError.Memory → (i : ℕ) × (e ≡ TreeError.SideNoEdge face i)
        × IsBare raw.now face.0 i
        × ((j : ℕ) → j < i → ¬ (IsBare raw.now face.0 j))) }
{
    let vertices = vertices_of(raw, face);
    let mut sides = Vec::new(alloc);
    for i in 0..vertices.len() {
        let (p, q) = side_at(vertices, i);
        match edge_between(raw.edges.as_slice(), p, q) {
            Some(edge) => sides.push(edge)?,
            None => return Err(TreeError::SideNoEdge(face, i as u8)),
        }
    }
    Ok(sides)
}

// The edges that the sides of all faces are, or the first side that is none.
pub fn all_sides(alloc: Global, raw: &RawDieline) -> Result<Vec<Listed<EdgeId>>, TreeError>
    requires dieline { IsDieline raw.now }
    ensures sides { IfOk result (λ v. AreAllSides raw.now v.items) }
    ensures whole { IfOk result (λ v. length v.items ≡ length raw.now.faces) }
    ensures bare { IfErr result (λ e. e ≢ TreeError.Memory → (f : PanelId) × (i : ℕ)
        × (e ≡ TreeError.SideNoEdge f i) × IsBare raw.now f.0 i
        × ((g j : ℕ) → IsSooner g j f.0 i → ¬ (IsBare raw.now g j))) }
{
    let mut all = Vec::new(alloc);
    for face in 0..raw.faces.len() {
        let sides = sides_of(alloc, raw, PanelId(face as u8))?;
        all.push(Listed::from_vec(sides))?;
    }
    Ok(all)
}
