ghost use Rattle.std.specs.Prelude.{◌≡◌, ◌<◌, ◌≤◌, length, Contains, IsTrue, ◌↔◌, IfOk, IfErr};
ghost use Rattle.carton_model.specs.Dielines.{IsDieline};
ghost use Rattle.carton_tree.specs.Joints.{IsSide};
ghost use Rattle.carton_tree.specs.Steps.{AreAllSides, AreBesides, IsBeside, with_next};

use crate::error::TreeError;
use carton_base::{EdgeId, Listed, PanelId, RawDieline};
use std::alloc::Global;

/// The panels that an edge is a side of, in order.
#[derive(Clone, Copy)]
pub enum Beside {
    Nobody,
    One(PanelId),
    Two(PanelId, PanelId),
    More,
}

// One panel more.
fn with_next(found: Beside, panel: PanelId) -> Beside
    ensures { result ≡ with_next found panel }
{
    match found {
        Beside::Nobody => Beside::One(panel),
        Beside::One(first) => Beside::Two(first, panel),
        Beside::Two(_, _) | Beside::More => Beside::More,
    }
}

// Whether the edge is one of these.
fn has_edge(edges: &[EdgeId], edge: EdgeId) -> bool
    ensures { IsTrue result ↔ Contains edges.now edge }
{
    // All are looked at, since a loop with no way out is the faster one.
    let mut found = false;
    for e in edges {
        found = found | (e.0 == edge.0);
    }
    found
}

// The panels whose sides have the edge among them.
fn found_beside(raw: &RawDieline, sides: &[Listed<EdgeId>], edge: EdgeId) -> Beside
    requires dieline { IsDieline raw.now }
    requires sides { AreAllSides raw.now sides.now }
    requires whole { length sides.now ≡ length raw.now.faces }
    ensures { IsBeside (IsSide raw.now edge.0) (length raw.now.faces) result }
{
    let mut found = Beside::Nobody;
    for f in 0..sides.len() {
        if has_edge(sides[f].as_slice(), edge) {
            found = with_next(found, PanelId(f as u8));
        }
    }
    found
}

// The panels beside each edge.
pub fn all_besides(
    alloc: Global,
    raw: &RawDieline,
    sides: &[Listed<EdgeId>],
) -> Result<Vec<Beside>, TreeError>
    requires dieline { IsDieline raw.now }
    requires sides { AreAllSides raw.now sides.now }
    requires whole { length sides.now ≡ length raw.now.faces }
    ensures besides { IfOk result (λ v. AreBesides raw.now v.items) }
    ensures whole { IfOk result (λ v. length v.items ≡ length raw.now.edges) }
    ensures err { IfErr result (λ e. e ≡ TreeError.Memory) }
{
    let mut all = Vec::new(alloc);
    for k in 0..raw.edges.len() {
        all.push(found_beside(raw, sides, EdgeId(k as u16)))?;
    }
    Ok(all)
}
