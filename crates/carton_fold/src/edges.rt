ghost use Rattle.std.specs.Prelude.{◌≡◌, ◌≤◌, ◌<◌, length, map, IfOk};
ghost use Rattle.serde_json.specs.View.{view};
ghost use Rattle.carton_base.specs.Steps.{Gives, entries_from};
ghost use Rattle.carton_fold.specs.Edges.{vertex_among as vertex_among_in, edge_between as edge_between_in};
ghost use Rattle.carton_fold.specs.Edges.{edge_of_parts, edge_of, edges_in};

use crate::entries::entries;
use crate::error::{FoldError, Key};
use crate::values::{is_number, list_at, list_of, whole};
use carton_base::{Ends, MOST_EDGES};
use serde_json::Value;
use std::alloc::Global;

/// The number of one of so many vertices, if it is one.
pub fn vertex_among(vertices: u16, number: i128) -> Option<u16>
    ensures { result ≡ vertex_among_in vertices number }
{
    if 0 <= number && number < vertices as i128 {
        Some(number as u16)
    } else {
        None
    }
}

#[tactic(auto, unfolding(crate::specs::Edges::edge_between))]
fn edge_between(vertices: u16, i: u32, a: &Value, b: &Value) -> Result<Ends, FoldError>
    ensures { result ≡ edge_between_in vertices i (view a.now) (view b.now) }
{
    if !(is_number(a) && is_number(b)) {
        return Err(FoldError::BadShape(Key::Edges));
    }
    let not_whole = FoldError::NotWhole(Key::Edges, i);
    let from = whole(a).ok_or(not_whole)?;
    let to = whole(b).ok_or(not_whole)?;
    let bad_vertex = FoldError::BadVertex(Key::Edges, i);
    let p = vertex_among(vertices, from).ok_or(bad_vertex)?;
    let q = vertex_among(vertices, to).ok_or(bad_vertex)?;
    if p == q {
        return Err(bad_vertex);
    }
    Ok(Ends { p, q })
}

fn edge_by_parts(vertices: u16, i: u32, parts: &[Value]) -> Result<Ends, FoldError>
    ensures { result ≡ edge_of_parts vertices i (map view parts.now) }
{
    match parts {
        [a, b] => edge_between(vertices, i, a, b),
        _ => Err(FoldError::BadShape(Key::Edges)),
    }
}

fn edge(vertices: u16, i: u32, value: &Value) -> Result<Ends, FoldError>
    ensures { result ≡ edge_of vertices i (view value.now) }
{
    match list_of(value) {
        Some(parts) => edge_by_parts(vertices, i, parts),
        None => Err(FoldError::BadShape(Key::Edges)),
    }
}

/// The edges of a file with so many vertices.
pub fn read_edges(alloc: Global, vertices: u16, value: &Value) -> Result<Vec<Ends>, FoldError>
    ensures { Gives FoldError.Memory (λ v. v.items) result (edges_in vertices (view value.now)) }
{
    let list = list_at(Key::Edges, MOST_EDGES, value)?;
    entries(alloc, list, |i, value| edge(vertices, i, value))
}
