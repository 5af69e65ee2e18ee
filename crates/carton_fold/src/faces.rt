ghost use Rattle.std.specs.Prelude.{◌≡◌, ◌≤◌, ◌<◌, length, map};
ghost use Rattle.std.specs.List.{list_all};
ghost use Rattle.serde_json.specs.View.{view};
ghost use Rattle.carton_base.specs.Steps.{Gives, entries_from};
ghost use Rattle.carton_fold.specs.Values.{is_number as is_number_in};
ghost use Rattle.carton_fold.specs.Faces.{is_whole as is_whole_in, corner_of, face_of_parts, face_of};
ghost use Rattle.carton_fold.specs.Faces.{faces_in};

use crate::edges::vertex_among;
use crate::entries::entries;
use crate::error::{FoldError, Key};
use crate::values::{is_number, list_at, list_of, whole};
use carton_base::{Face, LEAST_CORNERS, Listed, MOST_CORNERS, MOST_PANELS};
use serde_json::Value;
use std::alloc::Global;

fn are_numbers(parts: &[Value]) -> bool
    ensures { result ≡ list_all is_number_in (map view parts.now) }
{
    parts.iter().all(|part| is_number(part))
}

fn are_whole(parts: &[Value]) -> bool
    ensures { result ≡ list_all is_whole_in (map view parts.now) }
{
    parts.iter().all(|part| whole(part).is_some())
}

fn corner(vertices: u16, i: u32, value: &Value) -> Result<u16, FoldError>
    ensures { result ≡ corner_of vertices i 0 (view value.now) }
{
    whole(value)
        .and_then(|number| vertex_among(vertices, number))
        .ok_or(FoldError::BadVertex(Key::Faces, i))
}

#[tactic(auto, unfolding(crate::specs::Faces::face_of_parts))]
fn face_by_parts(alloc: Global, vertices: u16, i: u32, parts: &[Value]) -> Result<Face, FoldError>
    ensures { Gives FoldError.Memory (λ f. f) result (face_of_parts vertices i (map view parts.now)) }
{
    if parts.len() < LEAST_CORNERS || !are_numbers(parts) {
        return Err(FoldError::BadShape(Key::Faces));
    }
    if MOST_CORNERS < parts.len() {
        return Err(FoldError::TooMany(Key::Faces));
    }
    if !are_whole(parts) {
        return Err(FoldError::NotWhole(Key::Faces, i));
    }
    let corners = entries(alloc, parts, |_, part| corner(vertices, i, part))?;
    Ok(Face {
        corners: Listed::from_vec(corners),
    })
}

fn face(alloc: Global, vertices: u16, i: u32, value: &Value) -> Result<Face, FoldError>
    ensures { Gives FoldError.Memory (λ f. f) result (face_of vertices i (view value.now)) }
{
    match list_of(value) {
        Some(parts) => face_by_parts(alloc, vertices, i, parts),
        None => Err(FoldError::BadShape(Key::Faces)),
    }
}

/// The faces of a file with so many vertices.
#[tactic(auto, unfolding(crate::specs::Faces::faces_in))]
pub fn read_faces(alloc: Global, vertices: u16, value: &Value) -> Result<Vec<Face>, FoldError>
    ensures { Gives FoldError.Memory (λ v. v.items) result (faces_in vertices (view value.now)) }
{
    let list = list_at(Key::Faces, MOST_PANELS, value)?;
    if list.is_empty() {
        return Err(FoldError::BadShape(Key::Faces));
    }
    entries(alloc, list, |i, value| face(alloc, vertices, i, value))
}
