ghost use Rattle.std.specs.Prelude.{◌≡◌, ◌<◌, ◌≤◌, length, map, All, IfOk, IfErr, pos, slice_index_or};
ghost use Rattle.carton_base.specs.declared.limits.TheConstants.{LEAST_CORNERS, MOST_CORNERS};
ghost use Rattle.carton_model.specs.Dielines.{IsDieline, IsNear};
ghost use Rattle.carton_panels.specs.Around.{Step};
ghost use Rattle.carton_panels.specs.Panels.{Side, places_of, face_at, corners_of, bends_of, is_straight};
ghost use Rattle.carton_panels.specs.Shapes.{place_of};

use crate::around::{next_in_round, previous_in_round};
use crate::creases::vertices_of;
use crate::error::PanelError;
use crate::inset::Inset;
use crate::lines::vertex;
use carton_base::{PanelId, Point, RawDieline, Triple};
use std::alloc::Global;

// The places of the vertices of a face, in its order.
pub fn places_of(alloc: Global, raw: &RawDieline, face: PanelId) -> Result<Vec<Point>, PanelError>
    requires dieline { IsDieline raw.now }
    requires face { face.0 < length raw.now.faces }
    ensures places { IfOk result (λ v. v.items ≡ places_of raw.now (face_at raw.now face.0)) }
    ensures near { IfOk result (λ v. All IsNear v.items) }
    ensures some { IfOk result (λ v. LEAST_CORNERS ≤ length v.items) }
    ensures few { IfOk result (λ v. length v.items ≤ MOST_CORNERS) }
    ensures err { IfErr result (λ e. e ≡ PanelError.Memory) }
{
    let places = raw.vertices.as_slice();
    let mut found = Vec::new(alloc);
    let vertices = vertices_of(raw, face);
    for vertex in vertices {
        found.push(places[*vertex as usize])?;
    }
    Ok(found)
}

// Whether the vertex at k is straight: the next one lies on the line of the side before it.
fn is_straight(face: Inset<'_>, k: usize) -> bool
    requires { k < length face.places.now }
    ensures { (d : Step Side) → result ≡ is_straight (slice_index_or (bends_of face.entry.places.now) k d) }
{
    let count = face.places.len();
    face.leftness(
        previous_in_round(k, count),
        face.places[next_in_round(k, count)],
    ) == 0
}

// The vertices that aren't straight, in the face's order.
pub fn true_corners(alloc: Global, face: Inset<'_>) -> Result<Vec<Triple>, PanelError>
    ensures corners { IfOk result (λ v. map place_of v.items ≡ corners_of face.entry.places.now) }
    ensures whole { IfOk result (λ v. All (λ t. t.w ≡ pos 1) v.items) }
    ensures err { IfErr result (λ e. e ≡ PanelError.Memory) }
{
    let mut corners = Vec::new(alloc);
    for k in 0..face.places.len() {
        if !is_straight(face, k) {
            corners.push(vertex(face.places[k]))?;
        }
    }
    Ok(corners)
}
