ghost use Rattle.std.specs.Prelude.{◌≡◌, ◌<◌, length, All, IsTrue};
ghost use Rattle.carton_base.specs.declared.dieline.RawDieline.{RawDieline};
ghost use Rattle.carton_model.specs.Dielines.{IsDieline, IsNear, IsEdge, IsFace};

use carton_base::{EdgeId, Ends, Face, Letter, Listed, PanelId, Point, RawDieline};
use carton_panels::{PanelError, PanelShape, common_crease, panel};
use std::alloc::{AllocError, Global};

// A dieline of these vertices and edges and of one or two faces; a face of no corners is left out.
pub fn dieline(
    alloc: Global,
    places: &[(i32, i32)],
    ends: &[(u16, u16, Letter)],
    first: &[u16],
    second: &[u16],
) -> Result<RawDieline, AllocError> {
    let mut vertices = Listed::new(alloc);
    for (x, y) in places {
        vertices.push(Point { x: *x, y: *y })?;
    }
    let mut edges = Listed::new(alloc);
    let mut letters = Listed::new(alloc);
    for (p, q, letter) in ends {
        edges.push(Ends { p: *p, q: *q })?;
        letters.push(*letter)?;
    }
    let mut faces = Listed::new(alloc);
    faces.push(face(alloc, first)?)?;
    if !second.is_empty() {
        faces.push(face(alloc, second)?)?;
    }
    Ok(RawDieline {
        vertices,
        edges,
        letters,
        faces,
        angles: None,
    })
}

fn face(alloc: Global, numbers: &[u16]) -> Result<Face, AllocError> {
    Ok(Face {
        corners: Listed::from_vec(numbers.to_vec(alloc)?),
    })
}

fn is_near(p: Point) -> bool
    ensures { IsTrue result → IsNear p }
{
    p.x.unsigned_abs() <= 8191 && p.y.unsigned_abs() <= 8191
}

fn are_near(places: &[Point]) -> bool
    ensures { IsTrue result → All IsNear places.now }
{
    places.iter().all(|p| is_near(*p))
}

fn is_edge(vertices: usize, e: Ends) -> bool
    ensures { IsTrue result → IsEdge vertices e }
{
    (e.p as usize) < vertices && (e.q as usize) < vertices && e.p != e.q
}

fn are_edges(vertices: usize, edges: &[Ends]) -> bool
    ensures { IsTrue result → All (IsEdge vertices) edges.now }
{
    edges.iter().all(|e| is_edge(vertices, *e))
}

fn are_below(vertices: usize, corners: &[u16]) -> bool
    ensures { IsTrue result → All (λ c. c < vertices) corners.now }
{
    corners.iter().all(|c| (*c as usize) < vertices)
}

fn is_face(vertices: usize, face: &Face) -> bool
    ensures { IsTrue result → IsFace vertices face.now }
{
    let count = face.corners.len();
    count >= 3 && count <= 32 && are_below(vertices, face.corners.as_slice())
}

fn are_faces(vertices: usize, faces: &[Face]) -> bool
    ensures { IsTrue result → All (IsFace vertices) faces.now }
{
    faces.iter().all(|f| is_face(vertices, f))
}

// Whether the dieline keeps the rules of its file and has no angles.
fn keeps_rules(raw: &RawDieline) -> bool
    ensures { IsTrue result → IsDieline raw.now }
{
    let vertices = raw.vertices.len();
    let counts = vertices <= 1024
        && raw.edges.len() <= 2048
        && raw.letters.len() == raw.edges.len()
        && raw.faces.len() >= 1
        && raw.faces.len() <= 24
        && raw.angles.is_none();
    counts
        && are_near(raw.vertices.as_slice())
        && are_edges(vertices, raw.edges.as_slice())
        && are_faces(vertices, raw.faces.as_slice())
}

// The answer for a face, if the dieline keeps its rules.
pub fn answer(
    alloc: Global,
    raw: &RawDieline,
    face: u8,
    margin: u16,
) -> Option<Result<PanelShape, PanelError>> {
    if !keeps_rules(raw) || face as usize >= raw.faces.len() || margin > 1000 {
        return None;
    }
    Some(panel(alloc, raw, PanelId(face), margin))
}

// The common crease of two faces; None too where the dieline breaks its rules.
pub fn crease(raw: &RawDieline, a: u8, b: u8) -> Option<EdgeId> {
    if !keeps_rules(raw) || a as usize >= raw.faces.len() || b as usize >= raw.faces.len() {
        return None;
    }
    common_crease(raw, PanelId(a), PanelId(b))
}
