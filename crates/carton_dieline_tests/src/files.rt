//! Dielines as texts.

use carton_fold::Key;
use std::alloc::{AllocError, Global};

/// Two squares with a crease between them.
pub const FLAP: &str =
    r#"{"vertices_coords":[[0,0],[100,0],[200,0],[0,100],[100,100],[200,100]],"edges_vertices":[[0,1],[1,2],[2,5],[5,4],[4,3],[3,0],[1,4]],"edges_assignment":["B","B","B","B","B","B","V"],"faces_vertices":[[0,1,4,3],[1,2,5,4]]}"#;

/// The values of the four keys of a file with one triangle.
pub const VERTICES: &str = "[[0,0],[1,0],[0,1]]";

pub const EDGES: &str = "[[0,1],[1,2],[2,0]]";

pub const LETTERS: &str = r#"["B","B","B"]"#;

pub const FACES: &str = "[[0,1,2]]";

/// A file of four values.
pub fn file(
    alloc: Global,
    vertices: &str,
    edges: &str,
    letters: &str,
    faces: &str,
) -> Result<String, AllocError> {
    let mut text = String::new(alloc);
    text.push_str(r#"{"vertices_coords":"#)?;
    text.push_str(vertices)?;
    text.push_str(r#","edges_vertices":"#)?;
    text.push_str(edges)?;
    text.push_str(r#","edges_assignment":"#)?;
    text.push_str(letters)?;
    text.push_str(r#","faces_vertices":"#)?;
    text.push_str(faces)?;
    text.push_str("}")?;
    Ok(text)
}

/// The triangle's file with one of the four values in place of its own.
pub fn file_with(alloc: Global, key: Key, value: &str) -> Result<String, AllocError> {
    match key {
        Key::Vertices => file(alloc, value, EDGES, LETTERS, FACES),
        Key::Edges => file(alloc, VERTICES, value, LETTERS, FACES),
        Key::Assignment => file(alloc, VERTICES, EDGES, value, FACES),
        Key::Faces => file(alloc, VERTICES, EDGES, LETTERS, value),
    }
}

/// The triangle's file with other members before and behind its own.
pub fn file_between(alloc: Global, before: &str, behind: &str) -> Result<String, AllocError> {
    let triangle = file(alloc, VERTICES, EDGES, LETTERS, FACES)?;
    let members = triangle.strip_prefix("{").unwrap_or("");
    let members = members.strip_suffix("}").unwrap_or("");
    let mut text = String::new(alloc);
    text.push_str("{")?;
    text.push_str(before)?;
    text.push_str(members)?;
    text.push_str(behind)?;
    text.push_str("}")?;
    Ok(text)
}

/// A text, so many times over, with another text in between.
pub fn repeated(
    alloc: Global,
    item: &str,
    between: &str,
    count: u32,
) -> Result<String, AllocError> {
    let mut text = String::new(alloc);
    for k in 0..count {
        if k > 0 {
            text.push_str(between)?;
        }
        text.push_str(item)?;
    }
    Ok(text)
}

/// A list of so many equal entries.
pub fn list(alloc: Global, item: &str, count: u32) -> Result<String, AllocError> {
    let mut text = String::new(alloc);
    text.push_str("[")?;
    text.push_str(repeated(alloc, item, ",", count)?.as_str())?;
    text.push_str("]")?;
    Ok(text)
}
