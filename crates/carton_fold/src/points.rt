ghost use Rattle.std.specs.Prelude.{◌≡◌, ◌≤◌, ◌<◌, length, map, unsigned_abs, IfOk};
ghost use Rattle.serde_json.specs.View.{view};
ghost use Rattle.carton_base.specs.Steps.{Gives, entries_from};
ghost use Rattle.carton_fold.specs.Vertices.{is_far as is_far_in, vertex_at as vertex_at_in, point_in_plane};
ghost use Rattle.carton_fold.specs.Vertices.{point_in_space, point_of_parts, point_of, vertices_in};

use crate::entries::entries;
use crate::error::{FoldError, Key};
use crate::values::{is_number, list_at, list_of, whole};
use carton_base::{FARTHEST, MOST_VERTICES, Point};
use serde_json::Value;
use std::alloc::Global;

/// Whether a coordinate lies outside -8191..8191.
fn is_far(z: i128) -> bool
    ensures { result ≡ is_far_in z }
{
    u128::from(FARTHEST) < z.unsigned_abs()
}

fn vertex_at(i: u32, x: i128, y: i128) -> Result<Point, FoldError>
    ensures { result ≡ vertex_at_in i x y }
{
    if is_far(x) || is_far(y) {
        return Err(FoldError::TooFar(i));
    }
    Ok(Point {
        x: x as i32,
        y: y as i32,
    })
}

#[tactic(auto, unfolding(crate::specs::Vertices::point_in_plane))]
fn plane_point(i: u32, a: &Value, b: &Value) -> Result<Point, FoldError>
    ensures { result ≡ point_in_plane i (view a.now) (view b.now) }
{
    if !(is_number(a) && is_number(b)) {
        return Err(FoldError::BadShape(Key::Vertices));
    }
    let not_whole = FoldError::NotWhole(Key::Vertices, i);
    let x = whole(a).ok_or(not_whole)?;
    let y = whole(b).ok_or(not_whole)?;
    vertex_at(i, x, y)
}

#[tactic(auto, unfolding(crate::specs::Vertices::point_in_space))]
fn space_point(i: u32, a: &Value, b: &Value, c: &Value) -> Result<Point, FoldError>
    ensures { result ≡ point_in_space i (view a.now) (view b.now) (view c.now) }
{
    if !(is_number(a) && is_number(b) && is_number(c)) {
        return Err(FoldError::BadShape(Key::Vertices));
    }
    let not_whole = FoldError::NotWhole(Key::Vertices, i);
    let x = whole(a).ok_or(not_whole)?;
    let y = whole(b).ok_or(not_whole)?;
    let z = whole(c).ok_or(not_whole)?;
    let point = vertex_at(i, x, y)?;
    if z != 0 {
        return Err(FoldError::NotFlat(i));
    }
    Ok(point)
}

fn point_by_parts(i: u32, parts: &[Value]) -> Result<Point, FoldError>
    ensures { result ≡ point_of_parts i (map view parts.now) }
{
    match parts {
        [a, b] => plane_point(i, a, b),
        [a, b, c] => space_point(i, a, b, c),
        _ => Err(FoldError::BadShape(Key::Vertices)),
    }
}

fn point(i: u32, value: &Value) -> Result<Point, FoldError>
    ensures { result ≡ point_of i (view value.now) }
{
    match list_of(value) {
        Some(parts) => point_by_parts(i, parts),
        None => Err(FoldError::BadShape(Key::Vertices)),
    }
}

/// The vertices of a file.
pub fn read_points(alloc: Global, value: &Value) -> Result<Vec<Point>, FoldError>
    ensures value { Gives FoldError.Memory (λ v. v.items) result (vertices_in (view value.now)) }
    ensures few { IfOk result (λ v. length v.items ≤ MOST_VERTICES) }
{
    let list = list_at(Key::Vertices, MOST_VERTICES, value)?;
    entries(alloc, list, |i, value| point(i, value))
}
