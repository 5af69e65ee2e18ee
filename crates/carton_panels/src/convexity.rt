ghost use Rattle.std.specs.Prelude.{◌≡◌, ◌<◌, length, All, Any, IsTrue, ◌↔◌, slice_index_or, pos};
ghost use Rattle.carton_panels.specs.Panels.{Side, sides_of, IsLeft, IsStrictlyLeft, IsRepeating, IsConvex};

use crate::inset::Inset;
use carton_base::Point;

// Whether a place is among these.
fn stands_in(place: Point, places: &[Point]) -> bool
    ensures { IsTrue result ↔ Any (λ q. place ≡ q) places.now }
{
    places.contains(&place)
}

// Whether some two vertices stand in one place.
pub fn is_repeating(places: &[Point]) -> bool
    ensures { IsTrue result ↔ IsRepeating places.now }
{
    for j in 0..places.len() {
        if stands_in(places[j], &places[..j]) {
            return true;
        }
    }
    false
}

// Whether no vertex lies right of the side from the vertex at k to the next, and some vertex lies
// strictly left of it.
fn has_all_left(face: Inset<'_>, k: usize) -> bool
    requires { k < length face.places.now }
    ensures { IsTrue result
        ↔ ((d : Side)
        → All (λ p. IsLeft (slice_index_or (sides_of face.entry.places.now) k d) p.x p.y (pos 1))
        face.entry.places.now
        × Any (λ p. IsStrictlyLeft (slice_index_or (sides_of face.entry.places.now) k d) p.x p.y (pos 1))
        face.entry.places.now) }
{
    let mut some = false;
    for p in face.places {
        let gap = face.leftness(k, *p);
        if gap < 0 {
            return false;
        }
        some = some | (gap > 0);
    }
    some
}

// Whether the face is convex.
pub fn is_convex(face: Inset<'_>) -> bool
    ensures { IsTrue result ↔ IsConvex face.entry.places.now }
{
    for k in 0..face.places.len() {
        if !has_all_left(face, k) {
            return false;
        }
    }
    true
}
