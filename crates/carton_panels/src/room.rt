ghost use Rattle.std.specs.Prelude.{◌≡◌, ◌<◌, length, All, Any, IsTrue, ◌↔◌, false, slice_index_or, pos};
ghost use Rattle.std.specs.Prelude.{◌<ℤ◌};
ghost use Rattle.carton_panels.specs.Panels.{Side, sides_of};
ghost use Rattle.carton_model.specs.Points.{IsSmall};
ghost use Rattle.carton_panels.specs.Insets.{inset};

use crate::inset::Inset;
use carton_base::Triple;

// Whether one of the flat points lies off the inset line of the side at k, on its inner side.
fn has_one_off(face: Inset<'_>, k: usize, found: &[Triple]) -> bool
    requires k { k < length face.places.now }
    requires found { All IsSmall found.now }
    ensures { IsTrue result
        ↔ ((d : Side)
        → Any (λ t. pos 0
        <ℤ inset face.entry.margin (slice_index_or (sides_of face.entry.places.now) k d) t.x t.y t.w)
        found.now) }
{
    for t in found {
        if face.gap(k, *t) > 0 {
            return true;
        }
    }
    false
}

// Whether each side's inset line leaves one of the flat points on its inner side.
pub fn has_room(face: Inset<'_>, found: &[Triple]) -> bool
    requires found { All IsSmall found.now }
    ensures room { IsTrue result
        → All (λ s. Any (λ t. pos 0 <ℤ inset face.entry.margin s t.x t.y t.w) found.now) (sides_of
        face.entry.places.now) }
    ensures none { result ≡ false
        → Any (λ s. ¬ (Any (λ t. pos 0 <ℤ inset face.entry.margin s t.x t.y t.w) found.now)) (sides_of
        face.entry.places.now) }
{
    for k in 0..face.places.len() {
        if !has_one_off(face, k, found) {
            return false;
        }
    }
    true
}
