ghost use Rattle.std.specs.Prelude.{◌≡◌, ◌<◌, ◌≤◌, length, All, IsTrue, ◌↔◌, slice_index_or, pos};
ghost use Rattle.carton_base.specs.declared.limits.TheConstants.{WIDEST_MARGIN};
ghost use Rattle.carton_model.specs.Dielines.{IsNear};
ghost use Rattle.carton_panels.specs.Panels.{Side, sides_of, leftness};
ghost use Rattle.carton_model.specs.Points.{IsSmall};
ghost use Rattle.carton_panels.specs.Insets.{IsInsetLine, KeepsAll, inset};

use crate::around::next_in_round;
use crate::lines::{Line, vertex};
use carton_base::{Point, Triple};

/// A face, by the places of its vertices in their order, whose sides are moved inwards by the
/// margin along both axes.
#[derive(Clone, Copy)]
pub struct Inset<'a> {
    pub places: &'a [Point],
    pub margin: u16,
    pub ghost near: { All IsNear places.now },
    pub ghost narrow: { margin ≤ WIDEST_MARGIN },
}

impl<'a> Inset<'a> {
    /// The same face with its sides where they are.
    pub fn bare(self) -> Inset<'a>
        ensures places { result.places.now ≡ self.entry.places.now }
        ensures margin { result.margin ≡ 0 }
    {
        Inset {
            places: self.places,
            margin: 0,
        }
    }

    /// The half plane on the left of the side from the vertex at k to the next, moved inwards.
    pub fn line(self, k: usize) -> Line
        requires { k < length self.places.now }
        ensures { (d : Side)
            → IsInsetLine self.entry.margin (slice_index_or (sides_of self.entry.places.now) k d) result.a
            result.b result.e }
    {
        let next = self.places[next_in_round(k, self.places.len())];
        Line::inset(self.places[k], next, self.margin)
    }

    /// How far the flat point lies within that half plane, times its w.
    pub fn gap(self, k: usize, t: Triple) -> i128
        requires k { k < length self.places.now }
        requires t { IsSmall t }
        ensures { (d : Side)
            → result ≡ inset self.entry.margin (slice_index_or (sides_of self.entry.places.now) k d) t.x t.y
            t.w }
    {
        self.line(k).gap(t)
    }

    /// How far a place lies left of that side itself.
    pub fn leftness(self, k: usize, place: Point) -> i128
        requires k { k < length self.places.now }
        requires place { IsNear place }
        ensures { (d : Side)
            → result ≡ leftness (slice_index_or (sides_of self.entry.places.now) k d) place.x place.y (pos
            1) }
    {
        self.bare().gap(k, vertex(place))
    }

    /// Whether the flat point lies in each of the half planes, their lines among them.
    pub fn keeps_all(self, t: Triple) -> bool
        requires { IsSmall t }
        ensures { IsTrue result ↔ KeepsAll self.entry.margin self.entry.places.now t.x t.y t.w }
    {
        for k in 0..self.places.len() {
            if self.gap(k, t) < 0 {
                return false;
            }
        }
        true
    }
}
