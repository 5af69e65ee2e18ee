ghost use Rattle.std.specs.Prelude.{◌≡◌, ◌<◌, ◌≤◌, length, All, IsTrue, ◌↔◌, pos};
ghost use Rattle.carton_base.specs.declared.limits.TheConstants.{WIDEST_MARGIN};
ghost use Rattle.carton_model.specs.Dielines.{IsDieline};
ghost use Rattle.carton_model.specs.Points.{IsNearPoint, IsSmall};
ghost use Rattle.carton_panels.specs.Panels.{InPanel, places_of, face_at};
ghost use Rattle.carton_panels.specs.Shrinking.{InShrunk};
ghost use Rattle.carton_panels.specs.Shapes.{IsShape};
ghost use Rattle.carton_panels.specs.Answers.{IsPanelAnswer};

use crate::convexity::{is_convex, is_repeating};
use crate::corners::{places_of, true_corners};
use crate::crossings::inset_corners;
use crate::error::PanelError;
use crate::inset::Inset;
use crate::room::has_room;
use carton_base::{PanelId, Point, RawDieline, Triple};
use std::alloc::Global;
use std::marker::Model;

/// A convex face of a dieline, with what an inward margin leaves of it. All in dieline units.
#[derive(Debug, Drop)]
pub struct PanelShape {
    places: Vec<Point>,
    margin: u16,
    corners: Vec<Triple>,
    shrunk: Vec<Triple>,
}

impl Model for PanelShape {
    ghost use Rattle.carton_panels.specs.Shapes.{Shape, IsShape};

    ghost Value = { Shape };

    ghost view = { λ p. record {
      places = p.places.items;
      margin = p.margin;
      corners = p.corners.items;
      shrunk = p.shrunk.items;
    } };

    ghost invariant = { λ p.
        IsShape (record {
          places = p.places.items;
          margin = p.margin;
          corners = p.corners.items;
          shrunk = p.shrunk.items;
        }) };
}

impl PanelShape {
    // The panel's face with its sides moved inwards by the margin.
    fn inset(&self) -> Inset<'_>
        ensures places { result.places.now ≡ self.now.places }
        ensures margin { result.margin ≡ self.now.margin }
    {
        Inset {
            places: self.places.as_slice(),
            margin: self.margin,
        }
    }

    /// The corners in the face's order, with w = 1.
    pub fn corners(&self) -> &[Triple]
        ensures corners { result.now ≡ self.now.corners }
        ensures whole { All (λ t. t.w ≡ pos 1) result.now }
        ensures near { All IsNearPoint result.now }
    {
        self.corners.as_slice()
    }

    /// All corners of the shrunk panel, each once, in no set order.
    pub fn shrunk(&self) -> &[Triple]
        ensures corners { result.now ≡ self.now.shrunk }
        ensures shape { IsShape self.now }
    {
        self.shrunk.as_slice()
    }

    /// Whether the flat point lies in the panel, its sides among it.
    pub fn contains(&self, t: Triple) -> bool
        requires { IsSmall t }
        ensures { IsTrue result ↔ InPanel self.now.places t.x t.y t.w }
    {
        self.inset().bare().keeps_all(t)
    }

    /// Whether the flat point lies in the shrunk panel, its sides among it.
    pub fn in_shrunk(&self, t: Triple) -> bool
        requires { IsSmall t }
        ensures { IsTrue result ↔ InShrunk self.now.margin self.now.places t.x t.y t.w }
    {
        self.inset().keeps_all(t)
    }
}

/// The face as a panel, with what the margin leaves of it. The first of these rules that the face
/// breaks refuses it: its vertices stand in different places; no vertex lies right of a side, and
/// each side has one strictly left of it; some point lies farther inside than the margin along
/// both axes.
pub fn panel(
    alloc: Global,
    raw: &RawDieline,
    face: PanelId,
    margin: u16,
) -> Result<PanelShape, PanelError>
    requires dieline { IsDieline raw.now }
    requires face { face.0 < length raw.now.faces }
    requires margin { margin ≤ WIDEST_MARGIN }
    ensures { IsPanelAnswer face margin (places_of raw.now (face_at raw.now face.0)) result }
{
    let places = places_of(alloc, raw, face)?;
    let outline = places.as_slice();
    if is_repeating(outline) {
        return Err(PanelError::RepeatedVertex(face));
    }
    let inset = Inset {
        places: outline,
        margin,
    };
    if !is_convex(inset) {
        return Err(PanelError::NotConvex(face));
    }
    let shrunk = inset_corners(alloc, inset)?;
    let found = shrunk.as_slice();
    if found.is_empty() || !has_room(inset, found) {
        return Err(PanelError::TooThin(face));
    }
    let corners = true_corners(alloc, inset)?;
    Ok(PanelShape {
        places,
        margin,
        corners,
        shrunk,
    })
}
