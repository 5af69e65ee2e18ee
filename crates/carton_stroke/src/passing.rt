ghost use Rattle.std.specs.Prelude.{◌≡◌, ◌<◌, ◌≤◌, length, IsTrue, IfSome, None, pos, ◌*ℤ◌};
ghost use Rattle.carton_base.specs.declared.limits.TheConstants.{MOST_JOINTS, MOST_STATES};
ghost use Rattle.carton_bodies.specs.Boxes.{IsBox};
ghost use Rattle.carton_model.specs.Moves.{IsMotion};
ghost use Rattle.carton_part.specs.Answers.{IsHalvedMoment};
ghost use Rattle.carton_part.specs.Parted.{AtEachMoment};
ghost use Rattle.carton_stroke.specs.Steps.{AreKnown, IsKnownApart, IsPartedAt, IsTouch, IsUnpartedAt};
ghost use Rattle.carton_stroke.specs.Steps.{KeepsApart};

use crate::nearness::{Encounter, are_apart};
use crate::world::Placements;
use carton_base::{Moment, Motion, PanelId, Piece};
use carton_bodies::{Extents, Moving, extents_over};
use carton_part::walk;
use carton_reach::Reaches;
use carton_tree::Carton;

/// A panel, and the moment of a move at which it isn't parted from a body by more than the slack.
#[derive(Clone, Copy)]
pub struct Touch {
    pub panel: PanelId,
    pub moment: Moment,
}

// A moment of the move at which the panel isn't parted from the body by more than the slack, None
// where the two stay parted.
fn touch_over(
    carton: &Carton,
    motion: &Motion,
    panel: PanelId,
    body: &Moving,
    slack: u16,
) -> Option<Moment>
    requires panel { panel.0 < length carton.now.panels }
    requires motion { IsMotion MOST_JOINTS motion.now }
    requires shape { IsBox body.now.shape }
    requires step { body.now.step ≤ MOST_STATES }
    requires slack { 1 ≤ slack }
    ensures some { IfSome result (λ m. IsHalvedMoment m
        (IsUnpartedAt carton.now motion.now panel.0 body.now (pos 2 *ℤ pos slack))) }
    ensures none { result ≡ None → AtEachMoment (IsPartedAt carton.now motion.now panel.0 body.now (pos 0)) }
{
    let mut encounter = Encounter {
        carton,
        motion,
        panel,
        body,
        slack,
    };
    walk(&mut encounter, Piece::whole()).bad
}

// Whether the panel's reach is known, and the body's extents are apart from it.
fn are_known_apart(reaches: &Option<Reaches>, extents: &Extents) -> bool
    requires reaches { IfSome reaches.now (λ r. 13 ≤ length r.axes) }
    requires extents { 13 ≤ length extents.now.axes }
    ensures { IsTrue result → IsKnownApart reaches.now extents.now.axes }
{
    match reaches {
        Some(known) => are_apart(known, extents),
        None => false,
    }
}

/// The first panel that touches the body during its move, None where all stay parted from it. What
/// is known of the panels over the whole move spares most walks over its pieces.
pub fn first_touch(
    carton: &Carton,
    motion: &Motion,
    known: &Placements,
    body: &Moving,
    slack: u16,
) -> Option<Touch>
    requires motion { IsMotion MOST_JOINTS motion.now }
    requires known { AreKnown carton.now motion.now carton.now.root known.now }
    requires shape { IsBox body.now.shape }
    requires step { body.now.step ≤ MOST_STATES }
    requires slack { 1 ≤ slack }
    ensures some { IfSome result (IsTouch carton.now motion.now body.now slack) }
    ensures none { result ≡ None → KeepsApart carton.now motion.now body.now }
{
    let extents = extents_over(body, Piece::whole());
    for p in 0..carton.panels() {
        if !are_known_apart(&known[p as usize], &extents) {
            let panel = PanelId(p);
            if let Some(moment) = touch_over(carton, motion, panel, body, slack) {
                return Some(Touch { panel, moment });
            }
        }
    }
    None
}
