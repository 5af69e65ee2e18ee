ghost use Rattle.std.specs.Prelude.{◌≡◌, ◌<◌, ◌≤◌, ◌^◌, length, IsTrue, ◌↔◌};
ghost use Rattle.std.specs.Prelude.{pos, ◌+ℤ◌, ◌-ℤ◌, ◌*ℤ◌, ◌≤ℤ◌, unsigned_abs};
ghost use Rattle.carton_base.specs.declared.limits.TheConstants.{MOST_JOINTS, MOST_STATES};
ghost use Rattle.carton_bodies.specs.Boxes.{IsBox};
ghost use Rattle.carton_model.specs.Moves.{IsMotion};
ghost use Rattle.carton_reach.specs.Reaches.{half};
ghost use Rattle.carton_stroke.specs.Nearness.{AllNear, IsApart, IsNear, SomeApart};
ghost use Rattle.carton_stroke.specs.Steps.{IsPartedAt, IsUnpartedAt};

use crate::world::reaches_in_world;
use carton_base::{Motion, PanelId, Piece, UNIT};
use carton_bodies::{Extent, Extents, Moving, extents_over};
use carton_part::{Look, Sight};
use carton_reach::{Reach, Reaches};
use carton_tree::Carton;

// Whether all of the one lies beyond all of the other.
fn is_apart(panel: Reach, body: Extent) -> bool
    ensures { IsTrue result ↔ IsApart panel body }
{
    panel.greatest_high < body.least_low || body.greatest_high < panel.least_low
}

// The slack, in units of 2^-40.
fn room_of(slack: u16) -> i128
    ensures value { result ≡ (pos 2 *ℤ pos slack) *ℤ half }
    ensures small { unsigned_abs result ≤ 2 ^ 60 }
{
    i128::from(slack) * UNIT
}

// Whether all of the body lies at no moment beyond all of the panel by more than the room.
fn is_never_beyond(panel: Reach, body: Extent, room: i128) -> bool
    requires { unsigned_abs room ≤ 2 ^ 60 }
    ensures { IsTrue result ↔ (body.least_high ≤ℤ (panel.greatest_low +ℤ room)) }
{
    body.least_high <= panel.greatest_low + room
}

// Whether all of the panel lies at no moment beyond all of the body by more than the room.
fn is_never_before(panel: Reach, body: Extent, room: i128) -> bool
    requires { unsigned_abs room ≤ 2 ^ 60 }
    ensures { IsTrue result ↔ ((panel.least_high -ℤ room) ≤ℤ body.greatest_low) }
{
    panel.least_high - room <= body.greatest_low
}

// Whether neither lies beyond the other by more than the room at any moment.
fn is_near(panel: Reach, body: Extent, room: i128) -> bool
    requires { unsigned_abs room ≤ 2 ^ 60 }
    ensures { IsTrue result ↔ IsNear room panel body }
{
    is_never_beyond(panel, body, room) && is_never_before(panel, body, room)
}

/// Whether along some axis the body lies beyond the panel, or the panel beyond the body, at every
/// moment of the piece.
pub fn are_apart(panel: &Reaches, body: &Extents) -> bool
    requires panel { 13 ≤ length panel.now.axes }
    requires body { 13 ≤ length body.now.axes }
    ensures { IsTrue result ↔ SomeApart panel.now.axes body.now.axes }
{
    for a in 0..13 {
        if is_apart(panel.axes[a], body.axes[a]) {
            return true;
        }
    }
    false
}

// Whether along no axis, either way, one lies beyond the other by more than the slack at any moment
// of the piece.
fn are_near(panel: &Reaches, body: &Extents, slack: u16) -> bool
    requires panel { 13 ≤ length panel.now.axes }
    requires body { 13 ≤ length body.now.axes }
    ensures { IsTrue result ↔ AllNear ((pos 2 *ℤ pos slack) *ℤ half) panel.now.axes body.now.axes }
{
    let room = room_of(slack);
    for a in 0..13 {
        if !is_near(panel.axes[a], body.axes[a], room) {
            return false;
        }
    }
    true
}

/// A panel and a body during a move: a moment is good where some direction parts them, and bad where
/// none does by more than the slack.
#[derive(Drop)]
pub struct Encounter<'a> {
    pub carton: &'a Carton,
    pub motion: &'a Motion,
    pub panel: PanelId,
    pub body: &'a Moving,
    pub slack: u16,
    pub ghost inside: { panel.0 < length carton.now.panels },
    pub ghost moves: { IsMotion MOST_JOINTS motion.now },
    pub ghost shape: { IsBox body.now.shape },
    pub ghost in_plan: { body.now.step ≤ MOST_STATES },
    pub ghost some_slack: { 1 ≤ slack },
}

impl Look for Encounter<'_> {
    ghost good = { λ p. IsPartedAt p.carton.now p.motion.now p.panel.0 p.body.now (pos 0) };

    ghost bad = { λ p. IsUnpartedAt p.carton.now p.motion.now p.panel.0 p.body.now (pos 2 *ℤ pos p.slack) };

    fn see(&mut self, piece: Piece) -> Sight {
        let reaches = reaches_in_world(self.carton, self.motion, self.panel, piece);
        let extents = extents_over(self.body, piece);
        if are_apart(&reaches, &extents) {
            return Sight::Good;
        }
        if are_near(&reaches, &extents, self.slack) {
            return Sight::Bad;
        }
        Sight::Open
    }
}
