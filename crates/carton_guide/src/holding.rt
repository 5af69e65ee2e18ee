ghost use Rattle.std.specs.Prelude.{◌≡◌, ℕ, ◌+◌, ◌<◌, ◌≤◌, length, All, None, IfSome, pos};
ghost use Rattle.carton_base.specs.declared.limits.TheConstants.{MOST_JOINTS};
ghost use Rattle.carton_base.specs.declared.motion.State.{State};
ghost use Rattle.carton_bodies.specs.Boxes.{IsBox, IsStroke};
ghost use Rattle.carton_text.specs.PlanMoves.{IsMove, AreMoves};
ghost use Rattle.carton_text.specs.TaskPlans.{IsPlanOf};
ghost use Rattle.carton_catalogue.specs.Fits.{IsGuided, FitsGuide};
ghost use Rattle.carton_tree.specs.Cartons.{IsCarton};
ghost use Rattle.carton_model.specs.Moves.{IsMotion, fold_at};
ghost use Rattle.carton_panels.specs.Shapes.{IsShape};
ghost use Rattle.carton_reach.specs.Spots.{shape_at};
ghost use Rattle.carton_guide.specs.Bands.{banded_folds};
ghost use Rattle.carton_guide.specs.Guides.{InWindow, StaysInBand};
ghost use Rattle.carton_guide.specs.Notes.{IsGuideNote, IsHeldThrough, IsLooseDuring, IsWellHeld};

use crate::bands::banded_move;
use crate::holders::Holders;
use crate::note::{End, GuideNote};
use crate::watching::{Course, loose_moment};
use carton_base::{Cuboid, EdgeId, Guide, Moment, Motion, PanelId, State};
use carton_text::Plan;
use carton_tree::Carton;

// The carton keeps the rules of one.
fn keeps_rules(carton: &Carton)
    ensures { IsCarton carton.now }
{
    let _ = carton.panels();
}

// A flap, and the place of its joint in the states.
#[derive(Clone, Copy)]
struct Flap {
    panel: PanelId,
    place: u8,
}

// The flap that hangs by the edge, which is a free joint.
fn flap_of(carton: &Carton, edge: EdgeId) -> Flap
    requires carton { IsCarton carton.now }
    requires free { (flap place : ℕ) × IsGuided carton.now edge.0 flap place }
    ensures { IsGuided carton.now edge.0 result.panel.0 result.place }
{
    let Some(panel) = carton.child(edge) else {
        unreachable!()
    };
    let Some(joint) = carton.joint(panel) else {
        unreachable!()
    };
    let Some(place) = joint.turn.place else {
        unreachable!()
    };
    Flap { panel, place }
}

// One move of the window, with the joint at the place at this end of the guide's band.
fn window_move(states: &[State], guide: &Guide, place: u8, end: End, step: u16) -> Motion
    requires place { place < MOST_JOINTS }
    requires states { AreMoves states.now }
    requires band { StaysInBand states.now guide.now place }
    requires window { InWindow guide.now step }
    requires inside { step + 1 < length states.now }
    ensures folds { (s r : State) → IsMove states.now step s r → (n d : ℕ)
        → fold_at result n d ≡ banded_folds end guide.now.band place s r n d }
    ensures motion { IsMotion MOST_JOINTS result }
{
    let i = usize::from(step);
    banded_move(end, guide.band, place, &states[i], &states[i + 1])
}

// The panel is one of a carton's.
fn keeps_shape(carton: &Carton, panel: PanelId)
    requires { panel.0 < length carton.now.panels }
    ensures { IsShape (shape_at carton.now panel.0) }
{
    let _ = carton.panel(panel).shrunk();
}

// What is told of one end during one move of the window: a moment at which no probe is well held, or
// that the flap is held throughout.
fn loose_during(
    carton: &Carton,
    states: &[State],
    guide: &Guide,
    flap: Flap,
    holders: &Holders,
    end: End,
    step: u16,
) -> Option<Moment>
    requires carton { IsCarton carton.now }
    requires states { AreMoves states.now }
    requires guide { FitsGuide carton.now states.now guide.now }
    requires flap { IsGuided carton.now guide.now.edge.0 flap.panel.0 flap.place }
    requires window { InWindow guide.now step }
    ensures held { result ≡ None → (s r : State) → IsMove states.now step s r
        → IsHeldThrough carton.now guide.now holders.now.stroke holders.now.bodies.now holders.now.chosen.now
        flap.panel.0 flap.place end step s r }
    ensures loose { IfSome result (IsLooseDuring carton.now states.now guide.now holders.now.stroke
        holders.now.bodies.now holders.now.chosen.now (pos holders.now.slack) flap.panel.0 flap.place end
        step) }
{
    keeps_shape(carton, flap.panel);
    let course = Course {
        turns: carton.turns(flap.panel, carton.root()),
        probes: guide.probes.as_slice(),
        motion: window_move(states, guide, flap.place, end, step),
        step: u32::from(step),
    };
    loose_moment(&course, holders)
}

// What is told of both ends during one move of the window: an end and a moment of it at which no probe
// is well held, or that the flap is held throughout at both.
fn loose_end(
    carton: &Carton,
    states: &[State],
    guide: &Guide,
    flap: Flap,
    holders: &Holders,
    step: u16,
) -> Option<(End, Moment)>
    requires carton { IsCarton carton.now }
    requires states { AreMoves states.now }
    requires guide { FitsGuide carton.now states.now guide.now }
    requires flap { IsGuided carton.now guide.now.edge.0 flap.panel.0 flap.place }
    requires window { InWindow guide.now step }
    ensures held { result ≡ None → (s r : State) (end : End) → IsMove states.now step s r
        → IsHeldThrough carton.now guide.now holders.now.stroke holders.now.bodies.now holders.now.chosen.now
        flap.panel.0 flap.place end step s r }
    ensures loose { IfSome result (λ l. IsLooseDuring carton.now states.now guide.now holders.now.stroke
        holders.now.bodies.now holders.now.chosen.now (pos holders.now.slack) flap.panel.0 flap.place l.0 step
        l.1) }
{
    if let Some(moment) = loose_during(carton, states, guide, flap, holders, End::Under, step) {
        return Some((End::Under, moment));
    }
    let moment = loose_during(carton, states, guide, flap, holders, End::Over, step)?;
    Some((End::Over, moment))
}

/// Whether the chosen bodies hold the guide's flap at both ends of its band, at every moment of every
/// move of its window; else an end and a moment of one of these moves at which no probe lies deeper
/// than the slack, in dieline units, in a chosen body. Entry k of `chosen` says whether body k is
/// chosen, and all bodies shift by the stroke in each move. A flap that at every such moment has a probe
/// deeper than the slack in a chosen body is told as held. It takes no memory.
pub fn held(
    carton: &Carton,
    plan: &Plan,
    guide: &Guide,
    stroke: [i32; 3],
    bodies: &[Cuboid],
    chosen: &[bool],
    slack: u16,
) -> GuideNote
    requires plan { IsPlanOf carton.now plan.now }
    requires guide { FitsGuide carton.now plan.now.states guide.now }
    requires stroke { IsStroke stroke }
    requires bodies { All IsBox bodies.now }
    requires one_each { length chosen.now ≡ length bodies.now }
    requires some_slack { 1 ≤ slack }
    ensures note { IsGuideNote carton.now plan.now guide.now stroke bodies.now chosen.now slack result }
    ensures well_held { IsWellHeld carton.now plan.now.states guide.now stroke bodies.now chosen.now (pos
        slack) → result ≡ GuideNote.Held }
{
    keeps_rules(carton);
    let states = plan.states.as_slice();
    let holders = Holders {
        stroke,
        bodies,
        chosen,
        slack,
    };
    let flap = flap_of(carton, guide.edge);
    for step in guide.first..=guide.last {
        if let Some((end, moment)) = loose_end(carton, states, guide, flap, &holders, step) {
            return GuideNote::Unheld {
                end,
                step: u32::from(step),
                moment,
            };
        }
    }
    GuideNote::Held
}
