ghost use Rattle.std.specs.Prelude.{◌≡◌, ◌↔◌, ℕ, ◌<◌, ◌≤◌, length, take, All, None, IfSome};
ghost use Rattle.carton_base.specs.declared.limits.TheConstants.{LONGEST_PATH, MOST_JOINTS};
ghost use Rattle.carton_base.specs.declared.motion.Motion.{Motion};
ghost use Rattle.carton_model.specs.Moves.{IsMotion};
ghost use Rattle.carton_model.specs.Turning.{IsTurn};
ghost use Rattle.carton_tree.specs.Trees.{turns_between};
ghost use Rattle.carton_reach.specs.Ranges.{IsMotionBetween, IsRange};
ghost use Rattle.carton_reach.specs.Reaches.{AreReaches};
ghost use Rattle.carton_reach.specs.Spots.{spots_after, spots_in, corners_in, shape_at};

use crate::corners::{reaches_from, starts_of};
use crate::ranges::swings_between;
use crate::reach::Reaches;
use carton_base::{Motion, PanelId, Piece, State, Turn};
use carton_enclose::Enclose;
use carton_place::swings_over;
use carton_tree::{Carton, Route};

// How far the corners of the shrunk panel reach after the turns of the route, over a piece of the move.
fn reaches_by<E: Enclose>(
    carton: &Carton,
    panel: PanelId,
    route: &Route,
    motion: &Motion,
    piece: Piece,
) -> Reaches
    requires panel { panel.0 < length carton.now.panels }
    requires count { route.now.count ≤ LONGEST_PATH }
    requires turns { All IsTurn (take route.now.count route.now.turns) }
    requires motion { IsMotion MOST_JOINTS motion.now }
    ensures { AreReaches (spots_after motion.now (take route.now.count route.now.turns)
        (shape_at carton.now panel.0).shrunk) 0 (corners_in carton.now panel.0) piece.index piece.depth
        result.axes }
{
    let turns = &route.turns[..route.count as usize];
    let swings = swings_over(turns, motion, piece);
    reaches_from::<E>(turns, &swings[..turns.len()], starts_of(carton, panel))
}

/// How far the corners of the shrunk panel reach along the 13 axes, in the frame of a panel, over a
/// piece of the move. None where more than 8 joints lie between the two panels.
pub fn reaches<E: Enclose>(
    carton: &Carton,
    panel: PanelId,
    frame: PanelId,
    motion: &Motion,
    piece: Piece,
) -> Option<Reaches>
    requires panel { panel.0 < length carton.now.panels }
    requires frame { frame.0 < length carton.now.panels }
    requires motion { IsMotion MOST_JOINTS motion.now }
    ensures reaches { IfSome result (λ r. AreReaches (spots_in carton.now motion.now panel.0 frame.0) 0
        (corners_in carton.now panel.0) piece.index piece.depth r.axes) }
    ensures far { result ≡ None ↔ (LONGEST_PATH < length (turns_between carton.now panel.0 frame.0)) }
{
    let panels = carton.panels();
    prove!(panel.0 < panels && frame.0 < panels);
    let route = carton.route(panel, frame)?;
    Some(reaches_by::<E>(carton, panel, &route, motion, piece))
}

// How far the corners of the shrunk panel reach after the turns of the route, in any move between
// the two states.
fn reaches_between<E: Enclose>(
    carton: &Carton,
    panel: PanelId,
    route: &Route,
    low: &State,
    high: &State,
) -> Reaches
    requires panel { panel.0 < length carton.now.panels }
    requires count { route.now.count ≤ LONGEST_PATH }
    requires turns { All IsTurn (take route.now.count route.now.turns) }
    requires range { IsRange low.now high.now }
    ensures { (motion : Motion) → IsMotionBetween low.now high.now motion
        → AreReaches (spots_after motion (take route.now.count route.now.turns)
        (shape_at carton.now panel.0).shrunk) 0 (corners_in carton.now panel.0) 0 0 result.axes }
{
    let turns = &route.turns[..route.count as usize];
    let swings = swings_between(turns, low, high);
    let starts = starts_of(carton, panel);
    reaches_from::<E>(turns, &swings[..turns.len()], starts)
}

/// How far the corners of the shrunk panel reach along the 13 axes, in the frame of a panel, at every
/// moment of every move between the two states. None where more than 8 joints lie between the panels.
pub fn reaches_within<E: Enclose>(
    carton: &Carton,
    panel: PanelId,
    frame: PanelId,
    low: &State,
    high: &State,
) -> Option<Reaches>
    requires panel { panel.0 < length carton.now.panels }
    requires frame { frame.0 < length carton.now.panels }
    requires range { IsRange low.now high.now }
    ensures reaches { (motion : Motion) → IsMotionBetween low.now high.now motion
        → IfSome result (λ r. AreReaches (spots_in carton.now motion panel.0 frame.0) 0
        (corners_in carton.now panel.0) 0 0 r.axes) }
    ensures far { result ≡ None ↔ (LONGEST_PATH < length (turns_between carton.now panel.0 frame.0)) }
{
    let panels = carton.panels();
    prove!(panel.0 < panels && frame.0 < panels);
    let route = carton.route(panel, frame)?;
    Some(reaches_between::<E>(carton, panel, &route, low, high))
}
