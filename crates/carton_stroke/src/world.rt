ghost use Rattle.std.specs.Prelude.{◌<◌, length};
ghost use Rattle.carton_base.specs.declared.limits.TheConstants.{MOST_JOINTS};
ghost use Rattle.carton_model.specs.Moves.{IsMotion};
ghost use Rattle.carton_part.specs.Looks.{IsReachIn};
ghost use Rattle.carton_stroke.specs.Steps.{AreKnown};

use carton_base::{MOST_PANELS, Motion, PanelId, Piece};
use carton_fix::Fix;
use carton_reach::{Reaches, reaches};
use carton_tree::Carton;

/// How far panels reach in the world over a whole move, each at its place.
pub type Placements = [Option<Reaches>; MOST_PANELS];

/// How far the panel reaches in the world over the piece. The world is the frame of the root, from
/// which no panel is more than 8 joints away.
pub fn reaches_in_world(carton: &Carton, motion: &Motion, panel: PanelId, piece: Piece) -> Reaches
    requires panel { panel.0 < length carton.now.panels }
    requires motion { IsMotion MOST_JOINTS motion.now }
    ensures { IsReachIn carton.now motion.now panel.0 carton.now.root piece.index piece.depth result }
{
    // That the panel is the shape that its corners tell is known where these are read.
    let _corners = carton.panel(panel).shrunk();
    let _count = carton.panels();
    match reaches::<Fix>(carton, panel, carton.root(), motion, piece) {
        Some(found) => found,
        None => unreachable!(),
    }
}

/// How far all panels reach in the world over the whole move.
pub fn known_over(carton: &Carton, motion: &Motion) -> Placements
    requires { IsMotion MOST_JOINTS motion.now }
    ensures { AreKnown carton.now motion.now carton.now.root result }
{
    let mut known: Placements = [None; MOST_PANELS];
    for p in 0..carton.panels() {
        known[p as usize] = Some(reaches_in_world(carton, motion, PanelId(p), Piece::whole()));
    }
    known
}
