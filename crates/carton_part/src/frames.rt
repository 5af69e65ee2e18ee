ghost use Rattle.std.specs.Prelude.{◌≡◌, ◌<◌, length, Contains, IsTrue, ◌↔◌, None, IfSome};
ghost use Rattle.carton_base.specs.declared.limits.TheConstants.{LONGEST_PATH, MOST_JOINTS};
ghost use Rattle.carton_model.specs.Moves.{IsMotion};
ghost use Rattle.carton_reach.specs.Ranges.{IsRange};
ghost use Rattle.carton_tree.specs.Trees.{turns_between};
ghost use Rattle.carton_part.specs.Closing.{ForMoves};
ghost use Rattle.carton_part.specs.Frames.{IsOnPath, IsOnWay};
ghost use Rattle.carton_part.specs.Looks.{IsReachIn};

use carton_base::{Motion, PanelId, Piece, State};
use carton_enclose::Enclose;
use carton_reach::{Reaches, reaches, reaches_within};
use carton_tree::Carton;

// Whether the panel is one of these.
fn has_panel(panels: &[PanelId], panel: PanelId) -> bool
    ensures { IsTrue result ↔ Contains panels.now panel }
{
    let mut found = false;
    for p in panels {
        found = found | (p.0 == panel.0);
    }
    found
}

// Whether the panel f is on the path of p.
fn is_on_path(carton: &Carton, p: PanelId, f: PanelId) -> bool
    requires { p.0 < length carton.now.panels }
    ensures { IsTrue result ↔ IsOnPath carton.now p.0 f.0 }
{
    has_panel(carton.path(p), f)
}

// Whether the panel f is on the way from a to b.
pub fn is_on_way(carton: &Carton, a: PanelId, b: PanelId, f: PanelId) -> bool
    requires a { a.0 < length carton.now.panels }
    requires b { b.0 < length carton.now.panels }
    requires f { f.0 < length carton.now.panels }
    ensures { IsTrue result ↔ IsOnWay carton.now a.0 b.0 f.0 }
{
    (is_on_path(carton, a, f) || is_on_path(carton, b, f))
        && is_on_path(carton, f, carton.parting(a, b))
}

/// How far the panel reaches in the frame over the piece. None where more than 8 joints lie between.
pub fn reaches_in<E: Enclose>(
    carton: &Carton,
    motion: &Motion,
    p: PanelId,
    frame: PanelId,
    piece: Piece,
) -> Option<Reaches>
    requires p { p.0 < length carton.now.panels }
    requires frame { frame.0 < length carton.now.panels }
    requires motion { IsMotion MOST_JOINTS motion.now }
    ensures reach { IfSome result (IsReachIn carton.now motion.now p.0 frame.0 piece.index piece.depth) }
    ensures far { result ≡ None → LONGEST_PATH < length (turns_between carton.now p.0 frame.0) }
{
    // That the panel is the shape that its corners tell is known where these are read.
    let _corners = carton.panel(p).shrunk();
    reaches::<E>(carton, p, frame, motion, piece)
}

/// How far the panel reaches in the frame in all moves between the two states. None where more than 8
/// joints lie between.
pub fn reaches_between<E: Enclose>(
    carton: &Carton,
    low: &State,
    high: &State,
    p: PanelId,
    frame: PanelId,
) -> Option<Reaches>
    requires p { p.0 < length carton.now.panels }
    requires frame { frame.0 < length carton.now.panels }
    requires range { IsRange low.now high.now }
    ensures { ForMoves low.now high.now
        (λ motion. IfSome result (IsReachIn carton.now motion p.0 frame.0 0 0)) }
{
    // That the panel is the shape that its corners tell is known where these are read.
    let _corners = carton.panel(p).shrunk();
    reaches_within::<E>(carton, p, frame, low, high)
}
