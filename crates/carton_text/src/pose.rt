ghost use Rattle.std.specs.Prelude.{◌≡◌, ℕ, ◌<◌, ◌≤◌, List, length, take, All, pos, slice_index_or};
ghost use Rattle.std.specs.Prelude.{string_bytes, IfOk};
ghost use Rattle.carton_base.specs.declared.limits.TheConstants.{LONGEST_PATH, MOST_JOINTS};
ghost use Rattle.carton_model.specs.Moves.{IsState};
ghost use Rattle.carton_model.specs.Points.{IsNearPoint};
ghost use Rattle.carton_model.specs.Turning.{Angle, IsTurn, laid, angles_of, turned_through};
ghost use Rattle.carton_panels.specs.Shapes.{Shape};
ghost use Rattle.carton_place.specs.Held.{HoldSwings, IsSwingWithin};
ghost use Rattle.carton_place.specs.States.{fold_in};
ghost use Rattle.carton_tree.specs.Cartons.{IsCarton};
ghost use Rattle.carton_text.specs.Poses.{spot_line as spot_line_of, IsSpotLine, ArePieces, ArePanelLines};
ghost use Rattle.carton_text.specs.Poses.{IsPose};

use crate::spot::{Spot, spot_of};
use carton_base::{LONGEST_PATH, Motion, OutOfMemory, PanelId, Piece, State, Triple, Turn};
use carton_place::{Swing, swings_over};
use carton_tree::Carton;
use std::alloc::{AllocError, Global};

// How the joints of these turns swing in a state, in the first places: they stand still.
fn still_swings(turns: &[Turn], state: &State) -> [Swing; LONGEST_PATH]
    requires count { length turns.now ≤ LONGEST_PATH }
    requires turns { All IsTurn turns.now }
    requires state { IsState MOST_JOINTS state.now }
    ensures length { length result ≡ LONGEST_PATH }
    ensures holds { HoldSwings (take (length turns.now) result) 0 1
        (angles_of (fold_in state.now) turns.now) }
    ensures still { All (IsSwingWithin 2) (take (length turns.now) result) }
{
    let motion = Motion {
        from: *state,
        to: *state,
    };
    swings_over(turns, &motion, Piece::whole())
}

fn spot_line(alloc: Global, panel: u8, corner: usize, spot: Spot) -> Result<String, AllocError>
    ensures { IfOk result (λ text. string_bytes text ≡ spot_line_of panel corner spot) }
{
    format!(in alloc; "panel {panel} corner {corner} {spot}\n")
}

// The lines of the corners of a panel, after turns of joints that stand still.
fn corner_lines(
    alloc: Global,
    panel: u8,
    corners: &[Triple],
    turns: &[Turn],
    swings: &[Swing],
) -> Result<String, OutOfMemory>
    requires count { length turns.now ≤ LONGEST_PATH }
    requires turns { All IsTurn turns.now }
    requires one_each { length swings.now ≡ length turns.now }
    requires still { All (IsSwingWithin 2) swings.now }
    requires near { All IsNearPoint corners.now }
    ensures { (angles : List Angle) → HoldSwings swings.now 0 1 angles
        → IfOk result (λ text.
        ArePieces (λ k corner. IsSpotLine panel k (turned_through turns.now angles (laid corner))) 0
        corners.now (string_bytes text)) }
{
    let mut text = String::new(alloc);
    for (k, corner) in corners.iter().enumerate() {
        let line = spot_line(alloc, panel, k, spot_of(turns, swings, *corner))?;
        text.push_str(&line)?;
    }
    Ok(text)
}

// The lines of a panel's corners.
fn panel_lines(
    alloc: Global,
    carton: &Carton,
    state: &State,
    panel: PanelId,
) -> Result<String, OutOfMemory>
    requires carton { IsCarton carton.now }
    requires state { IsState MOST_JOINTS state.now }
    requires panel { panel.0 < length carton.now.panels }
    ensures { (s : Shape)
        → IfOk result (λ text. ArePanelLines carton.now state.now panel.0
        (slice_index_or carton.now.panels panel.0 s) (string_bytes text)) }
{
    let turns = carton.turns(panel, carton.root());
    let swings = still_swings(turns, state);
    let corners = carton.panel(panel).corners();
    corner_lines(alloc, panel.0, corners, turns, &swings[..turns.len()])
}

/// Where the corners of all panels stand in the world, as a text: a line
/// `panel P corner K x XL XH y YL YH z ZL ZH` for each, in whole thousandths of a dieline unit.
pub fn pose_text(alloc: Global, carton: &Carton, state: &State) -> Result<Vec<u8>, OutOfMemory>
    requires state { IsState (length carton.now.creases) state.now }
    ensures pose { IfOk result (λ v. IsPose carton.now state.now v.items) }
{
    let mut text = String::new(alloc);
    for panel in 0..carton.panels() {
        let lines = panel_lines(alloc, carton, state, PanelId(panel))?;
        text.push_str(&lines)?;
    }
    Ok(text.into_bytes())
}
