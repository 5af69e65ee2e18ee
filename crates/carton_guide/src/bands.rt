ghost use Rattle.std.specs.Prelude.{◌≡◌, ℕ, ◌<◌, unsigned_abs};
ghost use Rattle.carton_base.specs.Grid.{IsGrid};
ghost use Rattle.carton_base.specs.declared.limits.TheConstants.{MOST_JOINTS, WIDEST_STEP};
ghost use Rattle.carton_text.specs.PlanMoves.{IsStrideFrom};
ghost use Rattle.carton_model.specs.Moves.{IsState, IsStop, IsMotion, stop_of, fold_at};
ghost use Rattle.carton_guide.specs.Bands.{band_stops, shifted, banded_stop, banded_folds};
ghost use Rattle.carton_guide.specs.Guides.{HasBandAt};

use crate::note::End;
use carton_base::{Motion, State};

// A stop at this end of the band, which stays within two right angles.
fn shifted_stop(end: End, band: u8, grid: u8, stop: i8) -> i8
    requires grid { IsGrid grid }
    requires within { IsStop grid (shifted end (band_stops grid band) stop) }
    ensures { result ≡ shifted end (band_stops grid band) stop }
{
    let by = (u32::from(band) * u32::from(grid) / 8) as i32;
    match end {
        End::Under => (i32::from(stop) - by) as i8,
        End::Over => (i32::from(stop) + by) as i8,
    }
}

// The state with the joint at the place at this end of the band.
fn banded(end: End, band: u8, place: u8, state: &State) -> State
    requires place { place < MOST_JOINTS }
    requires state { IsState MOST_JOINTS state.now }
    requires band { HasBandAt band place state.now }
    ensures grid { result.grid ≡ state.now.grid }
    ensures stops { (k : ℕ) → stop_of result k ≡ banded_stop end band place state.now k }
{
    let k = usize::from(place);
    let mut stops = state.stops;
    stops[k] = shifted_stop(end, band, state.grid, stops[k]);
    State {
        stops,
        grid: state.grid,
    }
}

/// The move from the one state to the other with the joint at the place at this end of the band.
pub fn banded_move(end: End, band: u8, place: u8, from: &State, to: &State) -> Motion
    requires place { place < MOST_JOINTS }
    requires from { IsState MOST_JOINTS from.now }
    requires to { IsState MOST_JOINTS to.now }
    requires one_grid { to.now.grid ≡ from.now.grid }
    requires steps { IsStrideFrom MOST_JOINTS WIDEST_STEP from.now to.now }
    requires from_band { HasBandAt band place from.now }
    requires to_band { HasBandAt band place to.now }
    ensures folds { (n d : ℕ) → fold_at result n d ≡ banded_folds end band place from.now to.now n d }
    ensures motion { IsMotion MOST_JOINTS result }
{
    Motion {
        from: banded(end, band, place, from),
        to: banded(end, band, place, to),
    }
}
