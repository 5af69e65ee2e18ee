ghost use Rattle.std.specs.Prelude.{◌≡◌, ◌↔◌, ◌<◌, ◌≤◌, IsTrue, unsigned_abs};
ghost use Rattle.carton_base.specs.declared.limits.TheConstants.{MOST_JOINTS};
ghost use Rattle.carton_model.specs.HalfTurns.{stop_fold};
ghost use Rattle.carton_model.specs.Moves.{stop_of};
ghost use Rattle.carton_place.specs.States.{fold_in};
ghost use Rattle.carton_catalogue.specs.Fits.{HasWindow, IsFold, with_eighths, HasRoomFor, KeepsBand};

use carton_base::{Guide, State};

// Whether the window is one of moves of the states.
pub fn has_window(states: &[State], guide: &Guide) -> bool
    ensures { IsTrue result ↔ HasWindow states.now guide.now }
{
    guide.first <= guide.last && usize::from(guide.last) + 1 < states.len()
}

// The fold of a stop with so many eighths of a right angle more, over eight times the grid.
fn with_more(stop: i8, grid: u8, eighths: i32) -> i32
    requires { unsigned_abs eighths ≤ 255 }
    ensures { result ≡ (with_eighths eighths (stop_fold stop grid)).num }
{
    8 * i32::from(stop) + eighths * i32::from(grid)
}

// Whether that fold lies from -2 to 2.
fn is_fold(stop: i8, grid: u8, eighths: i32) -> bool
    requires { unsigned_abs eighths ≤ 255 }
    ensures { IsTrue result ↔ IsFold (with_eighths eighths (stop_fold stop grid)) }
{
    with_more(stop, grid, eighths).unsigned_abs() <= 2 * (8 * u32::from(grid))
}

fn stop_at(state: &State, place: u8) -> i8
    requires { place < MOST_JOINTS }
    ensures { result ≡ stop_of state.now place }
{
    state.stops[usize::from(place)]
}

// Whether the joint has room for a band of so many eighths on either side.
fn has_room(band: u8, place: u8, state: &State) -> bool
    requires { place < MOST_JOINTS }
    ensures { IsTrue result ↔ HasRoomFor band (fold_in state.now place) }
{
    let stop = stop_at(state, place);
    let band = i32::from(band);
    is_fold(stop, state.grid, -band) && is_fold(stop, state.grid, band)
}

// Whether the joint has room for the band in every state of the window.
pub fn keeps_band(states: &[State], guide: &Guide, place: u8) -> bool
    requires window { HasWindow states.now guide.now }
    requires place { place < MOST_JOINTS }
    ensures { IsTrue result ↔ KeepsBand states.now guide.now place }
{
    for i in usize::from(guide.first)..usize::from(guide.last) + 2 {
        if !has_room(guide.band, place, &states[i]) {
            return false;
        }
    }
    true
}
