//! Where a corner of a panel stands at every moment of a piece of a move, within bounds.
#![tactic(auto)]

mod joints;
mod laws;
mod placing;
mod ratios;
mod swings;
mod turns;

pub use joints::{swing_of, swing_over};
pub use laws::depends_on_its_joints;
pub use placing::{place, place_from, swings_over};
pub use swings::{Ramp, Swing};
pub use turns::turn_through;
