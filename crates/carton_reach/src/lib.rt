//! How far the shrunk panels of a carton reach along 13 axes, in the frames of its panels, over
//! pieces of a move.
#![tactic(auto)]

mod corners;
mod nearness;
mod ranges;
mod reach;
mod reaching;

pub use nearness::{are_apart, are_near};
pub use reach::{Reach, Reaches};
pub use reaching::{reaches, reaches_within};
