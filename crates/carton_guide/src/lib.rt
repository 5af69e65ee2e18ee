//! Whether the flap of a guide is held by bodies in motion, at both ends of its band, two-sided.
#![tactic(auto)]

mod bands;
mod holders;
mod holding;
mod note;
mod watching;

pub use holding::held;
pub use note::{End, GuideNote};
