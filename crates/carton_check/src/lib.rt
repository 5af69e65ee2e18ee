//! Checks of plans: whether a plan does what a task asks, and keeps the panels of a carton apart throughout.
#![tactic(auto)]

mod checked;
mod checking;
mod comparing;
mod judging;
mod strides;

pub use checked::Checked;
pub use checking::check;
