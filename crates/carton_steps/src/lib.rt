//! Grid steps of the teams of a task, and the estimate of how many are left.
#![tactic(auto)]

mod estimates;
mod laws;
mod stepping;

pub use estimates::estimate;
pub use laws::estimate_laws;
pub use stepping::next_state;
