//! Whether bodies that move with the stroke of a fixture keep clear of the panels of a carton
//! throughout a plan, two-sided.
#![tactic(auto)]

mod clearing;
mod laws;
mod nearness;
mod note;
mod passing;
mod resting;
mod world;

pub use clearing::{bodies_clear, body_clears};
pub use laws::slack_clear_is_told;
pub use note::BodyNote;
