//! How far the panels of a carton stay parted in each move of a plan.
#![tactic(auto)]

mod cleared;
mod narrowing;
mod reporting;
mod tightest;

pub use cleared::{Cleared, Row, WIDE_CLEARANCE, limits_in_numbers};
pub use reporting::clearances;
