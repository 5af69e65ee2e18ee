//! The reader of dielines: FOLD files of whole coordinates, with panels in the plane.
#![tactic(auto)]

mod angles;
mod edges;
mod entries;
mod error;
mod faces;
mod letters;
mod points;
mod reading;
mod values;

pub use error::{FoldError, Key};
pub use reading::read_dieline;
