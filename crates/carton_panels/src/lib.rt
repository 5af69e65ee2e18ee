//! Panels of a dieline: their corners, and what an inward margin leaves of them.
#![tactic(auto)]

mod around;
mod convexity;
mod corners;
mod creases;
mod crossings;
mod dieline;
mod error;
mod inset;
mod lines;
mod parting;
mod room;
mod shape;

pub use creases::common_crease;
pub use dieline::panels;
pub use error::PanelError;
pub use parting::flat_parted;
pub use shape::{PanelShape, panel};
