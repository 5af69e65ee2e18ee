//! Cosine and sine of a fold that moves evenly, by the half pair of the fold, within bounds in units
//! of 2^-40.
#![tactic(auto)]

mod bounds;
mod folds;
mod pieces;
mod ranges;
mod slopes;
mod spans;
mod values;

pub use bounds::{cos_bounds, sin_bounds};
pub use pieces::span;
pub use slopes::{cos_slope, sin_slope};
pub use spans::FoldSpan;
pub use values::{cos_start, sin_start};
