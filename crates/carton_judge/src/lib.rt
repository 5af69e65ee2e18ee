//! Judges of states and moves: whether all panels that share no crease keep apart.
#![tactic(auto)]

mod geometry;
mod judge;
mod range;

pub use geometry::GeometryJudge;
pub use judge::Judge;
pub use range::RangeJudge;
