//! Enclosures of numbers that change over a piece of a move, and sums, products and turns of them.
#![tactic(auto)]

mod dot;
mod enclosing;
mod space;
mod turning;

pub use dot::dot3;
pub use enclosing::Enclose;
pub use space::Space;
pub use turning::turn_pair;
