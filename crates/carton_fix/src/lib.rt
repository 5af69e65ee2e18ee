//! Enclosures by two bounds in units of 2^-40, rounded outward.
#![tactic(auto)]

mod fix;

pub use fix::Fix;
