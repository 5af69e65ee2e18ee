//! How far the panels of cartons stay parted in the moves of plans, by tests.
#![tactic(auto)]

#[cfg(test)]
mod rows;
