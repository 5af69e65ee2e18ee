//! The queue of numbered nodes, by tests.
#![tactic(auto)]

#[cfg(test)]
mod few;
#[cfg(test)]
mod many;
