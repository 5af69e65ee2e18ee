//! The tree of a dieline's panels, by tests.
#![tactic(auto)]

#[cfg(test)]
mod tree;
