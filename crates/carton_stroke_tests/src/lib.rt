//! What is told of moving bodies, by tests.
#![tactic(auto)]

#[cfg(test)]
mod notes;
