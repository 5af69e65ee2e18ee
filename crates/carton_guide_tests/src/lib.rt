//! What is told of guides, by tests.
#![tactic(auto)]

#[cfg(test)]
mod notes;
