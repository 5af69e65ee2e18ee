//! Grid steps and estimates, as tests.
#![tactic(auto)]

#[cfg(test)]
mod steps;
