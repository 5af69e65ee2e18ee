//! The search over a judge that computes, by tests.
#![tactic(auto)]

#[cfg(test)]
mod counting;
#[cfg(test)]
mod ends;
