//! The dielines and jobs that are made from a number, as tests.
#![tactic(auto)]

#[cfg(test)]
mod made;
