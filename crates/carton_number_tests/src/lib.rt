//! Worked rows of the crates that reckon with numbers, as tests.
#![tactic(auto)]

#[cfg(test)]
mod arithmetic;
#[cfg(test)]
mod half_turns;
#[cfg(test)]
mod moving_folds;
#[cfg(test)]
mod placing;
