//! Runs of commands, and those over ends that fail, as tests.
#![tactic(auto)]

#[cfg(test)]
mod checks;
#[cfg(test)]
mod clearances;
#[cfg(test)]
mod ends;
#[cfg(test)]
mod faulty_ends;
#[cfg(test)]
mod fixtures;
#[cfg(test)]
mod makes;
#[cfg(test)]
mod plans;
#[cfg(test)]
mod poses;
