//! Worked rows of the crates from a file's bytes to a dieline's panels, as tests.
#![tactic(auto)]

#[cfg(test)]
mod dielines;
#[cfg(test)]
mod files;
#[cfg(test)]
mod panels;
#[cfg(test)]
mod reader;
#[cfg(test)]
mod real_ends;
