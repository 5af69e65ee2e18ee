//! The text of a catalogue, and whether catalogues fit, as tests.
#![tactic(auto)]

#[cfg(test)]
mod faults;
#[cfg(test)]
mod fits;
#[cfg(test)]
mod values;
