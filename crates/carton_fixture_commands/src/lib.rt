//! The commands that look at a catalogue: fixtures for plans, and whether one is good.
#![tactic(auto)]

mod fixture;
mod notes;
mod verify;

pub use fixture::FixtureCommand;
pub use verify::VerifyCommand;
