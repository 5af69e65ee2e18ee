//! Fixtures: made of the candidates of a catalogue for a plan, and verified.
#![tactic(auto)]

mod answers;
mod asking;
mod candidates;
mod choosing;
mod compiling;
mod leaving;
mod room;
mod verifying;

pub use answers::{Compiled, UnheldEnd, Verified};
pub use carton_fixture_text::{Fixture, FixtureBody, read_fixture, write_fixture};
pub use compiling::{compile, compile_in};
pub use room::FixtureRoom;
pub use verifying::verify;
