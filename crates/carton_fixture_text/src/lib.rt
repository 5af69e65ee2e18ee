//! The text of a fixture, which has one spelling: read and written.
#![tactic(auto)]

mod fixture;
mod fixture_lines;
mod fixture_text;
mod fixture_writing;

pub use fixture::{Fixture, FixtureBody, LAST_BODY, limits_in_numbers};
pub use fixture_text::read_fixture;
pub use fixture_writing::write_fixture;
