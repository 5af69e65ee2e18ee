//! The texts of fixtures, and the making and verifying of fixtures, as tests.
#![tactic(auto)]

#[cfg(test)]
mod compiling;
#[cfg(test)]
mod texts;
#[cfg(test)]
mod verifying;
