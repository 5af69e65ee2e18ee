//! Panels over moves, by tests: what parts two panels, what is told of all, and how far panels reach.
#![tactic(auto)]

#[cfg(test)]
mod moves;
#[cfg(test)]
mod pairs;
#[cfg(test)]
mod reaches;
#[cfg(test)]
mod verdicts;
