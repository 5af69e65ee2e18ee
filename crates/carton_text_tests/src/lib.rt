//! The texts of jobs, of plans and of poses, and the tasks that jobs give, as tests.
#![tactic(auto)]

#[cfg(test)]
mod faults;
#[cfg(test)]
mod poses;
#[cfg(test)]
mod tasks;
#[cfg(test)]
mod values;
