//! The dielines and jobs that are made from a number.
#![tactic(auto)]

mod dielines;
mod jobs;
mod kinds;
mod rows;
mod trays;

pub use dielines::made_dieline;
pub use jobs::made_job;
pub use kinds::{Kind, kind_of, size_of};
