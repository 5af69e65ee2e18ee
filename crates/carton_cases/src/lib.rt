//! The cartons, jobs and plans that tests share: their texts, and the steps that set them up.
#![tactic(auto)]

pub mod bodies;
pub mod catalogues;
pub mod dielines;
mod faults;
pub mod fixtures;
pub mod jobs;
pub mod plans;
mod setting_up;
mod telling;

pub use faults::wrongly_told;
pub use setting_up::{Case, Files, Setup, carton_of, case_of, files_of, plan_of, setup_of};
pub use telling::tells_place;
