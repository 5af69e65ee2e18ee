//! The commands that look at a dieline and a job: whether the carton is flat apart, where its panels
//! stand, plans, what is to be said of a plan, and made cartons.
#![tactic(auto)]

mod check;
mod clearance;
mod flat;
mod make;
mod plan;
mod pose;

pub use check::CheckCommand;
pub use clearance::ClearanceCommand;
pub use flat::FlatCommand;
pub use make::MakeCommand;
pub use plan::PlanCommand;
pub use pose::PoseCommand;
