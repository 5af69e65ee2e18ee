//! The texts of jobs, of plans and of poses, and the task that a job gives.
#![tactic(auto)]

mod carton_task;
mod course;
mod courses;
mod draft;
mod fitting;
mod grid;
mod job;
mod job_error;
mod job_line;
mod job_text;
mod laws;
mod limits;
mod moves;
mod plan;
mod plan_draft;
mod plan_lines;
mod plan_text;
mod plan_writing;
mod pose;
mod spot;
mod strangers;
mod task;
mod teams;
mod telling;

pub use carton_lines::{
    Fault, LineError, Numeral, after, is_passed_over, number_at, number_of, numbers, numbers_after,
    whole, words,
};
pub use carton_made::{made_dieline, made_job};
pub use carton_task::job_for;
pub use fitting::fitted;
pub use job::{Job, Setting, TeamLine};
pub use job_error::JobError;
pub use job_text::read_job;
pub use laws::{each_job_is_read_of_its_spelling, each_joint_that_moves_is_in_one_team};
pub use limits::limits_in_numbers;
pub use moves::move_at;
pub use plan::Plan;
pub use plan_text::read_plan;
pub use plan_writing::write_plan;
pub use pose::pose_text;
pub use task::{Task, Team};
