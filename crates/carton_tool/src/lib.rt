//! The top call of carton: from the words of a command line to the text and the status.
#![tactic(auto)]

mod files;
mod halt;
mod said;
mod status;
mod steady;
mod tool;
mod verbs;

pub use status::Status;
pub use steady::run_steadily;
pub use tool::run;
