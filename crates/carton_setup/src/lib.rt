//! What the commands of carton begin with: from the bytes of files to a carton, a task, a plan and a
//! catalogue, or the first file that is refused; and what a command tells.
#![tactic(auto)]

mod accepting;
mod breach;
mod breaches;
mod checks;
mod command;
mod files;
mod moment;
mod proposal;
mod refusal;
mod setup;
mod supply;
mod taking;
mod texts;
mod told;

pub use accepting::accept;
pub use breach::Breach;
pub use checks::checked_text;
pub use command::{Command, Taken, find, tell};
pub use files::bytes_at;
pub use moment::moment_text;
pub use proposal::{Proposal, proposal_from};
pub use refusal::{BadFile, Refusal, Rule};
pub use setup::{Setup, dieline_in, plan_in, set_up};
pub use supply::{Supply, supply_from};
pub use taking::Nothing;
pub use texts::refusal_text;
pub use told::{Ending, Told};
