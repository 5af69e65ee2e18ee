//! Plans with fewest moves: a best-first search over the states of a task, whose moves a judge clears.
#![tactic(auto)]

mod exploring;
mod finding;
mod judging;
mod known;
mod laws;
mod search_end;
mod tracing;
mod turns;

pub use carton_steps::{estimate, next_state};
pub use finding::search;
pub use laws::{budget_law, limits_in_numbers};
pub use search_end::SearchEnd;
