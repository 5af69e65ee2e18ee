//! A queue of numbered nodes with priorities, in linked buckets.
#![tactic(auto)]

mod calls;
mod entries;
mod links;
mod queue;
mod rings;

pub use calls::{QueueAnswer, QueueCall, run_calls};
pub use queue::BucketQueue;
