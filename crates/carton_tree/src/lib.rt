//! The tree of a dieline's panels: its joints, paths and turns.
#![tactic(auto)]

mod besides;
mod build;
mod carton;
mod error;
mod groups;
mod hanging;
mod hinges;
mod joint;
mod paths;
mod route;
mod rules;
mod sides;
mod spots;
mod start;

pub use build::tree;
pub use carton::Carton;
pub use error::TreeError;
pub use joint::Joint;
pub use route::Route;
pub use start::{Start, start_of};
