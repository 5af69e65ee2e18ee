//! The commands of carton: what each is called, which files it reads in which order, and what further
//! word it takes.
#![tactic(auto)]

mod ends;
mod givens;
mod kinds;
mod table;
mod words;

pub use ends::End;
pub use givens::{Given, MOST_MADE, Wanted, limits_in_numbers};
pub use kinds::FileKind;
pub use table::{Row, Slot, VERBS, Verb, row_of};
pub use words::{Asked, command_of, wanted_by};
