//! The grammar that all texts of lines share: lines and their words, numerals, the faults of lines, and the
//! two ways in which a text is read.
#![tactic(auto)]

mod cutting;
mod decimals;
mod fault;
mod line_text;
mod reading;
mod strict_lines;
mod way;
mod writing;

pub use cutting::{after, is_passed_over, words};
pub use decimals::{Numeral, number_at, number_of, numbers};
pub use fault::{Fault, LineError};
pub use line_text::LineText;
pub use reading::{read_freely, read_strictly};
pub use strict_lines::{numbers_after, whole};
pub use writing::write_line;
