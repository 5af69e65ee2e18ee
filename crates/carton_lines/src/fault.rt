ghost use Rattle.std.specs.Prelude.{◌≡◌};
ghost use Rattle.carton_lines.specs.Lines.{at_line};
ghost use Rattle.carton_lines.specs.declared.fault.Fault.TheVariants.{Memory};

use std::alloc::{AllocError, AllocFailed};
use thiserror::Error;

/// What is wrong with a line, whatever its number.
#[derive(Clone, Copy, Debug, PartialEq, Eq)]
pub enum Fault {
    /// The line has no form of the text in its place.
    BadLine,
    /// A number is outside its range, or there are more of something than there may be.
    Range,
    /// An earlier line forbids it.
    Duplicate,
    /// Memory was wanted and not had.
    Memory,
}

/// The first fault of a text of lines. A number is that of the line, from 1; the number 4294967295
/// stands for all later lines too.
#[derive(Clone, Copy, Debug, PartialEq, Eq, Error)]
pub enum LineError {
    /// The line has no form of the text in its place.
    #[error("bad line {0}")]
    BadLine(u32),
    /// A number of the line is outside its range, or there are more of something than there may be.
    #[error("range line {0}")]
    Range(u32),
    /// An earlier line forbids the line.
    #[error("duplicate line {0}")]
    Duplicate(u32),
    /// No line is at fault, and none of them ends the text.
    #[error("no end")]
    NoEnd,
    /// Memory was wanted and not had.
    #[error("out of memory")]
    Memory,
}

impl Fault {
    /// The fault of the line with this number.
    pub fn at(self, number: u32) -> LineError
        ensures { result ≡ at_line number self }
    {
        match self {
            Fault::BadLine => LineError::BadLine(number),
            Fault::Range => LineError::Range(number),
            Fault::Duplicate => LineError::Duplicate(number),
            Fault::Memory => LineError::Memory,
        }
    }
}

impl From<AllocError> for Fault {
    ghost from_gives = { λ _ e. e ≡ Memory };

    fn from(_e: AllocError) -> Fault {
        Fault::Memory
    }
}

impl<T: Drop> From<AllocFailed<T>> for Fault {
    ghost from_gives = { λ _ e. e ≡ Memory };

    fn from(_e: AllocFailed<T>) -> Fault {
        Fault::Memory
    }
}
