ghost use Rattle.std.specs.Prelude.{◌≡◌};
ghost use Rattle.carton_catalogue.specs.Catalogues.{of_a_line};

use carton_lines::LineError;
use thiserror::Error;

/// The first rule that the text of a catalogue breaks.
#[derive(Clone, Copy, Debug, PartialEq, Eq, Error)]
pub enum CatalogueError {
    /// A line has a fault, or none of them ends the text. It is never `LineError::Memory`.
    #[error("{0}")]
    Line(LineError),
    /// The lines are fine, and none of them is a guide.
    #[error("no guide")]
    NoGuide,
    /// Memory was wanted and not had.
    #[error("out of memory")]
    Memory,
}

impl From<LineError> for CatalogueError {
    ghost from_gives = { λ fault e. e ≡ of_a_line fault };

    fn from(fault: LineError) -> CatalogueError {
        match fault {
            LineError::Memory => CatalogueError::Memory,
            fault => CatalogueError::Line(fault),
        }
    }
}
