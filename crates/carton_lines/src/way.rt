ghost use Rattle.std.specs.Prelude.{◌≡◌, option_map};
ghost use Rattle.bstr.specs.Text.{without_terminator as without_terminator_in};
ghost use Rattle.carton_lines.specs.Ways.{line_of as line_of_in, passes_over as passes_over_in};

use crate::cutting::is_passed_over;
use crate::strict_lines::whole;

/// A way in which the lines of a text are read.
#[derive(Clone, Copy)]
pub enum Way {
    /// Empty lines and comments are passed over, a carriage return goes with its line feed, and the last
    /// line may lack its line feed.
    Free,
    /// Every line ends with a line feed alone, and none is passed over.
    Strict,
}

// A line without its line feed, if it has one, and without a carriage return before that.
fn without_terminator(piece: &[u8]) -> &[u8]
    ensures { result.now ≡ without_terminator_in piece.now }
{
    let size = piece.len();
    if size == 0 || piece[size - 1] != b'\n' {
        return piece;
    }
    if size == 1 || piece[size - 2] != b'\r' {
        return &piece[..size - 1];
    }
    &piece[..size - 2]
}

impl Way {
    /// The line of what stands up to a line feed, or up to the end of the text, if that is a line.
    pub fn line_of(self, piece: &[u8]) -> Option<&[u8]>
        ensures { option_map (λ l. l.now) result ≡ line_of_in self piece.now }
    {
        match self {
            Way::Free => Some(without_terminator(piece)),
            Way::Strict => whole(piece),
        }
    }

    /// Whether the line is passed over.
    pub fn passes_over(self, line: &[u8]) -> bool
        ensures { result ≡ passes_over_in self line.now }
    {
        match self {
            Way::Free => is_passed_over(line),
            Way::Strict => false,
        }
    }
}
