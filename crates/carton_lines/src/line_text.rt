ghost use Rattle.std.specs.Prelude.{◌≡◌};
ghost use Rattle.carton_lines.specs.Lines.{Gives};

use crate::fault::Fault;
use std::alloc::Global;

/// A text of lines, as far as they were read: what the lines before its end have told so far. Its
/// grammar says what the first line, a later line and the end mean.
pub trait LineText: Drop {
    ghost use Rattle.carton_lines.specs.Grammars.{Grammar};

    ghost grammar: { Grammar Self };

    /// What the first line tells.
    fn begin(alloc: Global, line: &[u8]) -> Result<Self, Fault>
        ensures { Gives (λ d. d) result (grammar.begin line.now) };

    /// What the line with this number tells, with what the earlier lines told. It isn't `end`.
    fn take(self, alloc: Global, number: u32, line: &[u8]) -> Result<Self, Fault>
        ensures { Gives (λ d. d) result (grammar.take self number line.now) };

    /// Whether the text may end here.
    fn may_end(&self) -> bool
        ensures { result ≡ grammar.may_end self.now };
}
