ghost use Rattle.std.specs.Prelude.{◌≡◌, if◌then◌else◌};
ghost use Rattle.bstr.specs.Text.{lines_of};
ghost use Rattle.carton_lines.specs.declared.fault.LineError.TheVariants.{BadLine, NoEnd};
ghost use Rattle.carton_lines.specs.Lines.{Gives, GivesLines};
ghost use Rattle.carton_lines.specs.Readings.{next_line, step, has_ended as has_ended_in, read_lines};
ghost use Rattle.carton_lines.specs.Readings.{finished, freely_read, strictly_read};
ghost use Rattle.carton_lines.specs.Spellings.{HasOneSpelling};

use crate::fault::{Fault, LineError};
use crate::line_text::LineText;
use crate::way::Way;
use bstr::ByteSlice;
use std::alloc::Global;

/// How far the lines of a text were read.
#[derive(Drop)]
pub enum Reading<D> {
    /// No line was read that isn't passed over.
    Before,
    /// The first line was read, and `end` was not.
    Within(D),
    Ended(D),
}

impl<D: LineText> Reading<D> {
    fn has_ended(&self) -> bool
        ensures { result ≡ has_ended_in self.now }
    {
        matches!(self, Reading::Ended(_))
    }

    // What is wrong where bytes follow the last line feed, which would begin the line with this number.
    fn unfinished(&self, number: u32) -> LineError
        ensures { result ≡ (if has_ended_in self.now then BadLine number else NoEnd) }
    {
        if self.has_ended() {
            LineError::BadLine(number)
        } else {
            LineError::NoEnd
        }
    }

    fn next_line(self, alloc: Global, number: u32, line: &[u8]) -> Result<Reading<D>, Fault>
        ensures { Gives (λ r. r) result (next_line D.grammar self number line.now) }
    {
        match self {
            Reading::Before => Ok(Reading::Within(D::begin(alloc, line)?)),
            Reading::Within(text) => if line != b"end".as_slice() {
                Ok(Reading::Within(text.take(alloc, number, line)?))
            } else if text.may_end() {
                Ok(Reading::Ended(text))
            } else {
                Err(Fault::BadLine)
            },
            Reading::Ended(_) => Err(Fault::BadLine),
        }
    }

    fn step(
        self,
        alloc: Global,
        way: Way,
        number: u32,
        piece: &[u8],
    ) -> Result<Reading<D>, LineError>
        ensures { GivesLines (λ r. r) result (step D.grammar way self number piece.now) }
    {
        let Some(line) = way.line_of(piece) else {
            return Err(self.unfinished(number));
        };
        if way.passes_over(line) {
            return Ok(self);
        }
        match self.next_line(alloc, number, line) {
            Ok(reading) => Ok(reading),
            Err(fault) => Err(fault.at(number)),
        }
    }

    fn finish(self) -> Result<D, LineError>
        ensures { result ≡ finished self }
    {
        match self {
            Reading::Ended(text) => Ok(text),
            _ => Err(LineError::NoEnd),
        }
    }
}

fn read_all<D: LineText>(alloc: Global, way: Way, bytes: &[u8]) -> Result<Reading<D>, LineError>
    ensures { GivesLines (λ r. r) result
        (read_lines (step D.grammar way) Reading.Before 0 (lines_of bytes.now)) }
{
    let mut reading = Reading::Before;
    let mut number: u32 = 0;
    for piece in bytes.lines_with_terminator() {
        number = number.saturating_add(1);
        reading = reading.step(alloc, way, number, piece)?;
    }
    Ok(reading)
}

/// What the bytes of a free text tell: empty lines and comments are passed over, a carriage return goes
/// with its line feed, and the last line may lack its line feed.
///
/// # Errors
///
/// The fault of the first line that has one, `NoEnd`, or `Memory`.
#[tactic(auto, unfolding(crate::specs::Readings::freely_read))]
pub fn read_freely<D: LineText>(alloc: Global, bytes: &[u8]) -> Result<D, LineError>
    ensures { GivesLines (λ d. d) result (freely_read D.grammar bytes.now) }
{
    read_all::<D>(alloc, Way::Free, bytes)?.finish()
}

/// What the bytes of a strict text tell: every line ends with a line feed alone, and none is passed
/// over, so that there is one spelling of the lines.
///
/// # Errors
///
/// The fault of the first line that has one, `NoEnd`, or `Memory`.
#[tactic(auto, unfolding(crate::specs::Readings::strictly_read))]
pub fn read_strictly<D: LineText>(alloc: Global, bytes: &[u8]) -> Result<D, LineError>
    ensures reads { GivesLines (λ d. d) result (strictly_read D.grammar bytes.now) }
    ensures one_spelling { HasOneSpelling D.grammar bytes.now }
{
    read_all::<D>(alloc, Way::Strict, bytes)?.finish()
}
