ghost use Rattle.std.specs.Prelude.{◌≡◌, IfOk};
ghost use Rattle.carton_lines.specs.Lines.{GivesLines};
ghost use Rattle.carton_fixture_text.specs.FixtureRules.{IsFixture};
ghost use Rattle.carton_fixture_text.specs.FixtureTexts.{fixture_told, fixture_of, HasOneSpelling};

use crate::fixture::Fixture;
use crate::fixture_lines::{stroke_told, with_body};
use carton_base::Listed;
use carton_lines::{Fault, LineError, LineText, read_strictly};
use std::alloc::Global;

/// What the lines of a fixture have told before its end.
#[derive(Drop)]
pub enum FixtureReading {
    /// The first line was read.
    Headed,
    /// The stroke was read.
    Within(Fixture),
}

impl LineText for FixtureReading {
    ghost use Rattle.carton_fixture_text.specs.FixtureTexts.{fixture_lines};

    ghost grammar = { fixture_lines };

    fn begin(_alloc: Global, line: &[u8]) -> Result<FixtureReading, Fault> {
        if line != b"carton fixture 1".as_slice() {
            return Err(Fault::BadLine);
        }
        Ok(FixtureReading::Headed)
    }

    fn take(self, alloc: Global, _number: u32, line: &[u8]) -> Result<FixtureReading, Fault> {
        match self {
            FixtureReading::Headed => {
                let stroke = stroke_told(alloc, line)?;
                let bodies = Listed::new(alloc);
                Ok(FixtureReading::Within(Fixture { stroke, bodies }))
            }
            FixtureReading::Within(fixture) => Ok(FixtureReading::Within(with_body(
                fixture, alloc, line,
            )?)),
        }
    }

    fn may_end(&self) -> bool {
        matches!(self, FixtureReading::Within(_))
    }
}

impl FixtureReading {
    fn told(self) -> Result<Fixture, LineError>
        ensures { result ≡ fixture_told self }
    {
        match self {
            FixtureReading::Headed => Err(LineError::NoEnd),
            FixtureReading::Within(fixture) => Ok(fixture),
        }
    }
}

/// The fixture of the bytes of a text.
///
/// # Errors
///
/// The fault of the first line that has one, `NoEnd`, or `Memory`.
#[tactic(auto, unfolding(crate::specs::FixtureTexts::fixture_of))]
pub fn read_fixture(alloc: Global, bytes: &[u8]) -> Result<Fixture, LineError>
    ensures reads { GivesLines (λ f. f) result (fixture_of bytes.now) }
    ensures keeps_rules { IfOk result IsFixture }
    ensures one_spelling { HasOneSpelling bytes.now }
{
    read_strictly::<FixtureReading>(alloc, bytes)?.told()
}
