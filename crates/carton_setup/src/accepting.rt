ghost use Rattle.std.specs.Prelude.{◌≡◌};
ghost use Rattle.carton_setup.specs.Outcomes.{accepted};

use crate::breach::Breach;
use crate::refusal::{BadFile, Refusal};
use carton_words::FileKind;

/// The value that a step gave, or why the file of this kind that it looked at is refused.
pub fn accept<T, E: Breach>(kind: FileKind, step: Result<T, E>) -> Result<T, Refusal>
    ensures { result ≡ accepted kind E.broken step }
{
    match step {
        Ok(value) => Ok(value),
        Err(e) => match e.rule() {
            Some(rule) => Err(Refusal::Bad(BadFile { kind, rule })),
            None => Err(Refusal::NoMemory),
        },
    }
}
