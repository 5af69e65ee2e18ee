ghost use Rattle.std.specs.Prelude.{◌≡◌};
ghost use Rattle.carton_setup.specs.Telling.{done as done_of, denied as denied_of, spent as spent_of};

use carton_base::Listed;

/// How a command that has looked at its files ends: what was asked for is told, it is denied with the
/// cause, or the budget of turns was spent first.
#[derive(Clone, Copy, Debug, PartialEq, Eq)]
pub enum Ending {
    Done,
    Refused,
    OutOfTurns,
}

/// What a command tells of its files: the bytes of its text, with their line feeds, and how it ends.
#[derive(Debug, Drop, PartialEq)]
pub struct Told {
    pub text: Listed<u8>,
    pub ending: Ending,
}

impl Told {
    /// What was asked for.
    pub fn done(text: Vec<u8>) -> Told
        ensures { result ≡ done_of text.items }
    {
        Told {
            text: Listed::from_vec(text),
            ending: Ending::Done,
        }
    }

    /// Why it is denied.
    pub fn denied(text: Vec<u8>) -> Told
        ensures { result ≡ denied_of text.items }
    {
        Told {
            text: Listed::from_vec(text),
            ending: Ending::Refused,
        }
    }

    /// How far the budget of turns went.
    pub fn spent(text: Vec<u8>) -> Told
        ensures { result ≡ spent_of text.items }
    {
        Told {
            text: Listed::from_vec(text),
            ending: Ending::OutOfTurns,
        }
    }
}
