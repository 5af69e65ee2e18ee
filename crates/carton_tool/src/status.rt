ghost use Rattle.std.specs.Prelude.{◌≡◌};
ghost use Rattle.carton_tool.specs.Saying.{status_of};
ghost use Rattle.carton_tool.specs.Statuses.{number_of};

use crate::said::Ended;
use carton_setup::Ending;

/// How a run ended. Its number is the exit status of the program.
#[derive(Clone, Copy, Debug, PartialEq, Eq)]
pub enum Status {
    Done = 0,
    Refused = 1,
    BadInput = 2,
    BadWords = 3,
    ReadFault = 4,
    WriteFault = 5,
    OutOfTurns = 6,
    NoMemory = 7,
}

impl Status {
    /// The exit status of the program.
    pub fn number(self) -> u8
        ensures { result ≡ number_of self }
    {
        self as u8
    }
}

/// The status that goes with how something was said.
pub fn status_for(ended: Ended) -> Status
    ensures { result ≡ status_of ended }
{
    match ended {
        Ended::BadWords => Status::BadWords,
        Ended::BadInput => Status::BadInput,
        Ended::Told(Ending::Done) => Status::Done,
        Ended::Told(Ending::Refused) => Status::Refused,
        Ended::Told(Ending::OutOfTurns) => Status::OutOfTurns,
    }
}
