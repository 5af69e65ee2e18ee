ghost use Rattle.std.specs.Prelude.{◌≡◌};
ghost use Rattle.carton_tool.specs.declared.halt.Halt.TheVariants.{NoMemory};

use carton_base::OutOfMemory;
use std::alloc::AllocError;

/// Why nothing is said: a read failed, or memory was wanted.
#[derive(Clone, Copy, Debug, PartialEq, Eq)]
pub enum Halt {
    ReadFault,
    NoMemory,
}

impl From<OutOfMemory> for Halt {
    ghost from_gives = { λ _ halt. halt ≡ NoMemory };

    fn from(_e: OutOfMemory) -> Halt {
        Halt::NoMemory
    }
}

impl From<AllocError> for Halt {
    ghost from_gives = { λ _ halt. halt ≡ NoMemory };

    fn from(_e: AllocError) -> Halt {
        Halt::NoMemory
    }
}
