ghost use Rattle.std.specs.Prelude.{◌≡◌, ℕ, List, IfOk};
ghost use Rattle.carton_setup.specs.Commands.{found_by, told_by};
ghost use Rattle.carton_setup.specs.Outcomes.{Outcomes, IsOutcome};
ghost use Rattle.carton_setup.specs.declared.told.Told.{Told};

use crate::refusal::Refusal;
use crate::told::Told;
use carton_base::{Listed, OutOfMemory};
use std::alloc::Global;

/// What a command takes from its files: a value that they give together.
pub trait Taken: Drop {
    // What the bytes of the files may give, and the rules that such a value keeps.
    ghost outcomes: { List (List ℕ) → Outcomes Self };

    ghost keeps: { Self → Type 0 };

    /// The value that the bytes of the files give, or the first file that is refused.
    fn take(alloc: Global, files: &[Listed<u8>]) -> Result<Self, Refusal>
        ensures takes { IsOutcome (outcomes files.now) result }
        ensures keeps_rules { IfOk result keeps };
}

/// A command: what it finds for what it took from its files, and what it tells of that.
pub trait Command {
    type Given: Taken;

    type Found: Drop;

    // What may be found, the rules that it keeps, and what is told of it.
    ghost finds: { Self → Self.Given → Outcomes Self.Found };

    ghost is_tellable: { Self.Found → Type 0 };

    ghost told: { Self → Self.Given → Self.Found → Told };

    /// What the command finds, or a file that is refused.
    fn find(&self, alloc: Global, given: &Self::Given) -> Result<Self::Found, Refusal>
        requires { Self.Given.keeps given.now }
        ensures finds { IsOutcome (finds self.now given.now) result }
        ensures keeps_rules { IfOk result is_tellable };

    /// What the command tells of what it found.
    fn tell(
        &self,
        alloc: Global,
        given: &Self::Given,
        found: Self::Found,
    ) -> Result<Told, OutOfMemory>
        requires { is_tellable found }
        ensures { IfOk result (λ t. t ≡ told self.now given.now found) };
}

/// What a command finds for the bytes of its files.
pub fn find<C: Command>(
    alloc: Global,
    command: &C,
    files: &[Listed<u8>],
) -> Result<C::Found, Refusal>
    ensures finds { IsOutcome (found_by C.Given.outcomes (C.finds command.now) files.now) result }
    ensures keeps_rules { IfOk result C.is_tellable }
{
    let given = C::Given::take(alloc, files)?;
    command.find(alloc, &given)
}

/// What a command tells for the bytes of its files.
pub fn tell<C: Command>(alloc: Global, command: &C, files: &[Listed<u8>]) -> Result<Told, Refusal>
    ensures { IsOutcome (told_by C.Given.outcomes (C.finds command.now) (C.told command.now) files.now)
        result }
{
    let given = C::Given::take(alloc, files)?;
    let found = command.find(alloc, &given)?;
    Ok(command.tell(alloc, &given, found)?)
}
