ghost use Rattle.std.specs.Prelude.{◌≡◌, ◌≢◌, ℕ, ◌^◌, ◌<◌, ◌≤◌, ◌+◌, ◌-◌, min, List, length, Option, Some};
ghost use Rattle.std.specs.Prelude.{None, IfOk, IfSome, IsErrOf};
ghost use Rattle.carton_io.specs.declared.shelf.ShelfError.TheVariants.{Memory};
ghost use Rattle.carton_io.specs.Told.{raised, Rose};

use std::alloc::{AllocError, AllocFailed, Global};

/// Why a read gave no bytes. `Failed`: the read failed, or nothing has that name. `TooLong`: there
/// are more bytes than the limit. `Memory`: memory was wanted.
#[derive(Clone, Copy, Debug, PartialEq, Eq)]
pub enum ShelfError {
    Failed,
    TooLong,
    Memory,
}

impl From<AllocError> for ShelfError {
    ghost from_gives = { λ _ e. e ≡ Memory };

    fn from(_e: AllocError) -> ShelfError {
        ShelfError::Memory
    }
}

impl<T: Drop> From<AllocFailed<T>> for ShelfError {
    ghost from_gives = { λ _ e. e ≡ Memory };

    fn from(_e: AllocFailed<T>) -> ShelfError {
        ShelfError::Memory
    }
}

/// Where files are read by their names. A shelf may tell what its names hold, or may not.
pub trait Shelf {
    /// The bytes that a name holds, where the shelf tells them.
    ghost holds: { Self → List ℕ → Option (List ℕ) };

    /// How many reads have failed, from 0 to 2^64 - 1, where the count stands still.
    ghost faults: { Self → ℕ };

    /// The name of the read that failed last, if any has, where the shelf tells it.
    ghost last_failed: { Self → Option (Option (List ℕ)) };

    /// How many bytes the last read had, of a read that gave bytes or was too long.
    ghost had: { Self → ℕ };

    /// The bytes of a name, of which there may be at most `limit`.
    fn read(&mut self, alloc: Global, name: &str, limit: usize) -> Result<Vec<u8>, ShelfError>
        requires { limit ≤ 2 ^ 28 }
        ensures short { IfOk result (λ v. length v.items ≤ limit) }
        ensures told { IfOk result (λ v. IfSome (holds self.old name.now) (λ bytes. v.items ≡ bytes)) }
        ensures had_all { IfOk result (λ v. had self.new ≡ length v.items) }
        ensures had_more { IsErrOf result ShelfError.TooLong → limit < had self.new }
        ensures too_long { IsErrOf result ShelfError.TooLong
            → IfSome (holds self.old name.now) (λ bytes. limit < length bytes) }
        ensures stays { (n : List ℕ) → holds self.new n ≡ holds self.old n }
        ensures later { faults self.old ≤ faults self.new }
        ensures cause { IsErrOf result ShelfError.Failed → Rose (faults self.old) (faults self.new) }
        ensures named { IsErrOf result ShelfError.Failed
            → IfSome (last_failed self.new) (λ n. n ≡ Some name.now) }
        ensures unnamed { (IsErrOf result ShelfError.Failed → ⊥) → last_failed self.new
            ≡ last_failed self.old }
        ensures quiet { IsErrOf result ShelfError.Memory → faults self.new ≡ faults self.old }
        ensures steady { (IsErrOf result ShelfError.Failed → ⊥) → faults self.new ≡ faults self.old }
        ensures once { IsErrOf result ShelfError.Failed → faults self.new ≡ raised (faults self.old) };
}
