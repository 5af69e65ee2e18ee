ghost use Rattle.std.specs.Prelude.{◌≡◌, ℕ, ◌≤◌, List, map, IfOk, IfErr, IfSome, IsErrOf};
ghost use Rattle.carton_io.specs.Told.{raised};
ghost use Rattle.carton_tool.specs.Files.{IsReached};
ghost use Rattle.carton_tool.specs.Reading.{AreAllRead, IsUnread};
ghost use Rattle.carton_tool.specs.declared.files.Unread.TheVariants.{NoMemory};
ghost use Rattle.carton_words.specs.Asked.{named};

use carton_base::Listed;
use carton_io::{Shelf, ShelfError};
use carton_words::{FileKind, Wanted};
use std::alloc::{AllocFailed, Global};

/// Why the files of a command weren't all read: one is too long, the first such one; a read failed;
/// or memory was wanted.
#[derive(Clone, Copy, Debug, PartialEq, Eq)]
pub enum Unread {
    TooLong(FileKind),
    Failed,
    NoMemory,
}

impl<T: Drop> From<AllocFailed<T>> for Unread {
    ghost from_gives = { λ _ e. e ≡ NoMemory };

    fn from(_e: AllocFailed<T>) -> Unread {
        Unread::NoMemory
    }
}

/// The bytes of the files, which are read in their order. The first read that gives no bytes ends
/// the reading.
pub fn read_all<S: Shelf>(
    alloc: Global,
    wanted: &[Wanted<'_>],
    shelf: &mut S,
) -> Result<Vec<Listed<u8>>, Unread>
    ensures all { IfOk result (λ files. AreAllRead (S.holds shelf.old) (S.had shelf.new)
        (map named wanted.now) files.items) }
    ensures unread { IfErr result (IsUnread (S.holds shelf.old) (S.had shelf.new) (map named wanted.now)) }

    // A fault counts one, at a file that was to be read.
    ensures once { IsErrOf result Unread.Failed → S.faults shelf.new ≡ raised (S.faults shelf.old) }
    ensures name { IsErrOf result Unread.Failed
        → IfSome (S.last_failed shelf.new) (IsReached (S.holds shelf.old) (map named wanted.now)) }

    // Without a fault nothing counts.
    ensures steady { (IsErrOf result Unread.Failed → ⊥) → S.faults shelf.new ≡ S.faults shelf.old }
    ensures unnamed { (IsErrOf result Unread.Failed → ⊥) → S.last_failed shelf.new ≡ S.last_failed shelf.old }
    ensures stays { (name : List ℕ) → S.holds shelf.new name ≡ S.holds shelf.old name }
    ensures later { S.faults shelf.old ≤ S.faults shelf.new }
{
    let mut files = Vec::new(alloc);
    for file in wanted {
        match shelf.read(alloc, file.name, file.kind.limit()) {
            Ok(bytes) => files.push(Listed::from_vec(bytes))?,
            Err(ShelfError::TooLong) => return Err(Unread::TooLong(file.kind)),
            Err(ShelfError::Failed) => return Err(Unread::Failed),
            Err(ShelfError::Memory) => return Err(Unread::NoMemory),
        }
    }
    Ok(files)
}
