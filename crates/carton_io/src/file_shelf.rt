ghost use Rattle.std.specs.Prelude.{◌≡◌, ◌≢◌, ℕ, ◌^◌, ◌<◌, ◌≤◌, ◌+◌, List, length, take, Option, None, IfOk};
ghost use Rattle.std.specs.Prelude.{IfErr, IfSome};
ghost use Rattle.carton_io.specs.Told.{raised};

use crate::file_source::FileSource;
use crate::shelf::{Shelf, ShelfError};
use std::alloc::Global;
use std::io;
use std::io::{ErrorKind, Read};

/// Reads files by their names, and tells what their source tells: of the files of the system, which
/// it opens by their paths, nothing.
#[derive(Drop)]
pub struct FileShelf<'a, R: FileSource> {
    source: &'a R,
    faults: u64,
    had: usize,
}

impl<'a, R: FileSource> FileShelf<'a, R> {
    pub fn new(source: &'a R) -> Self
        ensures source { result.source.now ≡ source.now }
        ensures faults { result.faults ≡ 0 }
        ensures had { result.had ≡ 0 }
    {
        FileShelf {
            source,
            faults: 0,
            had: 0,
        }
    }

    // Counts a fault.
    fn fail(&mut self) -> ShelfError
        ensures failed { result ≡ ShelfError.Failed }
        ensures once { self.new.faults ≡ raised self.old.faults }
        ensures source { self.new.source ≡ self.old.source }
    {
        self.faults = self.faults.saturating_add(1);
        ShelfError::Failed
    }
}

// The first bytes of a reader, and of a longer one no more than so many. Calls that are interrupted
// are made again.
fn front_of<F: Read + Drop>(alloc: Global, reader: F, most: usize) -> io::Result<Vec<u8>>
    ensures { IfOk result (λ v. IfSome (F.remaining reader) (λ bytes. v.items ≡ take most bytes)) }
{
    let mut bytes = Vec::new(alloc);
    reader.take(most as u64).read_to_end(&mut bytes)?;
    Ok(bytes)
}

impl<'a, R: FileSource> Shelf for FileShelf<'a, R> {
    ghost holds = { λ s name. R.content s.source.now name };

    ghost faults = { λ s. s.faults };

    ghost last_failed = { λ s. None };

    ghost had = { λ s. s.had };

    fn read(&mut self, alloc: Global, name: &str, limit: usize) -> Result<Vec<u8>, ShelfError> {
        let front = match self.source.open_named(name) {
            Ok(file) => front_of(alloc, file, limit + 1),
            Err(e) => Err(e),
        };
        match front {
            Ok(bytes) => {
                self.had = bytes.len();
                if bytes.len() > limit {
                    return Err(ShelfError::TooLong);
                }
                Ok(bytes)
            }
            Err(e) if e.kind() == ErrorKind::OutOfMemory => Err(ShelfError::Memory),
            Err(_) => Err(self.fail()),
        }
    }
}
