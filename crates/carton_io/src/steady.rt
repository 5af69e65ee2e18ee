ghost use Rattle.std.specs.Prelude.{◌≡◌, ℕ, List, [], Option, Some, None, unwrap_or};
ghost use Rattle.carton_io.specs.Files.{content_of};

use crate::memory_shelf::{NamedFile, bytes_of};
use crate::shelf::{Shelf, ShelfError};
use crate::sink::{Sink, SinkFault};
use std::alloc::Global;
use std::marker::Model;

/// Files in memory that are always read: it counts no fault. A name that no file has holds no bytes,
/// and of two files with one name the first counts.
#[derive(Drop)]
pub struct SteadyShelf {
    files: Vec<NamedFile>,
    had: usize,
}

impl Model for SteadyShelf {
    ghost use Rattle.carton_io.specs.Files.{SteadyView};

    ghost Value = { SteadyView };

    ghost view = { λ s. record { files = s.files.items; had = s.had } };
}

impl SteadyShelf {
    pub fn new(files: Vec<NamedFile>) -> SteadyShelf
        ensures { result.files ≡ files.items }
    {
        SteadyShelf { files, had: 0 }
    }
}

impl Shelf for SteadyShelf {
    ghost holds = { λ s n. Some (unwrap_or (content_of s.files n) []) };

    ghost faults = { λ s. 0 };

    ghost last_failed = { λ s. Some None };

    ghost had = { λ s. s.had };

    fn read(&mut self, alloc: Global, name: &str, limit: usize) -> Result<Vec<u8>, ShelfError> {
        let Some(bytes) = bytes_of(&self.files, name) else {
            self.had = 0;
            return Ok(Vec::new(alloc));
        };
        self.had = bytes.len();
        if bytes.len() > limit {
            return Err(ShelfError::TooLong);
        }
        Ok(Vec::from_slice(alloc, bytes)?)
    }
}

/// Takes all that is put and keeps nothing: it counts no fault, and doesn't tell what was put.
#[derive(Drop)]
pub struct SteadySink;

impl SteadySink {
    pub fn new() -> SteadySink {
        SteadySink
    }
}

impl Sink for SteadySink {
    ghost written = { λ s. None };

    ghost faults = { λ s. 0 };

    fn put(&mut self, _piece: &[u8]) -> Result<(), SinkFault> {
        Ok(())
    }
}
