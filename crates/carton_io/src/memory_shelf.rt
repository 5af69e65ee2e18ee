ghost use Rattle.std.specs.Prelude.{◌≡◌, ◌≢◌, ◌⊎◌, ◌↔◌, ℕ, ◌^◌, ◌<◌, ◌≤◌, ◌+◌, ◌-◌, min, List, length};
ghost use Rattle.std.specs.Prelude.{Option, Some, None, IfOk, IfSome, OnErr, IsErrOf, IsErr, IsTrue};
ghost use Rattle.std.specs.Prelude.{Contains, option_map, string_bytes};
ghost use Rattle.carton_io.specs.Files.{content_of, IsDue};
ghost use Rattle.carton_io.specs.Told.{raised, Rose};

use crate::shelf::{Shelf, ShelfError};
use std::alloc::Global;
use std::marker::Model;

/// A file in memory.
#[derive(Debug, Drop)]
pub struct NamedFile {
    pub name: String,
    pub bytes: Vec<u8>,
}

/// Files in memory. The reads whose numbers, from 0, are in `failing` fail, and so does a read of a
/// name that no file has. Of two files with one name the first counts.
#[derive(Drop)]
pub struct MemoryShelf {
    files: Vec<NamedFile>,
    failing: Vec<u32>,
    reads: u64,
    faults: u64,
    last: Option<String>,
    had: usize,
}

impl Model for MemoryShelf {
    ghost use Rattle.std.specs.Prelude.{option_map, string_bytes};
    ghost use Rattle.carton_io.specs.Files.{ShelfView};

    ghost Value = { ShelfView };

    ghost view = { λ s. record {
      files = s.files.items;
      failing = s.failing.items;
      reads = s.reads;
      faults = s.faults;
      last = option_map string_bytes s.last;
      had = s.had;
    } };
}

// The bytes of the first file of that name.
pub(crate) fn bytes_of<'a>(files: &'a [NamedFile], name: &str) -> Option<&'a [u8]>
    ensures { option_map (λ b. b.now) result ≡ content_of files.now name.now }
{
    for file in files {
        if file.name.as_str() == name {
            return Some(file.bytes.as_slice());
        }
    }
    None
}

// Whether the number stands in the list.
fn is_listed(numbers: &[u32], number: u64) -> bool
    ensures { IsTrue result ↔ Contains numbers.now number }
{
    for listed in numbers {
        if u64::from(*listed) == number {
            return true;
        }
    }
    false
}

impl MemoryShelf {
    pub fn new(files: Vec<NamedFile>, failing: Vec<u32>) -> MemoryShelf
        ensures files { result.files ≡ files.items }
        ensures failing { result.failing ≡ failing.items }
        ensures reads { result.reads ≡ 0 }
        ensures faults { result.faults ≡ 0 }
        ensures last { result.last ≡ None }
    {
        MemoryShelf {
            files,
            failing,
            reads: 0,
            faults: 0,
            last: None,
            had: 0,
        }
    }

    // Whether this read is to fail; counts it.
    fn is_failing(&mut self) -> bool
        ensures due { IsTrue result ↔ Contains self.old.failing self.old.reads }
        ensures counted { self.new.reads ≡ raised self.old.reads }
        ensures files { self.new.files ≡ self.old.files }
        ensures faults { self.new.faults ≡ self.old.faults }
        ensures last { self.new.last ≡ self.old.last }
        ensures failing { self.new.failing ≡ self.old.failing }
    {
        let number = self.reads;
        self.reads = self.reads.saturating_add(1);
        is_listed(&self.failing, number)
    }

    // Counts a fault at the name, which is copied first.
    fn fail(&mut self, alloc: Global, name: &str) -> ShelfError
        ensures files { self.new.files ≡ self.old.files }
        ensures reads { self.new.reads ≡ self.old.reads }
        ensures later { self.old.faults ≤ self.new.faults }
        ensures rose { result ≡ ShelfError.Failed → Rose self.old.faults self.new.faults }
        ensures named { result ≡ ShelfError.Failed → self.new.last ≡ Some name.now }
        ensures unnamed { result ≡ ShelfError.Memory → self.new.last ≡ self.old.last }
        ensures quiet { result ≡ ShelfError.Memory → self.new.faults ≡ self.old.faults }
        ensures known { result ≢ ShelfError.TooLong }
        ensures failing { self.new.failing ≡ self.old.failing }
        ensures once { result ≡ ShelfError.Failed → self.new.faults ≡ raised self.old.faults }
    {
        match String::from_str(alloc, name) {
            Ok(copy) => {
                self.last = Some(copy);
                self.faults = self.faults.saturating_add(1);
                ShelfError::Failed
            }
            Err(_) => ShelfError::Memory,
        }
    }
}

impl Shelf for MemoryShelf {
    ghost holds = { λ s n. content_of s.files n };

    ghost faults = { λ s. s.faults };

    ghost last_failed = { λ s. Some s.last };

    ghost had = { λ s. s.had };

    fn read(&mut self, alloc: Global, name: &str, limit: usize) -> Result<Vec<u8>, ShelfError>
        ensures short { IfOk result (λ v. length v.items ≤ limit) }
        ensures told { IfOk result
            (λ v. IfSome (content_of self.old.files name.now) (λ bytes. v.items ≡ bytes)) }
        ensures had_all { IfOk result (λ v. self.new.had ≡ length v.items) }
        ensures had_more { IsErrOf result ShelfError.TooLong → limit < self.new.had }
        ensures too_long { IsErrOf result ShelfError.TooLong
            → IfSome (content_of self.old.files name.now) (λ bytes. limit < length bytes) }
        ensures stays { (n : List ℕ) → content_of self.new.files n ≡ content_of self.old.files n }
        ensures later { self.old.faults ≤ self.new.faults }
        ensures cause { IsErrOf result ShelfError.Failed → Rose self.old.faults self.new.faults }
        ensures named { IsErrOf result ShelfError.Failed → self.new.last ≡ Some name.now }
        ensures unnamed { (IsErrOf result ShelfError.Failed → ⊥) → Some self.new.last ≡ Some self.old.last }
        ensures quiet { IsErrOf result ShelfError.Memory → self.new.faults ≡ self.old.faults }

        ensures steady { (IsErrOf result ShelfError.Failed → ⊥) → self.new.faults ≡ self.old.faults }
        ensures once { IsErrOf result ShelfError.Failed → self.new.faults ≡ raised self.old.faults }
        ensures failing { self.new.failing ≡ self.old.failing }

        // A read fails exactly where its number is in the list or no file has the name.
        ensures due { IsDue self.old name.now → IsErrOf result ShelfError.Failed
            ⊎ IsErrOf result ShelfError.Memory }
        ensures only_due { IsErrOf result ShelfError.Failed → IsDue self.old name.now }
        ensures counted { self.new.reads ≡ raised self.old.reads }
    {
        if self.is_failing() {
            return Err(self.fail(alloc, name));
        }
        let Some(bytes) = bytes_of(&self.files, name) else {
            return Err(self.fail(alloc, name));
        };
        self.had = bytes.len();
        if bytes.len() > limit {
            return Err(ShelfError::TooLong);
        }
        Ok(Vec::from_slice(alloc, bytes)?)
    }
}
