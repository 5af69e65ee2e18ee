ghost use Rattle.std.specs.Prelude.{◌≡◌, ℕ, List, Option, Some, None, IfOk, IfSome};

use std::io::Read;
use std::rt::Files;
use std::{fs, io};

/// Where files are opened by their names. It may tell what its names hold, or may not.
pub trait FileSource {
    type File: Read + Drop;

    /// The bytes that a name holds, where the source tells them.
    ghost content: { Self → List ℕ → Option (List ℕ) } = { λ _ _. None };

    /// The file of that name, from its first byte on.
    fn open_named(&self, name: &str) -> io::Result<Self::File>
        ensures { IfOk result
            (λ file. IfSome (content self.now name.now) (λ bytes. Self.File.remaining file ≡ Some bytes)) };
}

/// The files of the system by their paths, of which nothing is told.
impl<R: Files> FileSource for R {
    type File = R::File;

    fn open_named(&self, name: &str) -> io::Result<R::File> {
        fs::open(self, name)
    }
}
