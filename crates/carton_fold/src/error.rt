ghost use Rattle.std.specs.Prelude.{◌≡◌, Some};
ghost use Rattle.carton_fold.specs.Values.{name_of};
ghost use Rattle.carton_fold.specs.declared.error.FoldError.TheVariants.{Memory};

use std::alloc::{AllocError, AllocFailed};
use std::fmt;
use thiserror::Error;

/// A key that a rule speaks of. It is shown as its name in a file.
#[derive(Clone, Copy, Debug, PartialEq, Eq)]
pub enum Key {
    Vertices,
    Edges,
    Assignment,
    Faces,
}

impl Key {
    /// The key's name in a file.
    pub fn name(self) -> &'static str
        ensures { result.now ≡ name_of self }
    {
        match self {
            Key::Vertices => "vertices_coords",
            Key::Edges => "edges_vertices",
            Key::Assignment => "edges_assignment",
            Key::Faces => "faces_vertices",
        }
    }
}

impl fmt::Display for Key {
    ghost output = { λ key. Some (name_of key) };

    fn fmt<W: fmt::Write>(&self, f: &mut fmt::Formatter<W>) -> fmt::Result {
        f.write_str(self.name())
    }
}

/// The first rule of a dieline that a file breaks. A number is the place of the entry at fault in
/// the list of the key, from 0: a vertex, an edge or a face.
#[derive(Clone, Copy, Debug, PartialEq, Eq, Error)]
pub enum FoldError {
    /// The bytes are no JSON text.
    #[error("not json")]
    NotJson,
    /// The value is no object.
    #[error("not an object")]
    NotObject,
    /// The key is absent.
    #[error("missing {0}")]
    Missing(Key),
    /// The key's value or an entry of it has another shape.
    #[error("bad shape {0}")]
    BadShape(Key),
    /// The key's list, or a face in it, is too long.
    #[error("too many {0}")]
    TooMany(Key),
    /// A number has a fraction or an exponent, is `-0` or is past 64 bits.
    #[error("not whole {0} {1}")]
    NotWhole(Key, u32),
    /// A coordinate is outside -8191..8191.
    #[error("too far vertex {0}")]
    TooFar(u32),
    /// A third coordinate is not 0.
    #[error("not flat vertex {0}")]
    NotFlat(u32),
    /// A number names no vertex, or an edge names one twice.
    #[error("bad vertex {0} {1}")]
    BadVertex(Key, u32),
    /// The text is not a letter of an edge.
    #[error("bad letter edge {0}")]
    BadLetter(u32),
    /// The letter is J.
    #[error("join edge {0}")]
    JoinEdge(u32),
    /// Memory was wanted and not had.
    #[error("out of memory")]
    Memory,
}

impl From<AllocError> for FoldError {
    ghost from_gives = { λ _ e. e ≡ Memory };

    fn from(_e: AllocError) -> FoldError {
        FoldError::Memory
    }
}

impl<T: Drop> From<AllocFailed<T>> for FoldError {
    ghost from_gives = { λ _ e. e ≡ Memory };

    fn from(_e: AllocFailed<T>) -> FoldError {
        FoldError::Memory
    }
}
