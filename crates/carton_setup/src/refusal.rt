ghost use Rattle.std.specs.Prelude.{◌≡◌};
ghost use Rattle.carton_setup.specs.declared.refusal.Refusal.TheVariants.{NoMemory};

use carton_base::OutOfMemory;
use carton_catalogue::{CatalogueError, FitError};
use carton_fold::FoldError;
use carton_panels::PanelError;
use carton_text::{JobError, LineError};
use carton_tree::TreeError;
use carton_words::FileKind;
use std::alloc::AllocError;

/// The rule that a file breaks: it has too many bytes, its text fails, a face of it is no panel, its
/// panels are no carton, or it doesn't fit the files before it.
#[derive(Clone, Copy, Debug, PartialEq, Eq)]
pub enum Rule {
    TooLong,
    Fold(FoldError),
    Panel(PanelError),
    Tree(TreeError),
    Line(LineError),
    Fit(JobError),
    Catalogue(CatalogueError),
    Guides(FitError),
}

/// A file that is refused.
#[derive(Clone, Copy, Debug, PartialEq, Eq)]
pub struct BadFile {
    pub kind: FileKind,
    pub rule: Rule,
}

/// Why a command tells nothing of its own: a file is bad, or memory was wanted.
#[derive(Clone, Copy, Debug, PartialEq, Eq)]
pub enum Refusal {
    Bad(BadFile),
    NoMemory,
}

impl From<OutOfMemory> for Refusal {
    ghost from_gives = { λ _ refusal. refusal ≡ NoMemory };

    fn from(_e: OutOfMemory) -> Refusal {
        Refusal::NoMemory
    }
}

impl From<AllocError> for Refusal {
    ghost from_gives = { λ _ refusal. refusal ≡ NoMemory };

    fn from(_e: AllocError) -> Refusal {
        Refusal::NoMemory
    }
}
