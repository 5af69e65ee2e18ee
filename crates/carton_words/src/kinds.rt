ghost use Rattle.std.specs.Prelude.{◌≡◌, ◌^◌, ◌≤◌};
ghost use Rattle.carton_words.specs.Kinds.{kind_text, most_bytes};

use carton_base::MOST_BYTES;

/// What a file holds, as a refusal names it.
#[derive(Clone, Copy, Debug, PartialEq, Eq)]
pub enum FileKind {
    Dieline,
    Job,
    Plan,
    Catalogue,
    Fixture,
}

impl FileKind {
    /// The word that a refusal has for it.
    pub fn name(self) -> &'static str
        ensures { result.now ≡ kind_text self }
    {
        match self {
            FileKind::Dieline => "dieline",
            FileKind::Job => "job",
            FileKind::Plan => "plan",
            FileKind::Catalogue => "catalogue",
            FileKind::Fixture => "fixture",
        }
    }

    /// The most bytes that such a file may have.
    pub fn limit(self) -> usize
        ensures value { result ≡ most_bytes self }
        ensures bound { result ≤ 2 ^ 28 }
    {
        match self {
            FileKind::Dieline
            | FileKind::Job
            | FileKind::Plan
            | FileKind::Catalogue
            | FileKind::Fixture => MOST_BYTES,
        }
    }
}
