ghost use Rattle.std.specs.Prelude.{◌≡◌};
ghost use Rattle.carton_catalogue.specs.FitSteps.{told_of};

use thiserror::Error;

/// The first rule by which a catalogue doesn't fit. Guides and probes are numbered from 0.
#[derive(Clone, Copy, Debug, PartialEq, Eq, Error)]
pub enum FitError {
    /// The plan has other creases than the task.
    #[error("other creases")]
    OtherCreases,
    /// The edge of this guide is no free joint.
    #[error("not a joint guide {0}")]
    NotAJoint(u32),
    /// The last move of this guide comes before its first, or is no move of the plan.
    #[error("bad window guide {0}")]
    BadWindow(u32),
    /// In some state of this guide's window its joint has no room for its band.
    #[error("band too wide guide {0}")]
    BandTooWide(u32),
    /// This probe of this guide, the first number being the guide's, lies outside the shrunk panel behind
    /// the guide's edge.
    #[error("probe outside guide {0} probe {1}")]
    ProbeOutside(u32, u32),
}

/// Why a guide doesn't fit.
#[derive(Clone, Copy, Debug, PartialEq, Eq)]
pub enum Misfit {
    Joint,
    Window,
    Band,
    Probe(u32),
}

impl Misfit {
    /// What is told of a catalogue whose guide of this number has the misfit.
    pub fn of_guide(self, guide: u32) -> FitError
        ensures { result ≡ told_of guide self }
    {
        match self {
            Misfit::Joint => FitError::NotAJoint(guide),
            Misfit::Window => FitError::BadWindow(guide),
            Misfit::Band => FitError::BandTooWide(guide),
            Misfit::Probe(probe) => FitError::ProbeOutside(guide, probe),
        }
    }
}
