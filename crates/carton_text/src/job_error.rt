ghost use Rattle.std.specs.Prelude.{◌≡◌};
ghost use Rattle.carton_text.specs.declared.job_error.JobError.TheVariants.{Memory};

use carton_base::EdgeId;
use std::alloc::{AllocError, AllocFailed};
use thiserror::Error;

/// The first rule by which a job doesn't fit a carton.
#[derive(Clone, Copy, Debug, PartialEq, Eq, Error)]
pub enum JobError {
    /// A line names an edge that joins no two panels.
    #[error("not a joint edge {}", .0.0)]
    NotAJoint(EdgeId),
    /// A line names an edge with the letter F.
    #[error("locked edge {}", .0.0)]
    LockedEdge(EdgeId),
    /// The job goes by the file's angles, and the file tells none.
    #[error("no angles")]
    NoAngles,
    /// The job goes by the file's angles, and a free joint without a target line has none at which a
    /// stop stands.
    #[error("angle not exact edge {}", .0.0)]
    AngleNotExact(EdgeId),
    /// No member of the team that the line with this number names has to move.
    #[error("empty team line {0}")]
    EmptyTeam(u32),
    /// There are so many teams, which is more than there may be.
    #[error("too many teams {0}")]
    TooManyTeams(u32),
    /// Memory was wanted and not had.
    #[error("out of memory")]
    Memory,
}

impl From<AllocError> for JobError {
    ghost from_gives = { λ _ e. e ≡ Memory };

    fn from(_e: AllocError) -> JobError {
        JobError::Memory
    }
}

impl<T: Drop> From<AllocFailed<T>> for JobError {
    ghost from_gives = { λ _ e. e ≡ Memory };

    fn from(_e: AllocFailed<T>) -> JobError {
        JobError::Memory
    }
}
