ghost use Rattle.std.specs.Prelude.{◌≡◌};

use carton_base::PanelId;
use std::alloc::{AllocError, AllocFailed};
use thiserror::Error;

/// Why a face is no panel.
#[derive(Clone, Copy, Debug, PartialEq, Eq, Error)]
pub enum PanelError {
    #[error("repeated vertex panel {}", .0.0)]
    RepeatedVertex(PanelId),
    #[error("not convex panel {}", .0.0)]
    NotConvex(PanelId),
    #[error("too thin panel {}", .0.0)]
    TooThin(PanelId),
    #[error("out of memory")]
    Memory,
}

impl From<AllocError> for PanelError {
    ghost use Rattle.carton_panels.specs.declared.error.PanelError.{PanelError};

    ghost from_gives = { λ _ e. e ≡ PanelError.Memory };

    fn from(_error: AllocError) -> PanelError {
        PanelError::Memory
    }
}

impl<T: Drop> From<AllocFailed<T>> for PanelError {
    ghost use Rattle.carton_panels.specs.declared.error.PanelError.{PanelError};

    ghost from_gives = { λ _ e. e ≡ PanelError.Memory };

    fn from(_error: AllocFailed<T>) -> PanelError {
        PanelError::Memory
    }
}
