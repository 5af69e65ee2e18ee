ghost use Rattle.std.specs.Prelude.{◌≡◌};

use carton_base::{EdgeId, PanelId};
use carton_panels::PanelError;
use std::alloc::{AllocError, AllocFailed};
use thiserror::Error;

/// Why a dieline is no carton. What is named is the least that has the fault.
#[derive(Clone, Copy, Debug, PartialEq, Eq, Error)]
pub enum TreeError {
    /// A face is no panel.
    #[error("{0}")]
    Panel(PanelError),
    /// The two vertices of that side of the panel, counted from 0, are the ends of no edge.
    #[error("no edge panel {} side {}", .0.0, .1)]
    SideNoEdge(PanelId, u8),
    /// Three or more panels have the edge for a side.
    #[error("three faces edge {}", .0.0)]
    ThreeFaces(EdgeId),
    /// Two panels go along the edge in the same direction.
    #[error("same side edge {}", .0.0)]
    SameSide(EdgeId),
    /// The joint is parallel to no axis.
    #[error("slanted edge {}", .0.0)]
    Slanted(EdgeId),
    /// Joints of smaller number already join its two panels.
    #[error("loop edge {}", .0.0)]
    Loop(EdgeId),
    /// The dieline has no face of this number for the root.
    #[error("no root panel {0}")]
    NoRoot(u8),
    /// No chain of joints leads from the panel to the root.
    #[error("apart panel {}", .0.0)]
    Apart(PanelId),
    /// More than 8 joints lead from the panel to the root.
    #[error("too deep panel {}", .0.0)]
    TooDeep(PanelId),
    #[error("out of memory")]
    Memory,
}

impl From<AllocError> for TreeError {
    ghost use Rattle.carton_tree.specs.declared.error.TreeError.{TreeError};

    ghost from_gives = { λ _ e. e ≡ TreeError.Memory };

    fn from(_error: AllocError) -> TreeError {
        TreeError::Memory
    }
}

impl<T: Drop> From<AllocFailed<T>> for TreeError {
    ghost use Rattle.carton_tree.specs.declared.error.TreeError.{TreeError};

    ghost from_gives = { λ _ e. e ≡ TreeError.Memory };

    fn from(_error: AllocFailed<T>) -> TreeError {
        TreeError::Memory
    }
}
