use crate::grid::Grid;
use crate::job::{Setting, TeamLine};
use carton_base::{EdgeId, Listed};

/// What the lines of a job have told so far. `named` has the edges of all team lines.
#[derive(Drop)]
pub struct Draft {
    pub grid: Grid,
    pub stride: u8,
    pub root: Option<u8>,
    pub margin: Option<u16>,
    pub slack: Option<u16>,
    pub turns: Option<u32>,
    pub from_file: bool,
    pub starts: Listed<Setting>,
    pub targets: Listed<Setting>,
    pub teams: Listed<TeamLine>,
    pub named: Listed<EdgeId>,
}
