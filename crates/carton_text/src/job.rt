use carton_base::{EdgeId, Listed, Stop};

/// The stop of an edge, at the start or as a target.
#[derive(Clone, Copy, Debug, PartialEq, Eq)]
pub struct Setting {
    pub edge: EdgeId,
    pub stop: Stop,
}

/// The edges of a team, and the number of the line that names them.
#[derive(Debug, Drop, PartialEq)]
pub struct TeamLine {
    pub line: u32,
    pub edges: Listed<EdgeId>,
}

/// What a job asks for: from which stops to which stops the edges go, in which teams, with how much
/// margin and slack, within how many turns. `grid` is the number of stops in a right angle, and
/// `stride` the most stops of a joint in one step. Where `from_file` stands, an edge without a target
/// goes to the angle of the dieline's file.
#[derive(Debug, Drop, PartialEq)]
pub struct Job {
    pub grid: u8,
    pub stride: u8,
    pub root: u8,
    pub margin: u16,
    pub slack: u16,
    pub turns: u32,
    pub from_file: bool,
    pub starts: Listed<Setting>,
    pub targets: Listed<Setting>,
    pub teams: Listed<TeamLine>,
}
