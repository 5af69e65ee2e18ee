use crate::ids::Stop;
use crate::listed::Listed;

/// A vertex of a dieline, in dieline units.
#[derive(Clone, Copy, Debug, PartialEq, Eq)]
pub struct Point {
    pub x: i32,
    pub y: i32,
}

/// The two ends of an edge, as places in the list of vertices.
#[derive(Clone, Copy, Debug, PartialEq, Eq)]
pub struct Ends {
    pub p: u16,
    pub q: u16,
}

/// A face: its vertices in their order around it, as places in the list of vertices.
#[derive(Debug, Drop, PartialEq)]
pub struct Face {
    pub corners: Listed<u16>,
}

/// What a FOLD file says of an edge. `Mountain`, `Valley`, `Flat` and `Unassigned` edges join two
/// faces; `Boundary` and `Cut` edges never do.
#[derive(Clone, Copy, Debug, PartialEq, Eq)]
pub enum Letter {
    Boundary,
    Mountain,
    Valley,
    Flat,
    Unassigned,
    Cut,
}

/// A dieline as its file gives it. `letters` has one letter for each edge, and `angles`, where the
/// file tells fold angles, one entry for each edge: the stop, at eight stops in a right angle, at
/// which that angle stands, if there is one.
#[derive(Debug, Drop, PartialEq)]
pub struct RawDieline {
    pub vertices: Listed<Point>,
    pub edges: Listed<Ends>,
    pub letters: Listed<Letter>,
    pub faces: Listed<Face>,
    pub angles: Option<Listed<Option<Stop>>>,
}
