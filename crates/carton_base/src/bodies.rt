use crate::dieline::Point;
use crate::ids::EdgeId;
use crate::listed::Listed;

/// A closed box with its sides along the axes, in dieline units.
#[derive(Clone, Copy, Debug, PartialEq, Eq)]
pub struct Cuboid {
    pub x0: i32,
    pub x1: i32,
    pub y0: i32,
    pub y1: i32,
    pub z0: i32,
    pub z1: i32,
}

/// What a fixture has to hold: the flap behind this edge, from the move `first` to the move `last`,
/// within a band of so many eighths of a fold to either side, at one of the probes, which are flat
/// places of the flap in dieline units.
#[derive(Debug, Drop, PartialEq)]
pub struct Guide {
    pub edge: EdgeId,
    pub first: u16,
    pub last: u16,
    pub band: u8,
    pub probes: Listed<Point>,
}
