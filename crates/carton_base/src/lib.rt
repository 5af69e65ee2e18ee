//! The plain types of carton, its limits, lists that contracts see as lists, and directed rounding.
#![tactic(auto)]

mod arithmetic;
mod bodies;
mod dieline;
mod directions;
mod fractions;
mod ids;
mod limits;
mod listed;
mod moments;
mod motion;
mod numbers;
mod outage;
mod rounding;

pub use arithmetic::{difference, double, product, square, sum};
pub use bodies::{Cuboid, Guide};
pub use dieline::{Ends, Face, Letter, Point, RawDieline};
pub use directions::{DIRECTIONS, all_directions};
pub use fractions::{fraction, quotient};
pub use ids::{EdgeId, PanelId, Stop};
pub use limits::{
    FARTHEST, LEAST_CORNERS, LONGEST_PATH, MOST_BYTES, MOST_CORNERS, MOST_EDGES, MOST_HALVINGS,
    MOST_JOINTS, MOST_PANELS, MOST_STATES, MOST_TEAMS, MOST_TURNS, MOST_VERTICES, WIDEST_MARGIN,
    WIDEST_SLACK, WIDEST_STEP, limits_in_numbers,
};
pub use listed::Listed;
pub use moments::{Moment, Piece};
pub use motion::{Motion, State, Turn};
pub use numbers::{Bounds, Triple};
pub use outage::OutOfMemory;
pub use rounding::{UNIT, ceil_div, ceil_mul, floor_div, floor_mul};
