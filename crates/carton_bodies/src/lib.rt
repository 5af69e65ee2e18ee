//! Bodies that move with the stroke of a fixture: the half-spaces of a box, how far they shift over
//! a piece of a move, how deep a point lies in them, and how far a box reaches along the 13 axes.
#![tactic(auto)]

mod depth;
mod extent;
mod half_space;
mod moving;
mod shift;
mod span;
mod spot;

pub use depth::depth_in;
pub use extent::{Extent, Extents, extents_over};
pub use half_space::{HalfSpace, faces_of};
pub use moving::Moving;
pub use spot::{Spot, flat_point_at};
