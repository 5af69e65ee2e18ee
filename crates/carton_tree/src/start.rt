ghost use Rattle.carton_tree.specs.Cartons.{IsStart};

use carton_base::{Bounds, Triple, fraction};

/// Where a flat point stands: both coordinates, in units of 2^-40, each rounded down and up.
#[derive(Clone, Copy, Debug, PartialEq, Eq)]
pub struct Start {
    pub x: Bounds,
    pub y: Bounds,
}

/// Where the flat point stands.
pub fn start_of(point: Triple) -> Start
    ensures { IsStart point result }
{
    let w = i128::from(point.w);
    Start {
        x: fraction(i128::from(point.x), w),
        y: fraction(i128::from(point.y), w),
    }
}
