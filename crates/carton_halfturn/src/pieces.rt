ghost use Rattle.std.specs.Prelude.{◌≡◌, ◌*◌, ◌+◌, ◌≤◌, ◌^◌, pos, ◌+ℤ◌, ◌-ℤ◌, ◌*ℤ◌, ◌≤ℤ◌, ◌<ℤ◌, unsigned_abs};
ghost use Rattle.carton_base.specs.Grid.{IsGrid};
ghost use Rattle.carton_model.specs.Moves.{IsStop, IsStep};
ghost use Rattle.carton_halfturn.specs.Joints.{FollowsJoint, LeavesStop, ReachesStop};

use crate::spans::FoldSpan;
use carton_base::{Piece, Stop};

// A number of stops times a number of parts of a move.
fn parts(stops: i64, of: i64) -> i64
    requires stops { unsigned_abs stops ≤ 2 ^ 5 }
    requires of { unsigned_abs of ≤ 2 ^ 36 }
    ensures value { result ≡ stops *ℤ of }
    ensures size { unsigned_abs result ≤ 2 ^ 41 }
{
    stops * of
}

// A fold that goes from the one number of parts on by a step.
fn going(from: i64, step: i64, den: i64) -> FoldSpan
    requires positive { pos 0 <ℤ den }
    requires fine { den ≤ℤ pos (2 ^ 40) }
    requires first { unsigned_abs from ≤ 2 * unsigned_abs den }
    requires second { unsigned_abs (from +ℤ step) ≤ 2 * unsigned_abs den }
    ensures from { result.from ≡ from }
    ensures to { result.to ≡ from +ℤ step }
    ensures den { result.den ≡ den }
{
    FoldSpan {
        from,
        to: from + step,
        den,
    }
}

/// The fold, over a piece of a move, of a joint that the move takes from the one stop to the other.
pub fn span(from: Stop, to: Stop, grid: u8, piece: Piece) -> FoldSpan
    requires grid { IsGrid grid }
    requires from { IsStop grid from.0 }
    requires to { IsStop grid to.0 }
    requires step { IsStep from.0 to.0 }
    ensures first_end { result.from ≡ from.0 *ℤ pos (2 ^ piece.depth) +ℤ (to.0 -ℤ from.0) *ℤ pos piece.index }
    ensures last_end { result.to ≡ from.0 *ℤ pos (2 ^ piece.depth)
        +ℤ (to.0 -ℤ from.0) *ℤ pos (piece.index + 1) }
    ensures den { result.den ≡ pos (grid * 2 ^ piece.depth) }
    ensures change { result.to -ℤ result.from ≡ to.0 -ℤ from.0 }
    ensures follows { FollowsJoint result from.0 to.0 grid piece.index piece.depth }
    ensures leaves { LeavesStop result from.0 grid piece.index piece.depth }
    ensures reaches { ReachesStop result to.0 grid piece.index piece.depth }
{
    let first = piece.first();
    let step = to.0 as i64 - from.0 as i64;
    let start = parts(from.0 as i64, first.den) + parts(step, first.num);
    going(start, step, parts(grid as i64, first.den))
}
