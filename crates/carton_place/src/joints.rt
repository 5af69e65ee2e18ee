ghost use Rattle.std.specs.Prelude.{ℕ, None};
ghost use Rattle.carton_base.specs.Moments.{IsMoment};
ghost use Rattle.carton_base.specs.declared.motion.Motion.{Motion};
ghost use Rattle.carton_base.specs.declared.limits.TheConstants.{MOST_JOINTS};
ghost use Rattle.carton_model.specs.Moves.{IsMotion};
ghost use Rattle.carton_model.specs.Turning.{IsTurn, angle_of};
ghost use Rattle.carton_halfturn.specs.Spans.{IsNarrow};
ghost use Rattle.carton_place.specs.Held.{HoldsSwing};
ghost use Rattle.carton_place.specs.Swings.{span_fold, IsSwingOver};

use crate::swings::{Ramp, Swing};
use carton_base::{Motion, Piece, Stop, Turn};
use carton_halfturn::{
    FoldSpan, cos_bounds, cos_slope, cos_start, sin_bounds, sin_slope, sin_start, span,
};

/// How a fold swings over any span, of a move's piece or of a whole range of folds.
pub fn swing_of(f: FoldSpan) -> Swing
    ensures holds { (n d : ℕ) → IsMoment n d → HoldsSwing result n d (angle_of (span_fold f n d)) }
    ensures cos_narrow { IsNarrow f result.cos.all.lo result.cos.all.hi }
    ensures sin_narrow { IsNarrow f result.sin.all.lo result.sin.all.hi }
{
    let cos = Ramp {
        start: cos_start(f),
        slope: cos_slope(f),
        all: cos_bounds(f),
    };
    let sin = Ramp {
        start: sin_start(f),
        slope: sin_slope(f),
        all: sin_bounds(f),
    };
    Swing { cos, sin }
}

// How a joint that stays flat swings, over any piece.
pub(crate) fn still() -> Swing
    ensures { (motion : Motion) (index depth : ℕ) → IsSwingOver motion None index depth result }
{
    swing_of(FoldSpan {
        from: 0,
        to: 0,
        den: 1,
    })
}

/// How a joint swings over a piece of a move. A locked joint stays flat.
pub fn swing_over(turn: &Turn, motion: &Motion, piece: Piece) -> Swing
    requires turn { IsTurn turn.now }
    requires motion { IsMotion MOST_JOINTS motion.now }
    ensures { IsSwingOver motion.now turn.now.place piece.index piece.depth result }
{
    let Some(place) = turn.place else {
        return still();
    };
    let from = Stop(motion.from.stops[place as usize]);
    let to = Stop(motion.to.stops[place as usize]);
    swing_of(span(from, to, motion.from.grid, piece))
}
