ghost use Rattle.std.specs.Prelude.{◌≡◌, ℕ, ◌<◌, ◌≤◌, length, get_or, All, pos};
ghost use Rattle.carton_base.specs.declared.limits.TheConstants.{LONGEST_PATH};
ghost use Rattle.carton_base.specs.declared.motion.Motion.{Motion};
ghost use Rattle.carton_base.specs.declared.motion.Turn.{Turn};
ghost use Rattle.carton_halfturn.specs.Values.{InUnit};
ghost use Rattle.carton_model.specs.Turning.{IsTurn};
ghost use Rattle.carton_place.specs.declared.swings.Swing.{Swing};
ghost use Rattle.carton_place.specs.Swings.{FollowsMove};
ghost use Rattle.carton_reach.specs.Ranges.{HoldsEach, IsMotionBetween, IsRange, IsSpanBetween};

use carton_base::{Bounds, LONGEST_PATH, State, Turn};
use carton_halfturn::{FoldSpan, cos_bounds, sin_bounds};
use carton_place::{Ramp, Swing};

// Any number within these bounds, at every moment.
fn level(all: Bounds) -> Ramp
    requires { InUnit all.lo all.hi }
    ensures start { result.start ≡ all }
    ensures slope_low { result.slope.lo ≡ pos 0 }
    ensures slope_high { result.slope.hi ≡ pos 0 }
    ensures all { result.all ≡ all }
{
    Ramp {
        start: all,
        slope: Bounds { lo: 0, hi: 0 },
        all,
    }
}

// The swing that has every fold of the span at every moment.
fn swing_within(f: FoldSpan) -> Swing
    ensures { HoldsEach result f }
{
    Swing {
        cos: level(cos_bounds(f)),
        sin: level(sin_bounds(f)),
    }
}

// The span of a joint's folds from its stop in the one state to that in the other. A locked joint
// stays flat.
fn span_between(turn: &Turn, low: &State, high: &State) -> FoldSpan
    requires turn { IsTurn turn.now }
    requires range { IsRange low.now high.now }
    ensures { IsSpanBetween low.now high.now turn.now.place result }
{
    let Some(place) = turn.place else {
        return FoldSpan {
            from: 0,
            to: 0,
            den: 1,
        };
    };
    FoldSpan {
        from: low.stops[place as usize] as i64,
        to: high.stops[place as usize] as i64,
        den: low.grid as i64,
    }
}

// How a joint swings in any move between the two states.
fn swing_between(turn: &Turn, low: &State, high: &State) -> Swing
    requires turn { IsTurn turn.now }
    requires range { IsRange low.now high.now }
    ensures { (motion : Motion) → IsMotionBetween low.now high.now motion
        → FollowsMove result motion turn.now.place 0 0 }
{
    swing_within(span_between(turn, low, high))
}

// How the joints of these turns swing in any move between the two states, in the first places, one
// for each turn.
pub(crate) fn swings_between(turns: &[Turn], low: &State, high: &State) -> [Swing; LONGEST_PATH]
    requires count { length turns.now ≤ LONGEST_PATH }
    requires turns { All IsTurn turns.now }
    requires range { IsRange low.now high.now }
    ensures length { length result ≡ LONGEST_PATH }
    ensures swings { (motion : Motion) → IsMotionBetween low.now high.now motion
        → (k : ℕ) (s : Swing) (t : Turn) → k < length turns.now
        → FollowsMove (get_or result k s) motion (get_or turns.now k t).place 0 0 }
{
    let still = swing_within(FoldSpan {
        from: 0,
        to: 0,
        den: 1,
    });
    let mut swings = [still; LONGEST_PATH];
    for i in 0..turns.len() {
        swings[i] = swing_between(&turns[i], low, high);
    }
    swings
}
