ghost use Rattle.std.specs.Prelude.{◌+◌, ◌<◌, length};
ghost use Rattle.carton_base.specs.declared.limits.TheConstants.{MOST_JOINTS};
ghost use Rattle.carton_model.specs.Moves.{IsMotion};
ghost use Rattle.carton_text.specs.PlanMoves.{AreMoves, IsMove};

use carton_base::{Motion, State};

/// Move i of the states.
pub fn move_at(states: &[State], i: usize) -> Motion
    requires moves { AreMoves states.now }
    requires inside { i + 1 < length states.now }
    ensures is { IsMove states.now i result.from result.to }
    ensures motion { IsMotion MOST_JOINTS result }
{
    Motion {
        from: states[i],
        to: states[i + 1],
    }
}
