ghost use Rattle.std.specs.Prelude.{◌≡◌, ◌<◌, IfSome, IsTrue};
ghost use Rattle.carton_base.specs.declared.limits.TheConstants.{MOST_JOINTS};
ghost use Rattle.carton_model.specs.Moves.{IsMotion};
ghost use Rattle.carton_part_tests.specs.Steps.{MayTake};

use carton_base::{MOST_JOINTS, Motion, State};

fn may_take(motion: &Motion, k: usize) -> bool
    requires { k < MOST_JOINTS }
    ensures { IsTrue result → MayTake motion.now k }
{
    let (from, to) = (motion.from.stops[k], motion.to.stops[k]);
    from.unsigned_abs() <= 2 * motion.from.grid
        && to.unsigned_abs() <= 2 * motion.to.grid
        && to.abs_diff(from) <= 4
}

fn is_move(motion: &Motion) -> bool
    ensures { IsTrue result → IsMotion MOST_JOINTS motion.now }
{
    for k in 0..MOST_JOINTS {
        if !may_take(motion, k) {
            return false;
        }
    }
    true
}

// The first four joints at these stops, and all others flat.
fn stops_at(first: [i8; 4]) -> [i8; MOST_JOINTS] {
    let mut stops = [0; MOST_JOINTS];
    for k in 0..4 {
        stops[k] = first[k];
    }
    stops
}

// The move of the first four joints from these stops to those, where it is one.
pub fn motion(grid: u8, from: [i8; 4], to: [i8; 4]) -> Option<Motion>
    ensures motion { IfSome result (IsMotion MOST_JOINTS) }
    ensures grid { IfSome result (λ m. m.from.grid ≡ grid) }
{
    if grid != 8 && grid != 16 {
        return None;
    }
    let motion = Motion {
        from: State {
            stops: stops_at(from),
            grid,
        },
        to: State {
            stops: stops_at(to),
            grid,
        },
    };
    if is_move(&motion) { Some(motion) } else { None }
}
