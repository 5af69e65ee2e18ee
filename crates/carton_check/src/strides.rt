ghost use Rattle.std.specs.Prelude.{◌≤◌, length, ◌↔◌, IsTrue};
ghost use Rattle.carton_base.specs.declared.limits.TheConstants.{MOST_JOINTS, MOST_STATES};
ghost use Rattle.carton_text.specs.PlanMoves.{IsStrideFrom};
ghost use Rattle.carton_check.specs.Steps.{IsFirstWide};

use carton_base::State;

// Whether each of the first so many stops changes by at most the stride.
fn is_within_stride(joints: usize, stride: u8, from: &State, to: &State) -> bool
    requires { joints ≤ MOST_JOINTS }
    ensures { IsTrue result ↔ IsStrideFrom joints stride from.now to.now }
{
    for k in 0..joints {
        if to.stops[k].abs_diff(from.stops[k]) > stride {
            return false;
        }
    }
    true
}

/// The first move in which one of the first so many stops changes by more than the stride.
pub fn first_wide(joints: usize, stride: u8, states: &[State]) -> Option<u32>
    requires joints { joints ≤ MOST_JOINTS }
    requires some { 1 ≤ length states.now }
    requires few { length states.now ≤ MOST_STATES }
    ensures { IsFirstWide joints stride states.now result }
{
    for i in 0..states.len() - 1 {
        if !is_within_stride(joints, stride, &states[i], &states[i + 1]) {
            return Some(i as u32);
        }
    }
    None
}
