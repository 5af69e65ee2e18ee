ghost use Rattle.std.specs.Prelude.{◌≡◌, ◌+◌, ◌<◌, ◌≤◌, ◌++◌, length, map, take, reverse, slice_index_or};
ghost use Rattle.std.specs.Prelude.{All};
ghost use Rattle.carton_base.specs.declared.motion.Turn.{Turn};
ghost use Rattle.carton_model.specs.Turning.{IsTurn, turned_back};
ghost use Rattle.carton_tree.specs.Trees.{IsRoute};

use carton_base::{LONGEST_PATH, Turn};

/// The turns from a panel into a frame, in order, in the first `count` places. The others are those
/// of a locked joint.
#[derive(Clone, Copy, Debug, PartialEq, Eq)]
pub struct Route {
    pub turns: [Turn; LONGEST_PATH],
    pub count: u8,
}

// The same joint's turn from the parent's side.
fn turned_back(turn: Turn) -> Turn
    requires { IsTurn turn }
    ensures { result ≡ turned_back turn }
{
    Turn {
        place: turn.place,
        upright: turn.upright,
        at: turn.at,
        sign: -turn.sign,
    }
}

// The turn at place i of the route of a way up and a way down, both told from below.
fn turn_at(up: &[Turn], down: &[Turn], i: usize) -> Turn
    requires down { All IsTurn down.now }
    requires i { i < length up.now + length down.now }
    requires few { length up.now + length down.now ≤ 16 }
    ensures { (t : Turn) → result ≡ slice_index_or (up.now ++ reverse (map turned_back down.now)) i t }
{
    if i < up.len() {
        up[i]
    } else {
        turned_back(down[up.len() + down.len() - 1 - i])
    }
}

// The route of a way up and a way down, both told from below.
pub fn route_of(up: &[Turn], down: &[Turn]) -> Option<Route>
    requires down { All IsTurn down.now }
    requires few_up { length up.now ≤ 8 }
    requires few_down { length down.now ≤ 8 }
    ensures { IsRoute (up.now ++ reverse (map turned_back down.now)) result }
{
    let count = up.len() + down.len();
    if count > LONGEST_PATH {
        return None;
    }
    let still = Turn {
        place: None,
        upright: true,
        at: 0,
        sign: 1,
    };
    let mut turns = [still; LONGEST_PATH];
    for i in 0..count {
        turns[i] = turn_at(up, down, i);
    }
    Some(Route {
        turns,
        count: count as u8,
    })
}
