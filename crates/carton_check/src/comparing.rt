ghost use Rattle.std.specs.Prelude.{◌≡◌, ◌↔◌, IsTrue};
ghost use Rattle.carton_text.specs.PlanMoves.{IsFirst, IsLast};

use carton_base::{EdgeId, State};

/// Whether these are the same creases.
pub fn are_same(first: &[EdgeId], second: &[EdgeId]) -> bool
    ensures { IsTrue result ↔ first.now ≡ second.now }
{
    first == second
}

// Whether the states are one, also in their grid.
fn is_same(first: &State, second: &State) -> bool
    ensures { IsTrue result ↔ first.now ≡ second.now }
{
    first == second
}

/// Whether the first of the states is this one.
pub fn begins_with(states: &[State], start: &State) -> bool
    ensures { IsTrue result ↔ IsFirst states.now start.now }
{
    if states.is_empty() {
        return false;
    }
    is_same(&states[0], start)
}

/// Whether the last of the states is this one.
pub fn ends_with(states: &[State], end: &State) -> bool
    ensures { IsTrue result ↔ IsLast states.now end.now }
{
    if states.is_empty() {
        return false;
    }
    is_same(&states[states.len() - 1], end)
}
