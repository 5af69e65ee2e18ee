ghost use Rattle.std.specs.Prelude.{◌≡◌};

use carton_base::{EdgeId, Listed, State};

/// The members of a team, as places in the states.
#[derive(Debug, Drop, PartialEq)]
pub struct Team {
    pub places: Listed<u8>,
}

/// What a job asks of a carton: which free joints there are, in the order of their edges, from which
/// state to which state they go, and in which teams. `stride` is the most stops of a joint in one
/// step.
#[derive(Debug, Drop, PartialEq)]
pub struct Task {
    pub creases: Listed<EdgeId>,
    pub start: State,
    pub target: State,
    pub teams: Listed<Team>,
    pub slack: u16,
    pub turns: u32,
    pub stride: u8,
    pub ghost one_grid: { target.grid ≡ start.grid },
}
