ghost use Rattle.std.specs.Prelude.{◌≡◌, unsigned_abs};
ghost use Rattle.carton_base.specs.Grid.{IsGrid};

use crate::limits::MOST_JOINTS;

/// A stop for each free joint: place k holds the stop of the k-th free joint in the order of edges,
/// and the places past the joints hold 0. `grid` is the number of stops in a right angle, 8 or 16.
#[derive(Clone, Copy, Debug, PartialEq, Eq, Hash)]
pub struct State {
    pub stops: [i8; MOST_JOINTS],
    pub grid: u8,
    pub ghost on_grid: { IsGrid grid },
}

/// A move from one state to another of the same grid, in which each stop changes by at most four.
#[derive(Clone, Copy, Debug, PartialEq, Eq, Hash)]
pub struct Motion {
    pub from: State,
    pub to: State,
    pub ghost one_grid: { to.grid ≡ from.grid },
}

/// How one joint turns: about the line x = `at` where `upright`, else about y = `at`, in dieline
/// units. `sign` is 1 where the child lies at the greater coordinate and -1 where it lies at the
/// smaller. `place` is the joint's place in a `State`, None where the joint is locked.
#[derive(Clone, Copy, Debug, PartialEq, Eq)]
pub struct Turn {
    pub place: Option<u8>,
    pub upright: bool,
    pub at: i32,
    pub sign: i8,
    pub ghost signed: { unsigned_abs sign ≡ 1 },
}
