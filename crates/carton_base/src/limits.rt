ghost use Rattle.std.specs.Prelude.{◌≡◌};

/// The most bytes of a file.
pub const MOST_BYTES: usize = 1_048_576;

/// The most vertices of a dieline.
pub const MOST_VERTICES: usize = 1024;

/// The most edges of a dieline.
pub const MOST_EDGES: usize = 2048;

/// The most panels of a carton, which are the faces of its dieline.
pub const MOST_PANELS: usize = 24;

/// The fewest vertices of a face.
pub const LEAST_CORNERS: usize = 3;

/// The most vertices of a face.
pub const MOST_CORNERS: usize = 32;

/// How far from the origin a vertex may lie along an axis, either way.
pub const FARTHEST: u32 = 8191;

/// The most joints on the way from the root to a panel.
pub const LONGEST_PATH: usize = 8;

/// The widest margin.
pub const WIDEST_MARGIN: u16 = 1000;

/// The widest slack. The narrowest is 1.
pub const WIDEST_SLACK: u16 = 1000;

/// The most teams of a task.
pub const MOST_TEAMS: usize = 12;

/// The most turns that a search may take.
pub const MOST_TURNS: u32 = 100_000;

/// The most states of a plan.
pub const MOST_STATES: usize = 4096;

/// The most free joints of a carton: a state has a place for each.
pub const MOST_JOINTS: usize = 24;

/// The most stops by which a joint may change in one move.
pub const WIDEST_STEP: u8 = 4;

/// How often a move may be halved.
pub const MOST_HALVINGS: u8 = 36;

/// Each limit as a number.
pub fn limits_in_numbers()
    ensures numbers { (MOST_BYTES ≡ 1048576) × (MOST_VERTICES ≡ 1024) × (MOST_EDGES ≡ 2048) × (MOST_PANELS ≡ 24) ×
        (LEAST_CORNERS ≡ 3) × (MOST_CORNERS ≡ 32) × (FARTHEST ≡ 8191) × (LONGEST_PATH ≡ 8) ×
        (WIDEST_MARGIN ≡ 1000) × (WIDEST_SLACK ≡ 1000) × (MOST_TEAMS ≡ 12) × (MOST_TURNS ≡ 100000) ×
        (MOST_STATES ≡ 4096) × (MOST_JOINTS ≡ 24) × (WIDEST_STEP ≡ 4) × (MOST_HALVINGS ≡ 36) }
{}
