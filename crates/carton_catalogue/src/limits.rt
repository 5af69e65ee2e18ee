ghost use Rattle.std.specs.Prelude.{◌≡◌};

/// How far from the origin a side of a body may lie along an axis, either way; and how far bodies may
/// be displaced along an axis in one move, and from one body of a row to the next.
pub const FARTHEST_CORNER: u32 = 100_000;

/// The most bodies of a catalogue.
pub const MOST_BODIES: usize = 256;

/// The most guides of a catalogue.
pub const MOST_GUIDES: usize = 16;

/// The most probes of a guide.
pub const MOST_PROBES: usize = 8;

/// The greatest number of an edge.
pub const LAST_EDGE: u64 = 2047;

/// The greatest number of a move: a plan has at most 4096 states.
pub const LAST_MOVE: u64 = 4094;

/// The widest band of a guide, in eighths of a right angle. The narrowest is 1.
pub const WIDEST_BAND: u64 = 16;

/// Each limit as a number.
pub fn limits_in_numbers()
    ensures numbers { (FARTHEST_CORNER ≡ 100000) × (MOST_BODIES ≡ 256) × (MOST_GUIDES ≡ 16) × (MOST_PROBES ≡ 8) ×
        (LAST_EDGE ≡ 2047) × (LAST_MOVE ≡ 4094) × (WIDEST_BAND ≡ 16) }
{}
