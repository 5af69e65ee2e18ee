ghost use Rattle.std.specs.Prelude.{ℤ, pos, ◌≤ℤ◌, ◌<ℤ◌};

/// A closed range of numbers, in units of 2^-40.
#[derive(Clone, Copy, Debug, PartialEq, Eq)]
pub struct Bounds {
    pub lo: i128,
    pub hi: i128,
    pub ghost ordered: { lo ≤ℤ hi },
}

/// The flat point (x/w, y/w), in dieline units.
#[derive(Clone, Copy, Debug, PartialEq, Eq)]
pub struct Triple {
    pub x: i64,
    pub y: i64,
    pub w: i64,
    pub ghost positive: { pos 0 <ℤ w },
}
