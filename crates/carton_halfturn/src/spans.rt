ghost use Rattle.std.specs.Prelude.{◌*◌, ◌≤◌, ◌^◌, pos, ◌≤ℤ◌, ◌<ℤ◌, unsigned_abs};

/// A fold that goes evenly from from/den to to/den, both from -2 to 2.
#[derive(Clone, Copy, Debug, PartialEq, Eq)]
pub struct FoldSpan {
    pub from: i64,
    pub to: i64,
    pub den: i64,
    pub ghost positive: { pos 0 <ℤ den },
    pub ghost fine: { den ≤ℤ pos (2 ^ 40) },
    pub ghost first: { unsigned_abs from ≤ 2 * unsigned_abs den },
    pub ghost second: { unsigned_abs to ≤ 2 * unsigned_abs den },
}
