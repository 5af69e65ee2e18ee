ghost use Rattle.std.specs.Prelude.{◌*◌, ◌≤◌, ◌^◌, pos, ◌≤ℤ◌, ◌<ℤ◌, unsigned_abs};

/// The fold num/den, from -2 to 2.
#[derive(Clone, Copy)]
pub struct Fold {
    pub num: i64,
    pub den: i64,
    pub ghost positive: { pos 0 <ℤ den },
    pub ghost fine: { den ≤ℤ pos (2 ^ 40) },
    pub ghost within: { unsigned_abs num ≤ 2 * unsigned_abs den },
}
