ghost use Rattle.std.specs.Prelude.{◌^◌, ◌<◌, pos, ◌*ℤ◌, ◌<ℤ◌, unsigned_abs};
ghost use Rattle.carton_base.specs.Rounding.{IsFloor, IsCeil, unit};

/// The units in one whole: fixed point numbers are in units of 2^-40.
pub const UNIT: i128 = 1 << 40;

/// a / b rounded down.
pub fn floor_div(a: i128, b: i128) -> i128
    requires { pos 0 <ℤ b }
    ensures { IsFloor a b result }
{
    a.div_euclid(b)
}

/// a / b rounded up.
pub fn ceil_div(a: i128, b: i128) -> i128
    requires { pos 0 <ℤ b }
    ensures { IsCeil a b result }
{
    let low = a.div_euclid(b);
    if a.rem_euclid(b) == 0 { low } else { low + 1 }
}

/// a * b / 2^40 rounded down: the product of two numbers in units of 2^-40, in such units.
pub fn floor_mul(a: i128, b: i128) -> i128
    requires { unsigned_abs (a *ℤ b) < 2 ^ 126 }
    ensures { IsFloor (a *ℤ b) unit result }
{
    floor_div(a * b, UNIT)
}

/// a * b / 2^40 rounded up.
pub fn ceil_mul(a: i128, b: i128) -> i128
    requires { unsigned_abs (a *ℤ b) < 2 ^ 126 }
    ensures { IsCeil (a *ℤ b) unit result }
{
    ceil_div(a * b, UNIT)
}
