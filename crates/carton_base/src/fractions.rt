ghost use Rattle.std.specs.Prelude.{◌≡◌, ◌≤◌, ◌<◌, ◌^◌, pos, ◌+ℤ◌, ◌*ℤ◌, ◌<ℤ◌, unsigned_abs};
ghost use Rattle.carton_base.specs.Rounding.{IsFloor, IsCeil};
ghost use Rattle.carton_base.specs.Fractions.{IsRounded};

use crate::numbers::Bounds;
use crate::rounding::UNIT;

// A quotient rounded toward zero, and what it leaves.
#[derive(Clone, Copy)]
struct Split {
    near: i128,
    rest: i128,
}

fn divided(a: i128, b: i128) -> Split
    requires first { unsigned_abs a ≤ 2 ^ 126 }
    requires second { unsigned_abs b ≤ 2 ^ 125 }
    requires positive { pos 0 <ℤ b }
    ensures whole { result.near *ℤ b +ℤ result.rest ≡ a }
    ensures short { unsigned_abs result.rest < unsigned_abs b }
    ensures size { unsigned_abs result.near ≤ 2 ^ 126 }
{
    let near = a / b;
    Split {
        near,
        rest: a - near * b,
    }
}

/// a / b rounded down and up, by one division.
pub fn quotient(a: i128, b: i128) -> Bounds
    requires first { unsigned_abs a ≤ 2 ^ 126 }
    requires second { unsigned_abs b ≤ 2 ^ 125 }
    requires positive { pos 0 <ℤ b }
    ensures down { IsFloor a b result.lo }
    ensures up { IsCeil a b result.hi }
{
    let Split { near, rest } = divided(a, b);
    if rest < 0 {
        return Bounds {
            lo: near - 1,
            hi: near,
        };
    }
    if rest > 0 {
        return Bounds {
            lo: near,
            hi: near + 1,
        };
    }
    Bounds { lo: near, hi: near }
}

/// The fraction num/den rounded down and up, in units of 2^-40, by one division.
pub fn fraction(num: i128, den: i128) -> Bounds
    requires first { unsigned_abs num ≤ 2 ^ 86 }
    requires second { unsigned_abs den ≤ 2 ^ 86 }
    requires positive { pos 0 <ℤ den }
    ensures { IsRounded num (unsigned_abs den) result.lo result.hi }
{
    quotient(num * UNIT, den)
}
