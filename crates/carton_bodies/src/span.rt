ghost use Rattle.std.specs.Prelude.{◌≡◌, ◌+◌, ◌≤◌, ◌^◌, pos, ◌+ℤ◌, ◌*ℤ◌, unsigned_abs};
ghost use Rattle.carton_base.specs.Rounding.{unit};
ghost use Rattle.carton_base.specs.declared.limits.TheConstants.{MOST_STATES};
ghost use Rattle.carton_bodies.specs.Spans.{IsSpan};

use carton_base::{Piece, UNIT, floor_div, product, sum};

/// The times at which a piece of a move begins and ends, since the start of move 0, in units of
/// 2^-40 of a move.
#[derive(Clone, Copy)]
pub struct Span {
    pub from: i128,
    pub upto: i128,
}

// How long the piece lasts.
fn length_of(piece: Piece) -> i128
    ensures value { result *ℤ pos (2 ^ piece.depth) ≡ unit }
    ensures size { unsigned_abs result ≤ 2 ^ 40 }
{
    floor_div(UNIT, i128::from(piece.first().den))
}

// When the piece of this index begins, of pieces of this length.
fn time_of(step: u32, index: u64, length: i128) -> i128
    requires step { step ≤ MOST_STATES }
    requires index { index ≤ 2 ^ 36 }
    requires length { unsigned_abs length ≤ 2 ^ 40 }
    ensures value { result ≡ pos step *ℤ unit +ℤ pos index *ℤ length }
    ensures size { unsigned_abs result ≤ 2 ^ 78 }
{
    let start = product::<12, 40>(i128::from(step), UNIT);
    sum::<76>(start, product::<36, 40>(i128::from(index), length))
}

/// The times of a piece of move `step`.
pub fn span_of(step: u32, piece: Piece) -> Span
    requires { step ≤ MOST_STATES }
    ensures { IsSpan step piece.index piece.depth result }
{
    let length = length_of(piece);
    Span {
        from: time_of(step, piece.index, length),
        upto: time_of(step, piece.index + 1, length),
    }
}
