ghost use Rattle.std.specs.Prelude.{◌≡◌, ◌≤◌, ◌^◌, IsTrue, ◌↔◌, ◌⊎◌, pos, ◌*ℤ◌, ◌≤ℤ◌, unsigned_abs};
ghost use Rattle.carton_reach.specs.Reaches.{IsApart, IsNear, SomeApart, AllNear, half};

use crate::reach::{Reach, Reaches};

const HALF: i128 = 1 << 39;

// Whether the second corners lie beyond the first by more than the room.
fn is_beyond(p: Reach, q: Reach, room: i128) -> bool
    requires { unsigned_abs room ≤ 2 ^ 60 }
    ensures { IsTrue result ↔ IsApart room p q }
{
    p.greatest_high + room < q.least_low
}

// Whether the corners of one lie beyond those of the other by more than the room.
fn is_apart(p: Reach, q: Reach, room: i128) -> bool
    requires { unsigned_abs room ≤ 2 ^ 60 }
    ensures { IsTrue result ↔ (IsApart room p q ⊎ IsApart room q p) }
{
    is_beyond(p, q, room) || is_beyond(q, p, room)
}

// Whether some second corner lies at no moment beyond some first one by more than the room.
fn is_never_beyond(p: Reach, q: Reach, room: i128) -> bool
    requires { unsigned_abs room ≤ 2 ^ 60 }
    ensures { IsTrue result ↔ IsNear room p q }
{
    q.least_high <= p.greatest_low + room
}

// Whether so it is of the corners of either.
fn is_near(p: Reach, q: Reach, room: i128) -> bool
    requires { unsigned_abs room ≤ 2 ^ 60 }
    ensures { IsTrue result ↔ IsNear room p q × IsNear room q p }
{
    is_never_beyond(p, q, room) && is_never_beyond(q, p, room)
}

// Whether along each axis some corner of either never lies beyond some corner of the other by more
// than the room.
fn all_near(p: &Reaches, q: &Reaches, room: i128) -> bool
    requires { unsigned_abs room ≤ 2 ^ 60 }
    ensures { IsTrue result ↔ AllNear room p.now.axes q.now.axes }
{
    for a in 0..13 {
        if !is_near(p.axes[a], q.axes[a], room) {
            return false;
        }
    }
    true
}

// The number of halves of a unit of length, in units of 2^-40.
fn room_of(halves: i64) -> i128
    requires from { pos 0 ≤ℤ halves }
    requires upto { halves ≤ℤ pos (2 ^ 16) }
    ensures value { result ≡ halves *ℤ half }
    ensures small { unsigned_abs result ≤ 2 ^ 60 }
{
    i128::from(halves) * HALF
}

/// Whether along some axis all corners of the one lie beyond all of the other by more than so many
/// halves of a unit of length, at every moment of the piece.
pub fn are_apart(p: &Reaches, q: &Reaches, halves: i64) -> bool
    requires from { pos 0 ≤ℤ halves }
    requires upto { halves ≤ℤ pos (2 ^ 16) }
    ensures { IsTrue result ↔ SomeApart (halves *ℤ half) p.now.axes q.now.axes }
{
    let room = room_of(halves);
    for a in 0..13 {
        if is_apart(p.axes[a], q.axes[a], room) {
            return true;
        }
    }
    false
}

/// Whether along each axis, either way, some corner of the one never lies beyond some corner of the
/// other by more than so many halves of a unit of length.
pub fn are_near(p: &Reaches, q: &Reaches, halves: i64) -> bool
    requires from { pos 0 ≤ℤ halves }
    requires upto { halves ≤ℤ pos (2 ^ 16) }
    ensures { IsTrue result ↔ AllNear (halves *ℤ half) p.now.axes q.now.axes }
{
    all_near(p, q, room_of(halves))
}
