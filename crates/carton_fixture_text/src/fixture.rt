ghost use Rattle.std.specs.Prelude.{◌≡◌};

use carton_base::{Cuboid, Listed};

/// The greatest number of a body.
pub const LAST_BODY: u16 = 255;

/// The limit as a number.
pub fn limits_in_numbers()
    ensures numbers { (LAST_BODY ≡ 255) }
{}

/// A body of a fixture: its number among the candidates, and its box at the first state of the plan,
/// in dieline units.
#[derive(Clone, Copy, Debug, PartialEq, Eq)]
pub struct FixtureBody {
    pub id: u16,
    pub shape: Cuboid,
}

/// Bodies in the order of their numbers, and how far they all go along the three axes in each move of
/// the plan, in dieline units.
#[derive(Debug, Drop, PartialEq)]
pub struct Fixture {
    pub stroke: [i32; 3],
    pub bodies: Listed<FixtureBody>,
}
