ghost use Rattle.std.specs.Prelude.{◌≡◌};

use carton_base::{Listed, Moment, PanelId};
use carton_check::Checked;

/// The clearance of a move in which no two panels come nearer.
pub const WIDE_CLEARANCE: u16 = 10_000;

/// The limit as a number.
pub fn limits_in_numbers()
    ensures numbers { (WIDE_CLEARANCE ≡ 10000) }
{}

/// How far the panels that share no crease stay parted in one move. Steps are moves of the plan, from
/// 0 on, and lengths are in dieline units.
#[derive(Clone, Copy, Debug, PartialEq, Eq)]
pub enum Row {
    /// At every moment all of them are parted by more than 9999.
    Wide {
        step: u32,
    },
    /// At every moment all of them are parted by more than clear - 1, where clear is at most 9999. At
    /// this moment no frame and direction part panels a < b by more than clear + 1/2.
    Tight {
        step: u32,
        clear: u16,
        a: PanelId,
        b: PanelId,
        moment: Moment,
    },
}

/// What is told of a plan.
#[derive(Debug, Drop)]
pub enum Cleared {
    /// A row for each move, in order. The plan holds.
    Rows(Listed<Row>),
    /// The answer of its check, which isn't that it holds.
    Fails(Checked),
    Memory,
}
