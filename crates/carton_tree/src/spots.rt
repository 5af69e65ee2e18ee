ghost use Rattle.std.specs.Prelude.{◌≡◌, ℕ, ◌+◌, ◌<◌, ◌≤◌, length};
ghost use Rattle.carton_base.specs.declared.limits.TheConstants.{MOST_PANELS, LONGEST_PATH};
ghost use Rattle.carton_tree.specs.Steps.{AreReached, AreSpots, AreWithin, hung_from};

use crate::hinges::Hinge;
use carton_base::{LONGEST_PATH, MOST_PANELS, PanelId};

/// How a panel hangs: so many joints below the root, by the joint at that place of the list, from
/// its parent. The root hangs by none.
#[derive(Clone, Copy)]
pub struct Spot {
    pub depth: u8,
    pub hinge: usize,
    pub parent: PanelId,
}

/// How each panel hangs, where it is known.
pub type Spots = [Option<Spot>; MOST_PANELS];

// How the child hangs after a joint to a parent was looked at: below it, if it doesn't hang yet and
// the parent hangs r joints below the root.
fn hung_from(
    child: Option<Spot>,
    above: Option<Spot>,
    parent: PanelId,
    hinge: usize,
    r: u8,
) -> Option<Spot>
    requires { r < LONGEST_PATH }
    ensures { result ≡ hung_from child above parent hinge r }
{
    if child.is_some() {
        return child;
    }
    let above = above?;
    if above.depth == r {
        Some(Spot {
            depth: r + 1,
            hinge,
            parent,
        })
    } else {
        None
    }
}

// Hangs each of the two panels of a joint from the other, where that hangs r joints below the root.
fn hang(spots: &mut Spots, hinges: &[Hinge], i: usize, r: u8)
    requires within { AreWithin MOST_PANELS hinges.now }
    requires i { i < length hinges.now }
    requires r { r < LONGEST_PATH }
    ensures { (root : ℕ) → AreReached hinges.now root r i spots.old
        → AreReached hinges.now root r (i + 1) spots.new }
{
    let first = hinges[i].first;
    let second = hinges[i].second;
    let one = first.0 as usize;
    let other = second.0 as usize;
    spots[one] = hung_from(spots[one], spots[other], second, i, r);
    spots[other] = hung_from(spots[other], spots[one], first, i, r);
}

// Hangs all panels that hang r + 1 joints below the root.
fn hang_all(spots: &mut Spots, hinges: &[Hinge], r: u8)
    requires within { AreWithin MOST_PANELS hinges.now }
    requires r { r < LONGEST_PATH }
    ensures { (root : ℕ) → AreSpots hinges.now root r spots.old → AreSpots hinges.now root (r + 1) spots.new }
{
    for i in 0..hinges.len() {
        hang(spots, hinges, i, r);
    }
}

// How the panels hang that lie at most 8 joints from the root.
pub fn all_spots(hinges: &[Hinge], root: PanelId) -> Spots
    requires within { AreWithin MOST_PANELS hinges.now }
    requires root { root.0 < MOST_PANELS }
    ensures { AreSpots hinges.now root.0 LONGEST_PATH result }
{
    let mut spots = [None; MOST_PANELS];
    spots[root.0 as usize] = Some(Spot {
        depth: 0,
        hinge: 0,
        parent: root,
    });
    for r in 0..LONGEST_PATH {
        hang_all(&mut spots, hinges, r as u8);
    }
    spots
}
