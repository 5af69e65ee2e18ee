ghost use Rattle.std.specs.Prelude.{◌≡◌, ◌↔◌, ℕ, ◌<◌, ◌≤◌, length, IsTrue, IfOk, IfErr, OnOk, if◌then◌else◌};
ghost use Rattle.std.specs.Prelude.{nat_eq, slice_index_or};
ghost use Rattle.carton_base.specs.declared.limits.TheConstants.{MOST_PANELS};
ghost use Rattle.carton_tree.specs.Steps.{AreGroups, AreWithin, AreOpen, IsFirstLoop};

use crate::hinges::Hinge;
use carton_base::{EdgeId, MOST_PANELS};

/// The group of each panel: panels that joints join have one number.
pub type Groups = [u8; MOST_PANELS];

// Each panel in a group of its own.
fn alone() -> Groups
    ensures len { length result ≡ MOST_PANELS }
    ensures each { (p : ℕ) → p < MOST_PANELS → slice_index_or result p 0 ≡ p }
{
    let mut groups = [0; MOST_PANELS];
    for p in 0..MOST_PANELS {
        groups[p] = p as u8;
    }
    groups
}

// Puts every panel of the one group into the other.
fn merged(groups: Groups, from: u8, to: u8) -> Groups
    ensures len { length result ≡ MOST_PANELS }
    ensures each { (p : ℕ) → p < MOST_PANELS → slice_index_or result p 0
        ≡ (if nat_eq (slice_index_or groups p 0) from then to else slice_index_or groups p 0) }
{
    let mut all = groups;
    for p in 0..MOST_PANELS {
        if all[p] == from {
            all[p] = to;
        }
    }
    all
}

// The groups that the joints make, or the edge of the first joint that closes a loop.
pub fn grouped(hinges: &[Hinge]) -> Result<Groups, EdgeId>
    requires { AreWithin MOST_PANELS hinges.now }
    ensures groups { IfOk result (AreGroups hinges.now MOST_PANELS (length hinges.now)) }
    ensures open { OnOk result (AreOpen hinges.now (length hinges.now)) }
    ensures closed { IfErr result (IsFirstLoop hinges.now) }
{
    let mut groups = alone();
    for hinge in hinges {
        let first = groups[hinge.first.0 as usize];
        let second = groups[hinge.second.0 as usize];
        if first == second {
            return Err(hinge.edge);
        }
        groups = merged(groups, first, second);
    }
    Ok(groups)
}
