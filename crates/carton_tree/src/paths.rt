ghost use Rattle.std.specs.Prelude.{◌≡◌, ℕ, ◌<◌, ◌≤◌, length, All, Contains, IsTrue, ◌↔◌, IfOk, IfErr};
ghost use Rattle.std.specs.Prelude.{IfSome};
ghost use Rattle.carton_base.specs.declared.limits.TheConstants.{LONGEST_PATH};
ghost use Rattle.carton_tree.specs.Trees.{steps_to, is_among, first_shared, path, path_by, turns_by};
ghost use Rattle.carton_tree.specs.Trees.{AreParents};

use crate::error::TreeError;
use crate::joint::Joint;
use carton_base::{LONGEST_PATH, PanelId, Turn};
use smallvec::SmallVec;
use std::alloc::Global;

// How many panels of the list come before the frame.
pub fn steps_to(frame: PanelId, list: &[PanelId]) -> usize
    ensures { result ≡ steps_to frame.0 list.now }
{
    let mut steps = 0;
    for p in list {
        if p.0 == frame.0 {
            return steps;
        }
        steps += 1;
    }
    steps
}

// Whether the panel is one of the list.
fn is_among(panel: PanelId, list: &[PanelId]) -> bool
    ensures { result ≡ is_among panel list.now }
{
    list.iter().any(|p| p.0 == panel.0)
}

// The first panel of the one list that is in the other too.
pub fn first_shared(list: &[PanelId], other: &[PanelId]) -> Option<PanelId>
    ensures { result ≡ first_shared list.now other.now }
{
    for p in list {
        if is_among(*p, other) {
            return Some(*p);
        }
    }
    None
}

// The panels from p towards the root.
pub fn path_of(
    alloc: Global,
    joints: &[Option<Joint>],
    p: PanelId,
) -> Result<SmallVec<PanelId, 9>, TreeError>
    requires joints { AreParents joints.now }
    requires p { p.0 < length joints.now }
    ensures path { IfOk result (λ v. v.items ≡ path joints.now p.0) }
    ensures err { IfErr result (λ e. e ≡ TreeError.Memory) }
{
    let mut found = SmallVec::new(alloc);
    let mut at = p;
    for _step in 0..LONGEST_PATH {
        found.push(at)?;
        match joints[at.0 as usize] {
            Some(joint) => at = joint.parent,
            None => return Ok(found),
        }
    }
    found.push(at)?;
    Ok(found)
}

// The turns of the joints from p towards the root.
pub fn turns_of(alloc: Global, joints: &[Option<Joint>], p: PanelId) -> Result<Vec<Turn>, TreeError>
    requires joints { AreParents joints.now }
    requires p { p.0 < length joints.now }
    ensures turns { IfOk result (λ v. v.items ≡ turns_by LONGEST_PATH joints.now p.0) }
    ensures err { IfErr result (λ e. e ≡ TreeError.Memory) }
{
    let mut found = Vec::new(alloc);
    let mut at = p;
    for _step in 0..LONGEST_PATH {
        match joints[at.0 as usize] {
            Some(joint) => {
                found.push(joint.turn)?;
                at = joint.parent;
            }
            None => return Ok(found),
        }
    }
    Ok(found)
}
