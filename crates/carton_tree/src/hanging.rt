ghost use Rattle.std.specs.Prelude.{◌≡◌, ℕ, ◌<◌, ◌≤◌, length, slice_index_or, IsTrue, ◌↔◌, IfOk, IfErr};
ghost use Rattle.std.specs.Prelude.{IfSome, Some, pos, neg_ℤ, ◌<ℤ◌, unsigned_abs};
ghost use Rattle.carton_base.specs.declared.limits.TheConstants.{MOST_JOINTS};
ghost use Rattle.carton_model.specs.Dielines.{IsDieline};
ghost use Rattle.carton_model.specs.Turning.{IsTurn};
ghost use Rattle.carton_tree.specs.Joints.{LiesBeyond, IsTurnOf, across, vertex_at};
ghost use Rattle.carton_tree.specs.declared.hinges.Hinge.{Hinge};
ghost use Rattle.carton_tree.specs.Steps.{AreHinges, IsJointAnswer, AreJoints, spot_at};

use crate::error::TreeError;
use crate::hinges::Hinges;
use crate::joint::Joint;
use crate::sides::vertices_of;
use crate::spots::{Spot, Spots};
use carton_base::{PanelId, RawDieline, Turn};
use std::alloc::Global;

// Whether the vertex lies at the greater coordinate of the line.
fn is_beyond(raw: &RawDieline, v: u16, upright: bool, at: i32) -> bool
    requires { v < length raw.now.vertices }
    ensures { IsTrue result ↔ at <ℤ across upright (vertex_at raw.now v) }
{
    let place = raw.vertices.as_slice()[v as usize];
    if upright { at < place.x } else { at < place.y }
}

// Whether the panel lies at the greater coordinate of the line.
fn lies_beyond(raw: &RawDieline, panel: PanelId, upright: bool, at: i32) -> bool
    requires dieline { IsDieline raw.now }
    requires panel { panel.0 < length raw.now.faces }
    ensures { IsTrue result ↔ LiesBeyond raw.now panel.0 upright at }
{
    for v in vertices_of(raw, panel) {
        if is_beyond(raw, *v, upright, at) {
            return true;
        }
    }
    false
}

// The sign of a joint with this line that turns the panel.
fn sign_of(raw: &RawDieline, panel: PanelId, upright: bool, at: i32) -> i8
    requires dieline { IsDieline raw.now }
    requires panel { panel.0 < length raw.now.faces }
    ensures greater { LiesBeyond raw.now panel.0 upright at → result ≡ pos 1 }
    ensures smaller { ¬ (LiesBeyond raw.now panel.0 upright at) → result ≡ neg_ℤ (pos 1) }
    ensures size { unsigned_abs result ≡ 1 }
{
    if lies_beyond(raw, panel, upright, at) {
        1
    } else {
        -1
    }
}

// The place of a free joint as the states count it.
fn place_of(crease: Option<usize>) -> Option<u8>
    requires { IfSome crease (λ k. k < MOST_JOINTS) }
    ensures { result ≡ crease }
{
    match crease {
        Some(k) => Some(k as u8),
        None => None,
    }
}

// How a joint turns a panel that hangs by it.
fn turn_of(raw: &RawDieline, hinges: &Hinges, i: usize, child: PanelId) -> Turn
    requires dieline { IsDieline raw.now }
    requires child { child.0 < length raw.now.faces }
    requires hinges { AreHinges raw.now (length raw.now.edges) hinges.now.creases.items hinges.now.all.items }
    requires few { length hinges.now.all.items ≤ MOST_JOINTS }
    requires i { i < length hinges.now.all.items }
    ensures turn { (h : Hinge)
        → IsTurnOf raw.now hinges.now.creases.items (slice_index_or hinges.now.all.items i h).edge.0 child.0
        result }
    ensures valid { IsTurn result }
{
    let hinge = hinges.all[i];
    Turn {
        place: place_of(hinge.crease),
        upright: hinge.upright,
        at: hinge.at,
        sign: sign_of(raw, child, hinge.upright, hinge.at),
    }
}

// The joint of a panel to its parent, if it hangs by one.
fn joint_of(raw: &RawDieline, hinges: &Hinges, child: PanelId, spot: Option<Spot>) -> Option<Joint>
    requires dieline { IsDieline raw.now }
    requires child { child.0 < length raw.now.faces }
    requires hinges { AreHinges raw.now (length raw.now.edges) hinges.now.creases.items hinges.now.all.items }
    requires few { length hinges.now.all.items ≤ MOST_JOINTS }
    requires spot { IfSome spot (λ s. 0 < s.depth → s.hinge < length hinges.now.all.items) }
    ensures { IsJointAnswer raw.now hinges.now.creases.items hinges.now.all.items child.0 spot result }
{
    let spot = spot?;
    if spot.depth == 0 {
        return None;
    }
    Some(Joint {
        edge: hinges.all[spot.hinge].edge,
        parent: spot.parent,
        turn: turn_of(raw, hinges, spot.hinge, child),
    })
}

// The joint of each panel to its parent.
pub fn joints_of(
    alloc: Global,
    raw: &RawDieline,
    hinges: &Hinges,
    spots: &Spots,
) -> Result<Vec<Option<Joint>>, TreeError>
    requires dieline { IsDieline raw.now }
    requires hinges { AreHinges raw.now (length raw.now.edges) hinges.now.creases.items hinges.now.all.items }
    requires few { length hinges.now.all.items ≤ MOST_JOINTS }
    requires spots { (p : ℕ)
        → IfSome (spot_at spots.now p) (λ s. 0 < s.depth → s.hinge < length hinges.now.all.items) }
    ensures joints { IfOk result (λ v. AreJoints raw.now hinges.now.creases.items hinges.now.all.items
        spots.now v.items) }
    ensures whole { IfOk result (λ v. length v.items ≡ length raw.now.faces) }
    ensures err { IfErr result (λ e. e ≡ TreeError.Memory) }
{
    let mut joints = Vec::new(alloc);
    for p in 0..raw.faces.len() {
        joints.push(joint_of(raw, hinges, PanelId(p as u8), spots[p]))?;
    }
    Ok(joints)
}
