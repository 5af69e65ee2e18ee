ghost use Rattle.std.specs.Prelude.{◌≡◌, ℕ, ◌<◌, ◌≤◌, length, IfOk, IfErr, OnOk};
ghost use Rattle.carton_base.specs.declared.limits.TheConstants.{MOST_PANELS, LONGEST_PATH};
ghost use Rattle.carton_model.specs.Dielines.{IsDieline};
ghost use Rattle.carton_panels.specs.DielinePanels.{AreShapes};
ghost use Rattle.carton_tree.specs.Rules.{Never, IsThreefold, IsOneWay, IsSlantedJoint, IsApart, IsDeep};
ghost use Rattle.carton_tree.specs.Rules.{IsBare};
ghost use Rattle.carton_tree.specs.Steps.{AreBesides, AreGroups, AreHinges, AreOpen, AreSpots, IsLeastPanel};
ghost use Rattle.carton_tree.specs.Answers.{IsTreeAnswer, IsPanelsAnswer, IsEdgesAnswer, IsHungAnswer};

use crate::besides::{Beside, all_besides};
use crate::carton::{Carton, carton_of};
use crate::error::TreeError;
use crate::groups::{Groups, grouped};
use crate::hanging::joints_of;
use crate::hinges::{Hinges, all_joints};
use crate::rules::{first_one_way, first_slanted, first_threefold};
use crate::sides::all_sides;
use crate::spots::{Spots, all_spots};
use carton_base::{PanelId, RawDieline};
use carton_panels::{PanelError, PanelShape, panels};
use std::alloc::Global;

// The panels of the dieline.
fn shapes_of(alloc: Global, raw: &RawDieline, margin: u16) -> Result<Vec<PanelShape>, TreeError>
    requires dieline { IsDieline raw.now }
    requires margin { margin ≤ 1000 }
    ensures shapes { IfOk result (λ v. AreShapes margin raw.now v.items) }
    ensures whole { IfOk result (λ v. length v.items ≡ length raw.now.faces) }
    ensures refused { IfErr result (IsPanelsAnswer margin raw.now) }
{
    match panels(alloc, raw, margin) {
        Ok(shapes) => Ok(shapes),
        Err(PanelError::Memory) => Err(TreeError::Memory),
        Err(e) => Err(TreeError::Panel(e)),
    }
}

// The panels beside each edge, if the rules of edges are kept.
fn sound_edges(alloc: Global, raw: &RawDieline) -> Result<Vec<Beside>, TreeError>
    requires dieline { IsDieline raw.now }
    ensures besides { IfOk result (λ v. AreBesides raw.now v.items) }
    ensures whole { IfOk result (λ v. length v.items ≡ length raw.now.edges) }
    ensures sides { OnOk result ((f i : ℕ) → ¬ (IsBare raw.now f i)) }
    ensures edges { OnOk result (Never (IsThreefold raw.now)) }
    ensures ways { OnOk result (Never (IsOneWay raw.now)) }
    ensures axes { OnOk result (Never (IsSlantedJoint raw.now)) }
    ensures refused { IfErr result (IsEdgesAnswer raw.now) }
{
    let sides = all_sides(alloc, raw)?;
    let besides = all_besides(alloc, raw, &sides)?;
    if let Some(e) = first_threefold(raw, &besides) {
        return Err(TreeError::ThreeFaces(e));
    }
    if let Some(e) = first_one_way(raw, &besides) {
        return Err(TreeError::SameSide(e));
    }
    match first_slanted(raw, &besides) {
        Some(e) => Err(TreeError::Slanted(e)),
        None => Ok(besides),
    }
}

// The least panel that is in another group than the root.
fn first_apart(raw: &RawDieline, hinges: &Hinges, groups: &Groups, root: PanelId) -> Option<PanelId>
    requires dieline { IsDieline raw.now }
    requires hinges { AreHinges raw.now (length raw.now.edges) hinges.now.creases.items hinges.now.all.items }
    requires groups { AreGroups hinges.now.all.items MOST_PANELS (length hinges.now.all.items) groups.now }
    requires root { root.0 < length raw.now.faces }
    ensures { IsLeastPanel (IsApart raw.now root.0) result }
{
    for p in 0..raw.faces.len() {
        if groups[p] != groups[root.0 as usize] {
            return Some(PanelId(p as u8));
        }
    }
    None
}

// The least panel that doesn't hang.
fn first_deep(raw: &RawDieline, hinges: &Hinges, spots: &Spots, root: PanelId) -> Option<PanelId>
    requires dieline { IsDieline raw.now }
    requires hinges { AreHinges raw.now (length raw.now.edges) hinges.now.creases.items hinges.now.all.items }
    requires spots { AreSpots hinges.now.all.items root.0 LONGEST_PATH spots.now }
    ensures { IsLeastPanel (IsDeep raw.now root.0) result }
{
    for p in 0..raw.faces.len() {
        if spots[p].is_none() {
            return Some(PanelId(p as u8));
        }
    }
    None
}

// How the panels hang by the joints, if these make a tree with this root.
fn hung(raw: &RawDieline, hinges: &Hinges, root: PanelId) -> Result<Spots, TreeError>
    requires dieline { IsDieline raw.now }
    requires hinges { AreHinges raw.now (length raw.now.edges) hinges.now.creases.items hinges.now.all.items }
    ensures spots { IfOk result (λ s. AreSpots hinges.now.all.items root.0 LONGEST_PATH s) }
    ensures open { OnOk result (AreOpen hinges.now.all.items (length hinges.now.all.items)) }
    ensures root { OnOk result (root.0 < length raw.now.faces) }
    ensures apart { OnOk result (Never (IsApart raw.now root.0)) }
    ensures deep { OnOk result (Never (IsDeep raw.now root.0)) }
    ensures refused { IfErr result (IsHungAnswer raw.now root.0) }
{
    let groups = match grouped(&hinges.all) {
        Ok(groups) => groups,
        Err(e) => return Err(TreeError::Loop(e)),
    };
    if raw.faces.len() <= root.0 as usize {
        return Err(TreeError::NoRoot(root.0));
    }
    if let Some(p) = first_apart(raw, hinges, &groups, root) {
        return Err(TreeError::Apart(p));
    }
    let spots = all_spots(&hinges.all, root);
    match first_deep(raw, hinges, &spots, root) {
        Some(p) => Err(TreeError::TooDeep(p)),
        None => Ok(spots),
    }
}

/// The carton of a dieline: its panels, shrunk by the margin, as a tree from the root. The first
/// rule that the dieline breaks refuses it, at the least number at which it does.
pub fn tree(
    alloc: Global,
    raw: &RawDieline,
    margin: u16,
    root: PanelId,
) -> Result<Carton, TreeError>
    requires dieline { IsDieline raw.now }
    requires margin { margin ≤ 1000 }
    ensures { IsTreeAnswer margin raw.now root.0 result }
{
    let shapes = shapes_of(alloc, raw, margin)?;
    let besides = sound_edges(alloc, raw)?;
    let hinges = all_joints(alloc, raw, &besides)?;
    let spots = hung(raw, &hinges, root)?;
    let joints = joints_of(alloc, raw, &hinges, &spots)?;
    carton_of(alloc, shapes, root, joints, hinges.creases)
}
