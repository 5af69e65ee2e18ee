ghost use Rattle.std.specs.Prelude.{◌≡◌, ◌↔◌, ℕ, ◌<◌, ◌≤◌, length, All, Contains, IsTrue, slice_get};
ghost use Rattle.std.specs.Prelude.{slice_index_or, IfOk, IfErr, IsSomeAnd, Some, None};
ghost use Rattle.carton_base.specs.declared.limits.TheConstants.{LONGEST_PATH, MOST_JOINTS, MOST_PANELS};
ghost use Rattle.carton_model.specs.Turning.{IsTurn};
ghost use Rattle.carton_panels.specs.Shapes.{Shape};
ghost use Rattle.carton_tree.specs.Cartons.{IsCarton, AreStarts};
ghost use Rattle.carton_tree.specs.Trees.{joint_of, SharesCrease, IsChild, IsParent, IsRoute, turns_between};
ghost use Rattle.carton_tree.specs.Trees.{parting, path, turns_by, turns_up};

use crate::error::TreeError;
use crate::joint::Joint;
use crate::paths::{first_shared, path_of, steps_to, turns_of};
use crate::route::{Route, route_of};
use crate::start::{Start, start_of};
use carton_base::{EdgeId, Listed, PanelId, Triple, Turn};
use carton_panels::PanelShape;
use smallvec::SmallVec;
use std::alloc::Global;
use std::marker::Model;

/// The panels on the way from a panel to the root, both included.
pub type Path = SmallVec<PanelId, 9>;

/// The panels of a dieline as a tree: each but the root hangs from its parent by a joint.
#[derive(Drop)]
pub struct Carton {
    panels: Vec<PanelShape>,
    root: PanelId,
    joints: Vec<Option<Joint>>,
    creases: Vec<EdgeId>,
    starts: Vec<Listed<Start>>,
    paths: Vec<Path>,
    turns: Vec<Listed<Turn>>,
}

impl Model for Carton {
    ghost use Rattle.std.specs.Prelude.{length};
    ghost use Rattle.carton_tree.specs.Trees.{Tree};
    ghost use Rattle.carton_tree.specs.Cartons.{IsCarton, AreKept};

    ghost Value = { Tree };

    ghost view = { λ c. record {
      panels = c.panels.items;
      root = c.root.0;
      joints = c.joints.items;
      creases = c.creases.items;
    } };

    ghost invariant = { λ c. let t : Tree = record {
      panels = c.panels.items;
      root = c.root.0;
      joints = c.joints.items;
      creases = c.creases.items;
    } in
        IsCarton t × AreKept t (length t.panels) c.starts.items c.paths.items c.turns.items };
}

// Where the flat points stand.
fn starts_of(alloc: Global, points: &[Triple]) -> Result<Vec<Start>, TreeError>
    ensures starts { IfOk result (λ v. AreStarts points.now v.items) }
    ensures err { IfErr result (λ e. e ≡ TreeError.Memory) }
{
    let mut starts = Vec::new(alloc);
    for point in points {
        starts.push(start_of(*point))?;
    }
    Ok(starts)
}

// The carton of these panels, joints and free joints.
pub fn carton_of(
    alloc: Global,
    panels: Vec<PanelShape>,
    root: PanelId,
    joints: Vec<Option<Joint>>,
    creases: Vec<EdgeId>,
) -> Result<Carton, TreeError>
    requires carton { IsCarton (record {
      panels = panels.items;
      root = root.0;
      joints = joints.items;
      creases = creases.items;
    }) }
    ensures value { IfOk result (λ t. t ≡ record {
      panels = panels.items;
      root = root.0;
      joints = joints.items;
      creases = creases.items;
    }) }
    ensures err { IfErr result (λ e. e ≡ TreeError.Memory) }
{
    let mut starts = Vec::new(alloc);
    let mut paths = Vec::new(alloc);
    let mut turns = Vec::new(alloc);
    for p in 0..panels.len() {
        let shape = &panels[p];
        starts.push(Listed::from_vec(starts_of(alloc, shape.shrunk())?))?;
        paths.push(path_of(alloc, &joints, PanelId(p as u8))?)?;
        turns.push(Listed::from_vec(turns_of(alloc, &joints, PanelId(p as u8))?))?;
    }
    Ok(Carton {
        panels,
        root,
        joints,
        creases,
        starts,
        paths,
        turns,
    })
}

// Whether a panel with this joint hangs by the edge.
fn is_by(joint: Option<Joint>, e: EdgeId) -> bool
    ensures { IsTrue result ↔ IsSomeAnd joint (λ j. j.edge.0 ≡ e.0) }
{
    match joint {
        Some(joint) => joint.edge.0 == e.0,
        None => false,
    }
}

// The first panel that hangs by the edge.
fn child_of(joints: &[Option<Joint>], e: EdgeId) -> Option<PanelId>
    requires { length joints.now ≤ MOST_PANELS }
    ensures { IsChild joints.now e.0 result }
{
    for p in 0..joints.len() {
        if is_by(joints[p], e) {
            return Some(PanelId(p as u8));
        }
    }
    None
}

impl Carton {
    /// How many panels the carton has.
    pub fn panels(&self) -> u8
        ensures count { result ≡ length self.now.panels }
        ensures carton { IsCarton self.now }
    {
        self.panels.len() as u8
    }

    /// The panel whose flat position is the world.
    pub fn root(&self) -> PanelId
        ensures { result.0 ≡ self.now.root }
    {
        self.root
    }

    pub fn panel(&self, p: PanelId) -> &PanelShape
        requires { p.0 < length self.now.panels }
        ensures { Some result.now ≡ slice_get self.now.panels p.0 }
    {
        &self.panels[p.0 as usize]
    }

    /// The edges of the free joints, in order: the joint at place k of a state is the k-th of these.
    pub fn creases(&self) -> &[EdgeId]
        ensures creases { result.now ≡ self.now.creases }
        ensures few { length result.now ≤ MOST_JOINTS }
    {
        self.creases.as_slice()
    }

    /// The coordinates of the panel's shrunk corners, in the order of `PanelShape::shrunk`.
    pub fn starts(&self, p: PanelId) -> &[Start]
        requires { p.0 < length self.now.panels }
        ensures { (s : Shape) → AreStarts (slice_index_or self.now.panels p.0 s).shrunk result.now }
    {
        self.starts[p.0 as usize].as_slice()
    }

    /// The joint of the panel to its parent; None for the root.
    pub fn joint(&self, p: PanelId) -> Option<Joint>
        requires { p.0 < length self.now.panels }
        ensures { result ≡ joint_of self.now.joints p.0 }
    {
        self.joints[p.0 as usize]
    }

    /// The panel that the edge joins to its parent; None where the edge is no joint.
    pub fn child(&self, e: EdgeId) -> Option<PanelId>
        ensures { IsChild self.now.joints e.0 result }
    {
        child_of(&self.joints, e)
    }

    /// The panels from p to the root: p first, then its parent, and so on.
    pub fn path(&self, p: PanelId) -> &[PanelId]
        requires { p.0 < length self.now.panels }
        ensures { result.now ≡ path self.now.joints p.0 }
    {
        self.paths[p.0 as usize].as_slice()
    }

    // The turns from the panel up to the root, its own joint's first.
    fn turns_to_root(&self, p: PanelId) -> &[Turn]
        requires { p.0 < length self.now.panels }
        ensures turns { result.now ≡ turns_by LONGEST_PATH self.now.joints p.0 }
        ensures carton { IsCarton self.now }
    {
        self.turns[p.0 as usize].as_slice()
    }

    /// The turns from the panel up to a frame on its path, its own joint's first.
    pub fn turns(&self, p: PanelId, frame: PanelId) -> &[Turn]
        requires p { p.0 < length self.now.panels }
        requires frame { Contains (path self.now.joints p.0) frame }
        ensures turns { result.now ≡ turns_up self.now.joints p.0 frame.0 }
        ensures each { All IsTurn result.now }
        ensures few { length result.now ≤ 8 }
    {
        let steps = steps_to(frame, self.path(p));
        &self.turns_to_root(p)[..steps]
    }

    /// The deepest panel on the paths of both.
    pub fn parting(&self, a: PanelId, b: PanelId) -> PanelId
        requires a { a.0 < length self.now.panels }
        requires b { b.0 < length self.now.panels }
        ensures parting { result.0 ≡ parting self.now a.0 b.0 }
        ensures above_a { Contains (path self.now.joints a.0) result }
        ensures above_b { Contains (path self.now.joints b.0) result }
    {
        match first_shared(self.path(a), self.path(b)) {
            Some(p) => p,
            None => self.root,
        }
    }

    /// Whether one of the panels is the other's parent.
    pub fn shares_crease(&self, a: PanelId, b: PanelId) -> bool
        requires a { a.0 < length self.now.panels }
        requires b { b.0 < length self.now.panels }
        ensures { IsTrue result ↔ SharesCrease self.now a.0 b.0 }
    {
        self.is_parent(a, b) || self.is_parent(b, a)
    }

    // Whether panel p is the parent of the child.
    fn is_parent(&self, p: PanelId, child: PanelId) -> bool
        requires { child.0 < length self.now.panels }
        ensures { IsTrue result ↔ IsParent self.now p.0 child.0 }
    {
        match self.joint(child) {
            Some(joint) => joint.parent.0 == p.0,
            None => false,
        }
    }

    /// The turns from the panel into a frame: up to the deepest panel on both paths, and from there
    /// down, each joint the other way. None where more than 8 joints lie between.
    pub fn route(&self, p: PanelId, frame: PanelId) -> Option<Route>
        requires p { p.0 < length self.now.panels }
        requires frame { frame.0 < length self.now.panels }
        ensures route { IsRoute (turns_between self.now p.0 frame.0) result }
    {
        let top = self.parting(p, frame);
        route_of(self.turns(p, top), self.turns(frame, top))
    }
}
