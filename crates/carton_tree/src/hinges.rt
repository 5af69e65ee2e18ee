ghost use Rattle.std.specs.Prelude.{◌≡◌, ◌↔◌, ℕ, ◌+◌, ◌<◌, ◌≤◌, ◌++◌, [], ◌∷◌, length, IsTrue, IfOk, IfErr};
ghost use Rattle.std.specs.Prelude.{OnOk, None, Some};
ghost use Rattle.carton_model.specs.Dielines.{IsDieline};
ghost use Rattle.carton_tree.specs.Joints.{IsLocked, IsUpright, across, from_of};
ghost use Rattle.carton_tree.specs.Rules.{Never, IsThreefold};
ghost use Rattle.carton_tree.specs.Steps.{AreBesides, AreHinges, AreCreasesBelow};

use crate::besides::Beside;
use crate::error::TreeError;
use crate::rules::joined_at;
use carton_base::{EdgeId, Letter, PanelId, RawDieline};
use std::alloc::Global;

/// A joint between two panels: its edge, its place among the free joints if it is one, and its
/// line, x = `at` where upright, else y = `at`.
#[derive(Clone, Copy)]
pub struct Hinge {
    pub edge: EdgeId,
    pub first: PanelId,
    pub second: PanelId,
    pub crease: Option<usize>,
    pub upright: bool,
    pub at: i32,
}

/// The joints of a dieline, and the edges of the free ones, in order.
#[derive(Drop)]
pub struct Hinges {
    pub all: Vec<Hinge>,
    pub creases: Vec<EdgeId>,
}

// Whether the edge has the letter F.
fn is_locked(raw: &RawDieline, k: usize) -> bool
    requires dieline { IsDieline raw.now }
    requires k { k < length raw.now.edges }
    ensures { IsTrue result ↔ IsLocked raw.now k }
{
    match raw.letters.as_slice()[k] {
        Letter::Flat => true,
        _ => false,
    }
}

// The line of an edge: whether it is upright, and the coordinate that its points share.
fn line_at(raw: &RawDieline, k: usize) -> (bool, i32)
    requires dieline { IsDieline raw.now }
    requires k { k < length raw.now.edges }
    ensures upright { IsTrue result.0 ↔ IsUpright raw.now k }
    ensures at { result.1 ≡ across result.0 (from_of raw.now k) }
{
    let edge = raw.edges.as_slice()[k];
    let from = raw.vertices.as_slice()[edge.p as usize];
    let to = raw.vertices.as_slice()[edge.q as usize];
    if from.x == to.x {
        (true, from.x)
    } else {
        (false, from.y)
    }
}

// Adds the joint of an edge, if it is one.
fn add_joint(
    found: &mut Hinges,
    raw: &RawDieline,
    besides: &[Beside],
    k: usize,
) -> Result<(), TreeError>
    requires dieline { IsDieline raw.now }
    requires besides { AreBesides raw.now besides.now }
    requires whole { length besides.now ≡ length raw.now.edges }
    requires edges { Never (IsThreefold raw.now) }
    requires k { k < length raw.now.edges }
    requires creases { AreCreasesBelow raw.now k found.old.creases.items }
    requires hinges { AreHinges raw.now k found.old.creases.items found.old.all.items }
    ensures creases { OnOk result (AreCreasesBelow raw.now (k + 1) found.new.creases.items) }
    ensures hinges { OnOk result (AreHinges raw.now (k + 1) found.new.creases.items found.new.all.items) }
    ensures err { IfErr result (λ e. e ≡ TreeError.Memory) }
{
    let Some((first, second)) = joined_at(raw, besides, k) else {
        return Ok(());
    };
    let edge = EdgeId(k as u16);
    let crease = if is_locked(raw, k) {
        None
    } else {
        let place = found.creases.len();
        found.creases.push(edge)?;
        Some(place)
    };
    let (upright, at) = line_at(raw, k);
    found.all.push(Hinge {
        edge,
        first,
        second,
        crease,
        upright,
        at,
    })?;
    Ok(())
}

// The joints of the dieline.
pub fn all_joints(alloc: Global, raw: &RawDieline, besides: &[Beside]) -> Result<Hinges, TreeError>
    requires dieline { IsDieline raw.now }
    requires besides { AreBesides raw.now besides.now }
    requires whole { length besides.now ≡ length raw.now.edges }
    requires edges { Never (IsThreefold raw.now) }
    ensures creases { IfOk result (λ h. AreCreasesBelow raw.now (length raw.now.edges) h.creases.items) }
    ensures hinges { IfOk result (λ h. AreHinges raw.now (length raw.now.edges) h.creases.items h.all.items) }
    ensures err { IfErr result (λ e. e ≡ TreeError.Memory) }
{
    let mut found = Hinges {
        all: Vec::new(alloc),
        creases: Vec::new(alloc),
    };
    for k in 0..raw.edges.len() {
        add_joint(&mut found, raw, besides, k)?;
    }
    Ok(found)
}
