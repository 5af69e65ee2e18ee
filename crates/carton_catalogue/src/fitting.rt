ghost use Rattle.std.specs.Prelude.{◌≡◌, ◌↔◌, ◌≤◌, All, IsTrue, length};
ghost use Rattle.carton_catalogue.specs.declared.limits.TheConstants.{MOST_GUIDES, MOST_PROBES};
ghost use Rattle.carton_model.specs.Dielines.{IsNear};
ghost use Rattle.carton_text.specs.PlanRules.{IsPlan};
ghost use Rattle.carton_catalogue.specs.CatalogueRules.{IsCatalogue, IsGuide};
ghost use Rattle.carton_catalogue.specs.Fits.{IsOnShape, IsFit};
ghost use Rattle.carton_catalogue.specs.FitSteps.{IsFlapAnswer, IsProbesAnswer, IsGuideAnswer};
ghost use Rattle.carton_catalogue.specs.FitSteps.{IsGuidesAnswer};

use crate::catalogue::Catalogue;
use crate::fit_error::{FitError, Misfit};
use crate::windows::{has_window, keeps_band};
use carton_base::{EdgeId, Guide, PanelId, Point, State, Triple};
use carton_panels::PanelShape;
use carton_text::{Plan, Task};
use carton_tree::Carton;

/// The panel behind a free joint, and the joint's place in the states.
#[derive(Clone, Copy)]
pub struct Flap {
    pub panel: PanelId,
    pub place: u8,
}

// The panel behind an edge, if the edge is a free joint.
fn flap_of(carton: &Carton, edge: EdgeId) -> Option<Flap>
    ensures { IsFlapAnswer carton.now edge.0 result }
{
    let _ = carton.panels();
    let panel = carton.child(edge)?;
    let joint = carton.joint(panel)?;
    let place = joint.turn.place?;
    Some(Flap { panel, place })
}

// Whether the probe lies in the shrunk panel.
fn is_on(shape: &PanelShape, probe: &Point) -> bool
    requires { IsNear probe.now }
    ensures { IsTrue result ↔ IsOnShape shape.now probe.now }
{
    shape.in_shrunk(Triple {
        x: i64::from(probe.x),
        y: i64::from(probe.y),
        w: 1,
    })
}

// The first of the probes that lies outside the shrunk panel.
fn first_outside(shape: &PanelShape, probes: &[Point]) -> Option<u32>
    requires near { All IsNear probes.now }
    requires few { length probes.now ≤ MOST_PROBES }
    ensures { IsProbesAnswer (IsOnShape shape.now) probes.now result }
{
    for k in 0..probes.len() {
        if !is_on(shape, &probes[k]) {
            return Some(k as u32);
        }
    }
    None
}

// Whether a guide fits, and why not.
fn misfit(carton: &Carton, states: &[State], guide: &Guide) -> Option<Misfit>
    requires { IsGuide guide.now }
    ensures { IsGuideAnswer carton.now states.now guide.now result }
{
    let Some(flap) = flap_of(carton, guide.edge) else {
        return Some(Misfit::Joint);
    };
    if !has_window(states, guide) {
        return Some(Misfit::Window);
    }
    if !keeps_band(states, guide, flap.place) {
        return Some(Misfit::Band);
    }
    let probe = first_outside(carton.panel(flap.panel), guide.probes.as_slice())?;
    Some(Misfit::Probe(probe))
}

// The first guide that doesn't fit, and why not.
fn first_misfit(carton: &Carton, states: &[State], guides: &[Guide]) -> Option<(u32, Misfit)>
    requires each { All IsGuide guides.now }
    requires few { length guides.now ≤ MOST_GUIDES }
    ensures { IsGuidesAnswer carton.now states.now guides.now result }
{
    for n in 0..guides.len() {
        if let Some(misfit) = misfit(carton, states, &guides[n]) {
            return Some((n as u32, misfit));
        }
    }
    None
}

fn have_same(first: &[EdgeId], second: &[EdgeId]) -> bool
    ensures { IsTrue result ↔ first.now ≡ second.now }
{
    first == second
}

/// Whether the catalogue fits the carton, its task and the plan.
///
/// # Errors
///
/// The first rule by which it doesn't fit; of the guides, the first that doesn't fit answers.
pub fn fit_catalogue(
    carton: &Carton,
    task: &Task,
    plan: &Plan,
    catalogue: &Catalogue,
) -> Result<(), FitError>
    requires plan { IsPlan plan.now }
    requires catalogue { IsCatalogue catalogue.now }
    ensures { IsFit carton.now task.now plan.now catalogue.now result }
{
    if !have_same(plan.creases.as_slice(), task.creases.as_slice()) {
        return Err(FitError::OtherCreases);
    }
    let guides = catalogue.guides.as_slice();
    match first_misfit(carton, plan.states.as_slice(), guides) {
        Some((guide, misfit)) => Err(misfit.of_guide(guide)),
        None => Ok(()),
    }
}
