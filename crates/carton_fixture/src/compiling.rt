ghost use Rattle.std.specs.Prelude.{◌≡◌, ◌≢◌, ◌≤◌, length, vec_len, vec_capacity};
ghost use Rattle.carton_catalogue.specs.CatalogueRules.{IsCatalogue};
ghost use Rattle.carton_catalogue.specs.Fits.{Fits};
ghost use Rattle.carton_stroke.specs.Notes.{AreNotesOf};
ghost use Rattle.carton_text.specs.PlanRules.{IsPlan};
ghost use Rattle.carton_text.specs.TaskRules.{IsTask};
ghost use Rattle.carton_fixture.specs.Answers.{IsCompiled, IsMade};
ghost use Rattle.carton_fixture.specs.Fixtures.{DoesHold, HoldAll};
ghost use Rattle.carton_fixture.specs.SlackGood.{IsSlackGood, IsMadeAnswer};
ghost use Rattle.carton_fixture.specs.Steps.{IsReady, AreChosenClear};

use crate::answers::Compiled;
use crate::asking::first_unheld;
use crate::choosing::{choose_clear, chosen_bodies};
use crate::leaving::leave_out;
use crate::room::{FixtureRoom, lists_of};
use carton_base::Listed;
use carton_catalogue::{Catalogue, MOST_BODIES};
use carton_check::{Checked, check};
use carton_fixture_text::{Fixture, FixtureBody};
use carton_stroke::{BodyNote, bodies_clear};
use carton_text::{Plan, Task};
use carton_tree::Carton;
use std::alloc::Global;

// The notes on the candidates, in a list of at least as many.
fn noted(
    carton: &Carton,
    plan: &Plan,
    catalogue: &Catalogue,
    slack: u16,
    mut notes: Vec<BodyNote>,
) -> Vec<BodyNote>
    requires ready { IsReady carton.now plan.now catalogue.now slack }
    requires room { length catalogue.now.bodies ≤ vec_len notes }
    ensures { AreNotesOf carton.now plan.now catalogue.now.stroke catalogue.now.bodies slack result.items }
{
    let candidates = catalogue.bodies.as_slice();
    notes.truncate(candidates.len());
    bodies_clear(
        carton,
        plan,
        catalogue.stroke,
        candidates,
        slack,
        &mut notes,
    );
    notes
}

// The fixture of chosen candidates that hold every guide, without those that can be left out.
fn made(
    carton: &Carton,
    task: &Task,
    plan: &Plan,
    catalogue: &Catalogue,
    chosen: &mut [bool],
    bodies: Vec<FixtureBody>,
) -> Fixture
    requires ready { IsReady carton.now plan.now catalogue.now task.now.slack }
    requires holds { DoesHold carton.now task.now plan.now }
    requires one_each { length chosen.old ≡ length catalogue.now.bodies }
    requires clear { AreChosenClear carton.now plan.now catalogue.now chosen.old }
    requires held { HoldAll carton.now plan.now catalogue.now.guides catalogue.now.stroke catalogue.now.bodies
        chosen.old }
    requires empty { vec_len bodies ≡ 0 }
    requires room { length catalogue.now.bodies ≤ vec_capacity bodies }
    ensures { IsMade carton.now task.now plan.now catalogue.now result }
{
    leave_out(carton, plan, catalogue, task.slack, chosen);
    let bodies = chosen_bodies(catalogue.bodies.as_slice(), chosen, bodies);
    Fixture {
        stroke: catalogue.stroke,
        bodies: Listed::from_vec(bodies),
    }
}

// The answer for a plan that holds.
fn compiled(
    room: FixtureRoom,
    carton: &Carton,
    task: &Task,
    plan: &Plan,
    catalogue: &Catalogue,
) -> Compiled
    requires ready { IsReady carton.now plan.now catalogue.now task.now.slack }
    requires holds { DoesHold carton.now task.now plan.now }
    requires room { length catalogue.now.bodies ≤ room }
    ensures compiled { IsCompiled carton.now task.now plan.now catalogue.now result }
    ensures no_memory { result ≢ Compiled.Memory }
{
    let (notes, bodies) = lists_of(room);
    let notes = noted(carton, plan, catalogue, task.slack, notes);
    let mut all = [false; MOST_BODIES];
    let chosen = &mut all[..catalogue.bodies.len()];
    choose_clear(&notes, chosen);
    match first_unheld(carton, plan, catalogue, chosen, task.slack) {
        Some(unheld) => Compiled::Refused {
            bodies: Listed::from_vec(notes),
            unheld,
        },
        None => Compiled::Made(made(carton, task, plan, catalogue, chosen, bodies)),
    }
}

/// The fixture for a plan of the task, of candidates of the catalogue, in room that was taken before. It
/// takes no memory.
pub fn compile_in(
    room: FixtureRoom,
    carton: &Carton,
    task: &Task,
    plan: &Plan,
    catalogue: &Catalogue,
) -> Compiled
    requires task { IsTask task.now }
    requires plan { IsPlan plan.now }
    requires catalogue { IsCatalogue catalogue.now }
    requires creases { task.now.creases ≡ carton.now.creases }
    requires fits { Fits carton.now task.now plan.now catalogue.now }
    requires room { length catalogue.now.bodies ≤ room }
    ensures compiled { IsCompiled carton.now task.now plan.now catalogue.now result }
    ensures no_memory { result ≢ Compiled.Memory }
    ensures slack_good { IsSlackGood carton.now task.now plan.now catalogue.now → IsMadeAnswer result }
{
    match check(carton, task, plan) {
        Checked::Holds(_) => compiled(room, carton, task, plan, catalogue),
        answer => Compiled::PlanFails(answer),
    }
}

/// The fixture for a plan of the task, of candidates of the catalogue.
pub fn compile(
    alloc: Global,
    carton: &Carton,
    task: &Task,
    plan: &Plan,
    catalogue: &Catalogue,
) -> Compiled
    requires task { IsTask task.now }
    requires plan { IsPlan plan.now }
    requires catalogue { IsCatalogue catalogue.now }
    requires creases { task.now.creases ≡ carton.now.creases }
    requires fits { Fits carton.now task.now plan.now catalogue.now }
    ensures compiled { IsCompiled carton.now task.now plan.now catalogue.now result }
    ensures slack_good { IsSlackGood carton.now task.now plan.now catalogue.now → result ≢ Compiled.Memory
        → IsMadeAnswer result }
{
    match FixtureRoom::with_room(alloc, catalogue.bodies.len() as u16) {
        Ok(room) => compile_in(room, carton, task, plan, catalogue),
        Err(_) => Compiled::Memory,
    }
}
