ghost use Rattle.std.specs.Prelude.{◌≡◌, ◌↔◌, IsTrue, ℕ};
ghost use Rattle.carton_catalogue.specs.CatalogueRules.{IsCatalogue};
ghost use Rattle.carton_catalogue.specs.Fits.{Fits};
ghost use Rattle.carton_fixture_text.specs.FixtureRules.{IsFixture};
ghost use Rattle.carton_text.specs.PlanRules.{IsPlan};
ghost use Rattle.carton_text.specs.TaskRules.{IsTask};
ghost use Rattle.carton_fixture.specs.Answers.{IsVerified, IsClearFixture};
ghost use Rattle.carton_fixture.specs.Fixtures.{DoesHold};
ghost use Rattle.carton_fixture.specs.SlackGood.{IsSlackGoodFixture};
ghost use Rattle.carton_fixture.specs.Steps.{IsReady};

use crate::answers::Verified;
use crate::asking::first_unheld;
use crate::candidates::{first_stranger, first_touch};
use crate::choosing::choose_named;
use carton_catalogue::{Catalogue, MOST_BODIES};
use carton_check::{Checked, check};
use carton_fixture_text::Fixture;
use carton_text::{Plan, Task};
use carton_tree::Carton;

fn is_same_stroke(first: [i32; 3], second: [i32; 3]) -> bool
    ensures { IsTrue result ↔ first ≡ second }
{
    first == second
}

// The answer for a fixture of candidates that the plan clears.
fn held_well(
    carton: &Carton,
    task: &Task,
    plan: &Plan,
    catalogue: &Catalogue,
    fixture: &Fixture,
) -> Verified
    requires ready { IsReady carton.now plan.now catalogue.now task.now.slack }
    requires rules { IsFixture fixture.now }
    requires clear { IsClearFixture carton.now task.now plan.now catalogue.now fixture.now }
    ensures { IsVerified carton.now task.now plan.now catalogue.now fixture.now result }
{
    let mut all = [false; MOST_BODIES];
    let chosen = &mut all[..catalogue.bodies.len()];
    choose_named(fixture.bodies.as_slice(), chosen);
    match first_unheld(carton, plan, catalogue, chosen, task.slack) {
        Some(unheld) => Verified::Unheld(unheld),
        None => Verified::Holds(fixture.bodies.len() as u32),
    }
}

// The answer for a plan that holds.
fn verified(
    carton: &Carton,
    task: &Task,
    plan: &Plan,
    catalogue: &Catalogue,
    fixture: &Fixture,
) -> Verified
    requires ready { IsReady carton.now plan.now catalogue.now task.now.slack }
    requires holds { DoesHold carton.now task.now plan.now }
    requires rules { IsFixture fixture.now }
    ensures { IsVerified carton.now task.now plan.now catalogue.now fixture.now result }
{
    if !is_same_stroke(fixture.stroke, catalogue.stroke) {
        return Verified::OtherStroke;
    }
    let bodies = fixture.bodies.as_slice();
    if let Some(place) = first_stranger(catalogue.bodies.as_slice(), bodies) {
        return Verified::NotCandidate(place);
    }
    match first_touch(carton, plan, fixture.stroke, bodies, task.slack) {
        Some(touch) => touch,
        None => held_well(carton, task, plan, catalogue, fixture),
    }
}

/// What is told of a fixture for a plan of the task. It takes no memory.
pub fn verify(
    carton: &Carton,
    task: &Task,
    plan: &Plan,
    catalogue: &Catalogue,
    fixture: &Fixture,
) -> Verified
    requires task { IsTask task.now }
    requires plan { IsPlan plan.now }
    requires catalogue { IsCatalogue catalogue.now }
    requires creases { task.now.creases ≡ carton.now.creases }
    requires fits { Fits carton.now task.now plan.now catalogue.now }
    requires rules { IsFixture fixture.now }
    ensures verified { IsVerified carton.now task.now plan.now catalogue.now fixture.now result }
    ensures slack_good { IsSlackGoodFixture carton.now task.now plan.now catalogue.now fixture.now
        → (count : ℕ) × (result ≡ Verified.Holds count) }
{
    match check(carton, task, plan) {
        Checked::Holds(_) => verified(carton, task, plan, catalogue, fixture),
        answer => Verified::PlanFails(answer),
    }
}
