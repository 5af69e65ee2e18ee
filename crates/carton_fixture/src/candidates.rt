ghost use Rattle.std.specs.Prelude.{◌≡◌, ◌≤◌, ◌↔◌, IsTrue, length, All};
ghost use Rattle.carton_base.specs.declared.limits.TheConstants.{WIDEST_SLACK};
ghost use Rattle.carton_bodies.specs.Boxes.{IsStroke};
ghost use Rattle.carton_text.specs.TaskPlans.{IsPlanOf};
ghost use Rattle.carton_fixture_text.specs.FixtureRules.{IsFixtureBody};
ghost use Rattle.carton_fixture.specs.Choices.{IsCandidate};
ghost use Rattle.carton_fixture.specs.Steps.{IsStrangerTold, IsTouchTold};

use crate::answers::Verified;
use carton_base::Cuboid;
use carton_fixture_text::FixtureBody;
use carton_stroke::{BodyNote, body_clears};
use carton_text::Plan;
use carton_tree::Carton;

fn is_same(first: &Cuboid, second: &Cuboid) -> bool
    ensures { IsTrue result ↔ first.now ≡ second.now }
{
    first == second
}

// Whether the candidate with the body's number is the body.
fn is_candidate(candidates: &[Cuboid], body: &FixtureBody) -> bool
    ensures { IsTrue result ↔ IsCandidate candidates.now body.now }
{
    match candidates.get(usize::from(body.id)) {
        Some(candidate) => is_same(candidate, &body.shape),
        None => false,
    }
}

/// The place of the first body that isn't the candidate with its number.
pub fn first_stranger(candidates: &[Cuboid], bodies: &[FixtureBody]) -> Option<u32>
    requires { length bodies.now ≤ 256 }
    ensures { IsStrangerTold candidates.now bodies.now result }
{
    for k in 0..bodies.len() {
        if !is_candidate(candidates, &bodies[k]) {
            return Some(k as u32);
        }
    }
    None
}

/// The first body that a panel touches, and where; `None` where the plan clears all of them.
pub fn first_touch(
    carton: &Carton,
    plan: &Plan,
    stroke: [i32; 3],
    bodies: &[FixtureBody],
    slack: u16,
) -> Option<Verified>
    requires plan { IsPlanOf carton.now plan.now }
    requires stroke { IsStroke stroke }
    requires bodies { All IsFixtureBody bodies.now }
    requires some { 1 ≤ slack }
    requires narrow { slack ≤ WIDEST_SLACK }
    ensures { IsTouchTold carton.now plan.now stroke bodies.now slack result }
{
    for k in 0..bodies.len() {
        let FixtureBody { id, shape } = bodies[k];
        match body_clears(carton, plan, stroke, &shape, slack) {
            BodyNote::Clears => {}
            BodyNote::Touches {
                panel,
                step,
                moment,
            } => {
                return Some(Verified::Touches {
                    id,
                    panel,
                    step,
                    moment,
                });
            }
        }
    }
    None
}
