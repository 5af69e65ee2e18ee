ghost use Rattle.std.specs.Prelude.{◌≡◌, ◌<◌, length};
ghost use Rattle.carton_fixture.specs.Fixtures.{HoldAll};
ghost use Rattle.carton_fixture.specs.Steps.{IsReady, IsTried, AreTried};

use crate::asking::first_unheld;
use carton_catalogue::Catalogue;
use carton_text::Plan;
use carton_tree::Carton;

// Leaves candidate k out, if the other chosen ones hold every guide without it.
fn try_without(
    carton: &Carton,
    plan: &Plan,
    catalogue: &Catalogue,
    slack: u16,
    chosen: &mut [bool],
    k: usize,
)
    requires ready { IsReady carton.now plan.now catalogue.now slack }
    requires one_each { length chosen.old ≡ length catalogue.now.bodies }
    requires within { k < length chosen.old }
    requires held { HoldAll carton.now plan.now catalogue.now.guides catalogue.now.stroke catalogue.now.bodies
        chosen.old }
    ensures { IsTried carton.now plan.now catalogue.now slack chosen.old chosen.new k }
{
    if !chosen[k] {
        return;
    }
    chosen[k] = false;
    match first_unheld(carton, plan, catalogue, chosen, slack) {
        Some(_) => chosen[k] = true,
        None => {}
    }
}

/// Leaves out, in the order of numbers, each chosen candidate without which the others hold every
/// guide.
pub fn leave_out(
    carton: &Carton,
    plan: &Plan,
    catalogue: &Catalogue,
    slack: u16,
    chosen: &mut [bool],
)
    requires ready { IsReady carton.now plan.now catalogue.now slack }
    requires one_each { length chosen.old ≡ length catalogue.now.bodies }
    requires held { HoldAll carton.now plan.now catalogue.now.guides catalogue.now.stroke catalogue.now.bodies
        chosen.old }
    ensures { AreTried carton.now plan.now catalogue.now slack chosen.old chosen.new (length chosen.new) }
{
    for k in 0..chosen.len() {
        try_without(carton, plan, catalogue, slack, chosen, k);
    }
}
