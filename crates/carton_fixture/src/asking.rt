ghost use Rattle.std.specs.Prelude.{◌≡◌, length};
ghost use Rattle.carton_fixture.specs.Steps.{IsReady, IsAsked};

use crate::answers::UnheldEnd;
use carton_catalogue::Catalogue;
use carton_guide::{GuideNote, held};
use carton_text::Plan;
use carton_tree::Carton;

/// The first guide that the chosen candidates don't hold well, and where; `None` where they hold every
/// guide.
pub fn first_unheld(
    carton: &Carton,
    plan: &Plan,
    catalogue: &Catalogue,
    chosen: &[bool],
    slack: u16,
) -> Option<UnheldEnd>
    requires ready { IsReady carton.now plan.now catalogue.now slack }
    requires one_each { length chosen.now ≡ length catalogue.now.bodies }
    ensures { IsAsked carton.now plan.now catalogue.now chosen.now slack result }
{
    let bodies = catalogue.bodies.as_slice();
    let guides = catalogue.guides.as_slice();
    for k in 0..guides.len() {
        let note = held(
            carton,
            plan,
            &guides[k],
            catalogue.stroke,
            bodies,
            chosen,
            slack,
        );
        match note {
            GuideNote::Held => {}
            GuideNote::Unheld { end, step, moment } => {
                return Some(UnheldEnd {
                    guide: k as u32,
                    end,
                    step,
                    moment,
                });
            }
        }
    }
    None
}
