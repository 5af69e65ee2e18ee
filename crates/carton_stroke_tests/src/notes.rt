ghost use Rattle.std.specs.Prelude.{◌≤◌};
ghost use Rattle.carton_bodies.specs.Boxes.{IsBox};

use carton_base::{Cuboid, Moment, PanelId};
use carton_cases::bodies::LOWER_RAIL;
use carton_cases::dielines::FLAP;
use carton_cases::{case_of, jobs, plan_of, plans};
use carton_check::{Checked, check};
use carton_stroke::{BodyNote, body_clears};
use std::alloc::Global;

// What is told of the box, where the plan does what the job asks.
fn note(
    alloc: Global,
    job: &str,
    plan: &str,
    stroke: [i32; 3],
    body: &Cuboid,
    slack: u16,
) -> Option<BodyNote>
    requires body { IsBox body.now }
    requires slack { (1 ≤ slack) × (slack ≤ 1000) }
{
    let case = case_of(alloc, FLAP, job)?;
    let plan = plan_of(alloc, plan)?;
    let Checked::Holds(_) = check(&case.carton, &case.task, &plan) else {
        return None;
    };
    Some(body_clears(&case.carton, &plan, stroke, body, slack))
}

// A block in the sheet.
const BLOCK: Cuboid = Cuboid {
    x0: 120,
    x1: 145,
    y0: -10,
    y1: 110,
    z0: -10,
    z1: 10,
};

// A block where the second square stands when it is up. From some 62 degrees on no direction of the
// 26 parts the two: the far end of the square lies over the block.
const WALL: Cuboid = Cuboid {
    x0: 90,
    x1: 110,
    y0: 20,
    y1: 40,
    z0: 50,
    z1: 60,
};

#[test]
fn a_rail_that_comes_along_clears_the_plan(rt: HostRuntime) {
    let told = note(
        rt.alloc(),
        jobs::UP,
        plans::UP,
        [0, -200, 0],
        &LOWER_RAIL,
        1,
    );
    assert!(rt; told == Some(BodyNote::Clears));
}

#[test]
fn a_block_in_the_sheet_touches_the_second_square_at_once(rt: HostRuntime) {
    let told = note(rt.alloc(), jobs::UP, plans::UP, [0, 0, 0], &BLOCK, 1);
    let moment = Moment { num: 0, den: 1 };
    assert!(rt;
        told == Some(BodyNote::Touches {
            panel: PanelId(1),
            step: 0,
            moment
        })
    );
}

#[test]
fn a_block_that_the_square_comes_to_is_touched_in_a_later_move(rt: HostRuntime) {
    let told = note(rt.alloc(), jobs::UP, plans::UP, [0, 0, 0], &WALL, 1);
    match told {
        Some(BodyNote::Touches { panel, step, .. }) => {
            assert_eq!(rt; panel, PanelId(1));
            assert_eq!(rt; step, 4);
        }
        _ => panic!(rt; "not touched"),
    }
}

#[test]
fn a_block_that_the_stroke_takes_away_in_time_clears_the_plan(rt: HostRuntime) {
    let told = note(rt.alloc(), jobs::UP, plans::UP, [0, 100, 0], &WALL, 1);
    assert!(rt; told == Some(BodyNote::Clears));
}

#[test]
fn a_single_state_has_one_moment(rt: HostRuntime) {
    let alloc = rt.alloc();
    let moment = Moment { num: 0, den: 1 };
    let told = note(alloc, jobs::STAY_UP, plans::STANDS, [0, 100, 0], &WALL, 1);
    assert!(rt;
        told == Some(BodyNote::Touches {
            panel: PanelId(1),
            step: 0,
            moment
        })
    );
    let told = note(alloc, jobs::STAY_UP, plans::STANDS, [0, 100, 0], &BLOCK, 1);
    assert!(rt; told == Some(BodyNote::Clears));
}
