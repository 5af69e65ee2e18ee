use carton_cases::dielines::FLAP;
use carton_cases::{catalogues, fixtures, jobs, plans, setup_of};
use carton_check::Checked;
use carton_fixture::{Compiled, FixtureRoom, compile, compile_in, write_fixture};
use carton_stroke::BodyNote;
use std::alloc::Global;

fn compiled(alloc: Global, plan: &str, catalogue: &str) -> Option<Compiled> {
    let setup = setup_of(alloc, FLAP, jobs::UP, plan, catalogue)?;
    Some(compile(
        alloc,
        &setup.carton,
        &setup.task,
        &setup.plan,
        &setup.catalogue,
    ))
}

// Whether the fixture that is made for the flap is written so.
fn is_made(alloc: Global, catalogue: &str, text: &str) -> bool {
    let Some(setup) = setup_of(alloc, FLAP, jobs::UP, plans::UP, catalogue) else {
        return false;
    };
    let Compiled::Made(fixture) = compile(
        alloc,
        &setup.carton,
        &setup.task,
        &setup.plan,
        &setup.catalogue,
    ) else {
        return false;
    };
    match write_fixture(alloc, &fixture) {
        Ok(written) => written.as_slice() == text.as_bytes(),
        Err(_) => false,
    }
}

#[test]
fn two_rails_hold_the_flap(rt: HostRuntime) {
    assert!(rt; is_made(rt.alloc(), catalogues::RAILS, fixtures::RAILS));
}

#[test]
fn a_third_rail_is_left_out(rt: HostRuntime) {
    let catalogue =
        "carton catalogue 1\nstroke 0 -200 0\nbody 175 192 640 860 15 48\nbody 120 145 640 860 76 92\nbody 300 320 0 20 0 20\nguide 6 3 3 2 190 50\nend\n";
    assert!(rt; is_made(rt.alloc(), catalogue, fixtures::RAILS));
}

#[test]
fn one_rail_holds_too_little(rt: HostRuntime) {
    match compiled(rt.alloc(), plans::UP, catalogues::ONE_RAIL) {
        Some(Compiled::Refused { bodies, unheld }) => {
            assert!(rt; bodies.as_slice() == [BodyNote::Clears].as_slice());
            assert_eq!(rt; unheld.guide, 0);
            assert_eq!(rt; unheld.step, 3);
        }
        _ => panic!(rt; "not refused"),
    }
}

#[test]
fn a_plan_with_another_end_fails(rt: HostRuntime) {
    let plan = "carton plan 1\ncreases 6\nstate 0\nstate 1\nstate 2\nstate 3\nstate 4\nend\n";
    match compiled(rt.alloc(), plan, catalogues::RAILS) {
        Some(Compiled::PlanFails(Checked::WrongEnd)) => {}
        _ => panic!(rt; "another answer"),
    }
}

#[test]
fn room_serves_once(rt: HostRuntime) {
    let alloc = rt.alloc();
    let Some(setup) = setup_of(alloc, FLAP, jobs::UP, plans::UP, catalogues::RAILS) else {
        panic!(rt; "no setup");
    };
    let Ok(room) = FixtureRoom::with_room(alloc, 7) else {
        panic!(rt; "no room");
    };
    assert_eq!(rt; room.room(), 7);
    let count = setup.catalogue.bodies.len();
    if count > 7 {
        panic!(rt; "too many");
    }
    match compile_in(
        room,
        &setup.carton,
        &setup.task,
        &setup.plan,
        &setup.catalogue,
    ) {
        Compiled::Made(fixture) => assert_eq!(rt; fixture.bodies.len(), 2),
        _ => panic!(rt; "not made"),
    }
}
