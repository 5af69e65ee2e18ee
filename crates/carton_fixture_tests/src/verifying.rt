use carton_cases::dielines::FLAP;
use carton_cases::{catalogues, fixtures, jobs, plans, setup_of};
use carton_fixture::{Verified, read_fixture, verify};
use std::alloc::Global;

// What is told of the fixture for the flap.
fn verified(alloc: Global, fixture: &str) -> Option<Verified> {
    let setup = setup_of(alloc, FLAP, jobs::UP, plans::UP, catalogues::RAILS)?;
    let Ok(fixture) = read_fixture(alloc, fixture.as_bytes()) else {
        return None;
    };
    Some(verify(
        &setup.carton,
        &setup.task,
        &setup.plan,
        &setup.catalogue,
        &fixture,
    ))
}

#[test]
fn both_rails_hold(rt: HostRuntime) {
    assert!(rt; verified(rt.alloc(), fixtures::RAILS) == Some(Verified::Holds(2)));
}

#[test]
fn one_rail_leaves_an_end_unheld(rt: HostRuntime) {
    match verified(rt.alloc(), fixtures::ONE_RAIL) {
        Some(Verified::Unheld(end)) => {
            assert_eq!(rt; end.guide, 0);
            assert_eq!(rt; end.step, 3);
        }
        _ => panic!(rt; "another answer"),
    }
}

#[test]
fn another_stroke_is_told(rt: HostRuntime) {
    let text =
        "carton fixture 1\nstroke 0 -201 0\nbody 0 175 192 640 860 15 48\nbody 1 120 145 640 860 76 92\nend\n";
    assert!(rt; verified(rt.alloc(), text) == Some(Verified::OtherStroke));
}

#[test]
fn the_first_that_is_no_candidate_is_told(rt: HostRuntime) {
    let moved =
        "carton fixture 1\nstroke 0 -200 0\nbody 0 174 192 640 860 15 48\nbody 1 120 145 640 860 76 92\nend\n";
    let renumbered =
        "carton fixture 1\nstroke 0 -200 0\nbody 0 175 192 640 860 15 48\nbody 2 120 145 640 860 76 92\nend\n";
    assert!(rt; verified(rt.alloc(), moved) == Some(Verified::NotCandidate(0)));
    assert!(rt; verified(rt.alloc(), renumbered) == Some(Verified::NotCandidate(1)));
}
