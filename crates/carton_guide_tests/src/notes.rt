use carton_cases::catalogues::RAILS;
use carton_cases::dielines::FLAP;
use carton_cases::{jobs, plans, setup_of};
use carton_check::{Checked, check};
use carton_guide::{End, GuideNote, held};
use std::alloc::Global;

// The same rails for a window that they leave in its last move, where the probe goes out of them once
// a twentieth of it has passed.
const RAILS_TOO_LONG: &str =
    "carton catalogue 1\nstroke 0 -200 0\nbody 175 192 640 860 15 48\nbody 120 145 640 860 76 92\nguide 6 3 4 2 190 50\nend\n";

// The same rails for a window that begins before they come.
const RAILS_TOO_LATE: &str =
    "carton catalogue 1\nstroke 0 -200 0\nbody 175 192 640 860 15 48\nbody 120 145 640 860 76 92\nguide 6 2 3 2 190 50\nend\n";

// One probe that lies in no rail, and one that does in each.
const RAILS_FOR_TWO: &str =
    "carton catalogue 1\nstroke 0 -200 0\nbody 175 192 640 860 15 48\nbody 120 145 640 860 76 92\nguide 6 3 3 2 150 50 190 50\nend\n";

// What is told of the catalogue's only guide, where the plan does what the job asks and the catalogue
// fits.
fn note(
    alloc: Global,
    job: &str,
    plan: &str,
    catalogue: &str,
    chosen: &[bool],
) -> Option<GuideNote> {
    let setup = setup_of(alloc, FLAP, job, plan, catalogue)?;
    let Checked::Holds(_) = check(&setup.carton, &setup.task, &setup.plan) else {
        return None;
    };
    let guides = setup.catalogue.guides.as_slice();
    let bodies = setup.catalogue.bodies.as_slice();
    if guides.len() != 1 || chosen.len() != bodies.len() {
        return None;
    }
    Some(held(
        &setup.carton,
        &setup.plan,
        &guides[0],
        setup.catalogue.stroke,
        bodies,
        chosen,
        setup.task.slack,
    ))
}

// Whether the guide is told to be held where nothing else is wanted, and else not to be held at this end
// over this move.
fn is_told(note: Option<GuideNote>, wanted: Option<(End, u32)>) -> bool {
    match (note, wanted) {
        (Some(GuideNote::Held), None) => true,
        (Some(GuideNote::Unheld { end, step, .. }), Some((at, over))) => end == at && step == over,
        _ => false,
    }
}

#[test]
fn two_rails_hold_the_flap_and_each_alone_one_end(rt: HostRuntime) {
    for (chosen, wanted) in [
        ([true, true], None),
        ([true, false], Some((End::Over, 3))),
        ([false, true], Some((End::Under, 3))),
        ([false, false], Some((End::Under, 3))),
    ] {
        let told = note(rt.alloc(), jobs::UP, plans::UP, RAILS, &chosen);
        assert!(rt; is_told(told, wanted), "{chosen:?}");
    }
}

#[test]
fn the_band_is_as_wide_on_the_finer_grid(rt: HostRuntime) {
    for (chosen, wanted) in [([true, true], None), ([true, false], Some((End::Over, 3)))] {
        let told = note(
            rt.alloc(),
            jobs::UP_FINELY,
            plans::UP_FINELY,
            RAILS,
            &chosen,
        );
        assert!(rt; is_told(told, wanted), "{chosen:?}");
    }
}

#[test]
fn rails_that_pass_by_hold_the_flap_no_longer(rt: HostRuntime) {
    match note(
        rt.alloc(),
        jobs::UP,
        plans::UP,
        RAILS_TOO_LONG,
        &[true, true],
    ) {
        Some(GuideNote::Unheld { end, step, moment }) => {
            assert!(rt; end == End::Under && step == 4);
            // At 9/200 of the move the probe is one unit deep.
            let (num, den) = (i128::from(moment.num), i128::from(moment.den));
            assert!(rt; 200 * num >= 9 * den);
        }
        _ => panic!(rt; "held"),
    }
}

#[test]
fn rails_come_in_time_for_one_probe_or_too_late(rt: HostRuntime) {
    for (catalogue, wanted) in [
        (RAILS_TOO_LATE, Some((End::Under, 2))),
        (RAILS_FOR_TWO, None),
    ] {
        let told = note(rt.alloc(), jobs::UP, plans::UP, catalogue, &[true, true]);
        assert!(rt; is_told(told, wanted), "at {catalogue}");
    }
}
