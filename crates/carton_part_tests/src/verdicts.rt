use crate::moves::motion;
use carton_base::{Moment, PanelId};
use carton_cases::carton_of;
use carton_cases::dielines::BARE_TRAY;
use carton_fix::Fix;
use carton_part::{OpenPairs, Verdict, judge_motion, open_pairs};
use std::alloc::Global;

// What is told of all panels of the tray with margin 4 over a move, with slack 1.
fn verdict(alloc: Global, from: [i8; 4], to: [i8; 4]) -> Option<Verdict> {
    let carton = carton_of(alloc, BARE_TRAY, 4, 0)?;
    let motion = motion(8, from, to)?;
    Some(judge_motion::<Fix>(&carton, &motion, 1))
}

// The moment at which the flaps 2 and 4 are blocked, where they are.
fn blocked(alloc: Global, from: [i8; 4], to: [i8; 4]) -> Option<Moment> {
    match verdict(alloc, from, to) {
        Some(
            Verdict::Blocked {
                a: PanelId(2),
                b: PanelId(4),
                moment,
            },
        ) => Some(moment),
        _ => None,
    }
}

#[test]
fn flaps_that_rise_together_are_clear(rt: HostRuntime) {
    for k in 0..8 {
        let told = verdict(rt.alloc(), [k; 4], [k + 1; 4]);
        assert_eq!(rt; told, Some(Verdict::Clear), "from {k}");
    }
}

#[test]
fn flaps_that_change_places_are_blocked_between(rt: HostRuntime) {
    let first = [0, 15, 0, 16];
    let last = [0, 16, 0, 15];
    assert_eq!(rt; verdict(rt.alloc(), first, first), Some(Verdict::Clear));
    assert_eq!(rt; verdict(rt.alloc(), last, last), Some(Verdict::Clear));
    let Some(moment) = blocked(rt.alloc(), first, last) else {
        panic!(rt; "not blocked");
    };
    assert!(rt; moment.den.unsigned_abs().is_power_of_two());
    // At moments before 3/8 and after 5/8 they are parted by more than a unit.
    assert!(rt; moment.num.abs_diff(moment.den - moment.num) <= moment.den.unsigned_abs() / 4);
}

#[test]
fn flaps_in_one_place_are_blocked(rt: HostRuntime) {
    let both = [0, 16, 0, 16];
    assert!(rt; blocked(rt.alloc(), both, both).is_some());
}

// The pairs of the tray that stay open over all moves from flat to these stops.
fn pairs(alloc: Global, to: [i8; 4]) -> Option<OpenPairs> {
    let carton = carton_of(alloc, BARE_TRAY, 4, 0)?;
    let flat = motion(8, [0; 4], [0; 4])?;
    let folded = motion(8, to, to)?;
    Some(open_pairs::<Fix>(&carton, &flat.from, &folded.from))
}

// How many places of the table are open.
fn count(pairs: &OpenPairs) -> u32 {
    let mut count = 0u32;
    for row in &pairs.rows {
        for open in row {
            if *open {
                count = count.saturating_add(1);
            }
        }
    }
    count
}

#[test]
fn flaps_that_rise_to_a_right_angle_are_parted_in_all_moves(rt: HostRuntime) {
    let Some(pairs) = pairs(rt.alloc(), [8; 4]) else {
        panic!(rt; "no pairs");
    };
    assert_eq!(rt; count(&pairs), 0);
}

#[test]
fn flaps_that_fold_onto_each_other_stay_open(rt: HostRuntime) {
    let Some(pairs) = pairs(rt.alloc(), [0, 16, 0, 16]) else {
        panic!(rt; "no pairs");
    };
    assert_eq!(rt; count(&pairs), 1);
    assert!(rt; pairs.rows[2][4]);
}
