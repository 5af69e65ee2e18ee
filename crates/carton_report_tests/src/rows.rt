use carton_cases::dielines::{TRAY, TUCK};
use carton_cases::{case_of, jobs, plan_of, plans};
use carton_check::Checked;
use carton_report::{Cleared, Row, WIDE_CLEARANCE, clearances};
use std::alloc::Global;

// The first wall rises, and then the other three in step.
const ERECT: &str =
    "carton job 1\nmargin 4\ntarget 0 8\ntarget 1 8\ntarget 2 8\ntarget 3 8\nteam 0\nteam 1 2 3\nend\n";

const ERECT_PLAN: &str =
    "carton plan 1\ncreases 0 1 2 3 4 5 6 7 8 9 10 11\nstate 0 0 0 0 0 0 0 0 0 0 0 0\nstate 1 0 0 0 0 0 0 0 0 0 0 0\nstate 2 0 0 0 0 0 0 0 0 0 0 0\nstate 3 0 0 0 0 0 0 0 0 0 0 0\nstate 4 0 0 0 0 0 0 0 0 0 0 0\nstate 5 0 0 0 0 0 0 0 0 0 0 0\nstate 6 0 0 0 0 0 0 0 0 0 0 0\nstate 7 0 0 0 0 0 0 0 0 0 0 0\nstate 8 0 0 0 0 0 0 0 0 0 0 0\nstate 8 1 1 1 0 0 0 0 0 0 0 0\nstate 8 2 2 2 0 0 0 0 0 0 0 0\nstate 8 3 3 3 0 0 0 0 0 0 0 0\nstate 8 4 4 4 0 0 0 0 0 0 0 0\nstate 8 5 5 5 0 0 0 0 0 0 0 0\nstate 8 6 6 6 0 0 0 0 0 0 0 0\nstate 8 7 7 7 0 0 0 0 0 0 0 0\nstate 8 8 8 8 0 0 0 0 0 0 0 0\nend\n";

// What is told of a plan for a job.
fn cleared(alloc: Global, dieline: &str, job: &str, plan: &str) -> Option<Cleared> {
    let case = case_of(alloc, dieline, job)?;
    let plan = plan_of(alloc, plan)?;
    Some(clearances(alloc, &case.carton, &case.task, &plan))
}

fn clear(row: Row) -> u16 {
    match row {
        Row::Wide { .. } => WIDE_CLEARANCE,
        Row::Tight { clear, .. } => clear,
    }
}

fn step(row: Row) -> u32 {
    match row {
        Row::Wide { step } => step,
        Row::Tight { step, .. } => step,
    }
}

// The least clearance of the rows.
fn least(rows: &[Row]) -> u16 {
    let mut least = WIDE_CLEARANCE;
    for row in rows {
        least = least.min(clear(*row));
    }
    least
}

// Whether row k is that of move k.
fn are_in_order(rows: &[Row]) -> bool {
    let mut are = true;
    for k in 0..rows.len() {
        are = are & (step(rows[k]) as usize == k);
    }
    are
}

#[test]
fn flaps_that_rise_together_come_nearest_at_the_end(rt: HostRuntime) {
    let Some(Cleared::Rows(rows)) = cleared(rt.alloc(), TRAY, jobs::TOGETHER, plans::TOGETHER)
    else {
        panic!(rt; "no rows");
    };
    let rows = rows.as_slice();
    assert_eq!(rt; rows.len(), 8);
    assert!(rt; are_in_order(rows));
    assert!(rt; least(rows) == 7 || least(rows) == 8);
    match rows[7] {
        Row::Tight { clear, a, b, .. } => {
            assert!(rt; clear == 7 || clear == 8);
            let pair = (a.0, b.0);
            assert!(rt; pair == (1, 2) || pair == (1, 4) || pair == (2, 3) || pair == (3, 4));
        }
        Row::Wide { .. } => panic!(rt; "wide"),
    }
}

#[test]
fn walls_of_a_carton_keep_apart(rt: HostRuntime) {
    let Some(Cleared::Rows(rows)) = cleared(rt.alloc(), TUCK, ERECT, ERECT_PLAN) else {
        panic!(rt; "no rows");
    };
    let rows = rows.as_slice();
    assert_eq!(rt; rows.len(), 16);
    assert!(rt; are_in_order(rows));
    assert!(rt; least(rows) >= 6);
}

#[test]
fn a_plan_with_another_end_fails(rt: HostRuntime) {
    match cleared(rt.alloc(), TRAY, jobs::STAY, plans::TOGETHER) {
        Some(Cleared::Fails(answer)) => assert_eq!(rt; answer, Checked::WrongEnd),
        _ => panic!(rt; "not refused"),
    }
}

#[test]
fn a_plan_of_one_state_has_no_rows(rt: HostRuntime) {
    let plan = "carton plan 1\ncreases 0 1 2 3\nstate 0 0 0 0\nend\n";
    match cleared(rt.alloc(), TRAY, jobs::STAY, plan) {
        Some(Cleared::Rows(rows)) => assert_eq!(rt; rows.len(), 0),
        _ => panic!(rt; "no rows"),
    }
}
