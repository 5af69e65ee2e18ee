//! Checks of plans: a move that is blocked between clear ends, and the order in which the three files
//! are looked at.
use crate::poses::{play, too_long};
use carton_cases::dielines::{FLAP, TRAY};
use carton_cases::{jobs, plans};
use carton_text::{after, number_of};
use carton_tool::Status;
use std::alloc::{AllocError, Global};
use std::test::Fail;

/// What a command of the words `NAME d j p` writes over a dieline `d`, a job `j` and a plan `p`, and
/// its status, where the reads of these numbers fail.
pub fn play_plan(
    alloc: Global,
    name: &str,
    dieline: &str,
    job: &str,
    plan: &str,
    failing: &[u32],
) -> Result<(Status, Vec<u8>), Fail> {
    let files = [
        ("d", dieline.as_bytes()),
        ("j", job.as_bytes()),
        ("p", plan.as_bytes()),
    ];
    play(alloc, &[name, "d", "j", "p"], &files, failing, None)
}

// Whether the text is this front and a moment of a move, whose denominator is a power of two up to
// 2^36.
fn tells_a_moment(alloc: Global, text: &[u8], front: &[u8]) -> Result<bool, AllocError> {
    let Some(rest) = after(front, text) else {
        return Ok(false);
    };
    let mut parts = Vec::new(alloc);
    for part in rest.split(|byte| *byte == b'/' || *byte == b'\n') {
        parts.push(part)?;
    }
    let [num, den, b""] = parts.as_slice() else {
        return Ok(false);
    };
    let (Some(num), Some(den)) = (number_of(num), number_of(den)) else {
        return Ok(false);
    };
    let Ok(den) = den.from_to(1, 1 << 36) else {
        return Ok(false);
    };
    Ok(den.is_power_of_two() && num.from_to(0, den).is_ok())
}

/// Whether a command refused, and told this front and a moment of a move.
pub fn is_refused(
    alloc: Global,
    told: &(Status, Vec<u8>),
    front: &[u8],
) -> Result<bool, AllocError> {
    Ok(told.0 == Status::Refused && tells_a_moment(alloc, &told.1, front)?)
}

#[test]
fn flaps_that_cross(rt: HostRuntime) -> Result<(), Fail> {
    let alloc = rt.alloc();
    let told = play_plan(alloc, "check", TRAY, jobs::CROSS, plans::CROSS, &[])?;
    assert!(rt; is_refused(alloc, &told, b"blocked move 0 panels 2 4 moment ")?);
    Ok(())
}

#[test]
fn files_that_fail(rt: HostRuntime) -> Result<(), Fail> {
    let alloc = rt.alloc();
    let long = too_long(alloc, plans::UP)?;
    let (long, bad) = (long.as_str(), "[");
    let rows: [(&str, &str, &str, &[u32], &str, Status); 8] = [
        (FLAP, jobs::UP, plans::UP, &[], "holds 8\n", Status::Done),
        (
            FLAP,
            jobs::UP,
            bad,
            &[],
            "bad plan: no end\n",
            Status::BadInput,
        ),
        (
            bad,
            bad,
            long,
            &[],
            "bad plan: too long\n",
            Status::BadInput,
        ),
        (
            bad,
            long,
            long,
            &[],
            "bad job: too long\n",
            Status::BadInput,
        ),
        (
            long,
            bad,
            bad,
            &[2],
            "bad dieline: too long\n",
            Status::BadInput,
        ),
        (
            bad,
            long,
            bad,
            &[2],
            "bad job: too long\n",
            Status::BadInput,
        ),
        (bad, bad, long, &[2], "", Status::ReadFault),
        (FLAP, jobs::UP, plans::UP, &[2], "", Status::ReadFault),
    ];
    for (dieline, job, plan, failing, text, expected) in rows {
        let (status, written) = play_plan(alloc, "check", dieline, job, plan, failing)?;
        assert_eq!(rt; written.as_slice(), text.as_bytes());
        assert_eq!(rt; status, expected);
    }
    Ok(())
}
