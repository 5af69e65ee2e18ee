//! Plans: what is printed of a flap that goes up, of one that stays, of flaps that cross at the start,
//! and of a budget that is too small; and ends that fail.
use crate::poses::{HALF, play};
use carton_cases::dielines::{FLAP, TRAY};
use carton_cases::{jobs, plans};
use carton_tool::Status;
use std::alloc::Global;
use std::test::Fail;

const SHORT: &str = "carton job 1\nmargin 4\nturns 1\ntarget 6 8\nend\n";

const STILL_PLAN: &str = "carton plan 1\ncreases 6\nstate 4\nend\n";

// What `plan d j` writes over a dieline `d` and a job `j`, and its status, where the reads of these
// numbers fail and the sink stops after so many bytes.
fn plan(
    alloc: Global,
    dieline: &str,
    job: &str,
    failing: &[u32],
    stop_after: Option<usize>,
) -> Result<(Status, Vec<u8>), Fail> {
    let files = [("d", dieline.as_bytes()), ("j", job.as_bytes())];
    play(alloc, &["plan", "d", "j"], &files, failing, stop_after)
}

#[test]
fn plans_of_flaps(rt: HostRuntime) -> Result<(), Fail> {
    let alloc = rt.alloc();
    let rows: [(&str, &str, &[u32], &str, Status); 6] = [
        (FLAP, jobs::UP, &[], plans::UP, Status::Done),
        (FLAP, HALF, &[], STILL_PLAN, Status::Done),
        (
            TRAY,
            jobs::IN_ONE_PLACE,
            &[],
            "start blocked 2 4\n",
            Status::Refused,
        ),
        (FLAP, SHORT, &[], "out of turns 8\n", Status::OutOfTurns),
        (FLAP, "[", &[], "bad job: bad line 1\n", Status::BadInput),
        (FLAP, jobs::UP, &[1], "", Status::ReadFault),
    ];
    for (dieline, job, failing, told, ended) in rows {
        let (status, text) = plan(alloc, dieline, job, failing, None)?;
        assert_eq!(rt; text.as_slice(), told.as_bytes());
        assert_eq!(rt; status, ended);
    }
    Ok(())
}

// Where the sink stops, how many bytes of the plan are written, and the status.
const STOPS: [(usize, usize, Status); 4] = [
    (0, 0, Status::WriteFault),
    (10, 10, Status::WriteFault),
    (99, 99, Status::WriteFault),
    (100, 100, Status::Done),
];

#[test]
fn sinks_that_stop_in_a_plan(rt: HostRuntime) -> Result<(), Fail> {
    for (stop_after, count, ended) in STOPS {
        let (status, text) = plan(rt.alloc(), FLAP, jobs::UP, &[], Some(stop_after))?;
        let front = plans::UP.as_bytes().get(..count).ok_or("no front")?;
        assert_eq!(rt; text.as_slice(), front);
        assert_eq!(rt; status, ended);
    }
    Ok(())
}
