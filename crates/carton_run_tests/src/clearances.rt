//! Reports on plans: of a flap whose panels share a crease, of flaps that rise together, and of plans
//! that don't hold.
use crate::checks::{is_refused, play_plan};
use carton_cases::dielines::{FLAP, TRAY};
use carton_cases::{jobs, plans};
use carton_text::after;
use carton_tool::Status;
use std::alloc::Global;
use std::test::Fail;

const WIDE: &str =
    "clearance 8\nmove 0 wide\nmove 1 wide\nmove 2 wide\nmove 3 wide\nmove 4 wide\nmove 5 wide\nmove 6 wide\nmove 7 wide\n";

const OPPOSITE: &str = "carton job 1\nmargin 4\nstart 1 7\ntarget 1 8\nend\n";

const OPPOSITE_PLAN: &str = "carton plan 1\ncreases 0 1 2 3\nstate 0 7 0 0\nstate 0 8 0 0\nend\n";

const FAR_PLAN: &str = "carton plan 1\ncreases 6\nstate 0\nstate 8\nend\n";

#[test]
fn reports_on_a_flap(rt: HostRuntime) -> Result<(), Fail> {
    let alloc = rt.alloc();
    let rows: [(&str, &str, Status); 3] = [
        (plans::UP, WIDE, Status::Done),
        (FAR_PLAN, "not one stop 0\n", Status::Refused),
        ("[", "bad plan: no end\n", Status::BadInput),
    ];
    for (plan, told, ended) in rows {
        let (status, text) = play_plan(alloc, "clearance", FLAP, jobs::UP, plan, &[])?;
        assert_eq!(rt; text.as_slice(), told.as_bytes());
        assert_eq!(rt; status, ended);
    }
    Ok(())
}

#[test]
fn reports_on_a_tray(rt: HostRuntime) -> Result<(), Fail> {
    let alloc = rt.alloc();
    let (status, text) = play_plan(alloc, "clearance", TRAY, OPPOSITE, OPPOSITE_PLAN, &[])?;
    assert_eq!(rt; status, Status::Done);
    assert!(rt; after(b"clearance 1\nmove 0 clear ", &text).is_some());
    let told = play_plan(alloc, "clearance", TRAY, jobs::CROSS, plans::CROSS, &[])?;
    assert!(rt; is_refused(alloc, &told, b"blocked move 0 panels 2 4 moment ")?);
    Ok(())
}
