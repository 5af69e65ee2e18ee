//! Fixtures for a flap that rises: made, refused and verified; and reads of files that fail.
use crate::checks::is_refused;
use crate::poses::play;
use carton_cases::catalogues::{ONE_RAIL, RAILS};
use carton_cases::dielines::FLAP;
use carton_cases::{fixtures, jobs, plans};
use carton_tool::Status;
use std::alloc::Global;
use std::test::Fail;

const WIDE_BAND: &str =
    "carton catalogue 1\nstroke 0 -200 0\nbody 175 192 640 860 15 48\nguide 6 7 7 9 190 50\nend\n";

// What a command of these words writes for the flap over a catalogue `c` and a fixture `f`, and its
// status, where the reads of these numbers fail.
fn play_words<'x>(
    alloc: Global,
    words: &[&str],
    catalogue: &'x str,
    fixture: &'x str,
    failing: &[u32],
) -> Result<(Status, Vec<u8>), Fail> {
    let files = [
        ("d", FLAP.as_bytes()),
        ("j", jobs::UP.as_bytes()),
        ("p", plans::UP.as_bytes()),
        ("c", catalogue.as_bytes()),
        ("f", fixture.as_bytes()),
    ];
    play(alloc, words, &files, failing, None)
}

fn play_with(
    alloc: Global,
    name: &str,
    catalogue: &str,
    failing: &[u32],
) -> Result<(Status, Vec<u8>), Fail> {
    play_words(alloc, &[name, "d", "j", "p", "c"], catalogue, "", failing)
}

// What `verify` writes of a fixture.
fn verify(alloc: Global, fixture: &str, failing: &[u32]) -> Result<(Status, Vec<u8>), Fail> {
    play_words(
        alloc,
        &["verify", "d", "j", "p", "c", "f"],
        RAILS,
        fixture,
        failing,
    )
}

#[test]
fn makes_rails(rt: HostRuntime) -> Result<(), Fail> {
    let alloc = rt.alloc();
    let rows: [(&str, &str, Status); 3] = [
        (RAILS, fixtures::RAILS, Status::Done),
        (
            WIDE_BAND,
            "bad catalogue: band too wide guide 0\n",
            Status::BadInput,
        ),
        (
            "carton catalogue 1\nend\n",
            "bad catalogue: no guide\n",
            Status::BadInput,
        ),
    ];
    for (catalogue, told, ended) in rows {
        let (status, text) = play_with(alloc, "fixture", catalogue, &[])?;
        assert_eq!(rt; text.as_slice(), told.as_bytes());
        assert_eq!(rt; status, ended);
    }
    Ok(())
}

#[test]
fn refuses_one_rail(rt: HostRuntime) -> Result<(), Fail> {
    let alloc = rt.alloc();
    let told = play_with(alloc, "fixture", ONE_RAIL, &[])?;
    let front = b"refused\nbody 0 clear\nunheld guide 0 over move 3 moment ";
    assert!(rt; is_refused(alloc, &told, front)?);
    Ok(())
}

#[test]
fn each_failed_read_ends_a_fixture(rt: HostRuntime) -> Result<(), Fail> {
    let alloc = rt.alloc();
    for k in 0..4 {
        let (status, text) = play_with(alloc, "fixture", RAILS, &[k])?;
        assert_eq!(rt; status, Status::ReadFault);
        assert!(rt; text.is_empty());
    }
    Ok(())
}

#[test]
fn verifies_rails(rt: HostRuntime) -> Result<(), Fail> {
    let alloc = rt.alloc();
    let (status, text) = verify(alloc, fixtures::RAILS, &[])?;
    assert_eq!(rt; status, Status::Done);
    assert_eq!(rt; text.as_slice(), b"holds 2\n".as_slice());
    let told = verify(alloc, fixtures::ONE_RAIL, &[])?;
    assert!(rt; is_refused(alloc, &told, b"unheld guide 0 over move 3 moment ")?);
    Ok(())
}

#[test]
fn each_failed_read_ends_a_verification(rt: HostRuntime) -> Result<(), Fail> {
    let alloc = rt.alloc();
    for k in 0..5 {
        let (status, text) = verify(alloc, fixtures::RAILS, &[k])?;
        assert_eq!(rt; status, Status::ReadFault);
        assert!(rt; text.is_empty());
    }
    Ok(())
}
