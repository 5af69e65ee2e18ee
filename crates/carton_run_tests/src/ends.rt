use crate::poses::{files_of, play};
use carton_io::{FileShelf, OutSink, SteadyShelf, SteadySink};
use carton_tool::{Status, run, run_steadily};
use std::alloc::{AllocError, Global};
use std::io;
use std::test::Fail;

/// One panel: `flat` answers `clear 0` at margin 4.
pub const TRI: &[u8] =
    br#"{"vertices_coords":[[0,0],[100,0],[0,100]],"edges_vertices":[[0,1],[1,2],[2,0]],"faces_vertices":[[0,1,2]]}"#;

const CLEAR: &[u8] = b"clear 0\n";

/// The words `flat NAME 4`.
pub fn flat(alloc: Global, name: &str) -> Result<Vec<String>, AllocError> {
    let mut words = Vec::new(alloc);
    for word in ["flat", name, "4"] {
        words.push(String::from_str(alloc, word)?)?;
    }
    Ok(words)
}

// The name to be read, the reads that fail, where the sink stops, what is written, and the status.
const ROWS: [(&str, &[u32], Option<usize>, usize, Status); 8] = [
    ("x", &[], None, 8, Status::Done),
    ("x", &[0], None, 0, Status::ReadFault),
    ("x", &[1], None, 8, Status::Done),
    ("y", &[], None, 0, Status::ReadFault),
    ("x", &[], Some(0), 0, Status::WriteFault),
    ("x", &[], Some(3), 3, Status::WriteFault),
    ("x", &[], Some(7), 7, Status::WriteFault),
    ("x", &[], Some(8), 8, Status::Done),
];

#[test]
fn ends_that_fail(rt: HostRuntime) -> Result<(), Fail> {
    for (name, failing, stop_after, count, expected) in ROWS {
        let (status, written) = play(
            rt.alloc(),
            &["flat", name, "4"],
            &[("x", TRI)],
            failing,
            stop_after,
        )?;
        let front = CLEAR.get(..count).ok_or("no front")?;
        assert_eq!(rt; written.as_slice(), front, "{name} {stop_after:?}");
        assert_eq!(rt; status, expected, "{name} {stop_after:?}");
    }
    Ok(())
}

#[test]
fn the_longest_file(rt: HostRuntime) -> Result<(), Fail> {
    let mut text = Vec::from_slice(rt.alloc(), TRI)?;
    for (length, answer, expected) in [
        (1048576, CLEAR, Status::Done),
        (
            1048577,
            b"bad dieline: too long\n".as_slice(),
            Status::BadInput,
        ),
    ] {
        text.resize(length, b' ')?;
        let (status, written) = play(rt.alloc(), &["flat", "x", "4"], &[("x", &text)], &[], None)?;
        assert_eq!(rt; written.as_slice(), answer);
        assert_eq!(rt; status, expected);
    }
    Ok(())
}

#[test]
fn steady_ends(rt: HostRuntime) -> Result<(), Fail> {
    let alloc = rt.alloc();
    let mut shelf = SteadyShelf::new(files_of(alloc, &[("x", TRI)])?);
    let mut sink = SteadySink::new();
    for (name, expected) in [("x", Status::Done), ("y", Status::BadInput)] {
        let words = flat(alloc, name)?;
        let status = run_steadily(alloc, &words, &mut shelf, &mut sink);
        assert_eq!(rt; status, expected, "{name}");
    }
    Ok(())
}

#[test]
fn real_ends(rt: HostRuntime) -> Result<(), Fail> {
    let mut shelf = FileShelf::new(&rt);
    let mut sink = OutSink::new(io::writer(&rt));
    let words = flat(rt.alloc(), ".")?;
    let status = run(rt.alloc(), &words, &mut shelf, &mut sink);
    assert_eq!(rt; status, Status::ReadFault);
    Ok(())
}

#[test]
fn numbers_of_statuses(rt: HostRuntime) {
    for (status, number) in [
        (Status::Done, 0),
        (Status::Refused, 1),
        (Status::BadInput, 2),
        (Status::BadWords, 3),
        (Status::ReadFault, 4),
        (Status::WriteFault, 5),
        (Status::OutOfTurns, 6),
        (Status::NoMemory, 7),
    ] {
        assert_eq!(rt; status.number(), number);
    }
}
