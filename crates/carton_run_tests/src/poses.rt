//! Poses of a carton of two panels, and the order in which the two files are looked at.
use carton_cases::dielines::FLAP;
use carton_cases::jobs::UP;
use carton_cases::tells_place;
use carton_io::{MemoryShelf, MemorySink, NamedFile};
use carton_text::after;
use carton_tool::{Status, run};
use std::alloc::{AllocError, Global};
use std::test::Fail;

/// The right panel stands half up, and stays.
pub const HALF: &str = "carton job 1\nmargin 4\nstart 6 4\ntarget 6 4\nend\n";

const LEFT: &str = "carton job 1\nroot 1\nmargin 4\nstart 6 -4\ntarget 6 -4\nend\n";

/// Files with these names and bytes.
pub fn files_of(alloc: Global, files: &[(&str, &[u8])]) -> Result<Vec<NamedFile>, AllocError> {
    let mut found = Vec::new(alloc);
    for (name, bytes) in files {
        found.push(NamedFile {
            name: String::from_str(alloc, name)?,
            bytes: Vec::from_slice(alloc, bytes)?,
        })?;
    }
    Ok(found)
}

/// What a command of these words writes over these files, by their names, and its status, where the
/// reads of these numbers fail and the sink stops after so many bytes.
pub fn play(
    alloc: Global,
    words: &[&str],
    files: &[(&str, &[u8])],
    failing: &[u32],
    stop_after: Option<usize>,
) -> Result<(Status, Vec<u8>), Fail> {
    let mut command = Vec::new(alloc);
    for word in words {
        command.push(String::from_str(alloc, word)?)?;
    }
    let mut shelf = MemoryShelf::new(files_of(alloc, files)?, Vec::from_slice(alloc, failing)?);
    let mut sink = MemorySink::with_room(alloc, 10_000, stop_after)?;
    let status = run(alloc, &command, &mut shelf, &mut sink);
    Ok((status, Vec::from_slice(alloc, sink.bytes())?))
}

/// A text that begins so, with so many marks of a comment behind that it is one byte too long for a file.
pub fn too_long(alloc: Global, front: &str) -> Result<String, Fail> {
    let mut bytes = Vec::from_slice(alloc, front.as_bytes())?;
    bytes.resize(1_048_577, b'#')?;
    Ok(String::from_utf8(bytes).ok().ok_or("no text")?)
}

// What `pose d j END` writes over a dieline `d` and a job `j`.
fn pose(
    alloc: Global,
    dieline: &str,
    job: &str,
    end: &str,
    failing: &[u32],
) -> Result<(Status, Vec<u8>), Fail> {
    let files = [("d", dieline.as_bytes()), ("j", job.as_bytes())];
    play(alloc, &["pose", "d", "j", end], &files, failing, None)
}

// Whether the text has one line that begins so, and tells this place.
fn tells(alloc: Global, text: &[u8], front: &str, place: [i64; 3]) -> Result<bool, AllocError> {
    let mut told = false;
    for line in text.split(|byte| *byte == b'\n') {
        let Some(rest) = after(front.as_bytes(), line) else {
            continue;
        };
        if told || !tells_place(alloc, rest, place)? {
            return Ok(false);
        }
        told = true;
    }
    Ok(told)
}

#[test]
fn corners_of_a_flap(rt: HostRuntime) -> Result<(), Fail> {
    let alloc = rt.alloc();
    let rows: [(&str, &str, &str, i64, i64, i64); 10] = [
        (HALF, "start", "panel 1 corner 1 ", 160_000, 0, 80_000),
        (HALF, "target", "panel 1 corner 1 ", 160_000, 0, 80_000),
        (HALF, "start", "panel 0 corner 3 ", 0, 100_000, 0),
        (LEFT, "start", "panel 0 corner 0 ", 40_000, 0, -80_000),
        (LEFT, "start", "panel 1 corner 1 ", 200_000, 0, 0),
        (UP, "start", "panel 1 corner 2 ", 200_000, 100_000, 0),
        (UP, "target", "panel 1 corner 0 ", 100_000, 0, 0),
        (UP, "target", "panel 1 corner 1 ", 100_000, 0, 100_000),
        (UP, "target", "panel 1 corner 2 ", 100_000, 100_000, 100_000),
        (UP, "target", "panel 0 corner 2 ", 100_000, 100_000, 0),
    ];
    for (job, end, front, x, y, z) in rows {
        let (status, text) = pose(alloc, FLAP, job, end, &[])?;
        assert_eq!(rt; status, Status::Done);
        assert!(rt; tells(alloc, &text, front, [x, y, z])?, "{end} {front}");
        assert_eq!(rt; text.iter().filter(|byte| **byte == b'\n').count(), 8);
    }
    Ok(())
}

#[test]
fn files_that_fail(rt: HostRuntime) -> Result<(), Fail> {
    let alloc = rt.alloc();
    let long = too_long(alloc, UP)?;
    let (long, bad) = (long.as_str(), "[");
    let rows: [(&str, &str, &[u32], &str, Status); 7] = [
        (bad, UP, &[], "bad dieline: not json\n", Status::BadInput),
        (bad, long, &[], "bad job: too long\n", Status::BadInput),
        (long, bad, &[], "bad dieline: too long\n", Status::BadInput),
        (long, long, &[], "bad dieline: too long\n", Status::BadInput),
        (bad, UP, &[0], "", Status::ReadFault),
        (bad, long, &[1], "", Status::ReadFault),
        (FLAP, UP, &[1], "", Status::ReadFault),
    ];
    for (dieline, job, failing, text, expected) in rows {
        let (status, written) = pose(alloc, dieline, job, "start", failing)?;
        assert_eq!(rt; written.as_slice(), text.as_bytes());
        assert_eq!(rt; status, expected);
    }
    Ok(())
}
