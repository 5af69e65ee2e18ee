use carton_base::Listed;
use carton_cases::bodies::{LOWER_RAIL, UPPER_RAIL};
use carton_cases::fixtures::RAILS;
use carton_cases::wrongly_told;
use carton_fixture_text::{Fixture, FixtureBody, read_fixture, write_fixture};
use carton_text::LineError;
use carton_text::LineError::{BadLine, NoEnd, Range};
use std::alloc::{AllocError, Global};

const BARE: &str = "carton fixture 1\nstroke 0 0 0\nend\n";

#[test]
fn the_rails_are_read(rt: HostRuntime) -> Result<(), AllocError> {
    let mut bodies = Listed::new(rt.alloc());
    bodies.push(FixtureBody {
        id: 0,
        shape: LOWER_RAIL,
    })?;
    bodies.push(FixtureBody {
        id: 1,
        shape: UPPER_RAIL,
    })?;
    let wanted = Fixture {
        stroke: [0, -200, 0],
        bodies,
    };
    assert!(rt; read_fixture(rt.alloc(), RAILS.as_bytes()) == Ok(wanted));
    Ok(())
}

#[test]
fn a_fixture_without_bodies(rt: HostRuntime) {
    let wanted = Fixture {
        stroke: [0, 0, 0],
        bodies: Listed::new(rt.alloc()),
    };
    assert!(rt; read_fixture(rt.alloc(), BARE.as_bytes()) == Ok(wanted));
}

fn is_written_back(alloc: Global, text: &str) -> Option<bool> {
    let Ok(fixture) = read_fixture(alloc, text.as_bytes()) else {
        return None;
    };
    let Ok(written) = write_fixture(alloc, &fixture) else {
        return None;
    };
    Some(written.as_slice() == text.as_bytes())
}

fn fault(alloc: Global, text: &str) -> Option<LineError> {
    read_fixture(alloc, text.as_bytes()).err()
}

// What is told of a fixture whose third line is a body of number 7, and whose fourth is this one; None
// too where there is no room for its text.
fn fault_of_body(alloc: Global, line: &str) -> Option<LineError> {
    let Ok(text) = format!(in alloc;
        "carton fixture 1\nstroke 0 0 0\nbody 7 0 1 0 1 0 1\n{line}\nend\n"
    ) else {
        return None;
    };
    fault(alloc, text.as_str())
}

// Texts that are written as they are read.
const WRITTEN: [&str; 3] = [
    RAILS,
    BARE,
    "carton fixture 1\nstroke 100000 -100000 -1\nbody 255 -100000 100000 -1 0 0 1\nend\n",
];

// Texts that are no fixtures, by their faults.
const FIXTURES: [(LineError, &[&str]); 6] = [
    (
        NoEnd,
        &[
            "",
            "carton fixture 1",
            "carton fixture 1\n",
            "carton fixture 1\nstroke 0 0 0\n",
            "carton fixture 1\nstroke 0 0 0\nend",
            "carton fixture 1\nstroke 0 0 0\n\r",
        ],
    ),
    (
        BadLine(1),
        &[
            "\n",
            "end\n",
            "# rails\ncarton fixture 1\nstroke 0 0 0\nend\n",
            "carton catalogue 1\nend\n",
            "carton fixture 2\nstroke 0 0 0\nend\n",
            "carton fixture 1 \nstroke 0 0 0\nend\n",
            "carton fixture 1\r\nstroke 0 0 0\nend\n",
        ],
    ),
    (
        BadLine(2),
        &[
            "carton fixture 1\n\nstroke 0 0 0\nend\n",
            "carton fixture 1\nend\n",
            "carton fixture 1\nbody 0 0 1 0 1 0 1\nend\n",
            "carton fixture 1\nstroke 0 0 x\nrest",
            "carton fixture 1\nstroke\nend\n",
            "carton fixture 1\nstroke 0 0\nend\n",
            "carton fixture 1\nstroke 0 0 0 0\nend\n",
            "carton fixture 1\nstroke 0 0 -0\nend\n",
            "carton fixture 1\nstroke 0  0 0\nend\n",
            "carton fixture 1\nstroke 0 +1 0\nend\n",
        ],
    ),
    (
        BadLine(3),
        &[
            "carton fixture 1\nstroke 0 0 0\nstroke 0 0 0\nend\n",
            "carton fixture 1\nstroke 0 0 0\nend \n",
        ],
    ),
    (
        BadLine(4),
        &[
            "carton fixture 1\nstroke 0 0 0\nend\nend\n",
            "carton fixture 1\nstroke 0 0 0\nend\n\n",
            "carton fixture 1\nstroke 0 0 0\nend\nx",
        ],
    ),
    (
        Range(2),
        &[
            "carton fixture 1\nstroke 0 0 100001\nrest",
            "carton fixture 1\nstroke -100001 0 0\nend\n",
            "carton fixture 1\nstroke 0 99999999999999999999 0\nend\n",
        ],
    ),
];

// Lines that are no second bodies, by their faults.
const BODIES: [(LineError, &[&str]); 2] = [
    (
        BadLine(4),
        &[
            "body",
            "body 8",
            "body 8 0 1 0 1 0",
            "body 8 0 1 0 1 0 1 2",
            "body 8 0 1 0 1 0 1 ",
            "body 08 0 1 0 1 0 1",
            "box 8 0 1 0 1 0 1",
            "body 7 0 1 0 1 0 1",
            "body 6 0 1 0 1 0 1",
            "body -8 0 1 0 1 0 1",
            "body 7 1 1 0 1 0 1",
        ],
    ),
    (
        Range(4),
        &[
            "body 256 0 1 0 1 0 1",
            "body 99999999999999999999 0 1 0 1 0 1",
            "body 8 1 1 0 1 0 1",
            "body 8 2 1 0 1 0 1",
            "body 8 0 1 5 5 0 1",
            "body 8 0 1 0 1 3 -3",
            "body 8 -100001 1 0 1 0 1",
            "body 8 0 1 0 100001 0 1",
        ],
    ),
];

#[test]
fn texts_that_are_refused(rt: HostRuntime) {
    assert_eq!(rt; wrongly_told(rt.alloc(), fault, &FIXTURES), None);
    assert_eq!(rt; wrongly_told(rt.alloc(), fault_of_body, &BODIES), None);
}

#[test]
fn fixtures_are_written_as_they_are_read(rt: HostRuntime) {
    let other = wrongly_told(rt.alloc(), is_written_back, &[(true, &WRITTEN)]);
    assert_eq!(rt; other, None);
}
