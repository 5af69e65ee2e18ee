use carton_cases::wrongly_told;
use carton_catalogue::CatalogueError::{Line, NoGuide};
use carton_catalogue::{CatalogueError, read_catalogue};
use carton_text::LineError;
use carton_text::LineError::{BadLine, Duplicate, NoEnd, Range};
use std::alloc::Global;

// Texts that are no catalogues, by what is told of their lines.
const CATALOGUES: [(LineError, &[&str]); 9] = [
    (
        NoEnd,
        &[
            "",
            "# nothing\n\n# else",
            "carton catalogue 1\n",
            "carton catalogue 1\nguide 6 3 3 2 190 50\n# end\n",
        ],
    ),
    (
        BadLine(1),
        &[
            "end\n",
            "carton catalogue\nend\n",
            "carton catalogue 1 \nend\n",
            "carton job 1\nend\n",
            "\u{feff}carton catalogue 1\nend\n",
        ],
    ),
    (
        BadLine(3),
        &[
            "# one\n\ncarton catalogue 2\nend\n",
            "carton catalogue 1\nend\nend\n",
            "carton catalogue 1\nstroke 0 0 1\nstroke 0 0\nend\n",
        ],
    ),
    (
        BadLine(2),
        &[
            "carton catalogue 1\ncarton catalogue 1\nend\n",
            "carton catalogue 1\nend\r",
            "carton catalogue 1\n \nend\n",
            "carton catalogue 1\nstroke\nend\n",
            "carton catalogue 1\nstroke 0 0\nend\n",
            "carton catalogue 1\nstroke 0 0 0 0\nend\n",
            "carton catalogue 1\nstroke 0 0 x\nend\n",
            "carton catalogue 1\nstroke 0 0 -0\nend\n",
            "carton catalogue 1\nStroke 0 0 0\nend\n",
            "carton catalogue 1\nstroke 0  0 0\nend\n",
            "carton catalogue 1\nstroke 100001 0\nend\n",
            "carton catalogue 1\nbody 0 1 0 1 0\nend\n",
            "carton catalogue 1\nbody 0 1 0 1 0 1 2\nend\n",
            "carton catalogue 1\nbody 5 5 0 1 0\nend\n",
            "carton catalogue 1\nrow 2 1 0 0 0 5 0 5 0\nend\n",
            "carton catalogue 1\nrow 2 1 0 0 0 5 0 5 0 5 0\nend\n",
            "carton catalogue 1\nrow\nend\n",
            "carton catalogue 1\nguide\nend\n",
            "carton catalogue 1\nguide 6 3 3\nend\n",
            "carton catalogue 1\nguide 6 3 3 2\nend\n",
            "carton catalogue 1\nguide 6 3 3 2 190\nend\n",
            "carton catalogue 1\nguide 2048 3 3 2 190\nend\n",
            "carton catalogue 1\nguide 6 3 3 2 1 2 3 4 5 6 7 8 9 10 11 12 13 14 15 16 17\nend\n",
            "carton catalogue 1\nguides 6 3 3 2 190 50\nend\n",
            "carton catalogue 1\nwedge 1 0 0 5\nend\n",
        ],
    ),
    (
        BadLine(4),
        &["carton catalogue 1\nend\n\nguide 6 3 3 2 190 50\n"],
    ),
    (
        Range(2),
        &[
            "carton catalogue 1\nstroke 0 0 100001\nend\n",
            "carton catalogue 1\nstroke -100001 0 0\nend\n",
            "carton catalogue 1\nstroke 0 99999999999999999999 0\nend\n",
            "carton catalogue 1\nbody 5 5 0 1 0 1\nend\n",
            "carton catalogue 1\nbody 0 1 5 4 0 1\nend\n",
            "carton catalogue 1\nbody 0 1 0 1 1 1\nend\n",
            "carton catalogue 1\nbody 0 100001 0 1 0 1\nend\n",
            "carton catalogue 1\nbody 0 1 0 1 -100001 1\nend\n",
            "carton catalogue 1\nrow 0 1 0 0 0 5 0 5 0 5\nend\n",
            "carton catalogue 1\nrow 257 1 0 0 0 5 0 5 0 5\nend\n",
            "carton catalogue 1\nrow 2 1 0 0 0 5 5 5 0 5\nend\n",
            "carton catalogue 1\nrow 1 100001 0 0 0 5 0 5 0 5\nend\n",
            "carton catalogue 1\nrow 2 0 -1 0 0 5 -100000 5 0 5\nend\n",
            "carton catalogue 1\nguide 6 3 3 2 1 2 3 4 5 6 7 8 9 10 11 12 13 14 15 16 17 18\nend\n",
            "carton catalogue 1\nguide 2048 3 3 2 190 50\nend\n",
            "carton catalogue 1\nguide -3 3 3 2 190 50\nend\n",
            "carton catalogue 1\nguide 6 4095 3 2 190 50\nend\n",
            "carton catalogue 1\nguide 6 3 4095 2 190 50\nend\n",
            "carton catalogue 1\nguide 6 3 3 0 190 50\nend\n",
            "carton catalogue 1\nguide 6 3 3 17 190 50\nend\n",
            "carton catalogue 1\nguide 6 3 3 2 8192 50\nend\n",
            "carton catalogue 1\nguide 6 3 3 2 190 -8192\nend\n",
        ],
    ),
    (
        Duplicate(3),
        &["carton catalogue 1\nstroke 0 0 0\nstroke 0 0 0\nend\n"],
    ),
    (
        Range(3),
        &[
            "carton catalogue 1\nstroke 0 0 1\nstroke 0 0 100001\nend\n",
            "carton catalogue 1\nrow 256 1 0 0 0 5 0 5 0 5\nbody 0 1 0 1 0 1\nend\n",
            "carton catalogue 1\nrow 200 1 0 0 0 5 0 5 0 5\nrow 57 1 0 0 0 5 0 5 0 5\nend\n",
        ],
    ),
    (
        Range(18),
        &[
            "carton catalogue 1\nguide 6 0 0 1 1 1\nguide 6 0 0 1 1 1\nguide 6 0 0 1 1 1\nguide 6 0 0 1 1 1\nguide 6 0 0 1 1 1\nguide 6 0 0 1 1 1\nguide 6 0 0 1 1 1\nguide 6 0 0 1 1 1\nguide 6 0 0 1 1 1\nguide 6 0 0 1 1 1\nguide 6 0 0 1 1 1\nguide 6 0 0 1 1 1\nguide 6 0 0 1 1 1\nguide 6 0 0 1 1 1\nguide 6 0 0 1 1 1\nguide 6 0 0 1 1 1\nguide 6 0 0 1 1 1\nend\n",
        ],
    ),
];

// Texts of which each line may stand, and which have no guide.
const WITHOUT_A_GUIDE: [&str; 3] = [
    "carton catalogue 1\nend",
    "carton catalogue 1\nbody 0 1 0 1 0 1\nend\n\n",
    "carton catalogue 1\nrow 1 0 -1 0 0 5 -100000 5 0 5\nend\n",
];

fn fault(alloc: Global, text: &str) -> Option<CatalogueError> {
    read_catalogue(alloc, text.as_bytes()).err()
}

fn fault_of_lines(alloc: Global, text: &str) -> Option<LineError> {
    match fault(alloc, text) {
        Some(Line(fault)) => Some(fault),
        _ => None,
    }
}

#[test]
fn texts_that_are_refused(rt: HostRuntime) {
    let alloc = rt.alloc();
    assert_eq!(rt; wrongly_told(alloc, fault_of_lines, &CATALOGUES), None);
    assert_eq!(rt;
        wrongly_told(alloc, fault, &[(NoGuide, &WITHOUT_A_GUIDE)]),
        None
    );
}
