use carton_cases::wrongly_told;
use carton_text::LineError::{BadLine, Duplicate, NoEnd, Range};
use carton_text::{LineError, read_job, read_plan};
use std::alloc::{AllocError, Global};

// Texts that are no jobs, by their faults.
const JOBS: [(LineError, &[&str]); 12] = [
    (
        NoEnd,
        &[
            "",
            "\n",
            "# nothing\n\n# else",
            "carton job 1\n",
            "carton job 1\nmargin 4",
        ],
    ),
    (
        BadLine(1),
        &[
            "end\n",
            "carton job\nend\n",
            "carton job 2\nend\n",
            "carton job 2 8\nend\n",
            "carton job 2 8 1 1\nend\n",
            "carton job 1 8 1\nend\n",
            "carton job 2 08 1\nend\n",
            "carton job 3 8 1\nend\n",
            "carton job 2 12 x\nend\n",
            "carton job 2  8 1\nend\n",
            "carton job 1 \nend\n",
            "carton plan 1\nend\n",
            "\u{feff}carton job 1\nend\n",
        ],
    ),
    (
        BadLine(3),
        &[
            "# one\n\ncarton jobs 1\nend\n",
            "carton job 1\nend\nend\n",
            "carton job 1\nend\n\r",
            "carton job 1\nmargin 4\nmargin x\nroot 256\nend\n",
        ],
    ),
    (
        Range(1),
        &[
            "carton job 2 -8 1\nend\n",
            "carton job 2 8 99999999999999999999\nend\n",
            "carton job 2 12 1\nend\n",
            "carton job 2 9 1\nend\n",
            "carton job 2 8 0\nend\n",
            "carton job 2 16 5\nend\n",
        ],
    ),
    (
        BadLine(2),
        &[
            "carton job 1\ncarton job 1\nend\n",
            "carton job 1\nend\r",
            "carton job 1\nend \n",
            "carton job 1\nmargin 4\r\r\nend\n",
            "carton job 1\n \nend\n",
            "carton job 1\n # far\nend\n",
            "carton job 1\nmargin\t4\nend\n",
            "carton job 1\nmargin  4\nend\n",
            "carton job 1\n margin 4\nend\n",
            "carton job 1\nmargin 4 \nend\n",
            "carton job 1\nmargin \nend\n",
            "carton job 1\nmargin\nend\n",
            "carton job 1\nmargin 4 4\nend\n",
            "carton job 1\nmargin 4\u{0}\nend\n",
            "carton job 1\nmárgin 4\nend\n",
            "carton job 1\nMargin 4\nend\n",
            "carton job 1\nmargin +8\nend\n",
            "carton job 1\nmargin -0\nend\n",
            "carton job 1\nmargin 01\nend\n",
            "carton job 1\nmargin --1\nend\n",
            "carton job 1\nmargin -\nend\n",
            "carton job 1\nmargin 4.0\nend\n",
            "carton job 1\ntargets\nend\n",
            "carton job 1\ntargets fold 1\nend\n",
            "carton job 1\nstart 6\nend\n",
            "carton job 1\nstart 6 1 1\nend\n",
            "carton job 1\nteam\nend\n",
            "carton job 1\nteam \nend\n",
        ],
    ),
    (BadLine(5), &["carton job 1\nend\n\n# fine\nmargin 4\n"]),
    (
        Range(2),
        &[
            "carton job 1\nroot 256\nend\n",
            "carton job 1\nroot -1\nend\n",
            "carton job 1\nmargin 1001\nend\n",
            "carton job 1\nmargin 18446744073709551620\nend\n",
            "carton job 1\nmargin 100000000000000000000000000004\nend\n",
            "carton job 1\nslack 0\nend\n",
            "carton job 1\nslack 1001\nend\n",
            "carton job 1\nturns 0\nend\n",
            "carton job 1\nturns 100001\nend\n",
            "carton job 1\nstart 2048 0\nend\n",
            "carton job 1\nstart -1 0\nend\n",
            "carton job 1\ntarget 6 17\nend\n",
            "carton job 1\ntarget 6 -17\nend\n",
            "carton job 2 16 1\ntarget 6 33\nend\n",
            "carton job 2 16 1\nstart 6 -33\nend\n",
            "carton job 1\nteam 2048\nend\n",
            "carton job 1\nteam 1 1 2048\nend\n",
            "carton job 1\nteam 0 1 2 3 4 5 6 7 8 9 10 11 12 13 14 15 16 17 18 19 20 21 22 22\nend\n",
        ],
    ),
    (
        Range(14),
        &[
            "carton job 1\nteam 0\nteam 1\nteam 2\nteam 3\nteam 4\nteam 5\nteam 6\nteam 7\nteam 8\nteam 9\nteam 10\nteam 11\nteam 0\nend\n",
        ],
    ),
    (Range(3), &["carton job 1\nmargin 4\nmargin 1001\nend\n"]),
    (
        Duplicate(3),
        &[
            "carton job 1\nroot 0\nroot 0\nend\n",
            "carton job 1\nslack 1\nslack 1\nend\n",
            "carton job 1\nturns 5\nturns 6\nend\n",
            "carton job 1\ntargets fold\ntargets fold\nend\n",
            "carton job 1\ntarget 6 1\ntarget 6 1\nend\n",
            "carton job 1\nteam 1 2\nteam 3 2\nend\n",
        ],
    ),
    (
        Duplicate(4),
        &[
            "carton job 1\nmargin 4\n\nmargin 4\nend\n",
            "carton job 1\nstart 6 1\nstart 7 1\nstart 6 2\nend\n",
        ],
    ),
    (Duplicate(2), &["carton job 1\nteam 1 2 1\nend\n"]),
];

// Texts that are no plans, by their faults.
const PLANS: [(LineError, &[&str]); 9] = [
    (
        NoEnd,
        &[
            "",
            "carton plan 1",
            "carton plan 1\n",
            "carton plan 1\ncreases 6\n",
            "carton plan 1\ncreases 6\nstate 0\n",
            "carton plan 1\ncreases 6\nstate 0\nend",
            "carton plan 1\ncreases 6\nstate 0\n\r",
        ],
    ),
    (
        BadLine(1),
        &[
            "\n",
            "end\n",
            "# up\ncarton plan 1\ncreases 6\nstate 0\nend\n",
            "carton job 1\nend\n",
            "carton plan 3\ncreases 6\nstate 0\nend\n",
            "carton plan 2 8\ncreases 6\nstate 0\nend\n",
            "carton plan 1 \ncreases 6\nstate 0\nend\n",
            "\u{feff}carton plan 1\ncreases 6\nstate 0\nend\n",
            "carton plan 1\r\ncreases 6\nstate 0\nend\n",
        ],
    ),
    (
        BadLine(2),
        &[
            "carton plan 1\nend\n",
            "carton plan 1\nstate 0\nend\n",
            "carton plan 1\ncreases 6\r\nstate 0\nend\n",
            "carton plan 1\n\ncreases 6\nstate 0\nend\n",
            "carton plan 1\ncreases \nstate\nend\n",
            "carton plan 1\ncreases  6\nstate 0\nend\n",
            "carton plan 1\ncreases 6 \nstate 0\nend\n",
            "carton plan 1\ncreases x\nstate 0\nend\n",
            "carton plan 1\ncreases +6\nstate 0\nend\n",
            "carton plan 1\ncreases 06\nstate 0\nend\n",
            "carton plan 1\ncreases -0\nstate 0\nend\n",
            "carton plan 1\ncreases 6 6\nstate 0 0\nend\n",
            "carton plan 1\ncreases 7 6\nstate 0 0\nend\n",
            "carton plan 1\ncreases 6 -1\nstate 0 0\nend\n",
            "carton plan 1\ncreases 2048 x\nstate 0 0\nend\n",
            "carton plan 1\ncreases 99999999999999999999 99999999999999999998\nstate 0 0\nend\n",
            "carton plan 1\ncreases 99999999999999999999 6\nstate 0 0\nend\n",
            "carton plan 1\ncreases -99999999999999999998 -99999999999999999999\nstate 0 0\nend\n",
            "carton plan 1\ncreases 23 22 21 20 19 18 17 16 15 14 13 12 11 10 9 8 7 6 5 4 3 2 1 0\n",
        ],
    ),
    (
        BadLine(3),
        &[
            "carton plan 1\ncreases 6\nend\n",
            "carton plan 1\ncreases 6\nstate x\nrest",
            "carton plan 1\ncreases 6\nstate 0\r\nend\n",
            "carton plan 1\ncreases 6\n\nstate 0\nend\n",
            "carton plan 1\ncreases 6\n# flat\nstate 0\nend\n",
            "carton plan 1\ncreases 6\n state 0\nend\n",
            "carton plan 1\ncreases 6\nstate  0\nend\n",
            "carton plan 1\ncreases 6\nstate 0 \nend\n",
            "carton plan 1\ncreases 6\nstate\t0\nend\n",
            "carton plan 1\ncreases 6\nState 0\nend\n",
            "carton plan 1\ncreases 6\nstate 0\u{0}\nend\n",
            "carton plan 1\ncreases 6\nstate +8\nend\n",
            "carton plan 1\ncreases 6\nstate 08\nend\n",
            "carton plan 1\ncreases 6\nstate -0\nend\n",
            "carton plan 1\ncreases 6\nstate -\nend\n",
            "carton plan 1\ncreases 6\nstate 8.0\nend\n",
            "carton plan 1\ncreases 6\nstate\nend\n",
            "carton plan 1\ncreases 6\nstate 0 0\nend\n",
            "carton plan 1\ncreases 6 7\nstate 0\nend\n",
            "carton plan 1\ncreases\nstate 0\nend\n",
            "carton plan 1\ncreases\nstate \nend\n",
            "carton plan 1\ncreases 6 7\nstate 17\nend\n",
            "carton plan 1\ncreases 6 7\nstate 17 x\nend\n",
        ],
    ),
    (
        BadLine(4),
        &[
            "carton plan 1\ncreases 6\nstate 0\ncreases 6\nend\n",
            "carton plan 1\ncreases 6\nstate 0\nend \n",
            "carton plan 1\ncreases 6\nstate 0\nend\r\n",
            "carton plan 1\ncreases 6\nstate 0\n\nend\n",
        ],
    ),
    (
        BadLine(5),
        &[
            "carton plan 1\ncreases 6\nstate 0\nend\nend\n",
            "carton plan 1\ncreases 6\nstate 0\nend\nstate 0\n",
            "carton plan 1\ncreases 6\nstate 0\nend\n\n",
            "carton plan 1\ncreases 6\nstate 0\nend\n#\n",
            "carton plan 1\ncreases 6\nstate 0\nend\nx",
        ],
    ),
    (
        Range(3),
        &[
            "carton plan 1\ncreases 6\nstate 17\nrest",
            "carton plan 1\ncreases 6\nstate 17\nend\n",
            "carton plan 1\ncreases 6\nstate -17\nend\n",
            "carton plan 1\ncreases 6\nstate 99999999999999999999\nend\n",
            "carton plan 2\ncreases 6\nstate 33\nend\n",
            "carton plan 2\ncreases 6\nstate -33\nend\n",
        ],
    ),
    (
        Range(2),
        &[
            "carton plan 1\ncreases 2048\nstate x\nend\n",
            "carton plan 1\ncreases -1\nstate 0\nend\n",
            "carton plan 1\ncreases -1 0\nstate 0 0\nend\n",
            "carton plan 1\ncreases 2048\nstate 0\nend\n",
            "carton plan 1\ncreases 6 2048\nstate 0 0\nend\n",
            "carton plan 1\ncreases 99999999999999999998 99999999999999999999\nstate 0 0\nend\n",
            "carton plan 1\ncreases 99999999999999999999 100000000000000000000\nstate 0 0\nend\n",
            "carton plan 1\ncreases -99999999999999999999 -99999999999999999998\nstate 0 0\nend\n",
            "carton plan 1\ncreases 0 1 2 3 4 5 6 7 8 9 10 11 12 13 14 15 16 17 18 19 20 21 22 23\n",
        ],
    ),
    (
        Range(4),
        &["carton plan 1\ncreases 6\nstate 0\nstate 32\nend\n"],
    ),
];

fn job_fault(alloc: Global, text: &str) -> Option<LineError> {
    read_job(alloc, text.as_bytes()).err()
}

fn plan_fault(alloc: Global, text: &str) -> Option<LineError> {
    read_plan(alloc, text.as_bytes()).err()
}

#[test]
fn texts_that_are_refused(rt: HostRuntime) {
    let alloc = rt.alloc();
    assert_eq!(rt; wrongly_told(alloc, job_fault, &JOBS), None);
    assert_eq!(rt; wrongly_told(alloc, plan_fault, &PLANS), None);
}

// A plan without creases that has so many states, and then the last lines.
fn long_plan(alloc: Global, states: u32, last: &str) -> Result<String, AllocError> {
    let mut text = String::from_str(alloc, "carton plan 1\ncreases\n")?;
    for _ in 0..states {
        text.push_str("state\n")?;
    }
    text.push_str(last)?;
    Ok(text)
}

#[test]
fn numbers_of_states(rt: HostRuntime) -> Result<(), AllocError> {
    let alloc = rt.alloc();
    let most = long_plan(alloc, 4096, "end\n")?;
    assert!(rt; read_plan(alloc, most.as_bytes()).is_ok());
    let more = long_plan(alloc, 4096, "state\nend\n")?;
    assert!(rt; read_plan(alloc, more.as_bytes()) == Err(Range(4099)));
    let bad = long_plan(alloc, 4096, "state 0\nend\n")?;
    assert!(rt; read_plan(alloc, bad.as_bytes()) == Err(BadLine(4099)));
    Ok(())
}
