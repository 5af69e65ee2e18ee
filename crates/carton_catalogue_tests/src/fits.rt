use carton_cases::dielines::{FLAP, LOCKED_FLAP};
use carton_cases::{case_of, catalogues, jobs, plan_of, plans, wrongly_told};
use carton_catalogue::FitError::{BadWindow, BandTooWide, NotAJoint, OtherCreases, ProbeOutside};
use carton_catalogue::{FitError, fit_catalogue, read_catalogue};
use std::alloc::Global;

fn fit(alloc: Global, fold: &str, plan: &str, catalogue: &str) -> Option<Result<(), FitError>> {
    let case = case_of(alloc, fold, jobs::STAY)?;
    let plan = plan_of(alloc, plan)?;
    let Ok(catalogue) = read_catalogue(alloc, catalogue.as_bytes()) else {
        return None;
    };
    Some(fit_catalogue(&case.carton, &case.task, &plan, &catalogue))
}

// Catalogues that fit the flap that rises.
const FITTING: [&str; 3] = [
    catalogues::RAILS,
    "carton catalogue 1\nguide 6 0 7 8 196 96 104 4\nend\n",
    "carton catalogue 1\nguide 6 6 6 9 190 50\nend\n",
];

// Catalogues that don't, by what is told of them.
const REFUSED: [(FitError, &[&str]); 6] = [
    (
        NotAJoint(0),
        &[
            "carton catalogue 1\nguide 5 4 3 16 0 0\nend\n",
            "carton catalogue 1\nguide 2047 3 3 2 190 50\nend\n",
        ],
    ),
    (
        BadWindow(0),
        &[
            "carton catalogue 1\nguide 6 4 3 16 0 0\nend\n",
            "carton catalogue 1\nguide 6 0 8 1 190 50\nend\n",
        ],
    ),
    (
        BandTooWide(0),
        &[
            "carton catalogue 1\nguide 6 7 7 9 190 50\nend\n",
            "carton catalogue 1\nguide 6 0 0 16 0 0\nend\n",
        ],
    ),
    (
        ProbeOutside(0, 1),
        &["carton catalogue 1\nguide 6 3 3 2 190 50 197 50 150 3\nend\n"],
    ),
    (
        ProbeOutside(0, 0),
        &["carton catalogue 1\nguide 6 3 3 2 50 50\nend\n"],
    ),
    (
        ProbeOutside(1, 0),
        &[
            "carton catalogue 1\nguide 6 3 3 2 190 50\nguide 6 3 3 2 190 97\nguide 5 3 3 2 190 50\nend\n",
        ],
    ),
];

fn refusal(alloc: Global, catalogue: &str) -> Option<FitError> {
    fit(alloc, FLAP, plans::UP, catalogue)?.err()
}

#[test]
fn guides_of_a_flap(rt: HostRuntime) {
    for catalogue in FITTING {
        let found = fit(rt.alloc(), FLAP, plans::UP, catalogue);
        assert!(rt; found == Some(Ok(())), "at {catalogue}");
    }
    assert_eq!(rt; wrongly_told(rt.alloc(), refusal, &REFUSED), None);
}

#[test]
fn other_plans(rt: HostRuntime) {
    let fine = "carton catalogue 1\nguide 6 0 0 7 190 50\nend\n";
    let wide = "carton catalogue 1\nguide 6 0 0 8 190 50\nend\n";
    let under = "carton plan 1\ncreases 6\nstate -10\nstate -9\nend\n";
    let finer = "carton plan 2\ncreases 6\nstate 16\nstate 17\nend\n";
    let cases = [
        (finer, fine, Ok(())),
        (finer, wide, Err(BandTooWide(0))),
        (under, fine, Err(BandTooWide(0))),
        (
            under,
            "carton catalogue 1\nguide 6 0 0 6 190 50\nend\n",
            Ok(()),
        ),
        (
            "carton plan 1\ncreases 6\nstate 0\nend\n",
            fine,
            Err(BadWindow(0)),
        ),
        (
            "carton plan 1\ncreases 5\nstate 0\nstate 1\nend\n",
            "carton catalogue 1\nguide 5 4 3 16 0 0\nend\n",
            Err(OtherCreases),
        ),
        (plans::BARE, fine, Err(OtherCreases)),
    ];
    for (plan, catalogue, answer) in &cases {
        let found = fit(rt.alloc(), FLAP, plan, catalogue);
        assert!(rt; found == Some(*answer), "at {plan}{catalogue}");
    }
}

#[test]
fn a_locked_crease(rt: HostRuntime) {
    let still = "carton plan 1\ncreases\nstate\nstate\nend\n";
    let found = fit(
        rt.alloc(),
        LOCKED_FLAP,
        still,
        "carton catalogue 1\nguide 6 0 0 1 190 50\nend\n",
    );
    assert!(rt; found == Some(Err(NotAJoint(0))));
}
