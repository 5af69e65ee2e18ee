use crate::counting::CountingJudge;
use carton_base::PanelId;
use carton_cases::dielines::TRAY;
use carton_cases::{case_of, jobs};
use carton_judge::{GeometryJudge, RangeJudge};
use carton_search::{SearchEnd, search};
use std::alloc::Global;

// What judges the moves of a search.
#[derive(Clone, Copy)]
enum Judging {
    // All pairs, each time.
    Anew,
    // The pairs that are open between the start and the target.
    InRange,
    // Those that are open in the start, so that every move leaves the range.
    PastRange,
}

// How a search ends, and how many moves its judge was asked of, where that was counted.
#[derive(Drop)]
struct Outcome {
    end: SearchEnd,
    moves: u32,
}

fn uncounted(end: SearchEnd) -> Outcome {
    Outcome { end, moves: 0 }
}

// How the search for the job on the tray ends.
fn searched(alloc: Global, job: &str, judging: Judging) -> Option<Outcome> {
    let case = case_of(alloc, TRAY, job)?;
    let (carton, task) = (&case.carton, &case.task);
    let start = &task.start;
    match judging {
        Judging::Anew => {
            let mut judge = CountingJudge {
                inner: GeometryJudge {
                    carton,
                    slack: task.slack,
                },
                moves: 0,
            };
            let end = search(alloc, task, &mut judge);
            Some(Outcome {
                end,
                moves: judge.moves,
            })
        }
        Judging::InRange => {
            let mut judge = RangeJudge::over(carton, task.slack, start, &task.target);
            Some(uncounted(search(alloc, task, &mut judge)))
        }
        Judging::PastRange => {
            let mut judge = RangeJudge::over(carton, task.slack, start, start);
            Some(uncounted(search(alloc, task, &mut judge)))
        }
    }
}

fn end(alloc: Global, job: &str, judging: Judging) -> Option<SearchEnd> {
    let searched = searched(alloc, job, judging)?;
    Some(searched.end)
}

#[test]
fn flaps_that_rise_together_take_eight_moves(rt: HostRuntime) {
    match end(rt.alloc(), jobs::TOGETHER, Judging::Anew) {
        Some(SearchEnd::Found(plan)) => assert_eq!(rt; plan.states.len(), 9),
        _ => panic!(rt; "no plan"),
    }
}

#[test]
fn flaps_that_would_lie_over_each_other_have_no_path(rt: HostRuntime) {
    match end(rt.alloc(), jobs::OVER_EACH_OTHER, Judging::Anew) {
        Some(SearchEnd::NoPath) => {}
        _ => panic!(rt; "another end"),
    }
}

#[test]
fn flaps_in_one_place_block_the_start(rt: HostRuntime) {
    match end(rt.alloc(), jobs::IN_ONE_PLACE, Judging::Anew) {
        Some(
            SearchEnd::StartBlocked {
                a: PanelId(2),
                b: PanelId(4),
            },
        ) => {}
        _ => panic!(rt; "not blocked"),
    }
}

#[test]
fn judges_of_ranges_find_as_short_a_plan(rt: HostRuntime) {
    for judging in [Judging::InRange, Judging::PastRange] {
        match end(rt.alloc(), jobs::TOGETHER, judging) {
            Some(SearchEnd::Found(plan)) => assert_eq!(rt; plan.states.len(), 9),
            _ => panic!(rt; "no plan"),
        }
    }
}

#[test]
fn judges_of_ranges_see_flaps_that_would_lie_over_each_other(rt: HostRuntime) {
    for judging in [Judging::InRange, Judging::PastRange] {
        match end(rt.alloc(), jobs::OVER_EACH_OTHER, judging) {
            Some(SearchEnd::NoPath) => {}
            _ => panic!(rt; "another end"),
        }
    }
}

#[test]
fn flaps_that_rise_one_by_one_are_planned_with_few_questions(rt: HostRuntime) {
    let job = "carton job 1\nmargin 4\ntarget 0 3\ntarget 1 3\ntarget 2 3\ntarget 3 3\nend\n";
    let Some(searched) = searched(rt.alloc(), job, Judging::Anew) else {
        panic!(rt; "no search");
    };
    assert!(rt; searched.moves <= 200);
    match searched.end {
        SearchEnd::Found(plan) => assert_eq!(rt; plan.states.len(), 13),
        _ => panic!(rt; "no plan"),
    }
}
