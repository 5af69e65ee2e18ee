use crate::moves::motion;
use carton_base::PanelId;
use carton_cases::carton_of;
use carton_cases::dielines::BARE_TRAY;
use carton_fix::Fix;
use carton_part::{Counted, Parting, part_counted, part_over};
use std::alloc::Global;

// A flap on each side of a narrow panel.
const VEE: &str =
    r#"{"vertices_coords":[[0,0],[100,0],[112,0],[212,0],[0,100],[100,100],[112,100],[212,100]],"edges_vertices":[[0,1],[1,2],[2,3],[4,5],[5,6],[6,7],[0,4],[1,5],[2,6],[3,7]],"faces_vertices":[[0,1,5,4],[1,2,6,5],[2,3,7,6]]}"#;

// Panel 1 hangs from the root by an upright crease, and from it a chain of three panels by level
// ones. At the stops 1, 9 and 3 of sixteen the last panel lies, with margin 4, beyond the root along
// y by 175 cos a + 86 cos b + 4 (1 + cos c), where a, b and c are the sums of the folds. That is
// 213 + 2/22951385, however the upright crease is folded.
const ABOVE: &str =
    r#"{"vertices_coords":[[0,0],[400,0],[700,0],[0,300],[400,300],[700,300],[400,475],[700,475],[400,561],[700,561],[400,621],[700,621]],"edges_vertices":[[1,4],[4,5],[6,7],[8,9],[0,1],[1,2],[2,5],[3,4],[3,0],[4,6],[5,7],[6,8],[7,9],[8,10],[9,11],[10,11]],"faces_vertices":[[0,1,4,3],[1,2,5,4],[4,5,7,6],[6,7,9,8],[8,9,11,10]]}"#;

// The same with other panels: 145 cos a + 96 cos b + 2 (1 + cos c) at the stops -1, 13 and -15, with
// margin 2, is 179 - 4/52537225.
const BELOW: &str =
    r#"{"vertices_coords":[[0,0],[400,0],[700,0],[0,300],[400,300],[700,300],[400,445],[700,445],[400,541],[700,541],[400,601],[700,601]],"edges_vertices":[[1,4],[4,5],[6,7],[8,9],[0,1],[1,2],[2,5],[3,4],[3,0],[4,6],[5,7],[6,8],[7,9],[8,10],[9,11],[10,11]],"faces_vertices":[[0,1,4,3],[1,2,5,4],[4,5,7,6],[6,7,9,8],[8,9,11,10]]}"#;

// A long flap on one side of the root, and a still longer one on the other.
const LONG: &str =
    r#"{"vertices_coords":[[-2195,0],[0,0],[3202,0],[8102,0],[-2195,100],[0,100],[3202,100],[8102,100]],"edges_vertices":[[1,5],[2,6],[0,1],[1,2],[2,3],[3,7],[7,6],[6,5],[5,4],[4,0]],"faces_vertices":[[0,1,5,4],[1,2,6,5],[2,3,7,6]]}"#;

// A carton by its dieline, margin and root; the grid; and the stops of the first four joints before and
// after a move.
type Setup = (&'static str, u16, u8, u8, [i8; 4], [i8; 4]);

const LAST_MOVE: Setup = (BARE_TRAY, 4, 0, 8, [7; 4], [8; 4]);

const TILTED: Setup = (VEE, 1, 1, 8, [12, 4, 0, 0], [12, 4, 0, 0]);

const JUST_ABOVE: Setup = (ABOVE, 4, 0, 16, [22, 1, 9, 3], [26, 1, 9, 3]);

const JUST_BELOW: Setup = (BELOW, 2, 0, 16, [22, -1, 13, -15], [26, -1, 13, -15]);

// The right flap leans over the root, with sine 4/5, and the left one swings by below it.
const SWINGING: Setup = (LONG, 4, 1, 8, [10, 12, 0, 0], [14, 12, 0, 0]);

// What is told of two panels with slack 1, where both calls tell the same.
fn counted(alloc: Global, setup: &Setup, a: u8, b: u8, gap: i64) -> Option<Counted> {
    let (text, margin, root, grid, from, to) = *setup;
    if margin > 1000 || gap < 0 || gap > 9999 {
        return None;
    }
    let carton = carton_of(alloc, text, margin, root)?;
    let motion = motion(grid, from, to)?;
    if a >= carton.panels() || b >= carton.panels() {
        return None;
    }
    let (a, b) = (PanelId(a), PanelId(b));
    let counted = part_counted::<Fix>(&carton, &motion, a, b, gap, 1);
    let parting = part_over::<Fix>(&carton, &motion, a, b, gap, 1);
    if counted.parting == parting {
        Some(counted)
    } else {
        None
    }
}

fn is_parted(told: Option<Counted>) -> bool {
    told.is_some_and(|told| told.parting == Parting::Parted)
}

fn is_undecided(told: Option<Counted>) -> bool {
    match told {
        Some(
            Counted {
                parting: Parting::Undecided(moment),
                ..
            },
        ) => moment.den.unsigned_abs().is_power_of_two(),
        _ => false,
    }
}

#[test]
fn raised_flaps_are_parted_by_less_than_eight(rt: HostRuntime) {
    let alloc = rt.alloc();
    assert!(rt; is_parted(counted(alloc, &LAST_MOVE, 1, 2, 7)));
    assert!(rt; is_undecided(counted(alloc, &LAST_MOVE, 1, 2, 8)));
    assert!(rt; is_undecided(counted(alloc, &LAST_MOVE, 1, 2, 9)));
}

#[test]
fn tilted_flaps_are_parted_in_their_own_frames(rt: HostRuntime) {
    let alloc = rt.alloc();
    assert!(rt; is_parted(counted(alloc, &TILTED, 0, 2, 9)));
    assert!(rt; is_undecided(counted(alloc, &TILTED, 0, 2, 10)));
}

#[test]
fn gaps_next_to_whole_ones_are_told_soon(rt: HostRuntime) {
    let alloc = rt.alloc();
    let above = counted(alloc, &JUST_ABOVE, 0, 4, 213);
    assert!(rt; above.is_some_and(|told| told.pieces < 20_000));
    let below = counted(alloc, &JUST_BELOW, 0, 4, 179);
    assert!(rt; is_undecided(below));
    assert!(rt; below.is_some_and(|told| told.pieces < 20_000));
}

// The left flap's end comes as near as 4/5 * 3202 - 2191 = 370.6 to the right flap's plane, at a moment
// between.
#[test]
fn a_long_flap_that_swings_by_is_told_soon(rt: HostRuntime) {
    let alloc = rt.alloc();
    let below = counted(alloc, &SWINGING, 0, 2, 370);
    assert!(rt; is_parted(below));
    assert!(rt; below.is_some_and(|told| told.pieces < 20_000));
    assert!(rt; is_undecided(counted(alloc, &SWINGING, 0, 2, 371)));
}
