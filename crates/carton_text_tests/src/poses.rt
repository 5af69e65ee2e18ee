ghost use Rattle.std.specs.Prelude.{◌≤◌, unsigned_abs};

use carton_base::State;
use carton_cases::dielines::FLAP;
use carton_cases::{carton_of, tells_place};
use carton_text::{after, pose_text};
use std::alloc::Global;

// The pose of the flap from a root, with its joint at a stop of eight.
fn pose(alloc: Global, root: u8, stop: i8) -> Option<Vec<u8>>
    requires { unsigned_abs stop ≤ 16 }
{
    let carton = carton_of(alloc, FLAP, 4, root)?;
    if carton.creases().len() != 1 {
        return None;
    }
    let mut stops = [0; 24];
    stops[0] = stop;
    pose_text(alloc, &carton, &State { stops, grid: 8 }).ok()
}

// Whether the first line of the text that begins so tells this place.
fn tells(alloc: Global, text: &[u8], front: &str, place: [i64; 3]) -> bool {
    let mut lines = text.split(|byte| *byte == b'\n');
    let Some(rest) = lines.find_map(|line| after(front.as_bytes(), line)) else {
        return false;
    };
    tells_place(alloc, rest, place).is_ok_and(|is| is)
}

#[test]
fn poses_of_a_flap(rt: HostRuntime) {
    let alloc = rt.alloc();
    let Some(raised) = pose(alloc, 0, 4) else {
        panic!(rt; "a pose");
    };
    assert!(rt; tells(alloc, &raised, "panel 0 corner 3 ", [0, 100_000, 0]));
    assert!(rt; tells(alloc, &raised, "panel 1 corner 1 ", [160_000, 0, 80_000]));
    assert!(rt; raised.iter().filter(|byte| **byte == b'\n').count() == 8);
    assert!(rt; raised.last() == Some(&b'\n'));

    let Some(lowered) = pose(alloc, 1, -4) else {
        panic!(rt; "a pose");
    };
    assert!(rt; tells(alloc, &lowered, "panel 0 corner 0 ", [40_000, 0, -80_000]));
    assert!(rt; tells(alloc, &lowered, "panel 1 corner 1 ", [200_000, 0, 0]));
}
