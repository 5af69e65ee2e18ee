use crate::moves::motion;
use carton_base::{PanelId, Piece};
use carton_cases::carton_of;
use carton_fix::Fix;
use carton_reach::{Reaches, are_apart, are_near, reaches};
use carton_tree::Carton;
use std::alloc::Global;

// Ten squares of 100 in a row, each joined to the next.
const ROW: &str =
    r#"{"vertices_coords":[[0,0],[0,100],[100,0],[100,100],[200,0],[200,100],[300,0],[300,100],[400,0],[400,100],[500,0],[500,100],[600,0],[600,100],[700,0],[700,100],[800,0],[800,100],[900,0],[900,100],[1000,0],[1000,100]],"edges_vertices":[[0,1],[2,3],[4,5],[6,7],[8,9],[10,11],[12,13],[14,15],[16,17],[18,19],[20,21],[0,2],[1,3],[2,4],[3,5],[4,6],[5,7],[6,8],[7,9],[8,10],[9,11],[10,12],[11,13],[12,14],[13,15],[14,16],[15,17],[16,18],[17,19],[18,20],[19,21]],"faces_vertices":[[0,2,3,1],[2,4,5,3],[4,6,7,5],[6,8,9,7],[8,10,11,9],[10,12,13,11],[12,14,15,13],[14,16,17,15],[16,18,19,17],[18,20,21,19]]}"#;

// How far a panel of the flat row reaches in the frame of another.
fn reach(carton: &Carton, panel: u8, frame: u8) -> Option<Reaches> {
    if panel >= carton.panels() || frame >= carton.panels() {
        return None;
    }
    let still = motion(8, [0; 4], [0; 4])?;
    reaches::<Fix>(
        carton,
        PanelId(panel),
        PanelId(frame),
        &still,
        Piece::whole(),
    )
}

#[test]
fn nine_joints_are_too_far(rt: HostRuntime) {
    let Some(carton) = carton_of(rt.alloc(), ROW, 4, 4) else {
        panic!(rt; "no carton");
    };
    assert!(rt; reach(&carton, 0, 8).is_some());
    assert!(rt; reach(&carton, 0, 9).is_none());
    assert!(rt; reach(&carton, 9, 0).is_none());
}

#[test]
fn squares_of_a_row_are_apart(rt: HostRuntime) {
    let Some(carton) = carton_of(rt.alloc(), ROW, 4, 4) else {
        panic!(rt; "no carton");
    };
    let (Some(first), Some(last)) = (reach(&carton, 0, 8), reach(&carton, 8, 8)) else {
        panic!(rt; "no reaches");
    };
    // From 96 to 804 along x.
    for (halves, apart) in [(0, true), (1415, true), (1417, false)] {
        assert_eq!(rt; are_apart(&first, &last, halves), apart, "at {halves}");
        assert_eq!(rt; are_near(&last, &first, halves), !apart, "at {halves}");
    }
}
