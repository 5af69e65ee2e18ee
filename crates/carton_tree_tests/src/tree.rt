use carton_base::{EdgeId, PanelId, Turn};
use carton_cases::carton_of;
use carton_fold::read_dieline;
use carton_panels::PanelError;
use carton_tree::{Carton, Joint, TreeError, tree};
use std::alloc::{AllocError, Global};
use std::test::Fail;

// Squares of 100 in a row: the vertices of the lower edge, then those of the upper one.
const ROW_OF_TWO: &str = r#""vertices_coords":[[0,0],[100,0],[200,0],[0,100],[100,100],[200,100]]"#;

const QUAD: &str =
    r#"{"vertices_coords":[[0,0],[100,0],[200,0],[0,100],[100,100],[200,100],[0,200],[100,200],[200,200]],"edges_vertices":[[0,1],[1,2],[2,5],[5,8],[8,7],[7,6],[6,3],[3,0],[1,4],[4,5],[4,7],[3,4]],"edges_assignment":["B","B","B","B","B","B","B","B","V","V","V","V"],"faces_vertices":[[0,1,4,3],[1,2,5,4],[3,4,7,6],[4,5,8,7]]}"#;

// A square in the middle, and one on each of its sides: 1 below, 2 to the right, 3 above, 4 to the
// left. Edge 2 is locked.
const CROSS: &str =
    r#"{"vertices_coords":[[0,0],[100,0],[100,100],[0,100],[0,-100],[100,-100],[200,0],[200,100],[100,200],[0,200],[-100,100],[-100,0]],"edges_vertices":[[0,1],[1,2],[2,3],[3,0],[0,4],[4,5],[5,1],[1,6],[6,7],[7,2],[2,8],[8,9],[9,3],[3,10],[10,11],[11,0]],"edges_assignment":["V","M","F","U","B","B","B","B","B","B","B","B","B","B","B","B"],"faces_vertices":[[0,1,2,3],[4,5,1,0],[1,6,7,2],[3,2,8,9],[11,0,3,10]]}"#;

// Two squares that share the edge from 1 to 4, with these edges and letters.
fn two(alloc: Global, edges: &str, letters: &str) -> Result<String, AllocError> {
    format!(in alloc;
        "{{{ROW_OF_TWO},\"edges_vertices\":[{edges}],\"edges_assignment\":[{letters}],\"faces_vertices\":[[0,1,4,3],[1,2,5,4]]}}"
    )
}

// A strip of squares that are joined one to the next.
fn strip(alloc: Global, panels: u16) -> Result<String, AllocError> {
    let mut text = String::from_str(alloc, "{\"vertices_coords\":[[0,0],[0,100]")?;
    for k in 0..panels.min(24) {
        let x = 100 * (k + 1);
        text.push_str(format!(in alloc; ",[{x},0],[{x},100]")?.as_str())?;
    }
    text.push_str("],\"edges_vertices\":[[0,1]")?;
    for k in 0..panels.min(24) {
        let low = 2 * k;
        text.push_str(format!(in alloc;
            ",[{},{}],[{},{}],[{},{}]",
            low,
            low + 2,
            low + 1,
            low + 3,
            low + 2,
            low + 3
        )?
        .as_str())?;
    }
    text.push_str("],\"edges_assignment\":[\"B\"")?;
    for _ in 0..panels.min(24) {
        text.push_str(",\"B\",\"B\",\"V\"")?;
    }
    text.push_str("],\"faces_vertices\":[")?;
    for k in 0..panels.min(24) {
        let low = 2 * k;
        let comma = if k == 0 { "" } else { "," };
        text.push_str(format!(in alloc;
            "{comma}[{},{},{},{}]",
            low,
            low + 2,
            low + 3,
            low + 1
        )?.as_str())?;
    }
    text.push_str("]}")?;
    Ok(text)
}

// What is answered for a dieline's text; None where it is no dieline.
fn answer(alloc: Global, text: &str, margin: u16, root: u8) -> Option<Result<Carton, TreeError>> {
    match read_dieline(alloc, text.as_bytes()) {
        Ok(raw) if margin <= 1000 => Some(tree(alloc, &raw, margin, PanelId(root))),
        _ => None,
    }
}

fn refusal(alloc: Global, text: &str, margin: u16, root: u8) -> Option<TreeError> {
    match answer(alloc, text, margin, root) {
        Some(Err(e)) => Some(e),
        _ => None,
    }
}

// The joint of a panel; None too where there is no such panel.
fn joint(carton: &Carton, p: u8) -> Option<Joint> {
    if p < carton.panels() {
        carton.joint(PanelId(p))
    } else {
        None
    }
}

const SIDES: &str = "[0,1],[1,2],[2,5],[5,4],[4,3],[3,0]";

const BORDER: &str = "\"B\",\"B\",\"B\",\"B\",\"B\",\"B\"";

#[test]
fn refuses_a_face_that_is_no_panel(rt: HostRuntime) -> Result<(), Fail> {
    let alloc = rt.alloc();
    let text = two(alloc, "[1,4]", "\"V\"")?;
    let expected = Some(TreeError::Panel(PanelError::TooThin(PanelId(0))));
    assert_eq!(rt; refusal(alloc, text.as_str(), 50, 9), expected);
    Ok(())
}

#[test]
fn refuses_a_side_that_is_no_edge(rt: HostRuntime) -> Result<(), Fail> {
    let alloc = rt.alloc();
    let five = "\"B\",\"B\",\"B\",\"B\",\"B\"";
    for (edges, letters, panel, side) in [
        ("[0,1],[1,4],[4,3],[3,0],[1,2],[5,4]", BORDER, 1, 1),
        ("[0,1],[1,4],[4,3],[1,2],[5,4]", five, 0, 3),
    ] {
        let text = two(alloc, edges, letters)?;
        let expected = TreeError::SideNoEdge(PanelId(panel), side);
        assert_eq!(rt; refusal(alloc, text.as_str(), 4, 9), Some(expected));
    }
    Ok(())
}

#[test]
fn refuses_edges_by_number(rt: HostRuntime) -> Result<(), Fail> {
    let alloc = rt.alloc();
    for (faces, expected) in [
        (
            "[0,1,4,3],[1,2,5,4],[1,2,4]",
            TreeError::ThreeFaces(EdgeId(6)),
        ),
        ("[1,2,5,4],[1,2,4]", TreeError::SameSide(EdgeId(1))),
        ("[0,1,4],[1,2,4],[2,5,4]", TreeError::Slanted(EdgeId(8))),
        ("[0,4,3],[0,1,4],[1,2,5,4]", TreeError::Slanted(EdgeId(7))),
    ] {
        let text = format!(in alloc;
            "{{{ROW_OF_TWO},\"edges_vertices\":[{SIDES},[1,4],[0,4],[2,4]],\"edges_assignment\":[{BORDER},\"V\",\"V\",\"V\"],\"faces_vertices\":[{faces}]}}"
        )?;
        assert_eq!(rt;
            refusal(alloc, text.as_str(), 4, 9),
            Some(expected),
            "at {faces}"
        );
    }
    Ok(())
}

#[test]
fn refuses_a_moved_vertex(rt: HostRuntime) -> Result<(), Fail> {
    let alloc = rt.alloc();
    let text = format!(in alloc;
        "{{\"vertices_coords\":[[0,0],[100,0],[200,0],[0,100],[110,100],[200,100]],\"edges_vertices\":[{SIDES},[1,4]],\"edges_assignment\":[{BORDER},\"V\"],\"faces_vertices\":[[0,1,4,3],[1,2,5,4]]}}"
    )?;
    assert_eq!(rt;
        refusal(alloc, text.as_str(), 4, 9),
        Some(TreeError::Slanted(EdgeId(6)))
    );
    Ok(())
}

// Two squares that share an edge, with all their sides and then these edges and letters.
fn bordered(alloc: Global, edges: &str, letters: &str) -> Result<String, AllocError> {
    let edges = format!(in alloc; "{SIDES},{edges}")?;
    let letters = format!(in alloc; "{BORDER},{letters}")?;
    two(alloc, edges.as_str(), letters.as_str())
}

#[test]
fn refuses_loops_roots_and_parts(rt: HostRuntime) -> Result<(), Fail> {
    let alloc = rt.alloc();
    let joined = bordered(alloc, "[1,4]", "\"V\"")?;
    let apart = bordered(alloc, "[1,4]", "\"B\"")?;
    let slit = bordered(alloc, "[1,4],[4,1]", "\"B\",\"V\"")?;
    for (text, root, expected) in [
        (QUAD, 9, TreeError::Loop(EdgeId(11))),
        (joined.as_str(), 2, TreeError::NoRoot(2)),
        (apart.as_str(), 0, TreeError::Apart(PanelId(1))),
        (apart.as_str(), 1, TreeError::Apart(PanelId(0))),
        (slit.as_str(), 0, TreeError::Apart(PanelId(1))),
    ] {
        assert_eq!(rt; refusal(alloc, text, 4, root), Some(expected), "at {text}");
    }
    assert!(rt; carton_of(alloc, joined.as_str(), 4, 1).is_some());
    Ok(())
}

#[test]
fn takes_eight_joints_from_the_root(rt: HostRuntime) -> Result<(), Fail> {
    let alloc = rt.alloc();
    for (panels, root, far) in [
        (9, 0, None),
        (9, 8, None),
        (10, 0, Some(9)),
        (10, 9, Some(0)),
        (17, 8, None),
        (17, 7, Some(16)),
    ] {
        let row = strip(alloc, panels)?;
        let found = answer(alloc, row.as_str(), 4, root).map(|found| found.err());
        let expected = far.map(|panel| TreeError::TooDeep(PanelId(panel)));
        assert_eq!(rt; found, Some(expected), "{panels} from {root}");
    }
    Ok(())
}

#[test]
fn takes_the_first_of_two_equal_edges(rt: HostRuntime) -> Result<(), Fail> {
    let crease = bordered(rt.alloc(), "[1,4],[4,1]", "\"V\",\"B\"")?;
    let Some(carton) = carton_of(rt.alloc(), crease.as_str(), 4, 0) else {
        panic!(rt; "no carton");
    };
    assert_eq!(rt; carton.child(EdgeId(6)), Some(PanelId(1)));
    assert_eq!(rt; carton.child(EdgeId(7)), None);
    Ok(())
}

#[test]
fn tells_joints_by_their_sides(rt: HostRuntime) {
    let Some(carton) = carton_of(rt.alloc(), CROSS, 4, 0) else {
        panic!(rt; "no carton");
    };
    assert_eq!(rt; carton.root(), PanelId(0));
    assert_eq!(rt; joint(&carton, 0), None);
    for (child, edge, place, upright, at, sign) in [
        (1u8, 0u16, Some(0u8), false, 0, -1),
        (2, 1, Some(1), true, 100, 1),
        (3, 2, None, false, 100, 1),
        (4, 3, Some(2), true, 0, -1),
    ] {
        let turn = Turn {
            place,
            upright,
            at,
            sign,
        };
        let edge = EdgeId(edge);
        let expected = Joint {
            edge,
            parent: PanelId(0),
            turn,
        };
        assert_eq!(rt; joint(&carton, child), Some(expected), "at {child}");
        assert_eq!(rt; carton.child(edge), Some(PanelId(child)));
    }
    assert!(rt; carton.creases() == [EdgeId(0), EdgeId(1), EdgeId(3)].as_slice());
}

#[test]
fn tells_paths_turns_and_routes(rt: HostRuntime) {
    let Some(carton) = carton_of(rt.alloc(), CROSS, 4, 1) else {
        panic!(rt; "no carton");
    };
    if carton.panels() != 5 {
        panic!(rt; "not five panels");
    }
    let (root, middle, right, left) = (PanelId(1), PanelId(0), PanelId(2), PanelId(4));
    assert!(rt; carton.path(right) == [right, middle, root].as_slice());
    assert_eq!(rt; carton.parting(right, left), middle);
    assert_eq!(rt; carton.parting(right, root), root);
    assert!(rt; carton.shares_crease(right, middle));
    assert!(rt; carton.shares_crease(root, middle));
    assert!(rt; !carton.shares_crease(right, left));
    let up = Turn {
        place: Some(1),
        upright: true,
        at: 100,
        sign: 1,
    };
    let across = Turn {
        place: Some(2),
        upright: true,
        at: 0,
        sign: 1,
    };
    let Some(route) = carton.route(right, left) else {
        panic!(rt; "no route");
    };
    assert_eq!(rt; route.count, 2);
    assert_eq!(rt; route.turns[0], up);
    assert_eq!(rt; route.turns[1], across);
    assert_eq!(rt;
        carton.starts(right).len(),
        carton.panel(right).shrunk().len()
    );
}
