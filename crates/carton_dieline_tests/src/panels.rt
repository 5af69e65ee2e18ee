ghost use Rattle.carton_model.specs.Points.{IsSmall};

use crate::dielines::{answer, crease, dieline};
use carton_base::{EdgeId, Letter, PanelId, Triple};
use carton_panels::{PanelError, PanelShape, flat_parted};
use std::alloc::{AllocError, Global};
use std::test::Fail;

const SQUARES: [(i32, i32); 6] = [(0, 0), (100, 0), (200, 0), (200, 100), (100, 100), (0, 100)];

// A convex polygon of 32 vertices, none of them straight.
const ROUND: [(i32, i32); 32] = [
    (0, 0),
    (80, 0),
    (150, 10),
    (210, 30),
    (260, 60),
    (300, 100),
    (330, 150),
    (350, 210),
    (360, 280),
    (360, 360),
    (350, 430),
    (330, 490),
    (300, 540),
    (260, 580),
    (210, 610),
    (150, 630),
    (80, 640),
    (0, 640),
    (-70, 630),
    (-130, 610),
    (-180, 580),
    (-220, 540),
    (-250, 490),
    (-270, 430),
    (-280, 360),
    (-280, 280),
    (-270, 210),
    (-250, 150),
    (-220, 100),
    (-180, 60),
    (-130, 30),
    (-70, 10),
];

// The answer for the face of these vertices, numbered from 0.
fn panel_of(
    alloc: Global,
    places: &[(i32, i32)],
    margin: u16,
) -> Result<Option<Result<PanelShape, PanelError>>, AllocError> {
    let mut numbers = Vec::new(alloc);
    let count = places.len().min(1024) as u16;
    for k in 0..count {
        numbers.push(k)?;
    }
    let raw = dieline(alloc, places, &[], &numbers, &[])?;
    Ok(answer(alloc, &raw, 0, margin))
}

// Whether the error is written so.
fn is_written(alloc: Global, error: PanelError, text: &str) -> Result<bool, AllocError> {
    let written = format!(in alloc; "{error}")?;
    Ok(written.as_str() == text)
}

// Whether there is an answer, and this one: a refusal, or None for a panel.
fn is_answer(found: &Option<Result<PanelShape, PanelError>>, refusal: Option<PanelError>) -> bool {
    match found {
        Some(Err(e)) => Some(*e) == refusal,
        Some(Ok(_)) => refusal.is_none(),
        None => false,
    }
}

fn is_at(t: Triple, place: (i32, i32)) -> bool {
    i64::from(place.0).checked_mul(t.w) == Some(t.x)
        && i64::from(place.1).checked_mul(t.w) == Some(t.y)
}

// Whether the flat points are these places, in any order.
fn are_at(found: &[Triple], places: &[(i32, i32)]) -> bool {
    found.len() == places.len() && places.iter().all(|p| found.iter().any(|t| is_at(*t, *p)))
}

fn point(x: i32, y: i32) -> Triple
    ensures { IsSmall result }
{
    Triple {
        x: i64::from(x),
        y: i64::from(y),
        w: 1,
    }
}

#[test]
fn leaves_a_triangle(rt: HostRuntime) -> Result<(), Fail> {
    let alloc = rt.alloc();
    let places = [(0, 0), (100, 0), (0, 100)];
    for (margin, left) in [
        (4u16, [(4, 4), (88, 4), (4, 88)]),
        (24, [(24, 24), (28, 24), (24, 28)]),
    ] {
        let found = panel_of(alloc, &places, margin)?;
        let Some(Ok(shape)) = &found else {
            assert!(rt; false, "no panel at margin {margin}");
            continue;
        };
        assert!(rt; are_at(shape.shrunk(), &left), "at margin {margin}");
        assert!(rt; are_at(shape.corners(), &places));
    }
    Ok(())
}

#[test]
fn leaves_out_straight_vertices(rt: HostRuntime) -> Result<(), Fail> {
    let alloc = rt.alloc();
    let found = panel_of(
        alloc,
        &[(0, 0), (50, 0), (100, 0), (100, 100), (30, 100), (0, 100)],
        10,
    )?;
    let Some(Ok(shape)) = &found else {
        assert!(rt; false, "no panel");
        return Ok(());
    };
    assert!(rt; are_at(shape.corners(), &[(0, 0), (100, 0), (100, 100), (0, 100)]));
    assert!(rt; are_at(shape.shrunk(), &[(10, 10), (90, 10), (90, 90), (10, 90)]));
    let round = panel_of(alloc, &ROUND, 1)?;
    let Some(Ok(shape)) = &round else {
        assert!(rt; false, "no round panel");
        return Ok(());
    };
    assert_eq!(rt; shape.corners().len(), 32);
    assert_eq!(rt; shape.shrunk().len(), 32);
    Ok(())
}

const FACE: PanelId = PanelId(0);

// The vertices of a face, the margin, and the refusal, if there is one.
const FACES: [(&[(i32, i32)], u16, Option<PanelError>); 6] = [
    (
        &[(0, 0), (100, 0), (0, 100)],
        25,
        Some(PanelError::TooThin(FACE)),
    ),
    (
        &[(0, 0), (100, 0), (100, 8), (0, 8)],
        4,
        Some(PanelError::TooThin(FACE)),
    ),
    (&[(0, 0), (100, 0), (100, 8), (0, 8)], 3, None),
    (
        &[(0, 0), (0, 100), (100, 0)],
        0,
        Some(PanelError::NotConvex(FACE)),
    ),
    (
        &[(0, 0), (100, 0), (10, 10), (0, 100)],
        0,
        Some(PanelError::NotConvex(FACE)),
    ),
    (
        &[(0, 0), (100, 0), (100, 0), (0, 100)],
        0,
        Some(PanelError::RepeatedVertex(FACE)),
    ),
];

#[test]
fn refuses_faces(rt: HostRuntime) -> Result<(), Fail> {
    let alloc = rt.alloc();
    for (places, margin, refusal) in FACES {
        let found = panel_of(alloc, places, margin)?;
        assert!(rt; is_answer(&found, refusal), "{places:?} at {margin}");
    }
    let raw = dieline(alloc, &SQUARES, &[], &[0, 1, 4, 1], &[])?;
    let repeated = Some(PanelError::RepeatedVertex(FACE));
    assert!(rt; is_answer(&answer(alloc, &raw, 0, 0), repeated));
    Ok(())
}

#[test]
fn writes_errors(rt: HostRuntime) -> Result<(), Fail> {
    let alloc = rt.alloc();
    let face = PanelId(7);
    assert!(rt;
        is_written(
            alloc,
            PanelError::RepeatedVertex(face),
            "repeated vertex panel 7"
        )?
    );
    assert!(rt; is_written(alloc, PanelError::NotConvex(face), "not convex panel 7")?);
    assert!(rt; is_written(alloc, PanelError::TooThin(face), "too thin panel 7")?);
    assert!(rt; is_written(alloc, PanelError::Memory, "out of memory")?);
    Ok(())
}

#[test]
fn tells_what_lies_inside(rt: HostRuntime) -> Result<(), Fail> {
    let found = panel_of(rt.alloc(), &[(0, 0), (100, 0), (0, 100)], 4)?;
    let Some(Ok(shape)) = &found else {
        assert!(rt; false, "no panel");
        return Ok(());
    };
    for (x, y, inside, within) in [
        (0, 0, true, false),
        (50, 50, true, false),
        (51, 50, false, false),
        (4, 4, true, true),
        (3, 4, true, false),
        (46, 46, true, true),
        (47, 46, true, false),
    ] {
        assert_eq!(rt; shape.contains(point(x, y)), inside, "at {x} {y}");
        assert_eq!(rt; shape.in_shrunk(point(x, y)), within, "at {x} {y} shrunk");
    }
    assert!(rt; shape.in_shrunk(Triple { x: 9, y: 8, w: 2 }));
    assert!(rt; !shape.in_shrunk(Triple { x: 9, y: 7, w: 2 }));
    Ok(())
}

#[test]
fn finds_common_creases(rt: HostRuntime) -> Result<(), Fail> {
    let alloc = rt.alloc();
    let twice = [
        (0, 1, Letter::Boundary),
        (4, 1, Letter::Valley),
        (1, 4, Letter::Mountain),
    ];
    let raw = dieline(alloc, &SQUARES, &twice, &[0, 1, 4, 5], &[1, 2, 3, 4])?;
    assert_eq!(rt; crease(&raw, 0, 1), Some(EdgeId(1)));
    assert_eq!(rt; crease(&raw, 0, 0), Some(EdgeId(1)));
    let hidden = [(1, 4, Letter::Boundary), (4, 1, Letter::Valley)];
    let slit = dieline(alloc, &SQUARES, &hidden, &[0, 1, 4, 5], &[1, 2, 3, 4])?;
    assert_eq!(rt; crease(&slit, 0, 1), None);
    Ok(())
}

#[test]
fn parts_flat_panels(rt: HostRuntime) -> Result<(), Fail> {
    let alloc = rt.alloc();
    let raw = dieline(alloc, &SQUARES, &[], &[0, 1, 4, 5], &[1, 2, 3, 4])?;
    for (margin, parted) in [(0u16, false), (1, true), (4, true)] {
        let a = answer(alloc, &raw, 0, margin);
        let b = answer(alloc, &raw, 1, margin);
        let (Some(Ok(first)), Some(Ok(second))) = (&a, &b) else {
            assert!(rt; false, "no panels at margin {margin}");
            continue;
        };
        assert_eq!(rt; flat_parted(first, second), parted, "at margin {margin}");
        assert!(rt; !flat_parted(first, first));
    }
    Ok(())
}
