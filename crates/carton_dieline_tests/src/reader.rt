//! Files, and what the reader of dielines answers to them.

use crate::dielines::dieline;
use crate::files::{EDGES, FACES, FLAP, VERTICES, file, file_between, file_with, list, repeated};
use carton_base::{Letter, Listed, RawDieline, Stop};
use carton_fold::{FoldError, Key, read_dieline};
use std::alloc::Global;
use std::process::Abort;
use std::test::Fail;

// Holds the reader to the refusal of these bytes, or to none.
fn expect(
    rt: &(impl Abort + AllocGlobal),
    bytes: &[u8],
    refusal: Option<FoldError>,
    row: &str,
) -> Result<(), Fail> {
    let found = read_dieline(rt.alloc(), bytes).err();
    assert_eq!(rt; found, refusal, "at {row}");
    Ok(())
}

const WHOLE_FILES: [(&str, FoldError); 30] = [
    ("", FoldError::NotJson),
    (" ", FoldError::NotJson),
    ("{", FoldError::NotJson),
    ("{}x", FoldError::NotJson),
    ("{} {}", FoldError::NotJson),
    ("\u{feff}{}", FoldError::NotJson),
    (r#"{"a":1,}"#, FoldError::NotJson),
    (r#"{"a":01}"#, FoldError::NotJson),
    (r#"{"a":1e400}"#, FoldError::NotJson),
    (r#"{"a":1e400,"a":1}"#, FoldError::NotJson),
    (r#"{"vertices_coords":1e400}"#, FoldError::NotJson),
    (r#"{"a":1.7976931348623159e308}"#, FoldError::NotJson),
    (
        r#"{"a":1.7976931348623158e308}"#,
        FoldError::Missing(Key::Vertices),
    ),
    (r#"{"a":"\ud800"}"#, FoldError::NotJson),
    (r#"{"\ud800":1}"#, FoldError::NotJson),
    ("[]", FoldError::NotObject),
    ("null", FoldError::NotObject),
    ("7", FoldError::NotObject),
    (r#""vertices_coords""#, FoldError::NotObject),
    ("{}", FoldError::Missing(Key::Vertices)),
    (
        r#"{"edges_vertices":1,"faces_vertices":1}"#,
        FoldError::Missing(Key::Vertices),
    ),
    (r#"{"vertices_coords":1}"#, FoldError::Missing(Key::Edges)),
    (
        r#"{"vertices_coords":1,"faces_vertices":1}"#,
        FoldError::Missing(Key::Edges),
    ),
    (
        r#"{"vertices_coords":1,"edges_vertices":1}"#,
        FoldError::Missing(Key::Faces),
    ),
    (
        r#"{"faces_vertices":1,"edges_assignment":1,"edges_vertices":1,"vertices_coords":1}"#,
        FoldError::BadShape(Key::Vertices),
    ),
    (
        r#"{"faces_vertices":1,"edges_assignment":1,"edges_vertices":1,"vertices_coords":[]}"#,
        FoldError::BadShape(Key::Edges),
    ),
    (
        r#"{"faces_vertices":1,"edges_assignment":1,"edges_vertices":[],"vertices_coords":[]}"#,
        FoldError::BadShape(Key::Assignment),
    ),
    (
        r#"{"faces_vertices":1,"edges_assignment":[],"edges_vertices":[],"vertices_coords":[]}"#,
        FoldError::BadShape(Key::Faces),
    ),
    (
        r#"{"faces_vertices":1,"edges_vertices":[],"vertices_coords":[]}"#,
        FoldError::BadShape(Key::Faces),
    ),
    (
        r#"{"faces_vertices":[],"edges_vertices":[],"vertices_coords":[[9999,0]]}"#,
        FoldError::TooFar(0),
    ),
];

/// Bytes that aren't UTF-8, and a zero byte.
const OTHER_BYTES: [&[u8]; 5] = [
    b"{\"a\":\"\xff\"}",
    b"{\"a\":\"\xc0\x80\"}",
    b"{\"a\":\"\xed\xa0\x80\"}",
    b"\xff{}",
    b"{}\x00",
];

#[test]
fn whole_files(rt: HostRuntime) -> Result<(), Fail> {
    for (text, refusal) in WHOLE_FILES {
        expect(&rt, text.as_bytes(), Some(refusal), text)?;
    }
    for bytes in OTHER_BYTES {
        expect(&rt, bytes, Some(FoldError::NotJson), "other bytes")?;
    }
    Ok(())
}

const VERTEX_ROWS: [(&str, Option<FoldError>); 30] = [
    ("{}", Some(FoldError::BadShape(Key::Vertices))),
    ("[7,[1,0],[0,1]]", Some(FoldError::BadShape(Key::Vertices))),
    ("[[0,0],[1,0],7]", Some(FoldError::BadShape(Key::Vertices))),
    (
        "[[0],[1,0],[0,1]]",
        Some(FoldError::BadShape(Key::Vertices)),
    ),
    (
        "[[0,0],[1,0,0,0],[0,1]]",
        Some(FoldError::BadShape(Key::Vertices)),
    ),
    (
        r#"[[0,0],[1,"0"],[0,1]]"#,
        Some(FoldError::BadShape(Key::Vertices)),
    ),
    (
        "[[0,0],[1,0],[0,1,null]]",
        Some(FoldError::BadShape(Key::Vertices)),
    ),
    ("[[0,0,0],[1,0,0],[0,1,0]]", None),
    (
        "[[0.0,0],[1,0],[0,1]]",
        Some(FoldError::NotWhole(Key::Vertices, 0)),
    ),
    (
        "[[0,0],[1,0],[0,1.0]]",
        Some(FoldError::NotWhole(Key::Vertices, 2)),
    ),
    (
        "[[0,0],[1e2,0],[0,1]]",
        Some(FoldError::NotWhole(Key::Vertices, 1)),
    ),
    (
        "[[0,0],[1,-0],[0,1]]",
        Some(FoldError::NotWhole(Key::Vertices, 1)),
    ),
    (
        "[[0,0],[1,0],[0,1,0.0]]",
        Some(FoldError::NotWhole(Key::Vertices, 2)),
    ),
    (
        "[[0,0],[1,0],[18446744073709551616,1]]",
        Some(FoldError::NotWhole(Key::Vertices, 2)),
    ),
    (
        "[[0,0],[1,0],[18446744073709551615,1]]",
        Some(FoldError::TooFar(2)),
    ),
    (
        "[[-9223372036854775809,0],[1,0],[0,1]]",
        Some(FoldError::NotWhole(Key::Vertices, 0)),
    ),
    (
        "[[-9223372036854775808,0],[1,0],[0,1]]",
        Some(FoldError::TooFar(0)),
    ),
    ("[[8191,0],[1,-8191],[-8191,8191]]", None),
    ("[[8192,0],[1,0],[0,1]]", Some(FoldError::TooFar(0))),
    ("[[0,0],[1,-8192],[0,1]]", Some(FoldError::TooFar(1))),
    ("[[0,0],[1,0],[-8192,8192,0]]", Some(FoldError::TooFar(2))),
    ("[[0,0,1],[1,0],[0,1]]", Some(FoldError::NotFlat(0))),
    ("[[0,0],[1,0],[0,1,-1]]", Some(FoldError::NotFlat(2))),
    (
        "[[0.5,0],[1],[0,1]]",
        Some(FoldError::NotWhole(Key::Vertices, 0)),
    ),
    (
        r#"[[0.5,"0"],[1,0],[0,1]]"#,
        Some(FoldError::BadShape(Key::Vertices)),
    ),
    (
        "[[9999,0.5],[1,0],[0,1]]",
        Some(FoldError::NotWhole(Key::Vertices, 0)),
    ),
    (
        "[[9999,0,0.5],[1,0],[0,1]]",
        Some(FoldError::NotWhole(Key::Vertices, 0)),
    ),
    ("[[9999,0,1],[1,0],[0,1]]", Some(FoldError::TooFar(0))),
    ("[[0,0],[0,0,1],[9999,0]]", Some(FoldError::NotFlat(1))),
    ("[[0,0],[1,0]]", Some(FoldError::BadVertex(Key::Edges, 1))),
];

const EDGE_ROWS: [(&str, Option<FoldError>); 17] = [
    (EDGES, None),
    ("7", Some(FoldError::BadShape(Key::Edges))),
    ("[7,[1,2],[2,0]]", Some(FoldError::BadShape(Key::Edges))),
    ("[[0,1],[1,2],[2]]", Some(FoldError::BadShape(Key::Edges))),
    (
        "[[0,1],[1,2,0],[2,0]]",
        Some(FoldError::BadShape(Key::Edges)),
    ),
    (
        "[[0,1],[1,2],[2,true]]",
        Some(FoldError::BadShape(Key::Edges)),
    ),
    (
        "[[0.5,1],[1,2],[2,0]]",
        Some(FoldError::NotWhole(Key::Edges, 0)),
    ),
    (
        "[[0,1],[1,2],[2,1e0]]",
        Some(FoldError::NotWhole(Key::Edges, 2)),
    ),
    (
        "[[-0,1],[1,2],[2,0]]",
        Some(FoldError::NotWhole(Key::Edges, 0)),
    ),
    (
        "[[0,3],[1,2],[2,0]]",
        Some(FoldError::BadVertex(Key::Edges, 0)),
    ),
    (
        "[[0,1],[1,2],[-1,0]]",
        Some(FoldError::BadVertex(Key::Edges, 2)),
    ),
    (
        "[[0,1],[1,1],[2,0]]",
        Some(FoldError::BadVertex(Key::Edges, 1)),
    ),
    (
        "[[0,1],[65536,1],[2,0]]",
        Some(FoldError::BadVertex(Key::Edges, 1)),
    ),
    (
        "[[9,0.5],[1,2],[2,0]]",
        Some(FoldError::NotWhole(Key::Edges, 0)),
    ),
    (
        "[[0.5,null],[1,2],[2,0]]",
        Some(FoldError::BadShape(Key::Edges)),
    ),
    (
        "[[0,9],[0],[2,0]]",
        Some(FoldError::BadVertex(Key::Edges, 0)),
    ),
    ("[[0,1],[1,2]]", Some(FoldError::BadShape(Key::Assignment))),
];

const LETTER_ROWS: [(&str, Option<FoldError>); 18] = [
    ("null", Some(FoldError::BadShape(Key::Assignment))),
    (r#"["B","B"]"#, Some(FoldError::BadShape(Key::Assignment))),
    (
        r#"["B","B","B","B"]"#,
        Some(FoldError::BadShape(Key::Assignment)),
    ),
    (r#"[7,"B","B"]"#, Some(FoldError::BadShape(Key::Assignment))),
    (
        r#"["B","B",[]]"#,
        Some(FoldError::BadShape(Key::Assignment)),
    ),
    (r#"["b","B","B"]"#, Some(FoldError::BadLetter(0))),
    (r#"["B","BB","B"]"#, Some(FoldError::BadLetter(1))),
    (r#"["B","B",""]"#, Some(FoldError::BadLetter(2))),
    (r#"["J","B","B"]"#, Some(FoldError::JoinEdge(0))),
    (r#"["B","B","J"]"#, Some(FoldError::JoinEdge(2))),
    (r#"["M","V","F"]"#, None),
    (r#"["U","C","B"]"#, None),
    (r#"["\u0042","\u004d","\u0056"]"#, None),
    (r#"["J","X","B"]"#, Some(FoldError::JoinEdge(0))),
    (r#"["X","J",7]"#, Some(FoldError::BadLetter(0))),
    (r#"["J",7,"B"]"#, Some(FoldError::JoinEdge(0))),
    (r#"["J","B"]"#, Some(FoldError::BadShape(Key::Assignment))),
    (r#"[]"#, Some(FoldError::BadShape(Key::Assignment))),
];

const FACE_ROWS: [(&str, Option<FoldError>); 16] = [
    ("{}", Some(FoldError::BadShape(Key::Faces))),
    ("[]", Some(FoldError::BadShape(Key::Faces))),
    ("[7]", Some(FoldError::BadShape(Key::Faces))),
    ("[[0,1,2],[0,1]]", Some(FoldError::BadShape(Key::Faces))),
    ("[[0,1,null]]", Some(FoldError::BadShape(Key::Faces))),
    ("[[0,1,2,0,1,2]]", None),
    ("[[0,1,2],[0,0,0]]", None),
    ("[[0,1,2.0]]", Some(FoldError::NotWhole(Key::Faces, 0))),
    (
        "[[0,1,2],[0,1,-0]]",
        Some(FoldError::NotWhole(Key::Faces, 1)),
    ),
    ("[[0,1,3]]", Some(FoldError::BadVertex(Key::Faces, 0))),
    (
        "[[0,1,2],[0,-1,2]]",
        Some(FoldError::BadVertex(Key::Faces, 1)),
    ),
    (
        "[[0,1,2],[0,65536,2]]",
        Some(FoldError::BadVertex(Key::Faces, 1)),
    ),
    ("[[9,1,0.5]]", Some(FoldError::NotWhole(Key::Faces, 0))),
    ("[[9,0.5,null]]", Some(FoldError::BadShape(Key::Faces))),
    ("[[0,1,9],[0,1]]", Some(FoldError::BadVertex(Key::Faces, 0))),
    (
        "[[0,1,0.5],[0,1,9]]",
        Some(FoldError::NotWhole(Key::Faces, 0)),
    ),
];

#[test]
fn values_of_keys(rt: HostRuntime) -> Result<(), Fail> {
    for (key, rows) in [
        (Key::Vertices, VERTEX_ROWS.as_slice()),
        (Key::Edges, EDGE_ROWS.as_slice()),
        (Key::Assignment, LETTER_ROWS.as_slice()),
        (Key::Faces, FACE_ROWS.as_slice()),
    ] {
        for (value, refusal) in rows {
            let text = file_with(rt.alloc(), key, value)?;
            expect(&rt, text.as_bytes(), *refusal, value)?;
        }
    }
    Ok(())
}

/// Keys, an entry of each, how often it stands in the key's list, and the answer.
const LIMITS: [(Key, &str, u32, Option<FoldError>); 10] = [
    (Key::Vertices, "[0,0]", 1024, None),
    (
        Key::Vertices,
        "[0,0]",
        1025,
        Some(FoldError::TooMany(Key::Vertices)),
    ),
    (
        Key::Vertices,
        "7",
        1025,
        Some(FoldError::TooMany(Key::Vertices)),
    ),
    (
        Key::Edges,
        "[0,1]",
        2049,
        Some(FoldError::TooMany(Key::Edges)),
    ),
    (
        Key::Assignment,
        r#""B""#,
        2048,
        Some(FoldError::BadShape(Key::Assignment)),
    ),
    (
        Key::Assignment,
        r#""B""#,
        2049,
        Some(FoldError::TooMany(Key::Assignment)),
    ),
    (
        Key::Assignment,
        "7",
        2049,
        Some(FoldError::TooMany(Key::Assignment)),
    ),
    (Key::Faces, "[0,1,2]", 24, None),
    (
        Key::Faces,
        "[0,1,2]",
        25,
        Some(FoldError::TooMany(Key::Faces)),
    ),
    (Key::Faces, "7", 25, Some(FoldError::TooMany(Key::Faces))),
];

/// Corners, how many of them a face has, and the answer.
const CORNERS: [(&str, u32, Option<FoldError>); 6] = [
    ("0", 3, None),
    ("0", 2, Some(FoldError::BadShape(Key::Faces))),
    ("0", 32, None),
    ("0", 33, Some(FoldError::TooMany(Key::Faces))),
    ("0.5", 33, Some(FoldError::TooMany(Key::Faces))),
    ("null", 33, Some(FoldError::BadShape(Key::Faces))),
];

/// How many letters stand beside 2048 edges, and the answer.
const LETTERS_OF_MANY: [(u32, Option<FoldError>); 3] = [
    (2047, Some(FoldError::BadShape(Key::Assignment))),
    (2048, None),
    (2049, Some(FoldError::TooMany(Key::Assignment))),
];

#[test]
fn limits(rt: HostRuntime) -> Result<(), Fail> {
    let alloc = rt.alloc();
    for (key, item, count, refusal) in LIMITS {
        let text = file_with(alloc, key, list(alloc, item, count)?.as_str())?;
        expect(&rt, text.as_bytes(), refusal, item)?;
    }
    for (item, count, refusal) in CORNERS {
        let face = list(alloc, list(alloc, item, count)?.as_str(), 1)?;
        let text = file_with(alloc, Key::Faces, face.as_str())?;
        expect(&rt, text.as_bytes(), refusal, item)?;
    }
    let edges = list(alloc, "[0,1]", 2048)?;
    for (count, refusal) in LETTERS_OF_MANY {
        let letters = list(alloc, r#""B""#, count)?;
        let text = file(alloc, VERTICES, edges.as_str(), letters.as_str(), FACES)?;
        expect(&rt, text.as_bytes(), refusal, "letters")?;
    }
    Ok(())
}

/// Members before the triangle's own, members behind them, and the answer.
const OTHER_MEMBERS: [(&str, &str, Option<FoldError>); 10] = [
    (
        r#""file_spec":1.2,"#,
        r#","a":[null,-0,1e2,{"b":[]}]"#,
        None,
    ),
    (r#""faces_vertices":7,"#, "", None),
    (
        "",
        r#","faces_vertices":7"#,
        Some(FoldError::BadShape(Key::Faces)),
    ),
    (
        "",
        r#","vertices_coords":[]"#,
        Some(FoldError::BadVertex(Key::Edges, 0)),
    ),
    (
        "",
        r#","faces\u005fvertices":7"#,
        Some(FoldError::BadShape(Key::Faces)),
    ),
    (
        "",
        r#","\u0065dges_assignment":["J","B","B"]"#,
        Some(FoldError::JoinEdge(0)),
    ),
    ("", r#","Faces_vertices":7"#, None),
    (r#""a":1e400,"#, "", Some(FoldError::NotJson)),
    ("", r#","a":"\udc00""#, Some(FoldError::NotJson)),
    ("", ",", Some(FoldError::NotJson)),
];

/// How many lists stand in one another, and the answers to them inside the triangle's file and alone.
const LISTS: [(u32, Option<FoldError>, FoldError); 3] = [
    (126, None, FoldError::NotObject),
    (127, Some(FoldError::NotJson), FoldError::NotObject),
    (128, Some(FoldError::NotJson), FoldError::NotJson),
];

#[test]
fn other_members(rt: HostRuntime) -> Result<(), Fail> {
    let alloc = rt.alloc();
    for (before, behind, refusal) in OTHER_MEMBERS {
        let text = file_between(alloc, before, behind)?;
        expect(&rt, text.as_bytes(), refusal, behind)?;
    }
    for (count, inside, alone) in LISTS {
        let mut lists = repeated(alloc, "[", "", count)?;
        lists.push_str(repeated(alloc, "]", "", count)?.as_str())?;
        let member = format!(in alloc; ",\"a\":{lists}")?;
        let text = file_between(alloc, "", member.as_str())?;
        expect(&rt, text.as_bytes(), inside, "lists inside")?;
        expect(&rt, lists.as_bytes(), Some(alone), "lists alone")?;
    }
    Ok(())
}

/// The angles of the triangle's file with that value of `edges_foldAngle`.
fn angles(alloc: Global, value: &str) -> Result<Option<Listed<Option<Stop>>>, FoldError> {
    let member = format!(in alloc; ",\"edges_foldAngle\":{value}")?;
    let text = file_between(alloc, "", member.as_str())?;
    let RawDieline { angles, .. } = read_dieline(alloc, text.as_bytes())?;
    Ok(angles)
}

const NO_ANGLES: [&str; 6] = ["7", "null", "{}", "[]", "[90,90]", "[90,90,90,90]"];

const ANGLES: [(&str, [Option<Stop>; 3]); 5] = [
    (
        "[-180,-90,0]",
        [Some(Stop(-16)), Some(Stop(-8)), Some(Stop(0))],
    ),
    ("[90,180,45]", [Some(Stop(8)), Some(Stop(16)), None]),
    ("[90.0,9e1,-0]", [None, None, None]),
    (r#"["90",null,[90]]"#, [None, None, None]),
    ("[-45,91,18446744073709551616]", [None, None, None]),
];

#[test]
fn fold_angles(rt: HostRuntime) -> Result<(), Fail> {
    let alloc = rt.alloc();
    for value in NO_ANGLES {
        assert_eq!(rt; angles(alloc, value)?, None, "at {value}");
    }
    for (value, stops) in ANGLES {
        let expected = Some(Listed::from_vec(Vec::from_array(alloc, stops)?));
        assert_eq!(rt; angles(alloc, value)?, expected, "at {value}");
    }
    Ok(())
}

const FLAP_PLACES: [(i32, i32); 6] = [(0, 0), (100, 0), (200, 0), (0, 100), (100, 100), (200, 100)];

const FLAP_EDGES: [(u16, u16, Letter); 7] = [
    (0, 1, Letter::Boundary),
    (1, 2, Letter::Boundary),
    (2, 5, Letter::Boundary),
    (5, 4, Letter::Boundary),
    (4, 3, Letter::Boundary),
    (3, 0, Letter::Boundary),
    (1, 4, Letter::Valley),
];

#[test]
fn a_whole_file(rt: HostRuntime) -> Result<(), Fail> {
    let alloc = rt.alloc();
    let expected = dieline(
        alloc,
        &FLAP_PLACES,
        &FLAP_EDGES,
        &[0, 1, 4, 3],
        &[1, 2, 5, 4],
    )?;
    let mut bytes = Vec::from_slice(alloc, FLAP.as_bytes())?;
    for length in [FLAP.len(), 1048576] {
        bytes.resize(length, b' ')?;
        assert_eq!(rt; read_dieline(alloc, &bytes)?, expected, "at {length} bytes");
    }
    Ok(())
}

#[test]
fn fronts_of_a_file(rt: HostRuntime) -> Result<(), Fail> {
    for length in 0..FLAP.len() {
        let front = &FLAP.as_bytes()[..length];
        expect(&rt, front, Some(FoldError::NotJson), "a front")?;
    }
    Ok(())
}

#[test]
fn no_letters(rt: HostRuntime) -> Result<(), Fail> {
    let text =
        r#"{"vertices_coords":[[0,0],[1,0],[0,1]],"edges_vertices":[[0,1],[1,2]],"faces_vertices":[[0,1,2]]}"#;
    let found = read_dieline(rt.alloc(), text.as_bytes())?;
    assert_eq!(rt;
        found.letters.as_slice(),
        [Letter::Unassigned; 2].as_slice()
    );
    assert_eq!(rt; found.angles, None);
    Ok(())
}

const TEXTS: [(FoldError, &str); 13] = [
    (FoldError::NotJson, "not json"),
    (FoldError::NotObject, "not an object"),
    (FoldError::Missing(Key::Vertices), "missing vertices_coords"),
    (FoldError::Missing(Key::Edges), "missing edges_vertices"),
    (
        FoldError::BadShape(Key::Assignment),
        "bad shape edges_assignment",
    ),
    (FoldError::TooMany(Key::Faces), "too many faces_vertices"),
    (
        FoldError::NotWhole(Key::Vertices, 7),
        "not whole vertices_coords 7",
    ),
    (FoldError::TooFar(0), "too far vertex 0"),
    (FoldError::NotFlat(1023), "not flat vertex 1023"),
    (
        FoldError::BadVertex(Key::Edges, 2047),
        "bad vertex edges_vertices 2047",
    ),
    (FoldError::BadLetter(3), "bad letter edge 3"),
    (FoldError::JoinEdge(6), "join edge 6"),
    (FoldError::Memory, "out of memory"),
];

#[test]
fn texts(rt: HostRuntime) -> Result<(), Fail> {
    for (refusal, text) in TEXTS {
        assert_eq!(rt; format!(in rt.alloc(); "{refusal}")?.as_str(), text);
    }
    Ok(())
}
