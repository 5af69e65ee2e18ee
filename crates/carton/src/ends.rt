use crate::play;
use std::env::{Env, FillError};
use std::fs;
use std::test::Fail;

// A command line of any bytes; no variable is set.
#[derive(Drop)]
struct Words<'a>(&'a [&'a [u8]]);

impl Env for Words<'_> {
    fn arg(&self, i: usize, buf: &mut [u8]) -> Result<usize, FillError> {
        let Some(word) = self.0.get(i) else {
            return Err(FillError::NotPresent);
        };
        let Some(front) = buf.get_mut(..word.len()) else {
            return Err(FillError::TooLong);
        };
        front.copy_from_slice(word);
        Ok(word.len())
    }

    fn var(&self, _name: &str, _buf: &mut [u8]) -> Result<usize, FillError> {
        Err(FillError::NotPresent)
    }

    fn var_at(&self, _i: usize, _buf: &mut [u8]) -> Result<usize, FillError> {
        Err(FillError::NotPresent)
    }
}

// Two triangles that touch along a line that is no edge.
const TOUCHING: &str =
    r#"{"vertices_coords":[[0,0],[90,0],[90,90],[0,90]],"edges_vertices":[],"faces_vertices":[[0,1,3],[1,2,3]]}"#;

// The command line, what it writes, and the number of its status.
const ROWS: [(&[&[u8]], &[u8], u8); 7] = [
    (&[b"carton", b"flat", b"x", b"1"], b"clear 1\n", 0),
    (&[b"carton", b"flat", b"x", b"0"], b"blocked 0 1\n", 1),
    (
        &[b"carton", b"flat", b"x", b"45"],
        b"bad dieline: too thin panel 0\n",
        2,
    ),
    (&[b"carton", b"flat", b"x", b"\xff"], b"bad words\n", 3),
    (&[b"carton", b"flat", b"\xc3", b"1"], b"bad words\n", 3),
    (&[], b"bad words\n", 3),
    (&[b"carton", b"flat", b"y", b"1"], b"", 4),
];

#[test]
fn texts_and_numbers(rt: HostRuntime) -> Result<(), Fail> {
    let alloc = rt.alloc();
    fs::write(&rt, "x", TOUCHING)?;
    for (words, text, number) in ROWS {
        let mut written = Vec::new(alloc);
        let found = play(&(Words(words), alloc), &rt, &mut written);
        assert_eq!(rt; written.as_slice(), text);
        assert_eq!(rt; found, number);
    }
    let mut room = [0u8; 3];
    let words: &[&[u8]] = &[b"carton", b"flat", b"x", b"1"];
    let found = play(&(Words(words), alloc), &rt, room.as_mut_slice());
    assert_eq!(rt; room, *b"cle");
    assert_eq!(rt; found, 5);
    Ok(())
}
