//! Made dielines: the lines of the first three and of all, and words that are no `make`.
use crate::poses::play;
use carton_tool::Status;
use std::test::Fail;

const THREE: &[u8] =
    b"tray 0 size 100 moves 8\nstrip 1 size 100 moves 4\ntube 2 size 100 moves 8\ntotal 20\n";

#[test]
fn the_first_three(rt: HostRuntime) -> Result<(), Fail> {
    let (status, text) = play(rt.alloc(), &["make", "3"], &[], &[], None)?;
    assert_eq!(rt; text.as_slice(), THREE);
    assert_eq!(rt; status, Status::Done);
    Ok(())
}

#[test]
fn no_numbers_of_dielines(rt: HostRuntime) -> Result<(), Fail> {
    let alloc = rt.alloc();
    let rows: [&[&str]; 6] = [
        &["make"],
        &["make", "0"],
        &["make", "61"],
        &["make", "03"],
        &["make", "+3"],
        &["make", "3", "4"],
    ];
    for words in rows {
        let (status, text) = play(alloc, words, &[], &[], None)?;
        assert_eq!(rt; text.as_slice(), b"bad words\n".as_slice());
        assert_eq!(rt; status, Status::BadWords);
    }
    Ok(())
}

#[test]
fn all_of_them(rt: HostRuntime) -> Result<(), Fail> {
    let (status, text) = play(rt.alloc(), &["make", "60"], &[], &[], None)?;
    assert_eq!(rt; status, Status::Done);
    let lines = text.split(|byte| *byte == b'\n').count();
    assert_eq!(rt; lines, 62);
    assert!(rt; text.ends_with(b"tube 59 size 290 moves 8\ntotal 400\n"));
    Ok(())
}
