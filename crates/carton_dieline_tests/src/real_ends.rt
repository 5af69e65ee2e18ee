use carton_io::{FileShelf, OutSink, Shelf, ShelfError, Sink};
use std::test::Fail;
use std::{fs, io};

#[test]
fn real_files(rt: HostRuntime) -> Result<(), Fail> {
    let alloc = rt.alloc();
    fs::write(&rt, "some.txt", "seven b")?;
    let mut shelf = FileShelf::new(&rt);
    let bytes = shelf.read(alloc, "some.txt", 7).ok().ok_or("no bytes")?;
    assert_eq!(rt; bytes.as_slice(), b"seven b".as_slice());
    assert_eq!(rt;
        shelf.read(alloc, "some.txt", 6).err(),
        Some(ShelfError::TooLong)
    );
    assert_eq!(rt;
        shelf.read(alloc, "none.txt", 7).err(),
        Some(ShelfError::Failed)
    );
    assert_eq!(rt; shelf.read(alloc, ".", 7).err(), Some(ShelfError::Failed));
    Ok(())
}

#[test]
fn real_output(rt: HostRuntime) -> Result<(), Fail> {
    let mut sink = OutSink::new(io::writer(&rt));
    assert!(rt; sink.put(b"one line\n").is_ok());
    assert!(rt; sink.put(b"").is_ok());
    Ok(())
}
