//! Files and output that move a few bytes at a call, are interrupted, or break in the middle.
use crate::ends::{TRI, flat};
use carton_io::{FileShelf, FileSource, OutSink, Shelf, ShelfError, Sink, SinkFault};
use carton_tool::{Status, run};
use std::alloc::Global;
use std::io;
use std::io::{ErrorKind, Read, Write};
use std::test::Fail;

// What one call does.
#[derive(Clone, Copy)]
enum Call {
    Moves(usize),
    Fails(ErrorKind),
}

const INTERRUPTED: Call = Call::Fails(ErrorKind::Interrupted);

const BROKEN: Call = Call::Fails(ErrorKind::BrokenPipe);

const NO_MEMORY: Call = Call::Fails(ErrorKind::OutOfMemory);

// What the first calls do; each later one moves one byte.
#[derive(Drop)]
struct Calls<'a> {
    first: &'a [Call],
    at: usize,
}

impl<'a> Calls<'a> {
    fn new(first: &'a [Call]) -> Self {
        Calls { first, at: 0 }
    }

    // How many bytes the next call moves, at most.
    fn next(&mut self) -> io::Result<usize> {
        let call = self.first.get(self.at).copied();
        self.at = self.at.saturating_add(1);
        match call.unwrap_or(Call::Moves(1)) {
            Call::Moves(count) => Ok(count),
            Call::Fails(kind) => Err(io::Error::from(kind)),
        }
    }
}

// Output that keeps what it was given.
#[derive(Drop)]
struct Writer<'a> {
    kept: Vec<u8>,
    calls: Calls<'a>,
}

impl<'a> Writer<'a> {
    fn new(alloc: Global, first: &'a [Call]) -> Self {
        Writer {
            kept: Vec::new(alloc),
            calls: Calls::new(first),
        }
    }
}

impl<'a> Write for Writer<'a> {
    fn write(&mut self, piece: &[u8]) -> io::Result<usize> {
        let count = self.calls.next()?.min(piece.len());
        self.kept.extend_from_slice(&piece[..count])?;
        Ok(count)
    }

    fn flush(&mut self) -> io::Result<()> {
        Ok(())
    }
}

// A file that is being read.
#[derive(Drop)]
struct Reader<'a> {
    left: &'a [u8],
    calls: Calls<'a>,
}

impl<'a> Read for Reader<'a> {
    fn read(&mut self, piece: &mut [u8]) -> io::Result<usize> {
        let count = self.calls.next()?.min(piece.len());
        self.left.read(&mut piece[..count])
    }
}

// Files of which each but `none` holds the same bytes.
#[derive(Drop)]
struct Source<'a> {
    bytes: &'a [u8],
    first: &'a [Call],
}

impl<'a> FileSource for Source<'a> {
    type File = Reader<'a>;

    fn open_named(&self, name: &str) -> io::Result<Reader<'a>> {
        if name == "none" {
            return Err(io::Error::from(ErrorKind::NotFound));
        }
        Ok(Reader {
            left: self.bytes,
            calls: Calls::new(self.first),
        })
    }
}

#[test]
fn a_put_goes_on_until_all_is_written(rt: HostRuntime) -> Result<(), Fail> {
    let rows: [(&[Call], &str, Result<(), SinkFault>); 7] = [
        (&[], "seven b", Ok(())),
        (&[Call::Moves(9)], "seven b", Ok(())),
        (&[Call::Moves(3)], "seven b", Ok(())),
        (
            &[INTERRUPTED, Call::Moves(2), INTERRUPTED, INTERRUPTED],
            "seven b",
            Ok(()),
        ),
        (&[Call::Moves(3), BROKEN], "sev", Err(SinkFault)),
        (&[Call::Moves(3), Call::Moves(0)], "sev", Err(SinkFault)),
        (&[INTERRUPTED, BROKEN], "", Err(SinkFault)),
    ];
    for (first, kept, answer) in rows {
        let mut sink = OutSink::new(Writer::new(rt.alloc(), first));
        assert_eq!(rt; sink.put(b"seven b"), answer);
        assert_eq!(rt; sink.into_inner().kept.as_slice(), kept.as_bytes());
    }
    Ok(())
}

#[test]
fn a_read_goes_on_until_the_end(rt: HostRuntime) -> Result<(), Fail> {
    let rows: [(&[Call], u8, Result<&str, ShelfError>); 11] = [
        (&[], 7, Ok("seven b")),
        (&[], 6, Err(ShelfError::TooLong)),
        (&[], 0, Err(ShelfError::TooLong)),
        (&[Call::Moves(9)], 7, Ok("seven b")),
        (&[Call::Moves(3)], 8, Ok("seven b")),
        (
            &[INTERRUPTED, Call::Moves(2), INTERRUPTED, INTERRUPTED],
            7,
            Ok("seven b"),
        ),
        (
            &[INTERRUPTED, Call::Moves(2), INTERRUPTED],
            6,
            Err(ShelfError::TooLong),
        ),
        (&[Call::Moves(4), BROKEN], 7, Err(ShelfError::Failed)),
        (&[Call::Moves(7), BROKEN], 7, Err(ShelfError::Failed)),
        (&[Call::Moves(4), BROKEN], 3, Err(ShelfError::TooLong)),
        (&[Call::Moves(4), NO_MEMORY], 7, Err(ShelfError::Memory)),
    ];
    for (first, limit, answer) in rows {
        let limit = usize::from(limit);
        let source = Source {
            bytes: b"seven b",
            first,
        };
        let mut shelf = FileShelf::new(&source);
        let read = shelf.read(rt.alloc(), "some", limit);
        match (&read, answer) {
            (Ok(bytes), Ok(text)) => assert_eq!(rt; bytes.as_slice(), text.as_bytes()),
            _ => assert_eq!(rt; read.err(), answer.err()),
        }
        assert_eq!(rt;
            shelf.read(rt.alloc(), "none", limit).err(),
            Some(ShelfError::Failed)
        );
    }
    Ok(())
}

// A run over the files of a source and onto output, with its status and the output.
fn play<F: FileSource, W: Write + Drop>(
    alloc: Global,
    words: &[String],
    source: &F,
    out: W,
) -> (Status, W) {
    let mut shelf = FileShelf::new(source);
    let mut sink = OutSink::new(out);
    let status = run(alloc, words, &mut shelf, &mut sink);
    (status, sink.into_inner())
}

#[test]
fn a_run_over_faulty_ends(rt: HostRuntime) -> Result<(), Fail> {
    let interrupted = &[INTERRUPTED, Call::Moves(2), INTERRUPTED];
    let broken = &[Call::Moves(3), BROKEN];
    let rows: [(&[Call], &[Call], &str, Status); 5] = [
        (&[], &[], "clear 0\n", Status::Done),
        (interrupted, interrupted, "clear 0\n", Status::Done),
        (broken, &[], "", Status::ReadFault),
        (&[], broken, "cle", Status::WriteFault),
        (&[NO_MEMORY], &[], "", Status::NoMemory),
    ];
    let words = flat(rt.alloc(), "x")?;
    for (reading, writing, text, status) in rows {
        let source = Source {
            bytes: TRI,
            first: reading,
        };
        let out = Writer::new(rt.alloc(), writing);
        let (found, out) = play(rt.alloc(), &words, &source, out);
        assert_eq!(rt; found, status);
        assert_eq!(rt; out.kept.as_slice(), text.as_bytes());
    }
    Ok(())
}
