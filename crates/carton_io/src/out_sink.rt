ghost use Rattle.std.specs.Prelude.{◌≡◌, ℕ, ◌<◌, ◌≤◌, List, length, take, Option, IfOk, OnOk, OnErr};
ghost use Rattle.std.specs.Io.KnownBytes.{Appends, Keeps};
ghost use Rattle.carton_io.specs.Told.{raised};

use crate::sink::{Sink, SinkFault};
use std::io::{ErrorKind, Write};

/// Standard output, or any writer. It tells what its writer tells: of standard output nothing, and
/// of a vector its bytes.
#[derive(Drop)]
pub struct OutSink<W: Write + Drop> {
    out: W,
    faults: u64,
}

impl<W: Write + Drop> OutSink<W> {
    pub fn new(out: W) -> Self
        ensures out { result.out ≡ out }
        ensures faults { result.faults ≡ 0 }
    {
        OutSink { out, faults: 0 }
    }

    /// The writer, with all that was put.
    pub fn into_inner(self) -> W
        ensures { result ≡ self.out }
    {
        self.out
    }

    // Counts a fault.
    fn fail(&mut self) -> SinkFault
        ensures out { self.new.out ≡ self.old.out }
        ensures once { self.new.faults ≡ raised self.old.faults }
    {
        self.faults = self.faults.saturating_add(1);
        SinkFault
    }

    // Writes some of the piece, and returns how many bytes. A write that is interrupted is made
    // again, and after 2^64 - 1 of them it counts a fault.
    fn write_some(&mut self, piece: &[u8]) -> Result<usize, SinkFault>
        ensures some { IfOk result (λ n. 0 < n) }
        ensures bound { IfOk result (λ n. n ≤ length piece.now) }
        ensures ok { IfOk result (λ n. Appends (W.contents self.old.out) (W.contents self.new.out)
            (take n piece.now)) }
        ensures err { OnErr result (Keeps (W.contents self.old.out) (W.contents self.new.out)) }
        ensures steady { OnOk result (self.new.faults ≡ self.old.faults) }
        ensures once { OnErr result (self.new.faults ≡ raised self.old.faults) }
    {
        for _ in 0..u64::MAX {
            match self.out.write(piece) {
                Ok(count) if count > 0 => return Ok(count),
                Err(e) if e.kind() == ErrorKind::Interrupted => {}
                _ => return Err(self.fail()),
            }
        }
        Err(self.fail())
    }
}

impl<W: Write + Drop> Sink for OutSink<W> {
    ghost written = { λ s. W.contents s.out };

    ghost faults = { λ s. s.faults };

    fn put(&mut self, piece: &[u8]) -> Result<(), SinkFault> {
        let mut at = 0;
        while at < piece.len() {
            at += self.write_some(&piece[at..])?;
        }
        Ok(())
    }
}
