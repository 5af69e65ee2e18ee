ghost use Rattle.std.specs.Prelude.{◌≡◌, ℕ, ◌≤◌, ◌+◌, ◌-◌, ◌^◌, min, [], List, Option, IsOk, OnOk, OnErr};
ghost use Rattle.std.specs.Io.KnownBytes.{Appends};
ghost use Rattle.carton_io.specs.Told.{raised, Rose, GrewInPart};

/// A piece could not be put whole.
#[derive(Clone, Copy, Debug, PartialEq, Eq)]
pub struct SinkFault;

/// Where output is put. A sink may tell all that was put, or may not.
pub trait Sink {
    /// All that was put, where the sink tells it.
    ghost written: { Self → Option (List ℕ) };

    /// How many puts have failed, from 0 to 2^64 - 1, where the count stands still.
    ghost faults: { Self → ℕ };

    /// Puts the piece behind what was put before. After a fault a front of the piece is put, which
    /// isn't all of it.
    fn put(&mut self, piece: &[u8]) -> Result<(), SinkFault>
        ensures ok { OnOk result (Appends (written self.old) (written self.new) piece.now) }
        ensures err { OnErr result (GrewInPart (written self.old) (written self.new) piece.now) }
        ensures empty { piece.now ≡ [] → IsOk result }
        ensures later { faults self.old ≤ faults self.new }
        ensures cause { OnErr result (Rose (faults self.old) (faults self.new)) }
        ensures steady { OnOk result (faults self.new ≡ faults self.old) }
        ensures once { OnErr result (faults self.new ≡ raised (faults self.old)) };
}
