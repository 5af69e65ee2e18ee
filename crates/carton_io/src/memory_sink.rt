ghost use Rattle.std.specs.Prelude.{◌≡◌, ◌<◌, ◌≤◌, ◌+◌, [], ◌++◌, List, length, take, min, Option, Some};
ghost use Rattle.std.specs.Prelude.{None, IfOk, IsOk, OnOk, OnErr, unwrap_or, ◌-◌, ◌^◌, ◌↔◌, ℕ};
ghost use Rattle.carton_io.specs.Told.{raised, Rose, GrewInPart};

use crate::sink::{Sink, SinkFault};
use carton_base::OutOfMemory;
use std::alloc::Global;
use std::marker::Model;

/// Keeps what is put, in room taken at the start.
#[derive(Drop)]
pub struct MemorySink {
    kept: Vec<u8>,
    limit: usize,
    faults: u64,
}

impl Model for MemorySink {
    ghost use Rattle.std.specs.Prelude.{◌≤◌, vec_len, vec_capacity};
    ghost use Rattle.carton_io.specs.Files.{SinkView};

    ghost Value = { SinkView };

    ghost view = { λ s. record { kept = s.kept.items; limit = s.limit; faults = s.faults } };

    ghost invariant = { λ s. (vec_len s.kept ≤ s.limit) × (s.limit ≤ vec_capacity s.kept) };
}

impl MemorySink {
    /// A sink with room for so many bytes. A put that would pass the room, or `stop_after` bytes in
    /// all, keeps what fits and fails.
    pub fn with_room(
        alloc: Global,
        room: usize,
        stop_after: Option<usize>,
    ) -> Result<MemorySink, OutOfMemory>
        ensures kept { IfOk result (λ s. s.kept ≡ []) }
        ensures limit { IfOk result (λ s. s.limit ≡ min room (unwrap_or stop_after room)) }
        ensures faults { IfOk result (λ s. s.faults ≡ 0) }
    {
        let kept = Vec::with_capacity(alloc, room)?;
        let limit = room.min(stop_after.unwrap_or(room));
        Ok(MemorySink {
            kept,
            limit,
            faults: 0,
        })
    }

    /// All that it keeps.
    pub fn bytes(&self) -> &[u8]
        ensures { result.now ≡ self.now.kept }
    {
        self.kept.as_slice()
    }

    // Keeps bytes for which there is room: it was taken at the start, so the vector has it.
    fn keep(&mut self, bytes: &[u8])
        requires { length self.old.kept + length bytes.now ≤ self.old.limit }
        ensures kept { self.new.kept ≡ self.old.kept ++ bytes.now }
        ensures limit { self.new.limit ≡ self.old.limit }
        ensures faults { self.new.faults ≡ self.old.faults }
    {
        let _ = self.kept.extend_from_slice(bytes);
    }
}

impl Sink for MemorySink {
    ghost written = { λ s. Some s.kept };

    ghost faults = { λ s. s.faults };

    fn put(&mut self, piece: &[u8]) -> Result<(), SinkFault>
        ensures ok { OnOk result (self.new.kept ≡ self.old.kept ++ piece.now) }
        ensures err { OnErr result (GrewInPart (Some self.old.kept) (Some self.new.kept) piece.now) }
        ensures empty { piece.now ≡ [] → IsOk result }
        ensures later { self.old.faults ≤ self.new.faults }
        ensures cause { OnErr result (Rose self.old.faults self.new.faults) }

        ensures steady { OnOk result (self.new.faults ≡ self.old.faults) }
        ensures once { OnErr result (self.new.faults ≡ raised self.old.faults) }

        // A piece that fits is kept, and of one that doesn't, what fits.
        ensures fits { IsOk result ↔ (length self.old.kept + length piece.now ≤ self.old.limit) }
        ensures full { OnErr result
            (self.new.kept ≡ self.old.kept ++ take (self.old.limit - length self.old.kept) piece.now) }
        ensures limit { self.new.limit ≡ self.old.limit }
    {
        let room = self.limit - self.kept.len();
        if piece.len() <= room {
            self.keep(piece);
            return Ok(());
        }
        self.keep(&piece[..room]);
        self.faults = self.faults.saturating_add(1);
        Err(SinkFault)
    }
}
