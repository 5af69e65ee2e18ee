ghost use Rattle.std.specs.Prelude.{◌≡◌, ◌≤◌, vec_len, vec_capacity, IfOk};

use carton_base::OutOfMemory;
use carton_fixture_text::FixtureBody;
use carton_stroke::BodyNote;
use std::alloc::Global;
use std::marker::Model;

/// Memory in which a fixture can be made of so many candidates.
#[derive(Drop)]
pub struct FixtureRoom {
    room: u16,
    notes: Vec<BodyNote>,
    bodies: Vec<FixtureBody>,
}

impl Model for FixtureRoom {
    ghost use Rattle.std.specs.Prelude.{◌≡◌, ◌≤◌, ℕ, vec_len, vec_capacity};

    ghost Value = { ℕ };

    ghost view = { λ r. r.room };

    ghost invariant = { λ r. (vec_len r.notes ≡ r.room) × (vec_len r.bodies ≡ 0)
        × (r.room ≤ vec_capacity r.bodies) };
}

impl FixtureRoom {
    /// Room for so many candidates.
    ///
    /// # Errors
    ///
    /// Want of memory.
    pub fn with_room(alloc: Global, bodies: u16) -> Result<FixtureRoom, OutOfMemory>
        ensures { IfOk result (λ r. r ≡ bodies) }
    {
        let count = usize::from(bodies);
        let notes = vec![in alloc; BodyNote::Clears; count]?;
        Ok(FixtureRoom {
            room: bodies,
            notes,
            bodies: Vec::with_capacity(alloc, count)?,
        })
    }

    /// For how many candidates there is room.
    pub fn room(&self) -> u16
        ensures { result ≡ self.now }
    {
        self.room
    }
}

/// So many notes as there is room for, which say nothing yet, and a list with room for as many bodies.
pub fn lists_of(room: FixtureRoom) -> (Vec<BodyNote>, Vec<FixtureBody>)
    ensures notes { vec_len result.0 ≡ room }
    ensures empty { vec_len result.1 ≡ 0 }
    ensures room { room ≤ vec_capacity result.1 }
{
    let FixtureRoom { notes, bodies, .. } = room;
    (notes, bodies)
}
