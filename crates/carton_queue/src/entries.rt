ghost use Rattle.std.specs.Prelude.{◌≡◌, ◌<◌, ℕ, IfOk, length, replicate, slice_set, slice_index_or};
ghost use Rattle.std.specs.Vec.{vec_capacity};
ghost use Rattle.carton_queue.specs.Blanks.{filled, HasSpace};

use carton_base::OutOfMemory;
use std::alloc::Global;
use std::marker::Model;

// A list of a fixed length whose entries are blank until they are set. It takes the memory for all
// of them at once,
// and writes those below the greatest place that was ever set; contracts see them all.
#[derive(Drop)]
pub struct Entries<T> {
    written: Vec<T>,
    blank: T,
    room: usize,
}

impl<T> Model for Entries<T> {
    ghost use Rattle.std.specs.Prelude.{List, length};
    ghost use Rattle.std.specs.Coded.{coded_list};
    ghost use Rattle.std.specs.Vec.{vec_capacity};
    ghost use Rattle.carton_queue.specs.Blanks.{filled, HasSpace};

    ghost Value = { List T };

    ghost coded = { coded_list T.code };

    ghost view = { λ it. filled it.room it.blank it.written.items };

    ghost invariant = { λ it. HasSpace it.room (length it.written.items) (vec_capacity it.written) };
}

// Writes blank entries until there is one at a place. No push fails, since there is space for all.
fn write_up_to<T: Copy + Drop>(written: &mut Vec<T>, blank: T, room: usize, at: usize)
    requires space { HasSpace room (length written.old.items) (vec_capacity written.old) }
    requires at { at < room }
    ensures space { HasSpace room (length written.new.items) (vec_capacity written.new) }
    ensures same { filled room blank written.new.items ≡ filled room blank written.old.items }
    ensures there { at < length written.new.items }
{
    while written.len() <= at {
        let Ok(()) = written.push(blank) else {
            return;
        };
    }
}

impl<T: Copy + Drop> Entries<T> {
    // So many blank entries.
    pub fn with_room(alloc: Global, room: usize, blank: T) -> Result<Entries<T>, OutOfMemory>
        ensures { IfOk result (λ e. e ≡ replicate room blank) }
    {
        let written = Vec::with_capacity(alloc, room)?;
        Ok(Entries {
            written,
            blank,
            room,
        })
    }

    pub fn len(&self) -> usize
        ensures { result ≡ length self.now }
    {
        self.room
    }

    // The entry at a place.
    pub fn get(&self, at: usize) -> T
        requires { at < length self.now }
        ensures { (d : T) → result ≡ slice_index_or self.now at d }
    {
        if at < self.written.len() {
            self.written[at]
        } else {
            self.blank
        }
    }

    // Sets the entry at a place.
    pub fn set(&mut self, at: usize, entry: T)
        requires { at < length self.old }
        ensures { self.new ≡ slice_set self.old at entry }
    {
        write_up_to(&mut self.written, self.blank, self.room, at);
        self.written[at] = entry;
    }
}
