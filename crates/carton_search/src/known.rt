ghost use Rattle.std.specs.Prelude.{◌≡◌, ◌+◌, ◌<◌, ◌≤◌, ◌^◌, ◌∷◌, ◌++◌, [], Some, None, length, slice_get};
ghost use Rattle.std.specs.Prelude.{slice_set, OnOk, IfOk, MatchOption, MatchBool};
ghost use Rattle.carton_queue.specs.Waits.{nodes_of, priority_of, with_entry, IsLeast, IsEmpty};
ghost use Rattle.carton_search.specs.declared.known.Entry.{Entry};
ghost use Rattle.carton_search.specs.Known.{Has, IsNumberOf};
ghost use Rattle.carton_search.specs.Knowledge.{IsBlank, entry_of, queued_at, with_priority};

use carton_base::{OutOfMemory, State};
use carton_queue::BucketQueue;
use indexmap::IndexSet;
use std::alloc::Global;
use std::marker::Model;

/// The number that each priority of a state that waits is below, and the most states of a plan.
pub const BUCKETS: u32 = 4096;

// What is kept beside a found state: the number of the state from which it was found, by how many
// moves from the start, and whether its steps have been tried.
#[derive(Clone, Copy)]
pub struct Node {
    pub parent: u32,
    pub moves: u32,
    pub tried: bool,
}

// A found state and what is kept beside it.
#[derive(Clone, Copy)]
pub struct Entry {
    pub state: State,
    pub parent: u32,
    pub moves: u32,
    pub tried: bool,
}

fn entry_at(state: &State, node: &Node) -> Entry
    ensures { result ≡ entry_of state.now node.now }
{
    Entry {
        state: *state,
        parent: node.parent,
        moves: node.moves,
        tried: node.tried,
    }
}

// The states that a search has found. Each has a number, from 0, and those whose steps are still to be
// tried wait in a queue, but for those that were dropped since their priority was too great.
#[derive(Drop)]
pub struct Known {
    states: IndexSet<State>,
    nodes: Vec<Node>,
    waiting: BucketQueue,
    dropped: bool,
}

impl Model for Known {
    ghost use Rattle.std.specs.Prelude.{◌≡◌, length};
    ghost use Rattle.carton_search.specs.Knowledge.{Knowledge, entries_of};

    ghost Value = { Knowledge };

    ghost view = { λ k. record {
      entries = entries_of k.states.keys k.nodes.items;
      waiting = k.waiting;
      dropped = k.dropped;
    } };

    ghost invariant = { λ k. length k.states.keys ≡ length k.nodes.items };
}

// Whether two states are one.
pub fn is_same(a: &State, b: &State) -> bool
    ensures { MatchBool result (a.now ≡ b.now) (a.now ≡ b.now → ⊥) }
{
    a == b
}

impl Known {
    // Nothing is known; memory is taken for so many states, but for their index.
    pub fn with_room(alloc: Global, states: u32) -> Result<Known, OutOfMemory>
        ensures { IfOk result (λ k. IsBlank k states) }
    {
        let waiting = BucketQueue::with_room(alloc, states, BUCKETS)?;
        let nodes = Vec::with_capacity(alloc, states as usize)?;
        Ok(Known {
            states: IndexSet::new(alloc),
            nodes,
            waiting,
            dropped: false,
        })
    }

    // The number of a state, if it was found.
    pub fn number_of(&self, state: &State) -> Option<u32>
        requires { length self.now.entries < 2 ^ 32 }
        ensures { IsNumberOf self.now.entries state.now result }
    {
        match self.states.get_index_of(state) {
            Some(number) => Some(number as u32),
            None => None,
        }
    }

    // The state of that number.
    pub fn entry(&self, number: u32) -> Entry
        requires { number < length self.now.entries }
        ensures { slice_get self.now.entries number ≡ Some result }
    {
        let place = number as usize;
        entry_at(&self.states[place], &self.nodes[place])
    }

    // Adds a new state, and gives its number.
    pub fn add(&mut self, entry: Entry) -> Result<u32, OutOfMemory>
        requires new { Has self.old.entries entry.state → ⊥ }
        requires room { length self.old.entries < 2 ^ 32 }
        ensures number { IfOk result (λ n. n ≡ length self.old.entries) }
        ensures added { OnOk result
            (self.new ≡ record self.old { entries = self.old.entries ++ entry ∷ [] }) }
    {
        let number = self.nodes.len() as u32;
        self.nodes.reserve(1)?;
        self.states.insert(entry.state)?;
        self.nodes.push_reserved(Node {
            parent: entry.parent,
            moves: entry.moves,
            tried: entry.tried,
        });
        Ok(number)
    }

    // Puts what is now known of a state in place of what was.
    pub fn write(&mut self, number: u32, entry: &Entry)
        requires { (e : Entry) × (slice_get self.old.entries number ≡ Some e) × (e.state ≡ entry.now.state) }
        ensures { self.new ≡ record self.old { entries = slice_set self.old.entries number entry.now } }
    {
        self.nodes[number as usize] = Node {
            parent: entry.parent,
            moves: entry.moves,
            tried: entry.tried,
        };
    }

    // Lets a state wait that doesn't, or drops it.
    pub fn put(&mut self, number: u32, priority: u32)
        requires room { number < nodes_of self.old.waiting }
        requires buckets { self.old.waiting.buckets ≡ 4096 }
        requires absent { priority_of self.old.waiting number ≡ None }
        ensures { self.new ≡ with_priority self.old number priority }
    {
        if priority < BUCKETS {
            self.waiting.put(number, priority);
        } else {
            self.dropped = true;
        }
    }

    // Gives a state a lower priority. It waits, or else it was dropped.
    pub fn lower(&mut self, number: u32, old: u32, priority: u32)
        requires room { number < nodes_of self.old.waiting }
        requires buckets { self.old.waiting.buckets ≡ 4096 }
        requires waits { priority_of self.old.waiting number ≡ queued_at old }
        requires less { priority ≤ old }
        ensures { self.new ≡ with_priority self.old number priority }
    {
        if old < BUCKETS {
            self.waiting.lower(number, priority);
        } else {
            self.put(number, priority);
        }
    }

    // Takes out a state with least priority, and gives its number and that priority.
    pub fn take(&mut self) -> Option<(u32, u32)>
        ensures least { MatchOption result (IsEmpty self.old.waiting)
            (λ r. IsLeast self.old.waiting r.0 r.1) }
        ensures rest { MatchOption result (self.new ≡ self.old)
            (λ r. self.new ≡ record self.old { waiting = with_entry self.old.waiting r.0 None }) }
    {
        self.waiting.take_least()
    }

    // Whether a state was dropped.
    pub fn dropped(&self) -> bool
        ensures { result ≡ self.now.dropped }
    {
        self.dropped
    }
}
