ghost use Rattle.std.specs.Prelude.{◌≡◌, ◌+◌, ◌<◌, ◌≤◌, ◌^◌, ℕ, Some, None, MatchOption, IfOk, length};
ghost use Rattle.std.specs.Prelude.{slice_set};
ghost use Rattle.carton_queue.specs.Waits.{priority_at};
ghost use Rattle.carton_queue.specs.Linked.{next_of, previous_of, IsSet, AreSet, IsLinked, IsFirst};

use crate::entries::Entries;
use crate::links::{Links, next_at, previous_at, set_next, set_previous};
use carton_base::OutOfMemory;
use std::alloc::Global;

// Each node's priority, and for each bucket a ring of its own slot and of the nodes with that
// priority. The first slots are the nodes; after them each bucket has one.
#[derive(Drop)]
pub struct Rings {
    pub priorities: Entries<Option<u32>>,
    pub links: Links,
    pub buckets: u32,
}

// Puts a slot that is in no ring right after another one.
fn insert_after(links: &mut Links, node: usize, place: usize)
    requires node { node < length links.old }
    requires place { place < length links.old }
    requires head { next_of links.old place < length links.old }
    requires apart { node ≡ place → ⊥ }
    requires apart_head { node ≡ next_of links.old place → ⊥ }
    ensures len { length links.new ≡ length links.old }
    ensures next { AreSet (next_of links.old) (next_of links.new) node (next_of links.old place) place node }
    ensures previous { AreSet (previous_of links.old) (previous_of links.new) node place
        (next_of links.old place) node }
{
    let head = next_at(links, place);
    set_next(links, node, head);
    set_previous(links, node, place);
    set_next(links, place, node);
    set_previous(links, head, node);
}

// Takes a slot out of its ring: its neighbours follow each other.
fn unlink(links: &mut Links, node: usize)
    requires node { node < length links.old }
    requires next { next_of links.old node < length links.old }
    requires previous { previous_of links.old node < length links.old }
    ensures len { length links.new ≡ length links.old }
    ensures next { IsSet (next_of links.old) (next_of links.new) (previous_of links.old node)
        (next_of links.old node) }
    ensures previous { IsSet (previous_of links.old) (previous_of links.new) (next_of links.old node)
        (previous_of links.old node) }
{
    let next = next_at(links, node);
    let previous = previous_at(links, node);
    set_next(links, previous, next);
    set_previous(links, next, previous);
}

impl Rings {
    // Rings with no node.
    pub fn with_room(alloc: Global, nodes: u32, buckets: u32) -> Result<Rings, OutOfMemory>
        ensures linked { IfOk result (λ r. IsLinked r.priorities r.links r.buckets) }
        ensures empty { IfOk result (λ r. (n : ℕ) → priority_at r.priorities n ≡ None) }
        ensures nodes { IfOk result (λ r. length r.priorities ≡ nodes) }
        ensures buckets { IfOk result (λ r. r.buckets ≡ buckets) }
    {
        let priorities = Entries::with_room(alloc, nodes as usize, None)?;
        let links = Links::with_room(alloc, nodes, buckets)?;
        Ok(Rings {
            priorities,
            links,
            buckets,
        })
    }

    // Puts a node into the ring of its priority.
    pub fn add(&mut self, node: u32, priority: u32)
        requires linked { IsLinked self.old.priorities self.old.links self.old.buckets }
        requires node { node < length self.old.priorities }
        requires short { length self.old.priorities < 2 ^ 32 }
        requires priority { priority < self.old.buckets }
        requires absent { priority_at self.old.priorities node ≡ None }
        ensures priorities { self.new.priorities ≡ slice_set self.old.priorities node (Some priority) }
        ensures buckets { self.new.buckets ≡ self.old.buckets }
        ensures linked { IsLinked self.new.priorities self.new.links self.new.buckets }
    {
        let place = self.priorities.len() + priority as usize;
        insert_after(&mut self.links, node as usize, place);
        self.priorities.set(node as usize, Some(priority));
    }

    // Takes a node out of its ring.
    pub fn take_out(&mut self, node: u32)
        requires linked { IsLinked self.old.priorities self.old.links self.old.buckets }
        requires present { (p : ℕ) × (priority_at self.old.priorities node ≡ Some p) }
        ensures priorities { self.new.priorities ≡ slice_set self.old.priorities node None }
        ensures buckets { self.new.buckets ≡ self.old.buckets }
        ensures linked { IsLinked self.new.priorities self.new.links self.new.buckets }
    {
        unlink(&mut self.links, node as usize);
        self.priorities.set(node as usize, None);
    }

    // Moves a node into the ring of another priority.
    pub fn move_to(&mut self, node: u32, priority: u32)
        requires linked { IsLinked self.old.priorities self.old.links self.old.buckets }
        requires present { (p : ℕ) × (priority_at self.old.priorities node ≡ Some p) }
        requires short { length self.old.priorities < 2 ^ 32 }
        requires priority { priority < self.old.buckets }
        ensures priorities { self.new.priorities ≡ slice_set self.old.priorities node (Some priority) }
        ensures buckets { self.new.buckets ≡ self.old.buckets }
        ensures linked { IsLinked self.new.priorities self.new.links self.new.buckets }
    {
        self.take_out(node);
        self.add(node, priority);
    }

    // A node with least priority, and that priority. The search begins at a bucket.
    pub fn first_from(&self, from: u32) -> Option<(u32, u32)>
        requires linked { IsLinked self.now.priorities self.now.links self.now.buckets }
        requires short { length self.now.priorities < 2 ^ 32 }
        requires least { (n p : ℕ) → priority_at self.now.priorities n ≡ Some p → from ≤ p }
        ensures { IsFirst self.now.priorities result }
    {
        for bucket in from..self.buckets {
            let place = self.priorities.len() + bucket as usize;
            let node = next_at(&self.links, place);
            if node != place {
                return Some((node as u32, bucket));
            }
        }
        None
    }
}
