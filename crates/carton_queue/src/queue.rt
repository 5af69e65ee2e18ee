ghost use Rattle.std.specs.Prelude.{◌≡◌, ◌<◌, ◌≤◌, ℕ, Option, Some, None, MatchOption, IfOk};
ghost use Rattle.carton_queue.specs.Waits.{nodes_of, priority_of, with_entry, IsLeast, IsEmpty};

use crate::rings::Rings;
use carton_base::OutOfMemory;
use std::alloc::Global;
use std::marker::Model;

/// Numbered nodes that wait, each with a priority; one with least priority comes out first.
/// Contracts see the priority of each node, and the two numbers that the queue was made with.
#[derive(Drop)]
pub struct BucketQueue {
    rings: Rings,
    least: u32,
}

impl Model for BucketQueue {
    ghost use Rattle.carton_queue.specs.Waits.{Waiting};

    ghost Value = { Waiting };

    ghost view = { λ q. record { priorities = q.rings.priorities; buckets = q.rings.buckets } };

    ghost use Rattle.carton_queue.specs.Linked.{IsKept};

    ghost invariant = { λ q. IsKept q.rings.priorities q.rings.links q.rings.buckets q.least };
}

impl BucketQueue {
    /// An empty queue, for nodes below `nodes` and priorities below `buckets`. It takes the memory
    /// for all of them; the other calls take none.
    pub fn with_room(alloc: Global, nodes: u32, buckets: u32) -> Result<BucketQueue, OutOfMemory>
        ensures empty { IfOk result (λ q. IsEmpty q) }
        ensures nodes { IfOk result (λ q. nodes_of q ≡ nodes) }
        ensures buckets { IfOk result (λ q. q.buckets ≡ buckets) }
    {
        let rings = Rings::with_room(alloc, nodes, buckets)?;
        Ok(BucketQueue { rings, least: 0 })
    }

    // The number that each node is below.
    pub(crate) fn nodes(&self) -> usize
        ensures { result ≡ nodes_of self.now }
    {
        self.rings.priorities.len()
    }

    // The number that each priority is below.
    pub(crate) fn buckets(&self) -> u32
        ensures { result ≡ self.now.buckets }
    {
        self.rings.buckets
    }

    // The priority of a node that waits.
    pub(crate) fn priority(&self, node: u32) -> Option<u32>
        ensures { result ≡ priority_of self.now node }
    {
        if node as usize >= self.rings.priorities.len() {
            return None;
        }
        self.rings.priorities.get(node as usize)
    }

    /// Adds a node.
    pub fn put(&mut self, node: u32, priority: u32)
        requires node { node < nodes_of self.old }
        requires priority { priority < self.old.buckets }
        requires absent { priority_of self.old node ≡ None }
        ensures { self.new ≡ with_entry self.old node (Some priority) }
    {
        self.rings.add(node, priority);
        self.least = self.least.min(priority);
    }

    /// Gives a node that waits another priority, which isn't greater.
    pub fn lower(&mut self, node: u32, priority: u32)
        requires { (p : ℕ) × (priority_of self.old node ≡ Some p) × (priority ≤ p) }
        ensures { self.new ≡ with_entry self.old node (Some priority) }
    {
        self.rings.move_to(node, priority);
        self.least = priority.min(self.least);
    }

    /// Takes out a node with least priority, and gives the node and that priority. Which of several
    /// such nodes it is isn't promised.
    pub fn take_least(&mut self) -> Option<(u32, u32)>
        ensures least { MatchOption result (IsEmpty self.old) (λ r. IsLeast self.old r.0 r.1) }
        ensures rest { MatchOption result (self.new ≡ self.old)
            (λ r. self.new ≡ with_entry self.old r.0 None) }
    {
        let Some((node, priority)) = self.rings.first_from(self.least) else {
            self.least = self.rings.buckets;
            return None;
        };
        self.rings.take_out(node);
        self.least = priority;
        Some((node, priority))
    }

    /// Takes out a node, and gives the priority that it had.
    pub fn remove(&mut self, node: u32) -> Option<u32>
        requires { node < nodes_of self.old }
        ensures result { result ≡ priority_of self.old node }
        ensures rest { self.new ≡ with_entry self.old node None }
    {
        let Some(priority) = self.priority(node) else {
            return None;
        };
        self.rings.take_out(node);
        Some(priority)
    }
}
