ghost use Rattle.std.specs.Prelude.{◌≡◌, ◌+◌, ◌<◌, ◌^◌, ℕ, IfOk, length, slice_set, slice_index_or};
ghost use Rattle.carton_queue.specs.Linked.{next_of, previous_of, IsSet};

use crate::entries::Entries;
use carton_base::OutOfMemory;
use std::alloc::Global;
use std::marker::Model;

// The slots after and before a slot in its ring.
#[derive(Clone, Copy, Debug, Drop, PartialEq, Eq)]
pub struct Link {
    pub next: usize,
    pub previous: usize,
}

// The links of all slots: of the nodes, and after them of each bucket's own slot.
#[derive(Drop)]
pub struct Links {
    nodes: Entries<Link>,
    heads: Vec<Link>,
}

impl Model for Links {
    ghost use Rattle.std.specs.Prelude.{List, ◌++◌};
    ghost use Rattle.carton_queue.specs.declared.links.Link.{Link};

    ghost Value = { List Link };

    ghost view = { λ l. l.nodes ++ l.heads.items };
}

// The links of buckets' own slots, which begin at a slot: each follows itself.
fn heads_from(alloc: Global, start: usize, buckets: u32) -> Result<Vec<Link>, OutOfMemory>
    requires { start < 2 ^ 32 }
    ensures len { IfOk result (λ v. length v.items ≡ buckets) }
    ensures next { IfOk result (λ v. (i : ℕ) → i < buckets → next_of v.items i ≡ start + i) }
    ensures previous { IfOk result (λ v. (i : ℕ) → i < buckets → previous_of v.items i ≡ start + i) }
{
    let mut heads = Vec::with_capacity(alloc, buckets as usize)?;
    for i in 0..buckets as usize {
        heads.push(Link {
            next: start + i,
            previous: start + i,
        })?;
    }
    Ok(heads)
}

impl Links {
    // Links with no node in a ring: each bucket's own slot follows itself.
    pub fn with_room(alloc: Global, nodes: u32, buckets: u32) -> Result<Links, OutOfMemory>
        ensures len { IfOk result (λ l. length l ≡ nodes + buckets) }
        ensures next { IfOk result (λ l. (b : ℕ) → b < buckets → next_of l (nodes + b) ≡ nodes + b) }
        ensures previous { IfOk result (λ l. (b : ℕ) → b < buckets → previous_of l (nodes + b) ≡ nodes + b) }
    {
        let links = Entries::with_room(
            alloc,
            nodes as usize,
            Link {
                next: 0,
                previous: 0,
            },
        )?;
        let heads = heads_from(alloc, nodes as usize, buckets)?;
        Ok(Links {
            nodes: links,
            heads,
        })
    }

    // The link of a slot.
    fn at(&self, slot: usize) -> Link
        requires { slot < length self.now }
        ensures { (d : Link) → result ≡ slice_index_or self.now slot d }
    {
        let nodes = self.nodes.len();
        if slot < nodes {
            self.nodes.get(slot)
        } else {
            self.heads[slot - nodes]
        }
    }

    // Sets the link of a slot.
    fn set(&mut self, slot: usize, link: Link)
        requires { slot < length self.old }
        ensures { self.new ≡ slice_set self.old slot link }
    {
        let nodes = self.nodes.len();
        if slot < nodes {
            self.nodes.set(slot, link);
        } else {
            self.heads[slot - nodes] = link;
        }
    }
}

// Sets the slot after a slot.
pub fn set_next(links: &mut Links, at: usize, to: usize)
    requires { at < length links.old }
    ensures len { length links.new ≡ length links.old }
    ensures next { IsSet (next_of links.old) (next_of links.new) at to }
    ensures previous { (i : ℕ) → previous_of links.new i ≡ previous_of links.old i }
{
    let link = links.at(at);
    links.set(
        at,
        Link {
            next: to,
            previous: link.previous,
        },
    );
}

// Sets the slot before a slot.
pub fn set_previous(links: &mut Links, at: usize, to: usize)
    requires { at < length links.old }
    ensures len { length links.new ≡ length links.old }
    ensures next { (i : ℕ) → next_of links.new i ≡ next_of links.old i }
    ensures previous { IsSet (previous_of links.old) (previous_of links.new) at to }
{
    let link = links.at(at);
    links.set(
        at,
        Link {
            next: link.next,
            previous: to,
        },
    );
}

// The slot after a slot.
pub fn next_at(links: &Links, at: usize) -> usize
    requires { at < length links.now }
    ensures { result ≡ next_of links.now at }
{
    links.at(at).next
}

// The slot before a slot.
pub fn previous_at(links: &Links, at: usize) -> usize
    requires { at < length links.now }
    ensures { result ≡ previous_of links.now at }
{
    links.at(at).previous
}
