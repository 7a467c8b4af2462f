// The queue as a list of clusters.
ghost use Rattle.std.specs.Prelude.{◌≡◌, ◌<◌, ◌≤◌, ◌+◌, ◌*◌, ◌∷◌, ◌++◌, [], List, ℕ, false, length, drop};
ghost use Rattle.ak_core.specs.Layout.{size_of};
ghost use Rattle.ak_model.specs.Clusters.Queue.{drops, is_in, total_size};
ghost use Rattle.ak_cluster.specs.QueueBytes.{HasQueue, HasSomeQueue, IsQueue, KeepsOthers, with_queue};

use crate::state_bytes::{cluster_in, count_in, put_clusters, put_count};
use ak_core::{Layout, PAGE_SIZE};
use arrayvec::ArrayVec;
use std::marker::Model;

/// The clusters that are in, at most 512.
///
/// Contracts see it as the list of their numbers, the next to leave first: different ones, each below 512.
#[derive(Drop)]
pub struct Policy {
    queue: ArrayVec<u16, 512>,
}

impl Model for Policy {
    ghost use Rattle.std.specs.Prelude.{List, ℕ};
    ghost use Rattle.ak_cluster.specs.QueueBytes.{IsQueue};

    ghost Value = { List ℕ };

    ghost view = { λ p. p.queue.items };

    ghost invariant = { λ p. IsQueue p.queue.items };
}

impl Policy {
    /// The queue that the 4096 bytes of STATE say.
    pub fn load(state: &[u8]) -> Policy
        requires page { length state.now ≡ PAGE_SIZE }
        requires queue { HasSomeQueue state.now }
        ensures { (queue : List ℕ) → HasQueue state.now queue → result ≡ queue }
    {
        let count = count_in(state) as usize;
        let mut queue = ArrayVec::new();
        for i in 0..count {
            queue.push(cluster_in(state, i));
        }
        Policy { queue }
    }

    /// Puts the queue into the 4096 bytes of STATE, whose other bytes stay.
    pub fn store(&self, state: &mut [u8])
        requires { length state.old ≡ PAGE_SIZE }
        ensures bytes { state.new ≡ with_queue state.old self.now }
        ensures stored { HasQueue state.new self.now }
        ensures valid { IsQueue self.now }
        ensures others { KeepsOthers state.old state.new }
    {
        let queue = self.queue.as_slice();
        put_count(state, queue.len() as u64);
        put_clusters(state, queue);
    }

    /// The cluster is in.
    pub fn is_in(&self, c: u32) -> bool
        ensures { result ≡ is_in self.now c }
    {
        self.queue.as_slice().iter().any(|x| u32::from(*x) == c)
    }

    /// Drops the fewest clusters from the front so that the pages of the rest and of `c` are within the layout's budget, and says
    /// how many they were.
    pub fn drop_for(&mut self, layout: &Layout, c: u32) -> u32
        ensures count { result ≡ drops layout.now self.old c }
        ensures rest { self.new ≡ drop result self.old }
    {
        let count = count_drops(layout, self.queue.as_slice(), c);
        for _dropped in 0..count {
            self.queue.remove(0);
        }
        count
    }

    /// Adds a cluster below 512 that is out, at the back.
    pub fn append(&mut self, c: u32)
        requires known { c < 512 }
        requires out { is_in self.old c ≡ false }
        ensures { self.new ≡ self.old ++ c ∷ [] }
    {
        self.queue.push(c as u16);
    }
}

/// How many pages a cluster has.
fn size_of(layout: &Layout, c: u32) -> u32
    ensures size { result ≡ size_of layout.now.cluster_of c }
    ensures small { result ≤ 512 }
{
    // One cluster for each page.
    let pages = layout.perms().len();
    layout.cluster_of()[..pages]
        .iter()
        .filter(|x| **x == c)
        .count() as u32
}

/// How many pages these clusters have together.
fn total_size(layout: &Layout, queue: &[u16]) -> u32
    requires { length queue.now ≤ 512 }
    ensures total { result ≡ total_size layout.now queue.now }
    ensures small { result ≤ 512 * length queue.now }
{
    let mut total = 0;
    for x in queue {
        total += size_of(layout, u32::from(*x));
    }
    total
}

/// How many clusters have to leave the front of the queue, so that the rest and `c` are within the budget.
fn count_drops(layout: &Layout, queue: &[u16], c: u32) -> u32
    requires { length queue.now ≤ 512 }
    ensures count { result ≡ drops layout.now queue.now c }
    ensures some { result ≤ length queue.now }
{
    let mut total = total_size(layout, queue) + size_of(layout, c);
    for (i, x) in queue.iter().enumerate() {
        if total <= layout.budget() {
            return i as u32;
        }
        total -= size_of(layout, u32::from(*x));
    }
    queue.len() as u32
}
