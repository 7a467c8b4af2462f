// What the kernel may know of an enclave.
ghost use Rattle.std.specs.Prelude.{◌≡◌};
ghost use Rattle.ak_core.specs.Layout;
ghost use Rattle.ak_core.specs.Layout.{IsValid};

use crate::Perm;
use std::marker::Model;

/// An enclave's pages, clusters and limits, without any byte of a page.
///
/// Contracts see it as the record of its fields, and every layout is valid: both lists have one element for each page,
/// clusters are numbered from 0 by first appearance, and all numbers are within their limits.
#[derive(Drop)]
pub struct Layout {
    base: u64,
    entry: u32,
    perms: Vec<Perm>,
    cluster_of: Vec<u32>,
    clusters: u32,
    budget: u32,
    frames: u32,
    lps: u8,
}

impl Model for Layout {
    ghost Value = { Layout.Layout };

    ghost view = { λ l. record {
      base = l.base;
      entry = l.entry;
      perms = l.perms.items;
      cluster_of = l.cluster_of.items;
      clusters = l.clusters;
      budget = l.budget;
      frames = l.frames;
      lps = l.lps;
    } };

    ghost invariant = { λ l. IsValid (record {
      base = l.base;
      entry = l.entry;
      perms = l.perms.items;
      cluster_of = l.cluster_of.items;
      clusters = l.clusters;
      budget = l.budget;
      frames = l.frames;
      lps = l.lps;
    }) };
}

impl Layout {
    /// The layout with these fields, which have to be those of a valid one. It takes no memory.
    pub fn new(
        base: u64,
        entry: u32,
        perms: Vec<Perm>,
        cluster_of: Vec<u32>,
        clusters: u32,
        budget: u32,
        frames: u32,
        lps: u8,
    ) -> Layout
        requires { IsValid (record {
          base = base;
          entry = entry;
          perms = perms.items;
          cluster_of = cluster_of.items;
          clusters = clusters;
          budget = budget;
          frames = frames;
          lps = lps;
        }) }
        ensures base { result.base ≡ base }
        ensures entry { result.entry ≡ entry }
        ensures perms { result.perms ≡ perms.items }
        ensures cluster_of { result.cluster_of ≡ cluster_of.items }
        ensures clusters { result.clusters ≡ clusters }
        ensures budget { result.budget ≡ budget }
        ensures frames { result.frames ≡ frames }
        ensures lps { result.lps ≡ lps }
    {
        Layout {
            base,
            entry,
            perms,
            cluster_of,
            clusters,
            budget,
            frames,
            lps,
        }
    }

    /// The linear address of page 0: a multiple of the enclave's size.
    pub fn base(&self) -> u64
        ensures base { result ≡ self.now.base }
        ensures valid { IsValid self.now }
    {
        self.base
    }

    /// The offset of the first instruction from the base.
    pub fn entry(&self) -> u32
        ensures { result ≡ self.now.entry }
    {
        self.entry
    }

    /// The permission of each program page.
    pub fn perms(&self) -> &[Perm]
        ensures perms { result.now ≡ self.now.perms }
        ensures valid { IsValid self.now }
    {
        &self.perms
    }

    /// The cluster of each program page.
    pub fn cluster_of(&self) -> &[u32]
        ensures { result.now ≡ self.now.cluster_of }
    {
        &self.cluster_of
    }

    /// The number of clusters.
    pub fn clusters(&self) -> u32
        ensures { result ≡ self.now.clusters }
    {
        self.clusters
    }

    /// The most program pages that may be in at once.
    pub fn budget(&self) -> u32
        ensures { result ≡ self.now.budget }
    {
        self.budget
    }

    /// The number of frames of the page cache.
    pub fn frames(&self) -> u32
        ensures { result ≡ self.now.frames }
    {
        self.frames
    }

    /// The number of logical processors.
    pub fn lps(&self) -> u8
        ensures { result ≡ self.now.lps }
    {
        self.lps
    }
}
