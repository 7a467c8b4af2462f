// Images of enclaves.
ghost use Rattle.std.specs.Prelude.{◌≡◌, ◌<◌, ◌≤◌, ◌+◌, ◌*◌, ◌/◌, ℕ, IfOk, OnOk, length, slice_index, string_bytes};
ghost use Rattle.ak_image.specs.Built.{page_bytes, secinfo_of, digest_of};
ghost use Rattle.ak_image.specs.Image;
ghost use Rattle.std.specs.List.{All};
ghost use Rattle.ak_core.specs.Layout.{IsValid, enclave_size};
ghost use Rattle.ak_image.specs.Image.{IsWhole, from_parts, layout_of};

use crate::built::{TCS, copy_page, fill_code, fill_tcs, fill_zeros, regular};
use crate::clusters::Clusters;
use crate::numbers::enclave_size;
use ak_core::{Layout, OutOfMemory, PAGE_SIZE, Page, Perm, all_pages, code_page, tcs_page};
use ak_measure::Measure;
use std::alloc::Global;
use std::marker::Model;

/// An enclave before it is built: all that its layout says, its signer's name, and the bytes of its program's pages.
///
/// Contracts see it as the record of its fields, and every image is whole: its layout is valid on each machine, and each page
/// has 4096 bytes.
#[derive(Drop)]
pub struct Image {
    base: u64,
    entry: u32,
    perms: Vec<Perm>,
    cluster_of: Vec<u32>,
    clusters: u32,
    budget: u32,
    signer: String,
    bytes: Vec<u8>,
}

impl Model for Image {
    ghost Value = { Image.Image };

    ghost view = { λ i. record {
      base = i.base;
      entry = i.entry;
      perms = i.perms.items;
      cluster_of = i.cluster_of.items;
      clusters = i.clusters;
      budget = i.budget;
      signer = string_bytes i.signer;
      bytes = i.bytes.items;
    } };

    ghost invariant = { λ i. IsWhole (record {
      base = i.base;
      entry = i.entry;
      perms = i.perms.items;
      cluster_of = i.cluster_of.items;
      clusters = i.clusters;
      budget = i.budget;
      signer = string_bytes i.signer;
      bytes = i.bytes.items;
    }) };
}

impl Image {
    /// The image with these parts.
    pub(crate) fn new(
        base: u64,
        entry: u32,
        perms: Vec<Perm>,
        clusters: Clusters,
        budget: u32,
        signer: String,
        bytes: Vec<u8>,
    ) -> Image
        requires { IsWhole (record {
          base = base;
          entry = entry;
          perms = perms.items;
          cluster_of = clusters.of.items;
          clusters = clusters.count;
          budget = budget;
          signer = string_bytes signer;
          bytes = bytes.items;
        }) }
        ensures { result ≡ record {
          base = base;
          entry = entry;
          perms = perms.items;
          cluster_of = clusters.of.items;
          clusters = clusters.count;
          budget = budget;
          signer = string_bytes signer;
          bytes = bytes.items;
        } }
    {
        Image {
            base,
            entry,
            perms,
            cluster_of: clusters.of,
            clusters: clusters.count,
            budget,
            signer,
            bytes,
        }
    }

    /// The image with these parts: the permission and the cluster of each page, the clusters numbered from 0 by first appearance,
    /// and the bytes of all pages, one page after the other. Memory is taken for the signer's name alone.
    pub fn from_parts(
        alloc: Global,
        base: u64,
        entry: u32,
        budget: u32,
        signer: &str,
        perms: Vec<Perm>,
        cluster_of: Vec<u32>,
        bytes: Vec<u8>,
    ) -> Result<Image, OutOfMemory>
        requires { IsWhole (from_parts base entry budget signer.now perms.items cluster_of.items bytes.items) }
        ensures { IfOk result (λ image. image ≡ from_parts base entry budget signer.now perms.items cluster_of.items bytes.items) }
    {
        let clusters = Clusters::of_numbers(cluster_of);
        let Ok(signer) = String::from_str(alloc, signer) else {
            return Err(OutOfMemory);
        };
        Ok(Image::new(base, entry, perms, clusters, budget, signer, bytes))
    }

    /// How many pages the program has.
    pub fn pages(&self) -> u32
        ensures pages { result ≡ length self.now.perms }
        ensures whole { IsWhole self.now }
        ensures bytes { All (λ v. v < 256) self.now.bytes }
    {
        whole_pages(&self.bytes)
    }

    /// The size of the enclave in bytes.
    pub fn size(&self) -> u64
        ensures { result ≡ enclave_size (length self.now.perms) }
    {
        enclave_size(u64::from(self.pages()))
    }

    /// The most program pages that may be in at once.
    pub fn budget(&self) -> u32
        ensures { result ≡ self.now.budget }
    {
        self.budget
    }

    /// The signer's name.
    pub fn signer(&self) -> &str
        ensures { result.now ≡ self.now.signer }
    {
        self.signer.as_str()
    }

    /// The layout of the image's enclave on a machine with so many frames and processors.
    pub fn layout(&self, alloc: Global, frames: u32, lps: u8) -> Result<Layout, OutOfMemory>
        requires some_frames { 9 ≤ frames }
        requires few_frames { frames ≤ 8192 }
        requires some_lp { 1 ≤ lps }
        requires few_lps { lps ≤ 4 }
        ensures layout { IfOk result (λ layout. layout ≡ layout_of self.now frames lps) }
        ensures valid { OnOk result (IsValid (layout_of self.now frames lps)) }
    {
        let Ok(perms) = Vec::from_slice(alloc, &self.perms) else {
            return Err(OutOfMemory);
        };
        let Ok(cluster_of) = Vec::from_slice(alloc, &self.cluster_of) else {
            return Err(OutOfMemory);
        };
        Ok(Layout::new(
            self.base,
            self.entry,
            perms,
            cluster_of,
            self.clusters,
            self.budget,
            frames,
            lps,
        ))
    }

    /// Writes the bytes that a page of the enclave has when it is built: a page of the program, or of the runtime.
    #[tactic(auto, unfolding(crate::specs::Built::page_bytes))]
    pub fn fill(&self, p: Page, into: &mut [u8])
        requires page { p.0 < length self.now.perms + 6 }
        requires whole { length into.old ≡ 4096 }
        ensures { into.new ≡ page_bytes self.now p.0 }
    {
        let pages = self.perms.len() as u32;
        let page = p.0;
        if page < pages {
            copy_page(&self.bytes, page as usize, into);
        } else if page == tcs_page(pages) {
            fill_tcs(pages, into);
        } else if page < code_page(pages) {
            fill_zeros(into);
        } else {
            fill_code(&self.cluster_of, &self.perms, self.budget, self.entry, into);
        }
    }

    /// The flags of a page's SECINFO.
    #[tactic(auto, unfolding(crate::specs::Built::secinfo_of))]
    fn secinfo(&self, page: u32) -> u64
        requires { page < length self.now.perms + 6 }
        ensures { result ≡ secinfo_of self.now page }
    {
        let pages = self.perms.len() as u32;
        if page < pages {
            regular(self.perms[page as usize])
        } else if page == tcs_page(pages) {
            TCS
        } else if page < code_page(pages) {
            regular(Perm::Rw)
        } else {
            regular(Perm::Rx)
        }
    }

    /// The measurement of the enclave that the image becomes.
    pub fn digest(&self) -> [u8; 32]
        ensures { result ≡ digest_of self.now }
    {
        let pages = self.pages();
        let mut measure = Measure::new(self.size());
        let mut bytes = [0u8; PAGE_SIZE];
        for page in 0..all_pages(pages) {
            self.fill(Page(page), &mut bytes);
            measure.add_page(
                PAGE_SIZE as u64 * u64::from(page),
                self.secinfo(page),
                &bytes,
            );
        }
        measure.finish()
    }
}

/// How many pages these bytes fill.
fn whole_pages(bytes: &[u8]) -> u32
    requires { length bytes.now ≤ 4096 * 512 }
    ensures pages { result ≡ length bytes.now / 4096 }
    ensures bytes { (k : ℕ) → slice_index bytes.now k < 256 }
{
    (bytes.len() / PAGE_SIZE) as u32
}
