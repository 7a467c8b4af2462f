// The image of a number, and its signers.
ghost use Rattle.std.specs.Prelude.{◌≡◌, ◌++◌, IsTrue, IfOk};
ghost use Rattle.ak_gen.specs.Generated.{each_page, perm_of, cluster_of, generated};
ghost use Rattle.ak_gen.specs.Numbers.{all_words, word_bytes};
ghost use Rattle.ak_gen.specs.Program.{first_page};
ghost use Rattle.ak_image.specs.Built.{digest_of};
ghost use Rattle.ak_measure.specs.Signers.{single, knows, allows};

use crate::numbers::push_page;
use crate::program::push_first_page;
use ak_core::{OutOfMemory, PAGE_SIZE, Perm};
use ak_image::Image;
use ak_measure::Signers;
use std::alloc::{AllocError, Global};

/// How many pages there are.
const PAGES: u32 = 512;

/// The permission of each page: that of page 0 executes, the others are read.
#[tactic(auto, unfolding(crate::specs::Generated::each_page))]
fn perms_of(alloc: Global, pages: u32) -> Result<Vec<Perm>, AllocError>
    ensures { IfOk result (λ perms. perms.items ≡ each_page perm_of pages) }
{
    (0..pages)
        .map(|page| if page == 0 { Perm::Rx } else { Perm::R })
        .collect(alloc)
}

/// The cluster of each page: eight pages are in each.
#[tactic(auto, unfolding(crate::specs::Generated::each_page))]
fn clusters_of(alloc: Global, pages: u32) -> Result<Vec<u32>, AllocError>
    ensures { IfOk result (λ clusters. clusters.items ≡ each_page cluster_of pages) }
{
    (0..pages).map(|page| page / 8).collect(alloc)
}

/// The bytes of all pages: the program, and the words that the number begins.
fn bytes_of(alloc: Global, number: u64) -> Result<Vec<u8>, AllocError>
    ensures { IfOk result (λ bytes. bytes.items ≡ first_page ++ word_bytes all_words number) }
{
    let mut bytes = Vec::with_capacity(alloc, PAGE_SIZE * PAGES as usize)?;
    push_first_page(&mut bytes)?;
    let mut last = number;
    for _page in 1..PAGES {
        last = push_page(&mut bytes, last)?;
    }
    Ok(bytes)
}

/// The image of the number: 512 pages in clusters of eight. Page 0 has a program that goes from word to word of the others,
/// whose words the number begins.
pub fn generate(alloc: Global, number: u64) -> Result<Image, OutOfMemory>
    ensures { IfOk result (λ image. image ≡ generated number) }
{
    const BASE: u64 = 0x4000_0000;
    const BUDGET: u32 = 128;
    let Ok(perms) = perms_of(alloc, PAGES) else {
        return Err(OutOfMemory);
    };
    let Ok(clusters) = clusters_of(alloc, PAGES) else {
        return Err(OutOfMemory);
    };
    let Ok(bytes) = bytes_of(alloc, number) else {
        return Err(OutOfMemory);
    };
    Image::from_parts(alloc, BASE, 0, BUDGET, "demo", perms, clusters, bytes)
}

/// The signers of an image alone: its signer's name, with its measurement.
pub fn own_signers(alloc: Global, image: &Image) -> Result<Signers, OutOfMemory>
    ensures signers { IfOk result (λ signers. signers ≡ single image.now.signer (digest_of image.now)) }
    ensures known { IfOk result (λ signers. IsTrue (knows signers image.now.signer)) }
    ensures allowed { IfOk result (λ signers. IsTrue (allows signers image.now.signer (digest_of image.now))) }
{
    Signers::single(alloc, image.signer(), &image.digest())
}
