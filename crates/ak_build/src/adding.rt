// Pages are added, measured, and where they are the program's written out.
ghost use Rattle.std.specs.Prelude.{◌≡◌, ◌<◌, ◌≤◌, ◌+◌, IfOk, OnOk, length};
ghost use Rattle.ak_build.specs.Adding.{HasAdded, HasBytes};

use crate::runtime::{runtime_perm, runtime_type};
use ak_core::{
    Frame, Layout, OutOfMemory, PAGE_SIZE, PROGRAM_FRAME, Page, RUNTIME_FRAME, RUNTIME_PAGES,
    tcs_page,
};
use ak_encls::Encls;
use ak_image::Image;
use std::alloc::Global;

/// The frame of the VA page. Its slots name the program's pages.
const VA_FRAME: Frame = Frame(1);

/// The frame through which the program's pages pass.
const PASSING_FRAME: Frame = Frame(PROGRAM_FRAME);

/// The enclave with its SECS and a VA page, and with all the memory that its build takes.
pub(crate) fn begun(
    alloc: Global,
    image: &Image,
    frames: u32,
    lps: u8,
) -> Result<Encls, OutOfMemory>
    requires some_frames { 9 ≤ frames }
    requires few_lps { lps ≤ 4 }
    ensures begun { IfOk result (λ encls. HasAdded image.now frames lps encls 0 0) }
    ensures bytes { OnOk result (HasBytes image.now) }
{
    let mut encls = Encls::ecreate(alloc, image.size(), frames, lps)?;
    encls.reserve(image.pages())?;
    encls.add_va(VA_FRAME);
    Ok(encls)
}

/// Adds the program's pages, and writes each out.
pub(crate) fn seal_program(encls: &mut Encls, layout: &Layout, image: &Image)
    requires same { layout.now.perms ≡ image.now.perms }
    requires begun { HasAdded image.now layout.now.frames layout.now.lps encls.old 0 0 }
    ensures { HasAdded image.now layout.now.frames layout.now.lps encls.new (length image.now.perms) 0 }
{
    for p in 0..image.pages() {
        seal_page(encls, layout, image, Page(p));
    }
}

/// Adds the runtime's pages.
pub(crate) fn add_runtime(encls: &mut Encls, layout: &Layout, image: &Image)
    requires same { layout.now.perms ≡ image.now.perms }
    requires sealed { HasAdded image.now layout.now.frames layout.now.lps encls.old (length image.now.perms) 0 }
    ensures { HasAdded image.now layout.now.frames layout.now.lps encls.new (length image.now.perms) 6 }
{
    for i in 0..RUNTIME_PAGES {
        add_runtime_page(encls, layout, image, i);
    }
}

// Adds the next page of the program, and writes it out into the slot of its number.
fn seal_page(encls: &mut Encls, layout: &Layout, image: &Image, p: Page)
    requires page { p.0 < length image.now.perms }
    requires same { layout.now.perms ≡ image.now.perms }
    requires so_far { HasAdded image.now layout.now.frames layout.now.lps encls.old p.0 0 }
    ensures { HasAdded image.now layout.now.frames layout.now.lps encls.new (p.0 + 1) 0 }
{
    let mut bytes = [0; PAGE_SIZE];
    image.fill(p, &mut bytes);
    let perm = layout.perms()[p.0 as usize];
    encls.add_sealed_page(PASSING_FRAME, p, perm, &bytes, VA_FRAME, p.0 as u16);
}

// Adds the next page of the runtime, in its frame.
fn add_runtime_page(encls: &mut Encls, layout: &Layout, image: &Image, i: u32)
    requires page { i < 6 }
    requires same { layout.now.perms ≡ image.now.perms }
    requires so_far { HasAdded image.now layout.now.frames layout.now.lps encls.old (length image.now.perms) i }
    ensures { HasAdded image.now layout.now.frames layout.now.lps encls.new (length image.now.perms) (i + 1) }
{
    let pages = layout.perms().len() as u32;
    let p = Page(tcs_page(pages) + i);
    let mut bytes = [0; PAGE_SIZE];
    image.fill(p, &mut bytes);
    let frame = Frame(RUNTIME_FRAME + i);
    encls.add_page(frame, p, runtime_type(i), runtime_perm(i), &bytes);
}
