// The build, from ECREATE to EINIT.
ghost use Rattle.std.specs.Prelude.{◌≡◌, ◌↔◌, ◌≤◌, ℕ, true, false, Err, IfOk, OnOk, length};
ghost use Rattle.ak_measure.specs.Signers.{knows, allows};
ghost use Rattle.ak_image.specs.Built.{digest_of};
ghost use Rattle.ak_image.specs.Image.{layout_of};
ghost use Rattle.ak_relation.specs.State.MachineState.{Processor};
ghost use Rattle.ak_build.specs.Adding.{HasAdded, HasBytes};
ghost use Rattle.ak_build.specs.Mapping.{MapsEach};
ghost use Rattle.ak_build.specs.Built.{AreOutside, BuiltAs, HoldsPages};

use crate::adding::{add_runtime, begun, seal_program};
use crate::mapping::built_table;
use ak_core::{BuildFault, Layout, OutOfMemory};
use ak_encls::{Encls, InitFault};
use ak_image::Image;
use ak_measure::Signers;
use ak_pte::PageTable;
use std::alloc::Global;

/// An enclave as its build leaves it, before any move of the kernel.
#[derive(Drop)]
pub struct Built {
    /// What the kernel may know of it.
    pub layout: Layout,
    /// Its frames and sealed pages, and what is known of them.
    pub encls: Encls,
    /// The kernel's page table.
    pub table: PageTable,
}

/// Builds the enclave of an image, where the signers allow its measurement, in so many frames and for so many processors (SDM volume
/// 3D, ECREATE to EINIT).
///
/// The SECS is in frame 0, and a VA page in frame 1. All pages are added and measured in ascending order: each one of the program
/// passes through frame 8, and is written out into the slot of its number under the handle of its number; those of the runtime stay
/// in frames 2 to 7, and are mapped to them. The other frames are free.
///
/// What EINIT refuses comes before want of memory.
pub fn build(
    alloc: Global,
    image: &Image,
    signers: &Signers,
    frames: u32,
    lps: u8,
) -> Result<Built, BuildFault>
    requires some_frames { 9 ≤ frames }
    requires few_frames { frames ≤ 8192 }
    requires some_lp { 1 ≤ lps }
    requires few_lps { lps ≤ 4 }
    ensures unknown { (result ≡ Err BuildFault.UnknownSigner) ↔ (knows signers.now image.now.signer ≡ false) }
    ensures unsigned { (result ≡ Err BuildFault.MeasurementNotSigned)
        ↔ ((knows signers.now image.now.signer ≡ true) × (allows signers.now image.now.signer (digest_of image.now) ≡ false)) }
    ensures layout { IfOk result (λ b. b.layout ≡ layout_of image.now frames lps) }
    ensures built { IfOk result (λ b. (processors : ℕ → Processor) → AreOutside processors
        → BuiltAs (layout_of image.now frames lps) image.now.bytes b processors) }
    ensures pages { IfOk result (λ b. HoldsPages image.now b.encls) }
{
    let Ok(built) = of_image(alloc, image, frames, lps) else {
        return Err(without_memory(image, signers));
    };
    match built.encls.einit(signers, image.signer()) {
        Ok(()) => Ok(built),
        Err(InitFault::UnknownSigner) => Err(BuildFault::UnknownSigner),
        Err(InitFault::MeasurementNotSigned) => Err(BuildFault::MeasurementNotSigned),
    }
}

// The enclave before EINIT.
fn of_image(alloc: Global, image: &Image, frames: u32, lps: u8) -> Result<Built, OutOfMemory>
    requires some_frames { 9 ≤ frames }
    requires few_frames { frames ≤ 8192 }
    requires some_lp { 1 ≤ lps }
    requires few_lps { lps ≤ 4 }
    ensures layout { IfOk result (λ b. b.layout ≡ layout_of image.now frames lps) }
    ensures added { IfOk result (λ b. HasAdded image.now frames lps b.encls (length image.now.perms) 6) }
    ensures mapped { IfOk result (λ b. MapsEach (layout_of image.now frames lps) b.table) }
    ensures bytes { OnOk result (HasBytes image.now) }
{
    let layout = image.layout(alloc, frames, lps)?;
    let mut encls = begun(alloc, image, frames, lps)?;
    let table = built_table(alloc, &layout)?;
    seal_program(&mut encls, &layout, image);
    add_runtime(&mut encls, &layout, image);
    Ok(Built {
        layout,
        encls,
        table,
    })
}

// Why an enclave is not built, where memory ran out. What EINIT would answer needs none.
fn without_memory(image: &Image, signers: &Signers) -> BuildFault
    ensures unknown { (result ≡ BuildFault.UnknownSigner) ↔ (knows signers.now image.now.signer ≡ false) }
    ensures unsigned { (result ≡ BuildFault.MeasurementNotSigned)
        ↔ ((knows signers.now image.now.signer ≡ true) × (allows signers.now image.now.signer (digest_of image.now) ≡ false)) }
{
    if !signers.knows(image.signer()) {
        return BuildFault::UnknownSigner;
    }
    if !signers.allows(image.signer(), &image.digest()) {
        return BuildFault::MeasurementNotSigned;
    }
    BuildFault::OutOfMemory
}
