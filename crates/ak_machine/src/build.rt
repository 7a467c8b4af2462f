// The build.
ghost use Rattle.std.specs.Prelude.{◌≡◌, ◌↔◌, ◌≤◌, ℕ, List, true, false, Err, IfOk, Some, length, slice_get, []};
ghost use Rattle.ak_measure.specs.Signers.{knows, allows};
ghost use Rattle.ak_image.specs.Built.{digest_of};
ghost use Rattle.ak_image.specs.Image.{layout_of};
ghost use Rattle.ak_build.specs.Built.{HoldsPages};
ghost use Rattle.ak_enclu.specs.declared.cpu.Cpu.{Cpu as TheCpu};
ghost use Rattle.ak_machine.specs.Machines.{AreNew, IsJustBuilt};

use crate::machine::Machine;
use ak_build::{Built, build};
use ak_core::{BuildFault, Lp, OutOfMemory};
use ak_enclu::Cpu;
use ak_image::Image;
use ak_measure::Signers;
use ak_memory::Memory;
use std::alloc::Global;

/// So many processors, all outside.
fn processors(alloc: Global, lps: u8) -> Result<Vec<Cpu>, OutOfMemory>
    ensures { IfOk result (λ cpus. AreNew lps cpus.items) }
{
    let mut cpus = Vec::new(alloc);
    for lp in 0..lps {
        let Ok(()) = cpus.push(outside(Lp(lp))) else {
            return Err(OutOfMemory);
        };
    }
    Ok(cpus)
}

/// A processor that is outside, with nothing cached.
fn outside(lp: Lp) -> Cpu
    ensures lp { result.lp ≡ lp }
    ensures outside { result.inside ≡ false }
    ensures empty { result.tlb ≡ [] }
{
    Cpu::outside(lp)
}

impl Machine {
    /// The machine of an image, before any move, where the signers allow it, in so many frames and with so many processors: each page
    /// of the program is written out, and each page of the runtime is in its frame and mapped to it. What EINIT refuses comes before
    /// want of memory.
    pub fn build(
        alloc: Global,
        image: &Image,
        signers: &Signers,
        frames: u32,
        lps: u8,
    ) -> Result<Machine, BuildFault>
        requires some_frames { 9 ≤ frames }
        requires few_frames { frames ≤ 8192 }
        requires some_lp { 1 ≤ lps }
        requires few_lps { lps ≤ 4 }
        ensures unknown { (result ≡ Err BuildFault.UnknownSigner) ↔ (knows signers.now image.now.signer ≡ false) }
        ensures unsigned { (result ≡ Err BuildFault.MeasurementNotSigned)
            ↔ ((knows signers.now image.now.signer ≡ true) × (allows signers.now image.now.signer (digest_of image.now) ≡ false)) }
        ensures layout { IfOk result (λ m. m.layout ≡ layout_of image.now frames lps) }
        ensures built { IfOk result (λ m. IsJustBuilt image.now.bytes m) }
        ensures pages { IfOk result (λ m. HoldsPages image.now m.encls) }
    {
        let Built {
            layout,
            encls,
            table,
        } = match build(alloc, image, signers, frames, lps) {
            Ok(built) => built,
            Err(fault) => return Err(fault),
        };
        // The layout is valid.
        let _base = layout.base();
        let Ok(cpus) = processors(alloc, lps) else {
            return Err(BuildFault::OutOfMemory);
        };
        Ok(Machine {
            layout,
            memory: Memory::new(encls, table),
            cpus,
        })
    }
}
