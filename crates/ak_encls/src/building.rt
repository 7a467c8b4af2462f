// The build of an enclave: ECREATE, EADD, EEXTEND and EINIT.
ghost use Rattle.std.specs.Prelude.{◌≡◌, ◌↔◌, ◌+◌, ◌*◌, ◌^◌, ◌<◌, ◌≤◌, ◌-◌, ◌==◌, if◌then◌else◌, ◌++◌, ℕ, true, false, List, [], ◌∷◌, Some, Err, length, replicate, slice_set, IfOk};
ghost use Rattle.sha2.specs.Sha256.{sha256};
ghost use Rattle.ak_model.specs.Flat.Instructions.{number_at};
ghost use Rattle.ak_epcm.specs.Entries.{entry_at, free_entry, is_addressed, is_of_page, HasNoFrame};
ghost use Rattle.ak_measure.specs.Absorbed.{HasAbsorbed};
ghost use Rattle.ak_measure.specs.Blocks.{create_block, add_block, extend_block, chunk_at, page_blocks};
ghost use Rattle.ak_measure.specs.Secinfo.{secinfo as flags_of};
ghost use Rattle.ak_measure.specs.Signers.{knows, allows};
ghost use Rattle.ak_sealed.specs.SealedPages.{sealed_page_at, sealed_page_of};
ghost use Rattle.ak_track.specs.Tracking.{HoldsSteps};
ghost use Rattle.ak_encls.specs.Enclave.{blank_page, frame_at};
ghost use Rattle.ak_encls.specs.Sound.{is_slot};
ghost use Rattle.ak_encls.specs.Building.{secs_entry, added_entry, IsNotSealed, HasOnlyCycled};

use crate::Encls;
use ak_core::{Entry, Frame, Handle, OutOfMemory, PAGE_SIZE, Page, PageType, Perm};
use ak_epcm::Epcm;
use ak_measure::{Measure, Signers, secinfo};
use ak_sealed::Sealed;
use ak_track::{Incomplete, Track};
use std::alloc::Global;

/// Why EINIT refuses an enclave.
#[derive(Clone, Copy, PartialEq, Eq, Debug)]
pub enum InitFault {
    /// The signers have no such name.
    UnknownSigner,
    /// The name's digests do not hold the measurement.
    MeasurementNotSigned,
}

/// The entry of the frame of the SECS.
const SECS: Entry = Entry {
    valid: true,
    kind: PageType::Secs,
    page: Page(0),
    r: false,
    w: false,
    x: false,
    blocked: false,
};

/// The bytes of a chunk, which EEXTEND measures.
const CHUNK_SIZE: usize = 256;

impl Encls {
    /// An enclave of this size with so many frames of zeros, 1 at least, and processors, 4 at most (SDM volume 3D, ECREATE): the SECS
    /// is in frame 0, and all others are free.
    pub fn ecreate(alloc: Global, size: u64, frames: u32, lps: u8) -> Result<Encls, OutOfMemory>
        requires some_frame { 0 < frames }
        requires few_lps { lps ≤ 4 }
        ensures entries { IfOk result (λ encls. encls.entries ≡ secs_entry ∷ replicate (frames - 1) free_entry) }
        ensures frames { IfOk result (λ encls. encls.frames ≡ replicate frames blank_page) }
        ensures handles { IfOk result (λ encls. encls.handles ≡ record { sealed_pages = []; spare = 0 }) }
        ensures track { IfOk result (λ encls. HoldsSteps encls.track lps []) }
        ensures measure { IfOk result (λ encls. HasAbsorbed encls.measure (create_block size)) }
    {
        let track = Track::new(lps);
        let Ok(pages) = vec![in alloc; zeros(); frames as usize] else {
            return Err(OutOfMemory);
        };
        let Ok(stamps) = vec![in alloc; track.stamp(); frames as usize] else {
            return Err(OutOfMemory);
        };
        let mut epcm = Epcm::new(alloc, frames)?;
        epcm.set(Frame(0), SECS);
        Ok(Encls {
            frames: pages,
            epcm,
            sealed: Sealed::new(alloc),
            track,
            stamps,
            measure: Measure::new(size),
        })
    }

    /// Adds a page to the enclave, in a free frame (SDM volume 3D, EADD), and measures that it was added, and with which permission.
    /// No frame holds the page, and no live handle has it. What is given as the permission of a TCS does not matter.
    pub fn eadd(&mut self, f: Frame, p: Page, kind: PageType, perm: Perm, bytes: &[u8; PAGE_SIZE])
        requires within { f.0 < length self.old.entries }
        requires free { (entry_at self.old.entries f.0).valid ≡ false }
        requires kind { is_addressed kind ≡ true }
        requires no_frame { HasNoFrame self.old.entries p.0 }
        requires not_sealed { IsNotSealed self.old.handles p.0 }
        ensures entries { self.new.entries ≡ slice_set self.old.entries f.0 (added_entry p kind perm) }
        ensures frames { self.new.frames ≡ slice_set self.old.frames f.0 bytes.now }
        ensures measure { (absorbed : List ℕ) → HasAbsorbed self.old.measure absorbed
            → HasAbsorbed self.new.measure (absorbed ++ add_block (4096 * p.0) (flags_of kind perm)) }
        ensures rest { self.new ≡ record self.old { entries = self.new.entries; frames = self.new.frames; measure = self.new.measure } }
    {
        self.put_page(f, added(p, kind, perm), bytes);
        self.measure.add(offset_of(p), secinfo(kind, perm));
    }

    /// Measures a chunk of 256 bytes of a frame's page (SDM volume 3D, EEXTEND): chunks 0 to 15.
    pub fn eextend(&mut self, f: Frame, chunk: u8)
        requires page { is_of_page (entry_at self.old.entries f.0) ≡ true }
        requires chunk { chunk < 16 }
        ensures measure { (absorbed : List ℕ) → HasAbsorbed self.old.measure absorbed
            → HasAbsorbed self.new.measure (absorbed ++ extend_block (4096 * (entry_at self.old.entries f.0).page.0 + 256 * chunk) ++ chunk_at chunk (frame_at self.old.frames f.0)) }
        ensures rest { self.new ≡ record self.old { measure = self.new.measure } }
    {
        let start = CHUNK_SIZE * usize::from(chunk);
        let offset = offset_of(self.epcm.entry(f).page) + start as u64;
        let page = &self.frames[f.0 as usize];
        self.measure
            .extend(offset, &page[start..start + CHUNK_SIZE]);
    }

    /// Adds a page and measures it whole: EADD, and EEXTEND of its 16 chunks.
    pub fn add_page(
        &mut self,
        f: Frame,
        p: Page,
        kind: PageType,
        perm: Perm,
        bytes: &[u8; PAGE_SIZE],
    )
        requires within { f.0 < length self.old.entries }
        requires free { (entry_at self.old.entries f.0).valid ≡ false }
        requires kind { is_addressed kind ≡ true }
        requires no_frame { HasNoFrame self.old.entries p.0 }
        requires not_sealed { IsNotSealed self.old.handles p.0 }
        ensures entries { self.new.entries ≡ slice_set self.old.entries f.0 (added_entry p kind perm) }
        ensures frames { self.new.frames ≡ slice_set self.old.frames f.0 bytes.now }
        ensures in_frames { f.0 < length self.old.frames }
        ensures measure { (absorbed : List ℕ) → HasAbsorbed self.old.measure absorbed
            → HasAbsorbed self.new.measure (absorbed ++ page_blocks (4096 * p.0) (flags_of kind perm) bytes.now) }
        ensures rest { self.new ≡ record self.old { entries = self.new.entries; frames = self.new.frames; measure = self.new.measure } }
    {
        self.put_page(f, added(p, kind, perm), bytes);
        self.measure
            .add_page(offset_of(p), secinfo(kind, perm), bytes);
    }

    /// Adds a regular page, measures it whole, and writes it out, as the build does with each page of the program: through a free
    /// frame, and into an empty slot of a VA page. Nobody entered yet. It gives the page's handle.
    pub fn add_sealed_page(
        &mut self,
        f: Frame,
        p: Page,
        perm: Perm,
        bytes: &[u8; PAGE_SIZE],
        va: Frame,
        i: u16,
    ) -> Handle
        requires within { f.0 < length self.old.entries }
        requires free { (entry_at self.old.entries f.0).valid ≡ false }
        requires no_frame { HasNoFrame self.old.entries p.0 }
        requires not_sealed { IsNotSealed self.old.handles p.0 }
        requires slot { is_slot (entry_at self.old.entries va.0) i ≡ true }
        requires spare { 0 < self.old.handles.spare }
        requires unentered { HasOnlyCycled self.old.track }
        requires cycles { self.old.track.cycles < 2 ^ 63 }
        ensures handle { result.0 ≡ length self.old.handles.sealed_pages }
        ensures entries { self.new.entries ≡ slice_set self.old.entries f.0 free_entry }
        ensures slot { number_at (frame_at self.new.frames va.0) (8 * i) 8 ≡ result.0 + 1 }
        ensures slots { (j : ℕ) → (j == i) ≡ false
            → number_at (frame_at self.new.frames va.0) (8 * j) 8 ≡ number_at (frame_at self.old.frames va.0) (8 * j) 8 }
        ensures others { (g : ℕ) → (g == f.0) ≡ false → (g == va.0) ≡ false → frame_at self.new.frames g ≡ frame_at self.old.frames g }
        ensures sealed_page { (k : ℕ) → sealed_page_at self.new.handles k
            ≡ (if k == result.0 then Some (sealed_page_of (added_entry p PageType.Reg perm) bytes.now) else sealed_page_at self.old.handles k) }
        ensures next { length self.new.handles.sealed_pages ≡ result.0 + 1 }
        ensures spare { self.new.handles.spare + 1 ≡ self.old.handles.spare }
        ensures unentered { HasOnlyCycled self.new.track }
        ensures cycles { self.new.track.cycles ≡ self.old.track.cycles + 1 }
        ensures lps { self.new.track.lps ≡ self.old.track.lps }
        ensures measure { (absorbed : List ℕ) → HasAbsorbed self.old.measure absorbed
            → HasAbsorbed self.new.measure (absorbed ++ page_blocks (4096 * p.0) (flags_of PageType.Reg perm) bytes.now) }
        ensures stamps { self.new.stamps ≡ self.old.stamps }
        ensures count { length self.new.frames ≡ length self.old.frames }
        ensures lengths { (g : ℕ) → length (frame_at self.new.frames g) ≡ (if g == f.0 then length bytes.now else length (frame_at self.old.frames g)) }
    {
        self.add_page(f, p, PageType::Reg, perm, bytes);
        // the cycle is over at once, and the page can be written out
        self.cycle_alone();
        self.seal_into(f, va, i)
    }

    /// Whether this signer signed the enclave as it was measured (SDM volume 3D, EINIT). Nothing changes.
    pub fn einit(&self, signers: &Signers, name: &str) -> Result<(), InitFault>
        ensures unknown { (result ≡ Err InitFault.UnknownSigner) ↔ (knows signers.now name.now ≡ false) }
        ensures unsigned { (absorbed : List ℕ) → HasAbsorbed self.now.measure absorbed
            → (result ≡ Err InitFault.MeasurementNotSigned) ↔ ((knows signers.now name.now ≡ true) × (allows signers.now name.now (sha256 absorbed) ≡ false)) }
    {
        if !signers.knows(name) {
            return Err(InitFault::UnknownSigner);
        }
        if !signers.allows(name, &self.measure.digest()) {
            return Err(InitFault::MeasurementNotSigned);
        }
        Ok(())
    }

    // Puts a page into a free frame.
    fn put_page(&mut self, f: Frame, entry: Entry, bytes: &[u8; PAGE_SIZE])
        requires within { f.0 < length self.old.entries }
        requires free { (entry_at self.old.entries f.0).valid ≡ false }
        requires page { is_of_page entry ≡ true }
        requires no_frame { HasNoFrame self.old.entries entry.page.0 }
        requires not_sealed { IsNotSealed self.old.handles entry.page.0 }
        ensures entries { self.new.entries ≡ slice_set self.old.entries f.0 entry }
        ensures frames { self.new.frames ≡ slice_set self.old.frames f.0 bytes.now }
        ensures in_frames { f.0 < length self.old.frames }
        ensures rest { self.new ≡ record self.old { entries = self.new.entries; frames = self.new.frames } }
    {
        self.frames[f.0 as usize] = *bytes;
        self.epcm.set(f, entry);
    }

    // Begins a cycle that waits for nobody, since nobody has entered.
    fn cycle_alone(&mut self)
        requires unentered { HasOnlyCycled self.old.track }
        requires cycles { self.old.track.cycles < 2 ^ 63 }
        ensures unentered { HasOnlyCycled self.new.track }
        ensures cycles { self.new.track.cycles ≡ self.old.track.cycles + 1 }
        ensures lps { self.new.track.lps ≡ self.old.track.lps }
        ensures rest { self.new ≡ record self.old { track = self.new.track } }
    {
        match self.track.cycle() {
            Ok(()) => {}
            Err(Incomplete) => unreachable!(),
        }
    }
}

// A page of zeros.
#[tactic(auto, unfolding(crate::specs::Enclave::blank_page))]
fn zeros() -> [u8; PAGE_SIZE]
    ensures { result ≡ blank_page }
{
    [0; PAGE_SIZE]
}

// The entry of an added page.
fn added(page: Page, kind: PageType, perm: Perm) -> Entry
    ensures { result ≡ added_entry page kind perm }
{
    let is_regular = kind == PageType::Reg;
    Entry {
        valid: true,
        kind,
        page,
        r: is_regular,
        w: is_regular && perm == Perm::Rw,
        x: is_regular && perm == Perm::Rx,
        blocked: false,
    }
}

// The offset of a page in the enclave.
fn offset_of(p: Page) -> u64
    ensures { result ≡ 4096 * p.0 }
{
    PAGE_SIZE as u64 * u64::from(p.0)
}
