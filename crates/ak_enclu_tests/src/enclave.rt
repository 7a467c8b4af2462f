// An enclave of three program pages in the hands of processor 1. Page 3 is the TCS, pages 4 to 6 are its areas, 7 is STATE, 8 is CODE,
// and 9 is another TCS; page p is in frame p - 1. Frame 0 has the SECS, frame 1 is a VA page, and frame 9 is free.
ghost use Rattle.std.specs.Prelude.{◌≡◌, ◌<◌, ◌≤◌, [], true, length, IfSome};
ghost use Rattle.ak_epcm.specs.Entries.{entry_at, is_addressed, is_of_page};
ghost use Rattle.ak_encls.specs.Enclave.{frame_at};
ghost use Rattle.ak_enclu.specs.Passing.{HasFewSaved};
ghost use Rattle.ak_enclu.specs.TcsBytes.{saved_of};

use crate::frames::{tcs_bytes, unused_area};
use ak_core::{Answer, Flags, Frame, Kind, Layout, Lp, PAGE_SIZE, Page, PageType, Perm, SSA_AREAS};
use ak_encls::Encls;
use ak_enclu::{Cpu, aex, eenter, eexit, eresume};
use ak_pte::{PageTable, Pte};
use ak_ssa::Why;
use byteorder::{ByteOrder, LittleEndian};
use std::alloc::Global;
use std::test::Fail;

const BASE: u64 = 65536;

const TCS: Page = Page(3);

const CODE: Page = Page(8);

/// The frame of the TCS.
pub const TCS_FRAME: u32 = 2;

/// The frame of the first area. Those of the others follow.
pub const AREA_FRAME: u32 = 3;

/// Flags by which a page is found for writing.
pub const MAPPED: Flags = Flags {
    p: true,
    w: true,
    x: false,
    a: true,
    d: true,
};

pub const UNMAPPED: Flags = Flags {
    p: false,
    w: false,
    x: false,
    a: false,
    d: false,
};

/// The parts that a call is given.
#[derive(Drop)]
pub struct Parts {
    pub encls: Encls,
    pub table: PageTable,
    pub layout: Layout,
    pub cpu: Cpu,
    ghost pages: { length table ≡ 10 },
}

impl Parts {
    /// Maps a page to a frame.
    pub fn map(&mut self, p: u32, frame: u32, flags: Flags)
        requires { p < 10 }
    {
        self.table.set(
            Page(p),
            Pte {
                frame: Frame(frame),
                flags,
            },
        );
    }

    /// Unmaps the areas, and STATE after them.
    pub fn unmap_areas(&mut self) {
        for p in 4..8u32 {
            self.map(p, p - 1, UNMAPPED);
        }
    }

    /// The bytes of a frame that is in use.
    pub fn bytes(&self, f: u32) -> Result<[u8; PAGE_SIZE], &'static str> {
        if !self.encls.epcm().entry(Frame(f)).valid {
            return Err("the frame is free");
        }
        Ok(*self.encls.frame(Frame(f)))
    }

    /// Has the TCS say how many contexts are saved, and whether resuming is refused.
    pub fn say(&mut self, saved: u8, pending: bool) -> Result<(), &'static str> {
        if !is_page(&self.encls, Frame(TCS_FRAME)) {
            return Err("the TCS is in no frame");
        }
        *self.encls.frame_mut(Frame(TCS_FRAME)) = tcs_bytes(saved, pending);
        Ok(())
    }

    /// Caches a write and a fetch.
    pub fn cache(&mut self) {
        self.cpu.tlb.fill(Page(0), Kind::Write, Frame(9));
        self.cpu.tlb.fill(CODE, Kind::Exec, Frame(7));
    }

    /// How many of these two are cached.
    pub fn cached(&self) -> usize {
        let write = self.cpu.tlb.find(Page(0), Kind::Write);
        let fetch = self.cpu.tlb.find(CODE, Kind::Exec);
        usize::from(write == Some(Frame(9))) + usize::from(fetch == Some(Frame(7)))
    }

    /// EENTER with a value, and whether another processor is inside.
    pub fn enter(&mut self, value: u64, busy: bool) -> Result<Answer, &'static str> {
        if !has_few_saved(&self.encls) {
            return Err("too many contexts are saved");
        }
        Ok(eenter(
            &mut self.cpu,
            value,
            TCS,
            CODE,
            &self.layout,
            &self.table,
            &mut self.encls,
            busy,
        ))
    }

    /// ERESUME, and whether another processor is inside.
    pub fn resume(&mut self, busy: bool) -> Result<Answer, &'static str> {
        if !has_few_saved(&self.encls) {
            return Err("too many contexts are saved");
        }
        Ok(eresume(&mut self.cpu, TCS, &self.table, &mut self.encls, busy))
    }

    /// An asynchronous exit.
    pub fn exit(&mut self, why: Why) -> Result<(), &'static str> {
        let (tcs, ssa) = (self.cpu.tcs, self.cpu.ssa);
        if tcs == ssa || !is_page(&self.encls, ssa) {
            return Err("there is no area");
        }
        match saved_by(&self.encls, tcs) {
            Some(saved) if saved < SSA_AREAS => {
                aex(&mut self.cpu, &mut self.encls, why);
                Ok(())
            }
            _ => Err("there is no room for a context"),
        }
    }

    /// EEXIT.
    pub fn quit(&mut self) {
        eexit(&mut self.cpu, &mut self.encls);
    }
}

// A frame that holds a page of the enclave.
fn is_page(encls: &Encls, f: Frame) -> bool
    ensures { result ≡ is_of_page (entry_at encls.now.entries f.0) }
{
    let entry = encls.epcm().entry(f);
    entry.valid && matches!(entry.kind, PageType::Reg | PageType::Tcs)
}

// How many contexts are saved, by the bytes of a TCS.
fn saved(tcs: &[u8; PAGE_SIZE]) -> u32
    ensures { result ≡ saved_of tcs.now }
{
    LittleEndian::read_u32(&tcs[24..])
}

// How many contexts are saved by the TCS in a frame, where the frame holds a page of the enclave.
fn saved_by(encls: &Encls, f: Frame) -> Option<u32>
    ensures saved { IfSome result (λ saved. saved ≡ saved_of (frame_at encls.now.frames f.0)) }
    ensures page { IfSome result (λ _. is_of_page (entry_at encls.now.entries f.0) ≡ true) }
{
    if is_page(encls, f) {
        Some(saved(encls.frame(f)))
    } else {
        None
    }
}

// The TCS, where a frame holds it, has at most three saved contexts.
fn has_few_saved(encls: &Encls) -> bool
    ensures { result ≡ true → HasFewSaved encls.now 3 }
{
    match encls.epcm().frame_of(TCS) {
        Some(f) => saved(encls.frame(f)) <= SSA_AREAS,
        None => true,
    }
}

// Adds a page in a frame that is free, where no frame has the page.
fn add(
    encls: &mut Encls,
    p: u32,
    kind: PageType,
    perm: Perm,
    bytes: &[u8; PAGE_SIZE],
) -> Result<(), &'static str>
    requires page { 0 < p }
    requires within { p ≤ length encls.old.entries }
    requires kind { is_addressed kind ≡ true }
    requires not_sealed { encls.old.handles.sealed_pages ≡ [] }
    ensures frames { length encls.new.entries ≡ length encls.old.entries }
    ensures not_sealed { encls.new.handles.sealed_pages ≡ [] }
{
    if encls.epcm().entry(Frame(p - 1)).valid {
        return Err("the frame is in use");
    }
    match encls.epcm().frame_of(Page(p)) {
        Some(_) => Err("a frame has the page"),
        None => {
            encls.eadd(Frame(p - 1), Page(p), kind, perm, bytes);
            Ok(())
        }
    }
}

#[tactic(auto, unfolding(ak_core::specs::Layout::enclave_size))]
fn layout(alloc: Global) -> Result<Layout, Fail> {
    let perms = [Perm::Rw; 3].to_vec(alloc)?;
    let cluster_of = [0, 0, 1].to_vec(alloc)?;
    Ok(Layout::new(BASE, 0, perms, cluster_of, 2, 8, 10, 2))
}

// The enclave, with pages of these types and permissions as TCS and areas.
fn enclave(alloc: Global, tcs: PageType, area: PageType, perm: Perm) -> Result<Encls, Fail>
    requires tcs { is_addressed tcs ≡ true }
    requires area { is_addressed area ≡ true }
{
    let mut encls = Encls::ecreate(alloc, 65536, 10, 2)?;
    if encls.epcm().entry(Frame(1)).valid {
        return Err(Fail::new("frame 1 is in use"));
    }
    encls.add_va(Frame(1));
    add(&mut encls, 3, tcs, Perm::R, &tcs_bytes(0, false))?;
    add(&mut encls, 4, area, perm, &unused_area(0))?;
    add(&mut encls, 5, area, perm, &unused_area(1))?;
    add(&mut encls, 6, area, perm, &unused_area(2))?;
    add(&mut encls, 7, PageType::Reg, Perm::Rw, &[0; PAGE_SIZE])?;
    add(&mut encls, 8, PageType::Reg, Perm::Rx, &[0; PAGE_SIZE])?;
    add(&mut encls, 9, PageType::Tcs, Perm::R, &tcs_bytes(0, false))?;
    Ok(encls)
}

/// Nobody is inside, no context is saved, and the runtime's pages are mapped. TCS and areas are pages of these types and permissions.
pub fn built_of(alloc: Global, tcs: PageType, area: PageType, perm: Perm) -> Result<Parts, Fail>
    requires tcs { is_addressed tcs ≡ true }
    requires area { is_addressed area ≡ true }
{
    let mut parts = Parts {
        encls: enclave(alloc, tcs, area, perm)?,
        table: PageTable::new(alloc, 10)?,
        layout: layout(alloc)?,
        cpu: Cpu::outside(Lp(1)),
    };
    for p in 3..9u32 {
        parts.map(p, p - 1, MAPPED);
    }
    Ok(parts)
}

/// The same, of the types and permissions that they are to have.
pub fn built(alloc: Global) -> Result<Parts, Fail> {
    built_of(alloc, PageType::Tcs, PageType::Reg, Perm::Rw)
}
