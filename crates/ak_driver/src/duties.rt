// Serving a request: evicting the clusters that are dropped, and fetching the one that is asked for.
ghost use Rattle.std.specs.Prelude.{◌≡◌, ◌<◌, ◌&&◌, IfSome, find, flat_map, is_none, length};
ghost use Rattle.ak_model.specs.Kernels.HonestKernel.{given_by};
ghost use Rattle.ak_model.specs.Paging.Holdings.{is_page_in};
ghost use Rattle.ak_model.specs.Paging.Pages.{pages_of, strong};
ghost use Rattle.ak_model.specs.Paging.Walk.{flags_allow};
ghost use Rattle.ak_driver.specs.Duties.{dropped_by, fetched_by, is_in_frame_by, loaded_by, page_number, served_by, tracked_by, wants};

use crate::Driver;
use crate::tables::{Held, NO_FLAGS, PageNote, strong_flags};
use ak_core::{Flags, Frame, Layout, Lp, Move, Page, Perm};

/// What is done to a page, in the order in which it is done.
#[derive(Clone, Copy, Debug)]
pub(crate) enum Duty {
    /// Its entry is cleared.
    Unmap,
    /// Its frame is blocked.
    Block,
    /// A cycle begins after the block, and is over.
    Track,
    /// It is written out.
    WriteOut,
    /// It is loaded.
    Load,
    /// It is mapped for all that it allows.
    Map,
}

impl Driver {
    /// The next move for the request of this cluster: the dropped ones leave, it comes in, and then the enclave is entered.
    pub(crate) fn serve(&self, layout: &Layout, c: u32) -> Option<Move>
        ensures { result ≡ given_by (served_by self.now layout.now c) }
    {
        if let Some(p) = self.first_evicted(layout, Duty::Unmap) {
            return Some(Move::SetPte(p, Frame(0), NO_FLAGS));
        }
        if let Some(p) = self.first_evicted(layout, Duty::Block)
            && let Some(f) = self.tables.page(p).frame
        {
            return Some(Move::Eblock(f));
        }
        if self.first_evicted(layout, Duty::Track).is_some() {
            return Some(Move::Etrack);
        }
        if let Some(p) = self.first_evicted(layout, Duty::WriteOut)
            && let Some(f) = self.tables.page(p).frame
        {
            return Some(Move::Ewb(f, Frame(1), p.0 as u16));
        }
        self.fetch(layout, c)
    }

    // The next move to fetch this cluster: its pages are loaded and mapped, and then the enclave is entered.
    fn fetch(&self, layout: &Layout, c: u32) -> Option<Move>
        ensures { result ≡ given_by (fetched_by self.now layout.now c) }
    {
        if let Some(p) = self.first_of(layout, c, Duty::Load) {
            return self.load(layout, p);
        }
        if let Some(p) = self.first_of(layout, c, Duty::Map)
            && let Some(f) = self.tables.page(p).frame
        {
            return Some(Move::SetPte(p, f, strong_flags(layout.perms()[p.0 as usize])));
        }
        Some(Move::Eenter(Lp(0), 0))
    }

    // Loads a page's newest copy into the lowest free frame, if there is one.
    fn load(&self, layout: &Layout, p: Page) -> Option<Move>
        ensures { result ≡ given_by (loaded_by self.now layout.now p.0) }
    {
        let f = self.tables.lowest_free(layout.frames())?;
        let copy = self.tables.page(p).copy;
        Some(Move::Eldu(f, copy.handle, p, copy.va, copy.slot))
    }

    // The first page of the dropped clusters that wants this.
    fn first_evicted(&self, layout: &Layout, duty: Duty) -> Option<Page>
        ensures page { page_number result ≡ find (wants self.now layout.now duty) (flat_map (pages_of layout.now) (dropped_by self.now)) }
        ensures within { IfSome result (λ p. p.0 < length layout.now.perms) }
        ensures small { IfSome result (λ p. p.0 < 512) }
    {
        for c in self.requests.dropped() {
            if let Some(p) = self.first_of(layout, *c, duty) {
                return Some(p);
            }
        }
        None
    }

    // The first page of a cluster that wants this.
    fn first_of(&self, layout: &Layout, c: u32, duty: Duty) -> Option<Page>
        ensures page { page_number result ≡ find (wants self.now layout.now duty) (pages_of layout.now c) }
        ensures within { IfSome result (λ p. p.0 < length layout.now.perms) }
        ensures small { IfSome result (λ p. p.0 < 512) }
    {
        let cluster_of = layout.cluster_of();
        let pages = layout.perms().len() as u32;
        for p in 0..pages {
            if cluster_of[p as usize] == c && self.wants(layout, Page(p), duty) {
                return Some(Page(p));
            }
        }
        None
    }

    // The page wants this.
    fn wants(&self, layout: &Layout, p: Page, duty: Duty) -> bool
        requires { p.0 < length layout.now.perms }
        ensures { result ≡ wants self.now layout.now duty p.0 }
    {
        let note = self.tables.page(p);
        match duty {
            Duty::Unmap => note.flags.p,
            Duty::Block => match note.frame {
                Some(f) => self.tables.frame(f).blocked.is_none(),
                None => false,
            },
            Duty::Track => match note.frame {
                Some(f) => !self.is_tracked(f),
                None => false,
            },
            Duty::WriteOut => note.frame.is_some(),
            Duty::Load => note.frame.is_none(),
            Duty::Map => !self.is_mapped(p, &note, layout.perms()[p.0 as usize]),
        }
    }

    // A cycle that began after the frame was blocked is over.
    fn is_tracked(&self, f: Frame) -> bool
        ensures { result ≡ tracked_by self.now f.0 }
    {
        match self.tables.frame(f).blocked {
            Some(place) => place < self.tracking.newest_over(),
            None => false,
        }
    }

    // The page is walkable for all that it allows.
    fn is_mapped(&self, p: Page, note: &PageNote, perm: Perm) -> bool
        ensures { result ≡ (flags_allow note.now.flags (strong perm) && is_in_frame_by self.now p.0 note.now.mapped.0) }
    {
        let frame = self.tables.frame(note.mapped);
        let is_held = match frame.held {
            Held::Page(q) => p == q,
            _ => false,
        };
        allows_strong(note.flags, perm) && (is_held && frame.blocked.is_none())
    }
}

// The flags let a walk through for all that the permission allows.
fn allows_strong(flags: Flags, perm: Perm) -> bool
    ensures { result ≡ flags_allow flags (strong perm) }
{
    let is_preset = flags.p && (flags.a && flags.d);
    match perm {
        Perm::R => is_preset,
        Perm::Rw => is_preset && flags.w,
        Perm::Rx => is_preset && flags.x,
    }
}
