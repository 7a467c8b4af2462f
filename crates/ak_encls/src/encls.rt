// An enclave: its frames, and what is known of each.
ghost use Rattle.std.specs.Prelude.{◌≡◌, ℕ, ◌+◌, ◌^◌, ◌<◌, ◌≤◌, true, List, ◌∷◌, max, length, OnOk, OnErr};
ghost use Rattle.std.specs.Borrow.{sem};
ghost use Rattle.ak_epcm.specs.Entries.{entry_at, is_of_page, HasDistinctPages};
ghost use Rattle.ak_sealed.specs.SealedPages.{Handles};
ghost use Rattle.ak_track.specs.Steps.{TrackStep, EntersBy, LeavesBy};
ghost use Rattle.ak_track.specs.Tracking.{HoldsSteps};
ghost use Rattle.ak_encls.specs.Enclave.{frame_at};

use ak_core::{Frame, Lp, OutOfMemory, PAGE_SIZE};
use ak_epcm::Epcm;
use ak_measure::Measure;
use ak_sealed::Sealed;
use ak_track::{Stamp, Track};
use std::marker::Model;

/// The frames of the enclave page cache, the EPCM, the sealed pages, tracking, and the measurement of the build.
///
/// Contracts see these parts as plain values. No page has two live copies: the page of a live handle in a slot is in no frame and
/// under no other slot.
#[derive(Drop)]
pub struct Encls {
    pub(crate) frames: Vec<[u8; PAGE_SIZE]>,
    pub(crate) epcm: Epcm,
    pub(crate) sealed: Sealed,
    pub(crate) track: Track,
    pub(crate) stamps: Vec<Stamp>,
    pub(crate) measure: Measure,
}

impl Model for Encls {
    ghost use Rattle.ak_encls.specs.Enclave.{Enclave};
    ghost use Rattle.ak_encls.specs.Sound.{IsSound};

    ghost Value = { Enclave };

    ghost view = { λ e. record { entries = e.epcm; frames = e.frames.items; handles = e.sealed; track = e.track; stamps = e.stamps.items; measure = e.measure } };

    ghost invariant = { λ e. IsSound e.epcm e.frames.items e.stamps.items e.sealed };
}

impl Encls {
    ghost use Rattle.ak_encls.specs.Lending.{LendsFrame};

    /// The EPCM.
    pub fn epcm(&self) -> &Epcm
        ensures { result.now ≡ self.now.entries }
    {
        &self.epcm
    }

    /// The bytes of a frame.
    pub fn frame(&self, f: Frame) -> &[u8; PAGE_SIZE]
        requires { f.0 < length self.now.entries }
        ensures { result.now ≡ frame_at self.now.frames f.0 }
    {
        &self.frames[f.0 as usize]
    }

    /// The bytes of a frame that holds a page of the enclave, to be changed.
    pub fn frame_mut(&mut self, f: Frame) -> &mut [u8; PAGE_SIZE]
        requires { is_of_page (entry_at self.old.entries f.0) ≡ true }
        ensures* writes_back { sem 𝓛 (LendsFrame self.entry f.0 result) }
        ensures bytes { result.now ≡ frame_at self.old.frames f.0 }
        ensures within { f.0 < length self.old.frames }
    {
        &mut self.frames[f.0 as usize]
    }

    /// Makes blank pages, so that so many pages can be written out with no more memory. Where memory runs out it may have made some.
    pub fn reserve(&mut self, spare: u32) -> Result<(), OutOfMemory>
        requires { length self.old.handles.sealed_pages + spare < 2 ^ 32 }
        ensures rest { self.new ≡ record self.old { handles = record self.old.handles { spare = self.new.handles.spare } } }
        ensures ok { OnOk result (self.new.handles.spare ≡ max self.old.handles.spare spare) }
        ensures err { OnErr result (self.old.handles.spare ≤ self.new.handles.spare) }
        ensures most { self.new.handles.spare ≤ max self.old.handles.spare spare }
    {
        self.sealed.reserve(spare)
    }

    /// A processor enters.
    pub fn entered(&mut self, lp: Lp)
        ensures track { (lps : ℕ) (steps : List TrackStep) → HoldsSteps self.old.track lps steps → HoldsSteps self.new.track lps (EntersBy lp.0 ∷ steps) }
        ensures rest { self.new ≡ record self.old { track = self.new.track } }
    {
        self.track.enter(lp);
    }

    /// A processor leaves.
    pub fn left(&mut self, lp: Lp)
        ensures track { (lps : ℕ) (steps : List TrackStep) → HoldsSteps self.old.track lps steps → HoldsSteps self.new.track lps (LeavesBy lp.0 ∷ steps) }
        ensures rest { self.new ≡ record self.old { track = self.new.track } }
    {
        self.track.leave(lp);
    }
}
