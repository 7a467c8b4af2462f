// Laws on what the memory's contracts speak of.
ghost use Rattle.std.specs.Prelude.{◌≡◌, ℕ, true, false, List, Some, None, length};
ghost use Rattle.ak_core.specs.Mem.{Access};
ghost use Rattle.ak_core.specs.declared.page.Entry.{Entry as TheEntry};
ghost use Rattle.ak_core.specs.declared.page.Frame.{Frame as TheFrame};
ghost use Rattle.ak_epcm.specs.Entries.{entry_at, has_page, frame_with, HasDistinctPages};
ghost use Rattle.ak_pte.specs.declared.table.Pte.{Pte as ThePte};
ghost use Rattle.ak_tlb.specs.Fills.{Fill, HoldsFills, frame_for};
ghost use Rattle.ak_tlb.specs.declared.translation.Translation.{Translation as TheTranslation};
ghost use Rattle.ak_encls.specs.Enclave.{frame_at};
ghost use Rattle.ak_memory.specs.Granting.{NamesPages, granted_frame, bytes_of, whole_page};

/// An access is granted in the frame that holds its page.
pub fn granted_frames_hold_pages()
    ensures page { (entries : List TheEntry) (table : List ThePte) (cached : List TheTranslation) (t : Access) (f : TheFrame) → NamesPages entries cached
        → granted_frame entries table cached t ≡ Some f → has_page (entry_at entries f.0) t.page.0 ≡ true }
    ensures frame { (entries : List TheEntry) (table : List ThePte) (cached : List TheTranslation) (t : Access) (f : TheFrame) → NamesPages entries cached
        → HasDistinctPages entries → granted_frame entries table cached t ≡ Some f → frame_with entries t.page.0 ≡ Some f.0 }
{}

/// The bytes of a page are those of the frame that holds it, of which there is one at most; 4096 bytes are a whole page; and so a memory
/// whose frames have 4096 bytes shows of a page the bytes of its frame.
pub fn pages_are_in_frames()
    ensures frame { (frames : List (List ℕ)) (entries : List TheEntry) (f p : ℕ) → HasDistinctPages entries → has_page (entry_at entries f) p ≡ true
        → bytes_of frames entries p ≡ frame_at frames f }
    ensures whole { (bytes : List ℕ) → length bytes ≡ 4096 → whole_page bytes ≡ bytes }
    ensures shown { (frames : List (List ℕ)) (entries : List TheEntry) (f p : ℕ) → HasDistinctPages entries → has_page (entry_at entries f) p ≡ true
        → length (frame_at frames f) ≡ 4096 → whole_page (bytes_of frames entries p) ≡ frame_at frames f }
{}

/// What a processor has cached names pages, where all does that was cached since the flush.
pub fn cached_translations_name_pages()
    ensures { (entries : List TheEntry) (cached : List TheTranslation) (fills : List Fill) → HoldsFills cached fills
        → ((t : Access) (f : TheFrame) → frame_for fills t ≡ Some f → has_page (entry_at entries f.0) t.page.0 ≡ true) → NamesPages entries cached }
{}
