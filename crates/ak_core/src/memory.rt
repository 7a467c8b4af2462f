// Memory as a turn sees it.
ghost use Rattle.std.specs.Prelude.{◌≡◌, ◌<◌, ◌≤◌, ◌+◌, ℕ, Bool, true, List, [], None, Option, length, slice_index, slice_set};
ghost use Rattle.ak_core.specs.Mem.{Access, Touches, access_to, is_touched, is_writable, with_page, put_at};
ghost use Rattle.ak_core.specs.declared.page.Kind.TheVariants.{Read, Write, Exec};

use crate::{Fault, Page};

/// Pages of 4096 bytes. A turn begins with no page touched; a page is touched before it is read or written; and a turn
/// makes at most four accesses.
pub trait Mem {
    /// The pages that it holds. No call changes which they are.
    ghost holds: { Self → ℕ → Bool };

    /// The bytes of each page; of one that it doesn't hold they mean nothing.
    ghost bytes: { Self → ℕ → List ℕ };

    /// The accesses that were granted since the turn began, in order.
    ghost granted: { Self → List Access };

    /// The touch that was refused since the turn began, if one was.
    ghost refused: { Self → Option Access };

    /// What no call changes beside the pages that it holds, from one state to another, as the memory says it.
    ghost keeps: { Self → Self → Type 0 };

    /// A page has 4096 bytes.
    ghost whole: { (m : Self) (p : ℕ) → length (bytes m p) ≡ 4096 };

    /// Begins a turn: no page is touched.
    fn begin(&mut self)
        ensures granted { granted self.new ≡ [] }
        ensures refused { refused self.new ≡ None }
        ensures bytes { bytes self.new ≡ bytes self.old }
        ensures holds { holds self.new ≡ holds self.old }
        ensures keeps { keeps self.old self.new };

    /// Touches a page for reading, or answers that very access.
    fn touch_read(&mut self, p: Page) -> Result<(), Fault>
        requires few { length (granted self.old) < 4 }
        ensures touch { Touches (access_to p.0 Read) result (holds self.old) (granted self.old) (granted self.new) (refused self.old) (refused self.new) }
        ensures bytes { bytes self.new ≡ bytes self.old }
        ensures holds { holds self.new ≡ holds self.old }
        ensures keeps { keeps self.old self.new };

    /// Touches a page for writing, or answers that very access.
    fn touch_write(&mut self, p: Page) -> Result<(), Fault>
        requires few { length (granted self.old) < 4 }
        ensures touch { Touches (access_to p.0 Write) result (holds self.old) (granted self.old) (granted self.new) (refused self.old) (refused self.new) }
        ensures bytes { bytes self.new ≡ bytes self.old }
        ensures holds { holds self.new ≡ holds self.old }
        ensures keeps { keeps self.old self.new };

    /// Touches a page for executing, or answers that very access.
    fn touch_exec(&mut self, p: Page) -> Result<(), Fault>
        requires few { length (granted self.old) < 4 }
        ensures touch { Touches (access_to p.0 Exec) result (holds self.old) (granted self.old) (granted self.new) (refused self.old) (refused self.new) }
        ensures bytes { bytes self.new ≡ bytes self.old }
        ensures holds { holds self.new ≡ holds self.old }
        ensures keeps { keeps self.old self.new };

    /// The 4096 bytes of a page that was touched.
    fn page(&self, p: Page) -> &[u8]
        requires touched { is_touched (granted self.now) p.0 ≡ true }
        ensures { result.now ≡ bytes self.now p.0 };

    /// A byte of a page that was touched.
    fn load(&self, p: Page, offset: u16) -> u8
        requires touched { is_touched (granted self.now) p.0 ≡ true }
        requires offset { offset < 4096 }
        ensures { result ≡ slice_index (bytes self.now p.0) offset };

    /// Puts a byte into a page that was touched for writing.
    fn store(&mut self, p: Page, offset: u16, value: u8)
        requires touched { is_writable (granted self.old) p.0 ≡ true }
        requires offset { offset < 4096 }
        ensures bytes { bytes self.new ≡ with_page (bytes self.old) p.0 (slice_set (bytes self.old p.0) offset value) }
        ensures holds { holds self.new ≡ holds self.old }
        ensures keeps { keeps self.old self.new }
        ensures granted { granted self.new ≡ granted self.old }
        ensures refused { refused self.new ≡ refused self.old };

    /// Puts bytes into a page that was touched for writing.
    fn store_slice(&mut self, p: Page, offset: u16, from: &[u8])
        requires touched { is_writable (granted self.old) p.0 ≡ true }
        requires inside { offset + length from.now ≤ 4096 }
        ensures bytes { bytes self.new ≡ with_page (bytes self.old) p.0 (put_at (bytes self.old p.0) offset from.now) }
        ensures holds { holds self.new ≡ holds self.old }
        ensures keeps { keeps self.old self.new }
        ensures granted { granted self.new ≡ granted self.old }
        ensures refused { refused self.new ≡ refused self.old };

    /// Copies the 4096 bytes of a page that was touched.
    fn read_page(&self, p: Page, into: &mut [u8])
        requires touched { is_touched (granted self.now) p.0 ≡ true }
        requires length { length into.old ≡ 4096 }
        ensures { into.new ≡ bytes self.now p.0 };

    /// Puts 4096 bytes in place of those of a page that was touched for writing.
    fn write_page(&mut self, p: Page, from: &[u8])
        requires touched { is_writable (granted self.old) p.0 ≡ true }
        requires length { length from.now ≡ 4096 }
        ensures bytes { bytes self.new ≡ with_page (bytes self.old) p.0 from.now }
        ensures holds { holds self.new ≡ holds self.old }
        ensures keeps { keeps self.old self.new }
        ensures granted { granted self.new ≡ granted self.old }
        ensures refused { refused self.new ≡ refused self.old };

    /// Each state keeps itself.
    ghost keeps_self: { (a : Self) → keeps a a };

    /// What is kept twice is kept.
    ghost keeps_on: { (a b c : Self) → keeps a b → keeps b c → keeps a c };
}
