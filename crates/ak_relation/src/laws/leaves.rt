// Laws on the leaf instructions of the kernel and on its page table: each is answered by its row over the machine's own tables,
// and takes each place of the relation to one of the relation.
ghost use Rattle.ak_core.specs.declared.moves.Answer.{Answer};
ghost use Rattle.ak_core.specs.declared.moves.Answer.TheVariants.{NoPage, Ok, OkHandle};
ghost use Rattle.ak_core.specs.declared.moves.Move.{Move};
ghost use Rattle.ak_core.specs.declared.moves.Move.TheVariants.{Discard, Eblock, Eldb, Eldu, Epa, Eremove, Etrack, Ewb, ReadPte, SetPte};
ghost use Rattle.ak_core.specs.declared.page.Entry.{Entry};
ghost use Rattle.ak_core.specs.declared.page.Flags.{Flags};
ghost use Rattle.ak_core.specs.declared.page.Frame.{Frame};
ghost use Rattle.ak_core.specs.declared.page.Handle.{Handle};
ghost use Rattle.ak_core.specs.declared.page.Page.{Page};
ghost use Rattle.ak_model.specs.Control.Answers.{answer};
ghost use Rattle.ak_model.specs.Control.ControlState.{Control};
ghost use Rattle.ak_model.specs.Kernels.Repeats.{is_done};
ghost use Rattle.ak_model.specs.Laws.Presence.{IsPresent};
ghost use Rattle.ak_model.specs.Paging.Histories.{History, change};
ghost use Rattle.ak_model.specs.Paging.Pages.{all_pages};
ghost use Rattle.ak_model.specs.Laws.OpenFrames.{KeepsOpen};
ghost use Rattle.ak_relation.specs.Premises.LeafDoes.{DoesLeaf};
ghost use Rattle.ak_relation.specs.Premises.Leaves.{LeafChanges};
ghost use Rattle.ak_relation.specs.Premises.Loading.{LoadsFrom};
ghost use Rattle.ak_relation.specs.Premises.Making.{MakesSlots};
ghost use Rattle.ak_relation.specs.Premises.WriteOut.{WritesOutTo};
ghost use Rattle.ak_relation.specs.Relation.Does.{IsMove};
ghost use Rattle.ak_relation.specs.State.MachineState.{State};
ghost use Rattle.ak_relation.specs.State.MachineView.{view_in};
ghost use Rattle.ak_relation.specs.State.TableChanges.{BlocksEntry, FreesEntry, pte_answer, with_block, with_cycle, with_entries, with_mapping, without_sealed_page};
ghost use Rattle.ak_relation.specs.State.Tables.{TablesStand};
ghost use Rattle.ak_model.specs.Laws.SameViews.{SameView};
ghost use Rattle.ak_model.specs.Paging.Views.{View, view_of};
ghost use Rattle.ak_model.specs.Control.LeafRows.{is_leaf, leaf_row};
ghost use Rattle.std.specs.Prelude.{List, None, false, nat_lt, true, ℕ, ◌≡◌};
ghost use Rattle.ak_core.specs.Layout;

/// Where the tables stand, the machine's own view agrees with that of the history in all that rows read, so that the row over it is
/// the answer.
pub fn leaf_rows()
    ensures same { (layout : Layout.Layout) (past : History) (state : State) → TablesStand layout past state
        → SameView (view_in layout state) (view_of layout past) }
    ensures machine { (layout : Layout.Layout) (past : History) (state : State) → TablesStand layout past state
        → (control : Control) (m : Move) → is_leaf m ≡ true → answer layout past control m ≡ leaf_row (view_in layout state) m }
{}

/// A leaf with the answer of its row over the machine's own tables is a move, where it shows what it changes. One that is refused
/// changes nothing.
pub fn leaf_moves()
    ensures done { (layout : Layout.Layout) (old new : State) (m : Move) (a : Answer) → is_leaf m ≡ true → leaf_row (view_in layout old) m ≡ a
        → ((past : History) → TablesStand layout past old → leaf_row (view_of layout past) m ≡ a → LeafChanges layout past (m, a) old new)
        → IsMove layout old new m a None }
    ensures refused { (layout : Layout.Layout) (old : State) (m : Move) (a : Answer) → is_leaf m ≡ true → is_done a ≡ false
        → leaf_row (view_in layout old) m ≡ a → IsMove layout old old m a None }
{}

/// A tracking cycle, a block, a removal and the discarding of a handle are moves, each by its row, of a machine that shows its one
/// change.
pub fn table_moves()
    ensures cycle { (layout : Layout.Layout) (old : State) → leaf_row (view_in layout old) Etrack ≡ Ok
        → IsMove layout old (with_cycle old) Etrack Ok None }
    ensures block { (layout : Layout.Layout) (old : State) (f : Frame) (entries : List Entry) → leaf_row (view_in layout old) (Eblock f) ≡ Ok
        → BlocksEntry old.entries entries f.0 → IsMove layout old (with_block old entries f.0) (Eblock f) Ok None }
    ensures removal { (layout : Layout.Layout) (old : State) (f : Frame) (entries : List Entry) → leaf_row (view_in layout old) (Eremove f) ≡ Ok
        → FreesEntry old.entries entries f.0 → IsMove layout old (with_entries old entries) (Eremove f) Ok None }
    ensures discard { (layout : Layout.Layout) (old : State) (k : Handle) → leaf_row (view_in layout old) (Discard k) ≡ Ok
        → IsMove layout old (without_sealed_page old k.0) (Discard k) Ok None }
{}

/// Each leaf that is answered by its row, and done, is a move, where it does what its change says.
pub fn leaf_does()
    ensures { (layout : Layout.Layout) (old new : State) (m : Move) (a : Answer) → is_leaf m ≡ true → is_done a ≡ true
        → leaf_row (view_in layout old) m ≡ a → DoesLeaf old new m → IsMove layout old new m a None }
{}

/// A write-out, a load, with a block or without, and a new VA page are moves, each by its row, of a machine that shows what it does.
pub fn page_moves()
    ensures write_out { (layout : Layout.Layout) (old new : State) (f va : Frame) (i : ℕ) → WritesOutTo old new f.0 va.0 i
        → leaf_row (view_in layout old) (Ewb f va i) ≡ OkHandle (record { 0 = old.next })
        → IsMove layout old new (Ewb f va i) (OkHandle (record { 0 = old.next })) None }
    ensures load { (layout : Layout.Layout) (old new : State) (f va : Frame) (k : Handle) (p : Page) (i : ℕ)
        → leaf_row (view_in layout old) (Eldu f k p va i) ≡ Ok → LoadsFrom old new f.0 k.0 va.0 i false
        → IsMove layout old new (Eldu f k p va i) Ok None }
    ensures blocked_load { (layout : Layout.Layout) (old new : State) (f va : Frame) (k : Handle) (p : Page) (i : ℕ)
        → leaf_row (view_in layout old) (Eldb f k p va i) ≡ Ok → LoadsFrom old new f.0 k.0 va.0 i true
        → IsMove layout old new (Eldb f k p va i) Ok None }
    ensures va_page { (layout : Layout.Layout) (old new : State) (f : Frame) → leaf_row (view_in layout old) (Epa f) ≡ Ok
        → MakesSlots old new f.0 → IsMove layout old new (Epa f) Ok None }
{}

/// Setting and reading an entry of the page table are moves, and so is each of them where it is refused.
pub fn page_table_moves()
    ensures set { (layout : Layout.Layout) (old : State) (p : Page) (f : Frame) (flags : Flags)
        → nat_lt p.0 (all_pages layout) ≡ true
        → IsMove layout old (with_mapping old p.0 (record { frame = f.0; flags = flags })) (SetPte p f flags) Ok None }
    ensures set_refused { (layout : Layout.Layout) (old : State) (p : Page) (f : Frame) (flags : Flags)
        → nat_lt p.0 (all_pages layout) ≡ false → IsMove layout old old (SetPte p f flags) NoPage None }
    ensures read { (layout : Layout.Layout) (old : State) (p : Page)
        → nat_lt p.0 (all_pages layout) ≡ true → IsMove layout old old (ReadPte p) (pte_answer (old.table p.0)) None }
    ensures read_refused { (layout : Layout.Layout) (old : State) (p : Page)
        → nat_lt p.0 (all_pages layout) ≡ false → IsMove layout old old (ReadPte p) NoPage None }
{}
