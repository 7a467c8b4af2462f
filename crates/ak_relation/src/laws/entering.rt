// Laws on entering, resuming and interrupting a processor.
ghost use Rattle.ak_core.specs.declared.moves.Answer.{Answer};
ghost use Rattle.ak_core.specs.declared.moves.Answer.TheVariants.{Ok};
ghost use Rattle.ak_core.specs.declared.moves.Move.TheVariants.{Eenter, Eresume, Interrupt};
ghost use Rattle.ak_core.specs.declared.page.Kind.{Kind};
ghost use Rattle.ak_core.specs.declared.page.Lp.{Lp};
ghost use Rattle.ak_model.specs.Kernels.Repeats.{is_done};
ghost use Rattle.ak_model.specs.Paging.Histories.{History};
ghost use Rattle.ak_model.specs.Paging.Pages.{all_pages};
ghost use Rattle.ak_model.specs.Paging.Walk.{tcs_walkable, walkable};
ghost use Rattle.ak_relation.specs.Bytes.Pages.{IsTcs};
ghost use Rattle.ak_relation.specs.Premises.EnterRows.{enter_row, resume_row, saved_in, tcs_in, walk_in};
ghost use Rattle.ak_relation.specs.Premises.Entering.{EntersAt};
ghost use Rattle.ak_relation.specs.Premises.Resuming.{ResumesAt};
ghost use Rattle.ak_relation.specs.Premises.Saving.{Saves};
ghost use Rattle.ak_relation.specs.Relation.Does.{IsMove};
ghost use Rattle.ak_relation.specs.State.MachineState.{State};
ghost use Rattle.ak_ssa.specs.SavedFrames.{NoCause};
ghost use Rattle.ak_relation.specs.State.Tables.{TablesStand};
ghost use Rattle.std.specs.Prelude.{Bool, List, None, false, true, ℕ, ◌-◌, ◌<◌, ◌^◌, ◌≡◌};
ghost use Rattle.ak_core.specs.Layout;

/// Where the tables stand, a walk over the machine's own tables finds a page, or the TCS, just where one of the definitions does.
pub fn walks_agree()
    ensures page { (layout : Layout.Layout) (past : History) (state : State) → TablesStand layout past state
        → (p : ℕ) (kind : Kind) → p < all_pages layout → walk_in layout state p kind ≡ walkable layout past p kind }
    ensures tcs { (layout : Layout.Layout) (past : History) (state : State) → TablesStand layout past state
        → tcs_in layout state ≡ tcs_walkable layout past }
{}

/// An entering is a move, by its row over the machine's own tables: done, with a value of 64 bits, of a machine that shows what it
/// does, or refused, of one that stays.
pub fn enter_moves()
    ensures done { (layout : Layout.Layout) (old new : State) (lp : Lp) (v : ℕ)
        → v < 2 ^ 64 → enter_row layout old lp.0 ≡ Ok → EntersAt layout lp.0 (saved_in layout old) v old new
        → IsMove layout old new (Eenter lp v) Ok None }
    ensures refused { (layout : Layout.Layout) (old : State) (lp : Lp) (v : ℕ) (a : Answer)
        → is_done a ≡ false → enter_row layout old lp.0 ≡ a → IsMove layout old old (Eenter lp v) a None }
{}

/// So is a resuming.
pub fn resume_moves()
    ensures done { (layout : Layout.Layout) (old new : State) (lp : Lp)
        → resume_row layout old lp.0 ≡ Ok → ResumesAt layout lp.0 (saved_in layout old - 1) old new
        → IsMove layout old new (Eresume lp) Ok None }
    ensures refused { (layout : Layout.Layout) (old : State) (lp : Lp) (a : Answer)
        → is_done a ≡ false → resume_row layout old lp.0 ≡ a → IsMove layout old old (Eresume lp) a None }
{}

/// An interrupt of a processor that is inside is a move, where the processor is saved with nothing noted, after as many contexts as
/// its TCS says.
pub fn interrupt_moves()
    ensures { (layout : Layout.Layout) (lp : Lp) (old new : State) → (old.processors lp.0).inside ≡ true
        → ((saved : ℕ) (pending : Bool) → IsTcs saved pending (old.frames (old.processors lp.0).tcs) → Saves layout lp.0 saved pending NoCause old new)
        → IsMove layout old new (Interrupt lp) Ok None }
{}
