// Laws on the turns of the program, and on the values that a program has.
ghost use Rattle.ak_core.specs.Layout.{IsValid};
ghost use Rattle.ak_core.specs.Mem.{Access};
ghost use Rattle.ak_core.specs.declared.event.Event.{Event};
ghost use Rattle.ak_core.specs.declared.event.Event.TheVariants.{Break, Call, Miss, Trap};
ghost use Rattle.ak_core.specs.declared.moves.Exit.{Exit};
ghost use Rattle.ak_core.specs.declared.registers.Mode.{Mode};
ghost use Rattle.ak_epcm.specs.Entries.{entry_at};
ghost use Rattle.ak_model.specs.Clusters.Queue.{is_in};
ghost use Rattle.ak_model.specs.Control.ControlState.{Control};
ghost use Rattle.ak_model.specs.Control.RuntimeTurn.{shown_fault};
ghost use Rattle.ak_model.specs.Flat.FlatRuns.{End, Flat, ending, is_forbidden, line, page_bytes};
ghost use Rattle.ak_model.specs.Misses.KeptTranslations.{is_among};
ghost use Rattle.ak_model.specs.Paging.Histories.{History};
ghost use Rattle.ak_model.specs.Paging.Holdings.{PageFrame};
ghost use Rattle.ak_model.specs.Paging.Inside.{since};
ghost use Rattle.ak_model.specs.Paging.Pages.{cluster_at, pages};
ghost use Rattle.ak_model.specs.Tapes.ProgramTurns.{ProgramTurn};
ghost use Rattle.ak_relation.specs.Premises.CallingOut.{ShowsCall, walked_fill};
ghost use Rattle.ak_relation.specs.Premises.Computing.{ShowsComputed};
ghost use Rattle.ak_relation.specs.Premises.Faulting.{AreWalked, SavesFirst, ShowsDenied, ShowsFault, ShowsTrap};
ghost use Rattle.ak_pager.specs.declared.turn.RtTurn.{RtTurn};
ghost use Rattle.ak_relation.specs.Program.FaultedTurns.{fault_event, is_of_access};
ghost use Rattle.ak_relation.specs.Program.FlatFits.{AreBytes, EndKeeps, FlatFits};
ghost use Rattle.ak_relation.specs.Program.FlatPlaces.{IsAtBy};
ghost use Rattle.ak_model.specs.Laws.OwedAnswers.{Owing};
ghost use Rattle.ak_relation.specs.Program.Reaching.{AreReached, is_filled};
ghost use Rattle.ak_relation.specs.Program.Seeing.{Sees};
ghost use Rattle.ak_relation.specs.Relation.Does.{IsTurn, at_moment};
ghost use Rattle.ak_relation.specs.Relation.Stands.{Stands};
ghost use Rattle.ak_relation.specs.Relation.Tells.{TellsTurn};
ghost use Rattle.ak_tlb.specs.Fills.{Fill};
ghost use Rattle.ak_relation.specs.State.MachineState.{State};
ghost use Rattle.ak_relation.specs.State.MachineView.{held_in};
ghost use Rattle.ak_ssa.specs.SavedFrames.{ByPage, ByVector};
ghost use Rattle.ak_ssa.specs.SavedRegisters.{AreRegs, AreWords};
ghost use Rattle.ak_relation.specs.State.Tables.{TablesStand};
ghost use Rattle.std.specs.Prelude.{List, None, Option, Some, false, length, map, true, ℕ, ◌*◌, ◌++◌, ◌||◌, ◌≡◌, ◌≢◌, ◌≤◌};
ghost use Rattle.ak_core.specs.Layout;

/// Where the relation holds and a processor is inside in the program's mode, it sees the program at the flat state.
pub fn program_is_seen()
    ensures { (layout : Layout.Layout) (image : List ℕ) (past : History) (control : Control) (turns : List ProgramTurn) (state : State) (lp place : ℕ)
        → (stands : Stands layout image (at_moment past control turns state)) → since past lp ≡ Some place
        → (state.processors lp).regs.mode ≡ Mode.Program → Sees layout state lp stands.bytes.flat }
{}

/// A turn of the program that faults is a turn of the definitions: a break, where the cluster is in, and a miss, where it is out.
pub fn fault_turns()
    ensures breaks { (layout : Layout.Layout) (lp : ℕ) (old new : State) (access : Access) → IsValid layout
        → (old.processors lp).regs.mode ≡ Mode.Program → ShowsFault layout lp old access
        → is_in old.queue (cluster_at layout access.page.0) ≡ true → SavesFirst layout lp old new (ByPage access)
        → IsTurn layout lp old new (Some (shown_fault layout)) (Some (Break old.count)) }
    ensures misses { (layout : Layout.Layout) (lp : ℕ) (old new : State) (access : Access) → IsValid layout
        → (old.processors lp).regs.mode ≡ Mode.Program → ShowsFault layout lp old access
        → is_in old.queue (cluster_at layout access.page.0) ≡ false → SavesFirst layout lp old new (ByPage access)
        → IsTurn layout lp old new (Some (shown_fault layout)) (Some (Miss old.count (cluster_at layout access.page.0))) }
{}

/// So is one that traps: by an access that its page's permission denies, and by another vector.
pub fn trap_turns()
    ensures denied { (layout : Layout.Layout) (lp : ℕ) (old new : State) (access : Access) → IsValid layout
        → (old.processors lp).regs.mode ≡ Mode.Program → ShowsTrap layout lp old 14
        → is_forbidden layout access ≡ true → SavesFirst layout lp old new (ByPage access)
        → IsTurn layout lp old new (Some (shown_fault layout)) (Some (Trap old.count 14)) }
    ensures vector { (layout : Layout.Layout) (lp : ℕ) (old new : State) (v : ℕ) → IsValid layout
        → (old.processors lp).regs.mode ≡ Mode.Program → ShowsTrap layout lp old v
        → v ≢ 14 → SavesFirst layout lp old new (ByVector v)
        → IsTurn layout lp old new (Some (Exit.Vector v)) (Some (Trap old.count v)) }
{}

/// So is one that completes an instruction: a call, and any other.
pub fn completed_turns()
    ensures calls { (layout : Layout.Layout) (lp : ℕ) (old new : State) (b a : ℕ)
        → (old.processors lp).regs.mode ≡ Mode.Program → ShowsCall layout lp old new b a
        → IsTurn layout lp old new None (Some (Call old.count b a)) }
    ensures computes { (layout : Layout.Layout) (lp : ℕ) (old new : State)
        → (old.processors lp).regs.mode ≡ Mode.Program → ShowsComputed layout lp old new
        → IsTurn layout lp old new None None }
{}

/// In a valid layout, with an image of bytes and values of 64 bits, the program's registers are of 64 bits and its bytes are bytes,
/// wherever the program is.
pub fn values_fit()
    ensures { (layout : Layout.Layout) (image returned : List ℕ) → IsValid layout → AreBytes image → AreWords returned
        → (owing : Owing) (count : ℕ) (flat : Flat) → IsAtBy owing layout image returned count flat → FlatFits flat }
{}

/// So they are where the relation holds: the flat state's values fit, it has all bytes of the program's pages, and a processor that runs
/// the program has registers of 64 bits.
pub fn standing_values_fit()
    ensures values { (layout : Layout.Layout) (image : List ℕ) (past : History) (control : Control) (turns : List ProgramTurn) (state : State)
        → (stands : Stands layout image (at_moment past control turns state)) → FlatFits stands.bytes.flat }
    ensures whole { (layout : Layout.Layout) (image : List ℕ) (past : History) (control : Control) (turns : List ProgramTurn) (state : State)
        → (stands : Stands layout image (at_moment past control turns state)) → 4096 * pages layout ≤ length stands.bytes.flat.bytes }
    ensures registers { (layout : Layout.Layout) (image : List ℕ) (past : History) (control : Control) (turns : List ProgramTurn) (state : State) (lp place : ℕ)
        → Stands layout image (at_moment past control turns state) → since past lp ≡ Some place
        → (state.processors lp).regs.mode ≡ Mode.Program → AreRegs (state.processors lp).regs }
{}

/// Where the image has 4096 bytes at least for each page of the program, each flat state has as many bytes as the image; an
/// instruction that completes changes only pages that it writes, and a call none.
pub fn pages_written()
    ensures sizes { (layout : Layout.Layout) (image returned : List ℕ) → 4096 * pages layout ≤ length image
        → (owing : Owing) (count : ℕ) (flat : Flat) → IsAtBy owing layout image returned count flat → length flat.bytes ≡ length image }
    ensures keeps { (layout : Layout.Layout) (flat : Flat) → 4096 * pages layout ≤ length flat.bytes
        → EndKeeps (line layout flat).accesses flat (ending layout flat) }
{}

/// An instruction whose accesses were all cached or walked leaves each page that is in no frame.
pub fn pages_away_stay()
    ensures { (layout : Layout.Layout) (past : History) (lp place : ℕ) (old : State) → since past lp ≡ Some place → TablesStand layout past old
        → AreReached layout past place (old.processors lp).fills → (flat after : Flat) → 4096 * pages layout ≤ length flat.bytes
        → (walked : List Access) (fills : List Fill) → ending layout flat ≡ End.Next after → AreWalked layout old walked
        → fills ≡ map (walked_fill old) walked ++ (old.processors lp).fills
        → ((t : Access) → is_filled fills t ≡ (is_among (line layout flat).accesses t || is_filled (old.processors lp).fills t))
        → (p : ℕ) → ((f : ℕ) → held_in (entry_at old.entries f) ≡ PageFrame p → ⊥) → page_bytes flat p ≡ page_bytes after p }
{}

/// A turn of the program that faults tells the access by which it did: one that its page's permission denies, or one that may fault and is
/// not surely cached. Each other turn of the program tells none.
pub fn program_notes()
    ensures faults { (layout : Layout.Layout) (lp : ℕ) (old : State) (access : Access)
        → (old.processors lp).regs.mode ≡ Mode.Program → ShowsFault layout lp old access
        → TellsTurn layout lp old (Some (fault_event layout old.queue old.count access)) (Some access) RtTurn.Go }
    ensures denied { (layout : Layout.Layout) (lp : ℕ) (old : State) (access : Access)
        → (old.processors lp).regs.mode ≡ Mode.Program → ShowsDenied layout lp old access
        → TellsTurn layout lp old (Some (fault_event layout old.queue old.count access)) (Some access) RtTurn.Go }
    ensures others { (layout : Layout.Layout) (lp : ℕ) (old : State) (event : Option Event)
        → (old.processors lp).regs.mode ≡ Mode.Program → is_of_access event ≡ false → TellsTurn layout lp old event None RtTurn.Go }
{}
