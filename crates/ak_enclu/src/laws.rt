// Laws that join entering and leaving to a machine's own tables and bytes.
ghost use Rattle.std.specs.Prelude.{◌≡◌, ◌≢◌, ℕ, ◌+◌, ◌-◌, ◌*◌, ◌^◌, ◌<◌, ◌≤◌, Bool, true, false, List, length, not, ◌&&◌, ◌||◌, ◌==◌};
ghost use Rattle.std.specs.List.{list_any};
ghost use Rattle.ak_core.specs.Layout.{Layout};
ghost use Rattle.ak_core.specs.declared.registers.Mode.{Mode};
ghost use Rattle.ak_model.specs.Paging.Histories.{History};
ghost use Rattle.ak_model.specs.Paging.Inside.{processors};
ghost use Rattle.ak_model.specs.Paging.Pages.{tcs_page, ssa_page, code_page};
ghost use Rattle.ak_pte.specs.declared.table.Pte.{Pte};
ghost use Rattle.ak_ssa.specs.SavedFrames.{SavedCause, why_of};
ghost use Rattle.ak_ssa.specs.SavedRegisters.{AreRegs, area_regs};
ghost use Rattle.ak_ssa.specs.FramesFit.{CauseFits};
ghost use Rattle.ak_ssa.specs.declared.cause.Why.{Why};
ghost use Rattle.ak_track.specs.Steps.{LeavesBy};
ghost use Rattle.ak_relation.specs.Bytes.Pages.{IsTcs};
ghost use Rattle.ak_relation.specs.Premises.EnterRows.{enter_row, resume_row, saved_in};
ghost use Rattle.ak_relation.specs.Premises.Entering.{EntersAt};
ghost use Rattle.ak_relation.specs.Premises.Resuming.{ResumesAt};
ghost use Rattle.ak_relation.specs.Premises.Saving.{Saves};
ghost use Rattle.ak_relation.specs.Premises.Works.{Quits};
ghost use Rattle.ak_relation.specs.State.MachineState.{State};
ghost use Rattle.ak_relation.specs.State.Tables.{FramesStand, TablesStand};
ghost use Rattle.ak_encls.specs.Enclave.{Enclave, frame_at};
ghost use Rattle.ak_enclu.specs.EnterAnswers.{enter_answer, finds_tcs, resume_answer, held_at};
ghost use Rattle.ak_pte.specs.Table.{pte_at};
ghost use Rattle.ak_enclu.specs.Machines.{IsMachine, LeadsToWhere};
ghost use Rattle.ak_enclu.specs.Passing.{tcs_at, inside_with, outside_now, EntersTo, ExitsTo, Steps};
ghost use Rattle.ak_enclu.specs.Processors.{entry_regs_at};
ghost use Rattle.ak_enclu.specs.TcsBytes.{saved_of, pending_of, refuses, with_saved, with_pending, after_exit};
ghost use Rattle.ak_enclu.specs.declared.cpu.Cpu.{Cpu as TheCpu};

/// What was written into the fields of a TCS is read from them, and each leaves the other field. So a TCS says what entering,
/// resuming and an asynchronous exit leave it to say.
pub fn fields_return()
    ensures cleared { (saved : ℕ) (pending : Bool) (bytes : List ℕ) → length bytes ≡ 4096 → IsTcs saved pending bytes → IsTcs saved false (with_pending false bytes) }
    ensures counted { (saved below : ℕ) (pending : Bool) (bytes : List ℕ) → length bytes ≡ 4096 → below < 2 ^ 32 → IsTcs saved pending bytes
        → IsTcs below pending (with_saved below bytes) }
    ensures exited { (saved : ℕ) (pending : Bool) (bytes : List ℕ) (why : Why) → length bytes ≡ 4096 → saved ≤ 2 → IsTcs saved pending bytes
        → IsTcs (saved + 1) (refuses why || pending) (after_exit why bytes) }
{}

/// Where the tables stand, and the TCS that is found has three saved contexts at most, the answers are the rows over the machine's own
/// tables.
pub fn answers_are_rows()
    ensures enter { (layout : Layout) (past : History) (state : State) (cpu : TheCpu) (table : List Pte) (encls : Enclave) → TablesStand layout past state
        → IsMachine layout cpu table encls state → cpu.lp.0 < layout.lps
        → (finds_tcs encls.entries table (tcs_page layout) ≡ true → saved_of (tcs_at encls table (tcs_page layout)) ≤ 3)
        → enter_answer encls.entries table (tcs_page layout) (tcs_at encls table (tcs_page layout)) cpu.inside
        (list_any (λ q. (state.processors q).inside && not (q == cpu.lp.0)) (processors layout))
        ≡ enter_row layout state cpu.lp.0 }
    ensures resume { (layout : Layout) (past : History) (state : State) (cpu : TheCpu) (table : List Pte) (encls : Enclave) → TablesStand layout past state
        → IsMachine layout cpu table encls state → cpu.lp.0 < layout.lps
        → (finds_tcs encls.entries table (tcs_page layout) ≡ true → saved_of (tcs_at encls table (tcs_page layout)) ≤ 3)
        → resume_answer encls.entries table (tcs_page layout) (tcs_at encls table (tcs_page layout)) cpu.inside
        (list_any (λ q. (state.processors q).inside && not (q == cpu.lp.0)) (processors layout))
        ≡ resume_row layout state cpu.lp.0 }
{}

/// What an entering or a resuming leaves is what it does to the machine, where each frame has 4096 bytes and there is an area.
pub fn entering_changes()
    ensures enter { (layout : Layout) (state : State) (cpu : TheCpu) (table : List Pte) (encls new : Enclave) (v : ℕ) → FramesStand state.frames
        → IsMachine layout cpu table encls state → saved_of (tcs_at encls table (tcs_page layout)) ≤ 2
        → EntersTo cpu.lp.0 (pte_at table (tcs_page layout)).frame.0 (with_pending false (tcs_at encls table (tcs_page layout))) encls new
        → LeadsToWhere layout
        (inside_with cpu (entry_regs_at (layout.base + 4096 * code_page layout) (saved_of (tcs_at encls table (tcs_page layout))) v)
        (held_at table (tcs_page layout) (saved_of (tcs_at encls table (tcs_page layout)))))
        table new (EntersAt layout cpu.lp.0 (saved_of (tcs_at encls table (tcs_page layout))) v state) }
    ensures resume { (layout : Layout) (state : State) (cpu : TheCpu) (table : List Pte) (encls new : Enclave) → FramesStand state.frames
        → IsMachine layout cpu table encls state → IsTcs (saved_of (tcs_at encls table (tcs_page layout))) false (tcs_at encls table (tcs_page layout))
        → saved_of (tcs_at encls table (tcs_page layout)) ≤ 3 → 0 < saved_of (tcs_at encls table (tcs_page layout))
        → EntersTo cpu.lp.0 (pte_at table (tcs_page layout)).frame.0
        (with_saved (saved_of (tcs_at encls table (tcs_page layout)) - 1) (tcs_at encls table (tcs_page layout))) encls new
        → LeadsToWhere layout
        (inside_with cpu
        (area_regs (frame_at encls.frames (pte_at table (ssa_page layout (saved_of (tcs_at encls table (tcs_page layout)) - 1))).frame.0))
        (held_at table (tcs_page layout) (saved_of (tcs_at encls table (tcs_page layout)) - 1)))
        table new (ResumesAt layout cpu.lp.0 (saved_of (tcs_at encls table (tcs_page layout)) - 1) state) }
{}

/// What an asynchronous exit or EEXIT leaves is what it does to the machine; of an asynchronous exit, where each frame has 4096 bytes.
pub fn leaving_changes()
    ensures saves { (layout : Layout) (state : State) (cpu : TheCpu) (table : List Pte) (encls new : Enclave) (saved : ℕ) (pending : Bool) (cause : SavedCause) → FramesStand state.frames
        → IsMachine layout cpu table encls state → saved ≤ 2 → IsTcs saved pending (frame_at encls.frames cpu.tcs.0)
        → (cpu.regs.mode ≡ Mode.Runtime → AreRegs cpu.regs) → CauseFits layout cause → ExitsTo cpu (why_of layout cause) encls new
        → LeadsToWhere layout (outside_now cpu) table new (Saves layout cpu.lp.0 saved (refuses (why_of layout cause) || pending) cause state) }
    ensures quits { (layout : Layout) (state : State) (cpu : TheCpu) (table : List Pte) (encls new : Enclave) → IsMachine layout cpu table encls state
        → new ≡ record encls { track = new.track } → Steps encls new (LeavesBy cpu.lp.0)
        → LeadsToWhere layout (outside_now cpu) table new (λ end. Quits cpu.lp.0 state end × (end ≡ record state { processors = end.processors; track = end.track })) }
{}
