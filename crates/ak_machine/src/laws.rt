// Laws on what the machine's contracts speak of.
ghost use Rattle.std.specs.Prelude.{◌≡◌, ℕ, ◌<◌};
ghost use Rattle.ak_core.specs.Mem.{access_to};
ghost use Rattle.ak_core.specs.declared.page.Kind.{Kind};
ghost use Rattle.ak_model.specs.Paging.Histories.{History};
ghost use Rattle.ak_model.specs.Paging.Pages.{all_pages, tcs_page};
ghost use Rattle.ak_model.specs.Paging.Walk.{tcs_walkable, walkable};
ghost use Rattle.ak_relation.specs.State.MachineState.{State};
ghost use Rattle.ak_relation.specs.State.Tables.{TablesStand};
ghost use Rattle.ak_enclu.specs.EnterAnswers.{finds_tcs};
ghost use Rattle.ak_memory.specs.Granting.{is_walked};
ghost use Rattle.ak_machine.specs.Machines.{IsState, Parts};

/// Where the tables stand for a history, a walk over the machine's page table and EPCM finds a page just where the history says that
/// a walk of this kind does; and that of EENTER and ERESUME finds the TCS just where it says so of the TCS.
pub fn walks_are_those_of_the_history()
    ensures page { (machine : Parts) (past : History) (state : State) → IsState machine state → TablesStand machine.layout past state
        → (p : ℕ) (kind : Kind) → p < all_pages machine.layout
        → is_walked machine.encls.entries machine.table (access_to p kind) ≡ walkable machine.layout past p kind }
    ensures tcs { (machine : Parts) (past : History) (state : State) → IsState machine state → TablesStand machine.layout past state
        → finds_tcs machine.encls.entries machine.table (tcs_page machine.layout) ≡ tcs_walkable machine.layout past }
{}
