// Laws on the runs of scripts.
ghost use Rattle.std.specs.Prelude.{◌≡◌, None, true};
ghost use Rattle.ak_core.specs.Layout.{Layout};
ghost use Rattle.ak_driver.specs.EndingExits.{last_is_result};
ghost use Rattle.ak_driver.specs.HonestRuns.{IsHonestJournal, IsRoomy};
ghost use Rattle.ak_model.specs.Kernels.HonestKernel.{drive};
ghost use Rattle.ak_run.specs.Runs.{RunParts};
ghost use Rattle.ak_top.specs.Follows.{IsAutoAlone, past_of};
ghost use Rattle.ak_top.specs.Served.{IsRunOf};
ghost use Rattle.ak_top.specs.declared.inputs.Inputs.{Inputs};

/// A run whose script has `auto` alone, with frames for the runtime's eight and the budget, never stops: each of its moves is the
/// honest kernel's, and that has none left only where the program ended or was trapped.
pub fn auto_alone_never_stops()
    ensures honest { (layout : Layout) (inputs : Inputs) (run : RunParts) → IsRunOf layout inputs run → IsRoomy layout
        → IsAutoAlone inputs.script → IsHonestJournal inputs.image.bytes layout run.journal inputs.script.inputs }
    ensures unstopped { (layout : Layout) (inputs : Inputs) (run : RunParts) → IsRunOf layout inputs run → IsRoomy layout
        → IsAutoAlone inputs.script → run.journal.stop ≡ None }
    ensures ends { (layout : Layout) (inputs : Inputs) (run : RunParts) → IsRunOf layout inputs run → IsRoomy layout
        → IsAutoAlone inputs.script → drive layout (past_of run.journal) inputs.script.inputs ≡ None
        → last_is_result (past_of run.journal) ≡ true }
{}
