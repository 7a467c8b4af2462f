// Laws on the bytes of saved frames.
ghost use Rattle.ak_core.specs.Layout.{Layout, IsValid};
ghost use Rattle.ak_core.specs.declared.registers.Regs.{Regs as TheRegs};
ghost use Rattle.ak_ssa.specs.declared.cause.Why.{Why as TheWhy};
ghost use Rattle.ak_ssa.specs.FramesFit.{WhyFits, FrameFits, HasRoom};
ghost use Rattle.ak_ssa.specs.ReadFrames.{frame_in, why_in};
ghost use Rattle.ak_ssa.specs.SavedFrames.{HasFrame, SavedFrame, area_place, state_place, saved_bytes};
ghost use Rattle.ak_ssa.specs.SavedRegisters.{AreRegs, area_regs, regs_in};
ghost use Rattle.std.specs.Prelude.{List, drop, take, ℕ, ◌≡◌};

use crate::{AREA_PLACE, FRAME_SIZE, STATE_PLACE};

/// The size of a frame and its places are those of the definitions.
pub fn frames_stand_there()
    ensures size { FRAME_SIZE ≡ 200 }
    ensures area { AREA_PLACE ≡ area_place }
    ensures state { STATE_PLACE ≡ state_place }
{}

/// The registers, and why the processor left, come back from the bytes of their frame.
pub fn saved_returns()
    ensures registers { (regs : TheRegs) (why : TheWhy) → AreRegs regs → regs_in (saved_bytes regs why) ≡ regs }
    ensures noted { (regs : TheRegs) (why : TheWhy) → AreRegs regs → WhyFits why → why_in (saved_bytes regs why) ≡ why }
{}

/// A saved frame that fits comes back from bytes that have it at a place, registers, cause and all. So bytes determine the frame that
/// they have there. Each valid layout has the room that this asks for.
pub fn saved_frames_return()
    ensures returns { (layout : Layout) (place : ℕ) (bytes : List ℕ) (frame : SavedFrame) → HasRoom layout → FrameFits layout frame
        → HasFrame layout place bytes frame → frame_in layout (take 200 (drop place bytes)) ≡ frame }
    ensures one { (layout : Layout) (place : ℕ) (bytes : List ℕ) (frame other : SavedFrame) → HasRoom layout
        → FrameFits layout frame → FrameFits layout other → HasFrame layout place bytes frame → HasFrame layout place bytes other → frame ≡ other }
    ensures room { (layout : Layout) → IsValid layout → HasRoom layout }
{}

/// The registers that are read back from an area's bytes are those of the frame that was saved there, where they are of 64 bits.
pub fn saved_registers_return()
    ensures { (layout : Layout) (bytes : List ℕ) (frame : SavedFrame) → AreRegs frame.regs → HasFrame layout area_place bytes frame
        → area_regs bytes ≡ frame.regs }
{}
