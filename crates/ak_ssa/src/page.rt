// Saved frames in saved-state areas.
ghost use Rattle.std.specs.Prelude.{◌≡◌, ◌+◌, ◌^◌, ◌<◌, length, take, drop};
ghost use Rattle.ak_core.specs.declared.registers.Regs.{Regs as TheRegs};
ghost use Rattle.ak_ssa.specs.SavedFrames.{HasSaved, area_place, guard_regs};
ghost use Rattle.ak_ssa.specs.SavedRegisters.{AreRegs, area_regs};
ghost use Rattle.ak_ssa.specs.ReadFrames.{area_why, cleared};
ghost use Rattle.ak_ssa.specs.FramesFit.{WhyFits};
ghost use Rattle.ak_ssa.specs.declared.cause.Why.{Why as TheWhy};

use crate::cause::Why;
use crate::frame;
use ak_core::{PAGE_SIZE, Regs};

/// Where a frame stands in a saved-state area: it is the page's last 200 bytes (SDM volume 3D, "State Save Area").
pub const AREA_PLACE: usize = 3896;

/// Where the program's frame stands in the runtime's page STATE.
pub const STATE_PLACE: usize = 2048;

/// Saves the registers into a saved-state area, and why the processor left. The bytes below the frame stay.
pub fn save(page: &mut [u8], regs: &Regs, why: Why)
    requires { length page.old ≡ PAGE_SIZE }
    ensures saved { HasSaved area_place page.new regs.now why }
    ensures below { take area_place page.new ≡ take area_place page.old }
{
    frame::save(&mut page[AREA_PLACE..], regs, why);
}

/// The registers that a saved-state area holds, whatever its bytes are. What was saved is loaded.
pub fn load(page: &[u8]) -> Regs
    requires { length page.now ≡ PAGE_SIZE }
    ensures registers { result ≡ area_regs page.now }
    ensures saved { (regs : TheRegs) (why : TheWhy) → AreRegs regs → HasSaved area_place page.now regs why → result ≡ regs }
{
    frame::load(&page[AREA_PLACE..])
}

/// What a saved-state area notes of the exit, whatever its bytes are: what was saved, and of a frame that was cleared since,
/// that it was an interrupt.
pub fn why(page: &[u8]) -> Why
    requires { length page.now ≡ PAGE_SIZE }
    ensures noted { result ≡ area_why page.now }
    ensures saved { (regs : TheRegs) (why : TheWhy) → AreRegs regs → WhyFits why → HasSaved area_place page.now regs why → result ≡ why }
{
    frame::why(&page[AREA_PLACE..])
}

/// Clears what a saved-state area notes of the exit: EXINFO, and EXITINFO with its VALID. The registers stay, and so do the
/// bytes below the frame.
pub fn clear_valid(page: &mut [u8])
    requires { length page.old ≡ PAGE_SIZE }
    ensures cleared { take 200 (drop area_place page.new) ≡ cleared (take 200 (drop area_place page.old)) }
    ensures saved { (regs : TheRegs) (why : TheWhy) → length regs.gpr ≡ 16 → HasSaved area_place page.old regs why → HasSaved area_place page.new regs TheWhy.Interrupt }
    ensures below { take area_place page.new ≡ take area_place page.old }
{
    frame::clear_valid(&mut page[AREA_PLACE..]);
}

/// Saves the guard's frame into a saved-state area, where CODE has this address. The bytes below the frame stay.
pub fn guard(page: &mut [u8], code: u64)
    requires whole { length page.old ≡ PAGE_SIZE }
    requires room { code + 16 < 2 ^ 64 }
    ensures saved { HasSaved area_place page.new (guard_regs code) TheWhy.Interrupt }
    ensures below { take area_place page.new ≡ take area_place page.old }
{
    frame::guard(&mut page[AREA_PLACE..], code);
}
