// Saved frames, and the contexts that they have.
ghost use Rattle.std.specs.Prelude.{◌≡◌, ℕ, ◌+◌, ◌-◌, ◌*◌, ◌/◌, ◌^◌, ◌<◌, ◌⊎◌, List, true, length, slice_index};
ghost use Rattle.ak_model.specs.Control.ControlState.{Phase as ThePhase};
ghost use Rattle.ak_core.specs.declared.registers.Mode.{Mode as TheMode};
ghost use Rattle.ak_ssa.specs.SavedFrames.{saved_bytes};
ghost use Rattle.ak_ssa.specs.SavedRegisters.{AreRegs};
ghost use Rattle.ak_pager.specs.Contexts.{IsAtStep, step_address};
ghost use Rattle.ak_model.specs.Paging.Pages.{all_pages};
ghost use Rattle.ak_pager.specs.RuntimePages.{KeepsFrame};
ghost use Rattle.ak_pager_tests.specs.DefinedSteps.{AreSame, HasSavedContext, IsCause, IsProgramWhy, IsRuntimeWhy, phase_of, program_at};

use crate::Phase;
use ak_core::{Layout, Mode, PAGE_SIZE, Regs};
use ak_ssa::{AREA_PLACE, FRAME_SIZE, STATE_PLACE, Why, frame};

/// Registers are numbers of 64 bits.
fn are_regs(regs: &Regs)
    ensures { AreRegs regs.now }
{
    let _rip = regs.rip;
    are_words(regs.gpr.as_slice());
}

/// A word has 64 bits.
fn are_words(words: &[u64])
    ensures { (k : ℕ) → k < length words.now → slice_index words.now k < 2 ^ 64 }
{
    let _first = words.first();
}

/// The frame has these registers, and this is noted.
fn is_frame(bytes: &[u8], regs: &Regs, why: Why) -> bool
    ensures { result ≡ true → bytes.now ≡ saved_bytes regs.now why }
{
    let mut frame = [0; FRAME_SIZE];
    frame::save(&mut frame, regs, why);
    bytes == frame.as_slice()
}

/// A page of the enclave has this address.
fn is_page_address(layout: &Layout, address: u64) -> bool
    ensures { result ≡ true → (layout.now.base + 4096 * ((address - layout.now.base) / 4096) ≡ address)
        × ((address - layout.now.base) / 4096 < all_pages layout.now) }
{
    let pages = layout.perms().len() as u64 + 6;
    address >= layout.base()
        && (address - layout.base()) % 4096 == 0
        && (address - layout.base()) / 4096 < pages
}

/// What was noted is nothing, a vector, or an access of a page of the enclave.
fn is_cause(layout: &Layout, why: Why) -> bool
    ensures { result ≡ true → IsCause layout.now why }
{
    match why {
        Why::Interrupt | Why::Vector(_) => true,
        Why::PageFault(address, _) => is_page_address(layout, address),
    }
}

/// The address of a step of the runtime.
pub fn step_address(layout: &Layout, offset: u64) -> u64
    requires { offset < 4096 }
    ensures { result ≡ step_address layout.now offset }
{
    let code = layout.perms().len() as u64 + 5;
    layout.base() + 4096 * code + offset
}

/// What was noted may be of the program.
fn is_program_why(why: Why) -> bool
    ensures { result ≡ true → IsProgramWhy why }
{
    match why {
        Why::Vector(vector) => vector != 14,
        Why::Interrupt | Why::PageFault(..) => true,
    }
}

/// The step so far into CODE comes next.
pub fn is_at(layout: &Layout, regs: &Regs, offset: u64) -> bool
    requires { offset < 4096 }
    ensures { result ≡ true → IsAtStep layout.now regs.now offset }
{
    regs.mode == Mode::Runtime && regs.rip == step_address(layout, offset)
}

/// They are the program's registers.
fn is_program(program: &Regs, regs: &Regs) -> bool
    ensures { result ≡ true → AreSame regs.now program.now }
{
    regs.gpr == program.gpr
        && regs.rip == program.rip
        && regs.cf == program.cf
        && regs.zf == program.zf
        && regs.sf == program.sf
        && regs.of == program.of
        && regs.mode == program.mode
}

/// The runtime's guard or a probe comes next, and what was noted may be of the runtime.
fn is_runtime(layout: &Layout, regs: &Regs, why: Why) -> bool
    ensures { result ≡ true → (regs.now.mode ≡ TheMode.Runtime) × IsRuntimeWhy why
        × ((regs.now.rip ≡ step_address layout.now 16) ⊎ (regs.now.rip ≡ step_address layout.now 48)) }
{
    regs.mode == Mode::Runtime
        && !matches!(why, Why::Vector(_))
        && (regs.rip == step_address(layout, 16) || regs.rip == step_address(layout, 48))
}

/// The area has a saved context: of the program at these registers, which only the oldest may be, or of the runtime.
pub fn has_saved_context(layout: &Layout, program: &Regs, area: &[u8], is_oldest: bool) -> bool
    requires { length area.now ≡ PAGE_SIZE }
    ensures { (phase : ThePhase) (queue : List ℕ) → result ≡ true →
        HasSavedContext layout.now phase queue (program_at program.now) is_oldest area.now }
{
    let bytes = &area[AREA_PLACE..AREA_PLACE + FRAME_SIZE];
    let regs = frame::load(bytes);
    let why = frame::why(bytes);
    are_regs(&regs);
    if !is_frame(bytes, &regs, why) || !is_cause(layout, why) {
        return false;
    }
    if is_program(program, &regs) {
        return is_oldest && is_program_why(why);
    }
    is_runtime(layout, &regs, why)
}

/// STATE keeps a frame with the program's registers, where the phase keeps one.
pub fn keeps_frame(layout: &Layout, program: &Regs, phase: Phase, state: &[u8]) -> bool
    requires { length state.now ≡ PAGE_SIZE }
    ensures { result ≡ true → KeepsFrame (phase_of phase) layout.now (program_at program.now) state.now }
{
    if !matches!(phase, Phase::Calling | Phase::Asked(_)) {
        return true;
    }
    let bytes = &state[STATE_PLACE..STATE_PLACE + FRAME_SIZE];
    let why = frame::why(bytes);
    are_regs(program);
    is_frame(bytes, program, why) && is_cause(layout, why)
}
