// The asynchronous exit, and EEXIT.
ghost use Rattle.std.specs.Prelude.{◌≡◌, ◌≤◌, ◌<◌, true, false, ◌==◌, length, take, slice_set};
ghost use Rattle.ak_epcm.specs.Entries.{entry_at, is_of_page};
ghost use Rattle.ak_ssa.specs.SavedFrames.{HasSaved, area_place};
ghost use Rattle.ak_track.specs.Steps.{LeavesBy};
ghost use Rattle.ak_encls.specs.Enclave.{frame_at};
ghost use Rattle.ak_enclu.specs.Passing.{outside_now, ExitsTo, Steps};
ghost use Rattle.ak_enclu.specs.TcsBytes.{saved_of, after_exit};

use crate::cpu::Cpu;
use crate::tcs::note_exit;
use ak_core::{Frame, PAGE_SIZE, Regs};
use ak_encls::Encls;
use ak_ssa::Why;

/// Leaves the enclave in the midst of it (SDM volume 3D, "Asynchronous Enclave Exit"): registers and cause are saved in the area that
/// the processor holds, one more context is saved, and resuming is refused until the next entry, unless it is an interrupt. Nothing is
/// cached any more.
pub fn aex(cpu: &mut Cpu, leaves: &mut Encls, why: Why)
    requires tcs { is_of_page (entry_at leaves.old.entries cpu.old.tcs.0) ≡ true }
    requires area { is_of_page (entry_at leaves.old.entries cpu.old.ssa.0) ≡ true }
    requires apart { (cpu.old.tcs.0 == cpu.old.ssa.0) ≡ false }
    requires saved { saved_of (frame_at leaves.old.frames cpu.old.tcs.0) ≤ 2 }
    ensures cpu { cpu.new ≡ outside_now cpu.old }
    ensures leaves { ExitsTo cpu.old why leaves.old leaves.new }
{
    save_into(leaves, cpu.ssa, &cpu.regs, why);
    count_exit(leaves, cpu.tcs, why);
    leaves.left(cpu.lp);
    cpu.go_outside();
}

/// Leaves the enclave (SDM volume 3D, EEXIT). Nothing is cached any more, and no byte of a frame changes.
pub fn eexit(cpu: &mut Cpu, leaves: &mut Encls)
    ensures cpu { cpu.new ≡ outside_now cpu.old }
    ensures rest { leaves.new ≡ record leaves.old { track = leaves.new.track } }
    ensures track { Steps leaves.old leaves.new (LeavesBy cpu.old.lp.0) }
{
    leaves.left(cpu.lp);
    cpu.go_outside();
}

/// Saves registers and cause in the area in a frame.
fn save_into(leaves: &mut Encls, f: Frame, regs: &Regs, why: Why)
    requires { is_of_page (entry_at leaves.old.entries f.0) ≡ true }
    ensures saved { HasSaved area_place (frame_at leaves.new.frames f.0) regs.now why }
    ensures below { take area_place (frame_at leaves.new.frames f.0) ≡ take area_place (frame_at leaves.old.frames f.0) }
    ensures whole { length (frame_at leaves.new.frames f.0) ≡ PAGE_SIZE }
    ensures rest { leaves.new ≡ record leaves.old { frames = slice_set leaves.old.frames f.0 (frame_at leaves.new.frames f.0) } }
    ensures within { f.0 < length leaves.old.frames }
{
    ak_ssa::save(leaves.frame_mut(f), regs, why);
}

/// Notes an asynchronous exit in the TCS in a frame.
fn count_exit(leaves: &mut Encls, f: Frame, why: Why)
    requires page { is_of_page (entry_at leaves.old.entries f.0) ≡ true }
    requires saved { saved_of (frame_at leaves.old.frames f.0) ≤ 2 }
    ensures within { f.0 < length leaves.old.frames }
    ensures tcs { leaves.new ≡ record leaves.old { frames = slice_set leaves.old.frames f.0 (after_exit why (frame_at leaves.old.frames f.0)) } }
{
    note_exit(leaves.frame_mut(f), why);
}
