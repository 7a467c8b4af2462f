// The asynchronous exit in the midst of a turn.
ghost use Rattle.std.specs.Prelude.{◌≡◌, ◌≤◌, [], true, false, ◌==◌};
ghost use Rattle.ak_epcm.specs.Entries.{entry_at, is_of_page};
ghost use Rattle.ak_ssa.specs.SavedFrames.{ByPage, why_of};
ghost use Rattle.ak_encls.specs.Enclave.{frame_at};
ghost use Rattle.ak_enclu.specs.Passing.{outside_now, ExitsTo};
ghost use Rattle.ak_enclu.specs.TcsBytes.{saved_of};

use ak_core::{Fault, Layout};
use ak_enclu::{Cpu, aex};
use ak_memory::Memory;
use ak_ssa::Why;

/// Leaves the enclave in the midst of it (`aex`). Nothing is cached any more.
pub(crate) fn leave(cpu: &mut Cpu, memory: &mut Memory, why: Why)
    requires tcs { is_of_page (entry_at memory.old.encls.entries cpu.old.tcs.0) ≡ true }
    requires area { is_of_page (entry_at memory.old.encls.entries cpu.old.ssa.0) ≡ true }
    requires apart { (cpu.old.tcs.0 == cpu.old.ssa.0) ≡ false }
    requires saved { saved_of (frame_at memory.old.encls.frames cpu.old.tcs.0) ≤ 2 }
    ensures cpu { cpu.new ≡ outside_now cpu.old }
    ensures leaves { ExitsTo cpu.old why memory.old.encls memory.new.encls }
    ensures table { memory.new.table ≡ memory.old.table }
    ensures tlb { memory.new.tlb ≡ [] }
{
    memory.forget();
    aex(cpu, &mut memory.encls, why);
}

/// Why a processor leaves whose access faulted: it is of the page's address.
pub(crate) fn fault_of(layout: &Layout, access: Fault) -> Why
    ensures { result ≡ why_of layout.now (ByPage access) }
{
    Why::PageFault(layout.base() + 4096 * u64::from(access.page.0), access.kind)
}
