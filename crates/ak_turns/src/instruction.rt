// One instruction of the program, over the memory with what its processor has cached.
ghost use Rattle.std.specs.Prelude.{◌≡◌};
ghost use Rattle.ak_core.specs.declared.registers.Mode;
ghost use Rattle.ak_turns.specs.Instructing.{Instructs};

use ak_core::{Layout, Regs};
use ak_exec::{Turn, exec};
use ak_memory::Memory;

/// Does the next instruction of the program (`exec`). An access is granted by its cached translation, or else by a walk.
pub(crate) fn instruct(layout: &Layout, regs: &mut Regs, memory: &mut Memory) -> Turn
    requires program { regs.old.mode ≡ Mode.Mode.Program }
    ensures { Instructs layout.now result regs.old regs.new memory.old memory.new }
{
    memory.with_cache(true);
    let turn = exec(layout, regs, memory);
    memory.touches_follow_the_tables();
    turn
}
