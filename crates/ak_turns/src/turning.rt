// One turn of a processor that is inside.
ghost use Rattle.std.specs.Prelude.{◌≡◌, None, true, is_some, false};
ghost use Rattle.ak_relation.specs.State.MachineState.{State};
ghost use Rattle.ak_turns.specs.Running.{IsRunning, Runs, TellsOf, TurnKeeps, TurnsTo};

use crate::notes::Turned;
use crate::program::program_turn;
use crate::runtime::runtime_step;
use ak_core::{Layout, Mode};
use ak_enclu::Cpu;
use ak_memory::Memory;

/// Makes one turn of a processor that is inside: the program's next instruction, or the runtime's next step, by the mode of its
/// registers. While it runs, its translations are cached in the memory.
///
/// The turn is one of the definitions, of each machine with this processor and this memory. Where the processor goes on, the machine
/// stands at a moment of the trace again; where it leaves, it is outside, and nothing is cached.
pub fn turn(layout: &Layout, cpu: &mut Cpu, memory: &mut Memory) -> Turned
    requires { Runs layout.now cpu.old memory.old }
    ensures turn { (state : State) → IsRunning layout.now cpu.old memory.old state → TurnsTo layout.now cpu.old.lp.0 state result cpu.new memory.new }
    ensures told { TellsOf result.program result.completed }
    ensures left { is_some result.exit ≡ true → result.completed ≡ false }
    ensures keeps { TurnKeeps result.exit cpu.old cpu.new memory.old memory.new }
    ensures runs { result.exit ≡ None → Runs layout.now cpu.new memory.new }
{
    match cpu.regs.mode {
        Mode::Program => program_turn(layout, cpu, memory),
        Mode::Runtime => runtime_step(layout, cpu, memory),
    }
}
