// A turn of the program.
ghost use Rattle.std.specs.Prelude.{◌≡◌, None, Some, false, true, is_some};
ghost use Rattle.ak_pager.specs.Contexts.{step_address};
ghost use Rattle.ak_relation.specs.State.MachineState.{State};
ghost use Rattle.ak_turns.specs.Running.{IsRunning, Runs, TellsOf, TurnKeeps, TurnsTo};

use crate::instruction::instruct;
use crate::leaving::{fault_of, leave};
use crate::notes::{ProgramNote, RuntimeNote, Turned};
use ak_core::{Exit, Layout, Mode, Regs};
use ak_enclu::Cpu;
use ak_exec::Turn;
use ak_memory::Memory;
use ak_ssa::Why;
use ak_walk::mask;

/// The turn completed an instruction.
fn completed(program: ProgramNote) -> Turned
    ensures { result ≡ record { exit = None; completed = true; program = program; runtime = RuntimeNote.Quiet } }
{
    Turned {
        exit: None,
        completed: true,
        program,
        runtime: RuntimeNote::Quiet,
    }
}

/// An exit ended the turn.
fn ended(exit: Exit, program: ProgramNote) -> Turned
    ensures { result ≡ record { exit = Some exit; completed = false; program = program; runtime = RuntimeNote.Quiet } }
{
    Turned {
        exit: Some(exit),
        completed: false,
        program,
        runtime: RuntimeNote::Quiet,
    }
}

/// After a call the runtime's leave step comes next.
fn go_to_leave_step(layout: &Layout, regs: &mut Regs)
    ensures { regs.new ≡ record regs.old { rip = step_address layout.now 32; mode = Mode.Runtime } }
{
    regs.rip = ak_pager::leave_step(layout);
    regs.mode = Mode::Runtime;
}

/// A turn of the program: its next instruction is completed, or an exit ends the turn before it changes anything.
pub(crate) fn program_turn(layout: &Layout, cpu: &mut Cpu, memory: &mut Memory) -> Turned
    requires program { cpu.old.regs.mode ≡ Mode.Program }
    requires runs { Runs layout.now cpu.old memory.old }
    ensures turn { (state : State) → IsRunning layout.now cpu.old memory.old state → TurnsTo layout.now cpu.old.lp.0 state result cpu.new memory.new }
    ensures told { TellsOf result.program result.completed }
    ensures left { is_some result.exit ≡ true → result.completed ≡ false }
    ensures keeps { TurnKeeps result.exit cpu.old cpu.new memory.old memory.new }
{
    match instruct(layout, &mut cpu.regs, memory) {
        Turn::Done => {
            memory.cache_walked();
            completed(ProgramNote::Plain)
        }
        Turn::Called(number, argument) => {
            memory.cache_walked();
            go_to_leave_step(layout, &mut cpu.regs);
            completed(ProgramNote::Called(number, argument))
        }
        Turn::Trapped(vector) => {
            leave(cpu, memory, Why::Vector(vector));
            ended(Exit::Vector(vector), ProgramNote::Trapped(vector))
        }
        Turn::Faulted(access) => {
            leave(cpu, memory, fault_of(layout, access));
            ended(mask(layout.base()), ProgramNote::Faulted(access))
        }
    }
}
