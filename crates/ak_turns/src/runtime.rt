// A turn of the runtime.
ghost use Rattle.std.specs.Prelude.{◌≡◌, [], None, false, true, is_some};
ghost use Rattle.ak_core.specs.declared.registers.Mode;
ghost use Rattle.ak_relation.specs.State.MachineState.{State};
ghost use Rattle.ak_ssa.specs.SavedRegisters.{AreRegs, AreWords};
ghost use Rattle.ak_track.specs.Steps.{LeavesBy};
ghost use Rattle.ak_enclu.specs.Passing.{outside_now, Steps};
ghost use Rattle.ak_turns.specs.Running.{IsRunning, Runs, TellsOf, TurnKeeps, TurnsTo};
ghost use Rattle.ak_turns.specs.Stepping.{HasStepped};

use crate::leaving::{fault_of, leave};
use crate::notes::{ProgramNote, RuntimeNote, Turned};
use ak_core::{Exit, Layout, Regs};
use ak_enclu::{Cpu, eexit};
use ak_memory::Memory;
use ak_pager::{RtTurn, runtime_turn};
use ak_walk::mask;

/// A turn of the runtime: one step of it is done over a memory whose accesses all walk, and the processor goes on or leaves; or an access
/// of the step is refused, and the processor is saved before it changed anything.
pub(crate) fn runtime_step(layout: &Layout, cpu: &mut Cpu, memory: &mut Memory) -> Turned
    requires mode { cpu.old.regs.mode ≡ Mode.Mode.Runtime }
    requires runs { Runs layout.now cpu.old memory.old }
    ensures turn { (state : State) → IsRunning layout.now cpu.old memory.old state → TurnsTo layout.now cpu.old.lp.0 state result cpu.new memory.new }
    ensures told { TellsOf result.program result.completed }
    ensures left { is_some result.exit ≡ true → result.completed ≡ false }
    ensures keeps { TurnKeeps result.exit cpu.old cpu.new memory.old memory.new }
{
    match step(layout, cpu, memory) {
        RtTurn::Go => told(None, RuntimeNote::Quiet),
        RtTurn::Leave(exit) => {
            quit(cpu, memory);
            told(Some(exit), RuntimeNote::Quiet)
        }
        RtTurn::Dead(cause) => {
            quit(cpu, memory);
            told(Some(Exit::Stopped), RuntimeNote::Dead(cause))
        }
        RtTurn::Faulted(access) => {
            are_registers(&cpu.regs);
            leave(cpu, memory, fault_of(layout, access));
            told(Some(mask(layout.base())), RuntimeNote::Faulted(access))
        }
    }
}

/// Does the next step of the runtime (`runtime_turn`). No access is granted by a cached translation.
fn step(layout: &Layout, cpu: &mut Cpu, memory: &mut Memory) -> RtTurn
    requires mode { cpu.old.regs.mode ≡ Mode.Mode.Runtime }
    requires runs { Runs layout.now cpu.old memory.old }
    ensures step { HasStepped layout.now (record cpu.old { tlb = memory.old.tlb }) memory.old.table memory.old.encls memory.new.encls result cpu.new.regs }
    ensures cpu { cpu.new ≡ record cpu.old { regs = cpu.new.regs } }
    ensures table { memory.new.table ≡ memory.old.table }
    ensures tlb { memory.new.tlb ≡ memory.old.tlb }
{
    memory.with_cache(false);
    let turn = runtime_turn(layout, &mut cpu.regs, memory);
    memory.touches_follow_the_tables();
    turn
}

/// Leaves the enclave (`eexit`). Nothing is cached any more.
fn quit(cpu: &mut Cpu, memory: &mut Memory)
    ensures cpu { cpu.new ≡ outside_now cpu.old }
    ensures rest { memory.new.encls ≡ record memory.old.encls { track = memory.new.encls.track } }
    ensures track { Steps memory.old.encls memory.new.encls (LeavesBy cpu.old.lp.0) }
    ensures table { memory.new.table ≡ memory.old.table }
    ensures tlb { memory.new.tlb ≡ [] }
{
    memory.forget();
    eexit(cpu, &mut memory.encls);
}

/// The program showed nothing in the turn.
fn told(exit: Option<Exit>, runtime: RuntimeNote) -> Turned
    ensures { result ≡ record { exit = exit; completed = false; program = ProgramNote.Plain; runtime = runtime } }
{
    Turned {
        exit,
        completed: false,
        program: ProgramNote::Plain,
        runtime,
    }
}

/// The registers of a processor have 64 bits.
fn are_registers(regs: &Regs)
    ensures { AreRegs regs.now }
{
    let _rip = regs.rip;
    are_words(&regs.gpr);
}

/// So has each of these numbers.
fn are_words(words: &[u64])
    ensures { AreWords words.now }
{}
