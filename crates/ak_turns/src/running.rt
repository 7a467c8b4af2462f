// Runs of turns.
ghost use Rattle.std.specs.Prelude.{◌≡◌, ◌≤◌, ◌<◌, []};
ghost use Rattle.ak_relation.specs.State.MachineState.{State};
ghost use Rattle.ak_enclu.specs.Machines.{IsMachine};
ghost use Rattle.ak_turns.specs.Running.{IsRunning, Runs, completed_in};
ghost use Rattle.ak_turns.specs.WholeRuns.{RunKeeps, RunsTo, Stays, StillRuns, note_or};

use crate::notes::{ProgramNote, Ran, RuntimeNote};
use crate::turning::turn;
use ak_core::{Exit, Layout};
use ak_enclu::Cpu;
use ak_memory::Memory;

/// Up to so many turns of a processor that is inside, ended by the first that leaves.
///
/// The run is a move of the definitions, of each machine with this processor and this memory. Between runs nothing is cached in the
/// memory: a processor has its own translations.
pub fn run(layout: &Layout, cpu: &mut Cpu, memory: &mut Memory, turns: u32) -> Ran
    requires known { cpu.old.lp.0 < layout.now.lps }
    requires stays { Stays layout.now cpu.old memory.old.table memory.old.encls }
    requires uncached { memory.old.tlb ≡ [] }
    ensures run { (state : State) → IsMachine layout.now cpu.old memory.old.table memory.old.encls state
        → RunsTo layout.now cpu.old.lp turns state result cpu.new memory.new.table memory.new.encls }
    ensures keeps { RunKeeps cpu.old cpu.new memory.old memory.new }
    ensures few { result.completed ≤ turns }
{
    memory.swap_cache(&mut cpu.tlb);
    let ran = take_turns(layout, cpu, memory, turns);
    memory.swap_cache(&mut cpu.tlb);
    ran
}

/// The same, while the translations of the processor are in the memory.
fn take_turns(layout: &Layout, cpu: &mut Cpu, memory: &mut Memory, turns: u32) -> Ran
    requires known { cpu.old.lp.0 < layout.now.lps }
    requires runs { Runs layout.now cpu.old memory.old }
    ensures run { (state : State) → IsRunning layout.now cpu.old memory.old state
        → RunsTo layout.now cpu.old.lp turns state result (record cpu.new { tlb = memory.new.tlb }) memory.new.table memory.new.encls }
    ensures keeps { StillRuns cpu.old cpu.new memory.old memory.new }
    ensures few { result.completed ≤ turns }
{
    let mut completed = 0;
    let mut program = ProgramNote::Plain;
    for _taken in 0..turns {
        let turned = turn(layout, cpu, memory);
        completed += count_of(turned.completed);
        program = later_note(turned.program, program);
        if let Some(exit) = turned.exit {
            return Ran {
                exit,
                completed,
                program,
                runtime: turned.runtime,
            };
        }
    }
    Ran {
        exit: Exit::Still,
        completed,
        program,
        runtime: RuntimeNote::Quiet,
    }
}

/// What the program showed last.
fn later_note(note: ProgramNote, earlier: ProgramNote) -> ProgramNote
    ensures { result ≡ note_or note earlier }
{
    match note {
        ProgramNote::Plain => earlier,
        _ => note,
    }
}

/// How many instructions a turn completed.
fn count_of(completed: bool) -> u64
    ensures count { result ≡ completed_in completed }
    ensures few { result ≤ 1 }
{
    u64::from(completed)
}
