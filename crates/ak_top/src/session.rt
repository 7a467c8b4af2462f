// A machine under a script: its moves, and those of the honest kernel.
ghost use Rattle.std.specs.Prelude.{◌≡◌, ◌+◌, ◌<◌, ◌≤◌, ◌^◌, ◌++◌, ◌∷◌, [], ℕ, List, IfOk, OnOk, length};
ghost use Rattle.ak_model.specs.Paging.Histories.{History};
ghost use Rattle.ak_machine.specs.Machines.{IsJustBuilt};
ghost use Rattle.ak_run.specs.Runs.{Faithful};
ghost use Rattle.ak_script.specs.Script.{moves_in};
ghost use Rattle.ak_top.specs.Follows.{Drives, Follows, Makes, Moves, past_of};
ghost use Rattle.ak_top.specs.Sessions.{IsSession};

use ak_core::{Move, OutOfMemory};
use ak_driver::Driver;
use ak_machine::Machine;
use ak_run::Run;
use ak_script::{Item, Script};
use std::alloc::Global;

/// A run, and the honest kernel, which is told each of its moves.
#[derive(Drop)]
struct Session {
    run: Run,
    driver: Driver,
}

impl Session {
    /// The machine at the end of a build, with the empty journal.
    fn begin(alloc: Global, machine: Machine) -> Result<Session, OutOfMemory>
        requires handles { length machine.encls.handles.sealed_pages < 2 ^ 31 }
        requires cycles { machine.encls.track.cycles < 2 ^ 62 }
        ensures layout { IfOk result (λ session. session.run.machine.layout ≡ machine.layout) }
        ensures moves { IfOk result (λ session. session.run.journal.moves ≡ []) }
        ensures past { IfOk result (λ session. past_of session.run.journal ≡ []) }
        ensures stands { (image : List ℕ) → IsJustBuilt image machine → IfOk result (IsSession image) }
    {
        let driver = Driver::new(alloc, machine.layout())?;
        let run = Run::new(alloc, machine)?;
        Ok(Session { run, driver })
    }

    /// Applies a move, and tells the honest kernel of it.
    fn apply(&mut self, m: Move) -> Result<(), OutOfMemory>
        requires { length self.old.run.journal.moves < 2 ^ 31 }
        ensures layout { self.new.run.machine.layout ≡ self.old.run.machine.layout }
        ensures moves { OnOk result (length self.new.run.journal.moves ≡ length self.old.run.journal.moves + 1) }
        ensures stands { (image : List ℕ) → IsSession image self.old → OnOk result (IsSession image self.new) }
        ensures next { (image : List ℕ) → IsSession image self.old
            → OnOk result (Moves m (λ past. past_of self.new.run.journal ≡ past) (past_of self.old.run.journal)) }
    {
        let answer = self.run.apply(&m)?;
        self.driver.note(&m, &answer);
        Ok(())
    }

    /// Applies up to so many moves of the honest kernel, with these inputs for the program.
    fn drive(&mut self, most: u32, inputs: &[u64]) -> Result<(), OutOfMemory>
        requires { length self.old.run.journal.moves + most < 2 ^ 31 }
        ensures layout { self.new.run.machine.layout ≡ self.old.run.machine.layout }
        ensures moves { OnOk result (length self.new.run.journal.moves ≤ length self.old.run.journal.moves + most) }
        ensures stands { (image : List ℕ) → IsSession image self.old → OnOk result (IsSession image self.new) }
        ensures drives { (image : List ℕ) → IsSession image self.old
            → OnOk result (Drives self.old.run.machine.layout inputs.now most (past_of self.old.run.journal) (past_of self.new.run.journal)) }
    {
        for _ in 0..most {
            let Some(m) = self.driver.next(self.run.machine().layout(), inputs) else {
                return Ok(());
            };
            self.apply(m)?;
        }
        Ok(())
    }

    /// Does what an item says.
    fn take(&mut self, item: Item, inputs: &[u64]) -> Result<(), OutOfMemory>
        requires { length self.old.run.journal.moves + moves_in item < 2 ^ 31 }
        ensures layout { self.new.run.machine.layout ≡ self.old.run.machine.layout }
        ensures moves { OnOk result (length self.new.run.journal.moves ≤ length self.old.run.journal.moves + moves_in item) }
        ensures stands { (image : List ℕ) → IsSession image self.old → OnOk result (IsSession image self.new) }
        ensures makes { (image : List ℕ) → IsSession image self.old
            → OnOk result (Makes self.old.run.machine.layout inputs.now item (past_of self.old.run.journal) (past_of self.new.run.journal)) }
    {
        match item {
            Item::Move(m) => self.apply(m),
            Item::Auto(most) => self.drive(most, inputs),
        }
    }
}

/// Applies up to so many moves of the honest kernel to a machine from its build on, with no inputs for its program.
pub fn run_honest(alloc: Global, machine: Machine, most: u32) -> Result<Run, OutOfMemory>
    requires handles { length machine.encls.handles.sealed_pages < 2 ^ 31 }
    requires cycles { machine.encls.track.cycles < 2 ^ 62 }
    requires few { most < 2 ^ 31 }
    ensures layout { IfOk result (λ run. run.machine.layout ≡ machine.layout) }
    ensures drives { (image : List ℕ) → IsJustBuilt image machine → IfOk result (λ run. Drives machine.layout [] most [] (past_of run.journal)) }
    ensures faithful { (image : List ℕ) → IsJustBuilt image machine → IfOk result (Faithful image) }
{
    let mut session = Session::begin(alloc, machine)?;
    session.drive(most, &[])?;
    let Session { run, driver: _ } = session;
    Ok(run)
}

/// Applies a script's moves to a machine from its build on.
pub fn run_script(alloc: Global, machine: Machine, script: &Script) -> Result<Run, OutOfMemory>
    requires handles { length machine.encls.handles.sealed_pages < 2 ^ 31 }
    requires cycles { machine.encls.track.cycles < 2 ^ 62 }
    ensures layout { IfOk result (λ run. run.machine.layout ≡ machine.layout) }
    ensures follows { (image : List ℕ) → IsJustBuilt image machine → IfOk result (λ run. Follows machine.layout script.now run.journal) }
    ensures faithful { (image : List ℕ) → IsJustBuilt image machine → IfOk result (Faithful image) }
{
    let mut session = Session::begin(alloc, machine)?;
    for item in script.items() {
        session.take(*item, script.inputs())?;
    }
    let Session { run, driver: _ } = session;
    Ok(run)
}
