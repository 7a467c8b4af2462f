// What a move came to.
ghost use Rattle.std.specs.Prelude.{◌≡◌};
ghost use Rattle.ak_machine.specs.Moves.{plainly};

use ak_core::Answer;
use ak_turns::{ProgramNote, Ran, RuntimeNote};

/// What a move came to.
#[derive(Clone, Copy, PartialEq, Eq, Debug)]
pub struct Applied {
    /// The answer.
    pub answer: Answer,
    /// How many instructions the program completed.
    pub completed: u64,
    /// What the program showed.
    pub program: ProgramNote,
    /// What the runtime did.
    pub runtime: RuntimeNote,
}

impl Applied {
    /// A move in which no turn was made.
    pub(crate) fn plainly(answer: Answer) -> Applied
        ensures { result ≡ plainly answer }
    {
        Applied {
            answer,
            completed: 0,
            program: ProgramNote::Plain,
            runtime: RuntimeNote::Quiet,
        }
    }

    /// A run of turns.
    pub(crate) fn of_run(ran: Ran) -> Applied
        ensures { result ≡ record { answer = Answer.Exit ran.exit; completed = ran.completed; program = ran.program; runtime = ran.runtime } }
    {
        Applied {
            answer: Answer::Exit(ran.exit),
            completed: ran.completed,
            program: ran.program,
            runtime: ran.runtime,
        }
    }
}
