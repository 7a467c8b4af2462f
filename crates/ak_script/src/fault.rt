// Why a script is refused.
ghost use Rattle.std.specs.Prelude.{◌≡◌};

use std::alloc::AllocFailed;
use thiserror::Error;

/// Why a line of a script is refused.
#[derive(Clone, Copy, PartialEq, Eq, Debug, Error)]
pub enum Refusal {
    /// It has a byte over 127.
    #[error("a byte is over 127")]
    NotAscii = 1,
    /// Its first word is none of a script's words.
    #[error("the first word is unknown")]
    Unknown = 2,
    /// Another number of words follows the first.
    #[error("the number of words is wrong")]
    Words = 3,
    /// A word is to be a number and is none.
    #[error("a word is no number")]
    Number = 4,
    /// A number is out of its range.
    #[error("a number is out of its range")]
    Range = 5,
    /// With this line the moves, or their turns, are too many.
    #[error("the moves or their turns are too many")]
    TooMany = 6,
    /// A word is to be flags and is none.
    #[error("a word is no flags")]
    Flags = 7,
}

impl Refusal {
    ghost use Rattle.ak_script.specs.Refusal.{number_of, word_of};

    /// The number of the refusal.
    pub fn number(self) -> u8
        ensures { result ≡ number_of self }
    {
        self as u8
    }

    /// The word of the refusal.
    pub fn word(self) -> &'static str
        ensures { result.now ≡ word_of self }
    {
        match self {
            Refusal::NotAscii => "notascii",
            Refusal::Unknown => "unknown",
            Refusal::Words => "words",
            Refusal::Number => "number",
            Refusal::Range => "range",
            Refusal::TooMany => "toomany",
            Refusal::Flags => "flags",
        }
    }
}

/// Why no script was read.
#[derive(Clone, Copy, PartialEq, Eq, Debug, Error)]
pub enum ScriptFault {
    /// The first refused line, counted from 1.
    #[error("line {line} is refused: {why}")]
    Refused {
        /// The line.
        line: u32,
        /// Why it is refused.
        why: Refusal,
    },
    /// Memory ran out.
    #[error("out of memory")]
    OutOfMemory,
}

impl<T: Drop> From<AllocFailed<T>> for ScriptFault {
    ghost use Rattle.ak_script.specs.declared.fault.ScriptFault.TheVariants.{OutOfMemory};

    ghost from_gives = { λ _ fault. fault ≡ OutOfMemory };

    fn from(_failed: AllocFailed<T>) -> ScriptFault {
        ScriptFault::OutOfMemory
    }
}
