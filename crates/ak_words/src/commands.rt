// The commands as clap has them.
ghost use Rattle.std.specs.Prelude.{◌≡◌, IfOk, map, true, string_bytes};
ghost use Rattle.std.specs.Option.{option_map};
ghost use Rattle.clap.specs.Words.{app_of, found_of, is_simple_and_free, rows_of};
ghost use Rattle.ak_words.specs.Clap.{demo_app, found_by, measure_app, run_app};

use ak_core::OutOfMemory;
use clap::error::ErrorKind;
use clap::{Arg, ArgMatches, Command};
use std::alloc::{AllocError, Global};

/// `run IMAGE SIGNERS SCRIPT [--frames N] [--processors N]`.
pub fn run_command<'a>(alloc: Global) -> Result<Command<'a>, AllocError>
    ensures { IfOk result (λ command. app_of command ≡ run_app) }
{
    let image = Arg::new(alloc, "IMAGE").required(true);
    let signers = Arg::new(alloc, "SIGNERS").required(true);
    let script = Arg::new(alloc, "SCRIPT").required(true);
    let frames = Arg::new(alloc, "frames").long("frames");
    let processors = Arg::new(alloc, "processors").long("processors");
    Ok(
        Command::new(alloc, "run")
            .disable_help_flag(true)
            .arg(image)?
            .arg(signers)?
            .arg(script)?
            .arg(frames)?
            .arg(processors)?,
    )
}

/// `measure IMAGE`.
pub fn measure_command<'a>(alloc: Global) -> Result<Command<'a>, AllocError>
    ensures { IfOk result (λ command. app_of command ≡ measure_app) }
{
    let image = Arg::new(alloc, "IMAGE").required(true);
    Ok(
        Command::new(alloc, "measure")
            .disable_help_flag(true)
            .arg(image)?,
    )
}

/// `demo NUMBER`.
pub fn demo_command<'a>(alloc: Global) -> Result<Command<'a>, AllocError>
    ensures { IfOk result (λ command. app_of command ≡ demo_app) }
{
    let number = Arg::new(alloc, "NUMBER").required(true);
    Ok(
        Command::new(alloc, "demo")
            .disable_help_flag(true)
            .arg(number)?,
    )
}

/// What clap finds in the words after the first; none where it refuses them. The error is want of memory.
pub fn matches_of<'a>(
    command: Command<'a>,
    words: &'a [String],
) -> Result<Option<ArgMatches<'a>>, OutOfMemory>
    requires { is_simple_and_free (app_of command) ≡ true }
    ensures { IfOk result (λ matches. option_map (λ m. rows_of (found_of m)) matches
        ≡ found_by (app_of command.entry) (map string_bytes words.entry.now)) }
{
    match command.try_get_matches_from(words) {
        Ok(matches) => Ok(Some(matches)),
        Err(error) => match error.kind() {
            ErrorKind::OutOfMemory => Err(OutOfMemory),
            _ => Ok(None),
        },
    }
}
