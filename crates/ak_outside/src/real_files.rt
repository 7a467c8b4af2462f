// The files of the system: the edge where nothing is known of what the system holds.
ghost use Rattle.std.specs.Prelude.{◌≡◌, ◌≤◌, ◌<◌, ◌^◌, Some, IsTrue, IfOk};
ghost use Rattle.ak_outside.specs.Causes.{Rose};
ghost use Rattle.ak_outside.specs.Counted.{held_by, number_of};
ghost use Rattle.ak_outside.specs.Reads.{Asks, CountsFailure, CountsRead, Hands, held_length};
ghost use Rattle.ak_outside.specs.Streams.{ReadsWhole};

use crate::counted::{self, Counted, Faults};
use crate::{Files, FilesFault};
use std::alloc::Global;
use std::io::Read;
use std::rt;

/// The bytes that one read of the system may give.
const CHUNK_BYTES: usize = 4096;

/// The files of the system, by path. It tells neither what they hold nor which were asked.
#[derive(Drop)]
pub struct RealFiles<'a, R: rt::Files> {
    runtime: Counted<&'a R>,
    handed: usize,
    faults: Faults<R::File>,
}

impl<'a, R: rt::Files> RealFiles<'a, R> {
    /// The files of this runtime, none of them read.
    pub fn new(runtime: &'a R) -> Self
        ensures handed { ⟦<RealFiles<'a, R> as Files>⟧.handed result ≡ 0 }
        ensures faults { ⟦<RealFiles<'a, R> as Files>⟧.faults result ≡ 0 }
    {
        RealFiles {
            runtime: Counted::new(runtime),
            handed: 0,
            faults: Faults::new(),
        }
    }

    /// The bytes of the file at this path, and how many of them it handed over.
    fn read_path(&mut self, alloc: Global, path: &str, limit: usize) -> Result<Vec<u8>, FilesFault>
        requires { limit < 2 ^ 32 }
        ensures handed { Hands limit self.new.handed result }
        ensures count { CountsFailure (number_of self.old.faults) (number_of self.new.faults) result }
    {
        self.handed = 0;
        let Ok(mut file) = counted::open(&self.runtime, &mut self.faults, path) else {
            return Err(FilesFault::Failed);
        };
        read_whole(&mut file, &mut self.faults, &mut self.handed, alloc, limit)
    }
}

impl<'a, R: rt::Files> Files for RealFiles<'a, R> {
    ghost use Rattle.std.specs.Prelude.{false, None, []};
    ghost use Rattle.ak_outside.specs.RealFiles.{untold};

    ghost tells = { λ _. false };

    ghost content = { λ _. untold };

    ghost asked = { λ _. [] };

    ghost handed = { λ files. files.handed };

    ghost faults = { λ files. number_of files.faults };

    /// As `Files::read`. The count of faults grows by one at the reads that fail, and at no others.
    fn read(&mut self, alloc: Global, name: &str, limit: usize) -> Result<Vec<u8>, FilesFault>
        requires { limit < 2 ^ 32 }
        ensures handed { Hands limit self.new.handed result }
        ensures count { CountsRead (number_of self.old.faults) (number_of self.new.faults) result }
        ensures failures { CountsFailure (number_of self.old.faults) (number_of self.new.faults) result }

        // The trait's clauses of what is told: these files tell nothing.
        ensures bytes { IsTrue false → IfOk result (λ v. untold name.now ≡ Some v.items) }
        ensures asked { IsTrue false → Asks [] [] name.now result }
        ensures within { IsTrue false → self.new.handed ≤ held_length (untold name.now) }
        ensures missing { IsTrue false → untold name.now ≡ None → Rose (number_of self.old.faults) (number_of self.new.faults) }
    {
        self.read_path(alloc, name, limit)
    }
}

/// Reads a source to its end, or the `limit + 1` bytes that are too many, and tells how many bytes were handed over.
fn read_whole<S: Read>(
    source: &mut Counted<S>,
    faults: &mut Faults<S>,
    handed: &mut usize,
    alloc: Global,
    limit: usize,
) -> Result<Vec<u8>, FilesFault>
    requires { limit < 2 ^ 32 }
    ensures bytes { ReadsWhole (S.remaining (held_by source.old)) (S.remaining (held_by source.new)) limit result }
    ensures count { CountsFailure (number_of faults.old) (number_of faults.new) result }
    ensures handed { Hands limit handed.new result }
{
    let mut bytes = Vec::new(alloc);
    let mut chunk = [0; CHUNK_BYTES];
    *handed = 0;
    'chunks: loop {
        let left = limit - bytes.len();
        let part = &mut chunk[..(left + 1).min(CHUNK_BYTES)];
        let Ok(count) = counted::read(source, faults, part) else {
            return Err(FilesFault::Failed);
        };
        if count == 0 {
            *handed = bytes.len();
            return Ok(bytes);
        }
        if count > left {
            *handed = limit + 1;
            return Err(FilesFault::TooLong);
        }
        if bytes.extend_from_slice(&part[..count]).is_err() {
            return Err(FilesFault::OutOfMemory);
        }
    }
}
