// The calls of the system, each counted where it fails: nothing else reaches the system, or raises a count.
ghost use Rattle.std.specs.Prelude.{◌≡◌, ◌<◌, ◌≤◌, length, IfOk};
ghost use Rattle.std.specs.Io.{ReadsAtMost};
ghost use Rattle.std.specs.Io.KnownBytes.{ReadConsumes, WriteAppends};
ghost use Rattle.ak_outside.specs.Causes.{Counts, one_more};
ghost use Rattle.ak_outside.specs.Counted.{held_by, number_of};

use crate::SinkFault;
use std::fs::File;
use std::io::{self, Read, Write};
use std::marker::PhantomData;
use std::rt;

/// A stream or the files of the system, which only the calls of this module reach.
#[derive(Drop)]
pub struct Counted<T> {
    held: T,
}

impl<T> Counted<T> {
    /// It is reached by counted calls alone from here on.
    pub fn new(held: T) -> Self
        ensures { held_by result ≡ held }
    {
        Counted { held }
    }
}

/// How many calls failed that were to open, read or write an `S`.
#[derive(Drop)]
pub struct Faults<S> {
    number: u64,
    of: PhantomData<S>,
}

impl<S> Faults<S> {
    /// No call failed yet.
    pub fn new() -> Self
        ensures { number_of result ≡ 0 }
    {
        Faults {
            number: 0,
            of: PhantomData,
        }
    }

    fn add(&mut self)
        ensures { number_of self.new ≡ one_more (number_of self.old) }
    {
        self.number = self.number.saturating_add(1);
    }
}

/// Opens the file at this path.
pub fn open<R: rt::Files>(
    files: &Counted<&R>,
    faults: &mut Faults<R::File>,
    path: &str,
) -> io::Result<Counted<R::File>>
    ensures count { Counts (number_of faults.old) (number_of faults.new) result }
{
    match File::open(files.held, path) {
        Ok(file) => Ok(Counted::new(file)),
        Err(error) => {
            faults.add();
            Err(error)
        }
    }
}

/// One read of a source.
pub fn read<S: Read>(
    source: &mut Counted<S>,
    faults: &mut Faults<S>,
    part: &mut [u8],
) -> io::Result<usize>
    ensures bound { ReadsAtMost result part.new }
    ensures bytes { ReadConsumes (S.remaining (held_by source.old)) (S.remaining (held_by source.new)) result part.new }
    ensures count { Counts (number_of faults.old) (number_of faults.new) result }
{
    let result = source.held.read(part);
    if result.is_err() {
        faults.add();
    }
    result
}

/// One write of a piece that is not empty. One that takes nothing fails too.
pub fn write<W: Write>(
    stream: &mut Counted<W>,
    faults: &mut Faults<W>,
    piece: &[u8],
) -> Result<usize, SinkFault>
    requires { 0 < length piece.now }
    ensures some { IfOk result (λ count. 0 < count) }
    ensures bound { IfOk result (λ count. count ≤ length piece.now) }
    ensures bytes { WriteAppends (W.contents (held_by stream.old)) (W.contents (held_by stream.new)) result piece.now }
    ensures count { Counts (number_of faults.old) (number_of faults.new) result }
{
    match stream.held.write(piece) {
        Ok(count) if count > 0 => Ok(count),
        _ => {
            faults.add();
            Err(SinkFault::Failed)
        }
    }
}
