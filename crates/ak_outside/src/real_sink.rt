// A stream of the system: the edge where nothing is known of what arrives.
ghost use Rattle.std.specs.Prelude.{◌≡◌, OnOk, OnErr};
ghost use Rattle.std.specs.Io.KnownBytes.{Appends};
ghost use Rattle.ak_outside.specs.Causes.{Counts};
ghost use Rattle.ak_outside.specs.Counted.{held_by, number_of};
ghost use Rattle.ak_outside.specs.Streams.{AppendsFront};

use crate::counted::{self, Counted, Faults};
use crate::{Sink, SinkFault};
use std::io::Write;

/// A stream of the system. It does not tell what it took, and is to keep no byte back: nothing flushes it.
#[derive(Drop)]
pub struct RealSink<W: Write> {
    stream: Counted<W>,
    faults: Faults<W>,
}

impl<W: Write> RealSink<W> {
    ghost use Rattle.ak_outside.specs.RealSink.{stream_of, faults_of};

    /// A sink over this stream.
    pub fn new(stream: W) -> Self
        ensures stream { stream_of result ≡ stream }
        ensures faults { faults_of result ≡ 0 }
    {
        RealSink {
            stream: Counted::new(stream),
            faults: Faults::new(),
        }
    }
}

impl<W: Write> Sink for RealSink<W> {
    ghost use Rattle.std.specs.Prelude.{None};
    ghost use Rattle.ak_outside.specs.RealSink.{stream_of, faults_of};

    ghost taken = { λ _. None };

    ghost faults = { faults_of };

    /// As `Sink::write`. Where the stream's own contract tells its bytes, they grow by the piece, or by a front of it.
    fn write(&mut self, piece: &[u8]) -> Result<(), SinkFault>
        ensures count { Counts (faults_of self.old) (faults_of self.new) result }
        ensures arrives { OnOk result (Appends (W.contents (stream_of self.old)) (W.contents (stream_of self.new)) piece.now) }
        ensures arrives_in_part { OnErr result (AppendsFront (W.contents (stream_of self.old)) (W.contents (stream_of self.new)) piece.now) }
    {
        write_whole(&mut self.stream, &mut self.faults, piece)
    }
}

/// Writes the whole piece, in as many writes as the stream needs.
fn write_whole<W: Write>(
    stream: &mut Counted<W>,
    faults: &mut Faults<W>,
    piece: &[u8],
) -> Result<(), SinkFault>
    ensures ok { OnOk result (Appends (W.contents (held_by stream.old)) (W.contents (held_by stream.new)) piece.now) }
    ensures err { OnErr result (AppendsFront (W.contents (held_by stream.old)) (W.contents (held_by stream.new)) piece.now) }
    ensures count { Counts (number_of faults.old) (number_of faults.new) result }
{
    let mut written = 0;
    while written < piece.len() {
        match counted::write(stream, faults, &piece[written..]) {
            Ok(count) => written += count,
            Err(fault) => return Err(fault),
        }
    }
    Ok(())
}
