// What sinks take, in memory and of a stream: how many writes a text takes, and what is taken before one fails.
use ak_outside::{MemSink, RealSink, Sink, write_lines, write_three, write_two};
use std::alloc::Global;
use std::io;
use std::io::Write;
use std::test::Fail;

/// Writes by each of the three, into a sink whose numbered write fails: whether all was taken, and what.
fn written(
    alloc: Global,
    pieces: usize,
    room: usize,
    failing: u32,
) -> Result<(bool, MemSink), Fail> {
    let mut out = MemSink::new(alloc);
    out.room(room)?;
    out.room(1)?;
    out.fail_at(failing)?;
    let result = match pieces {
        1 => write_lines(&mut out, b"one\n\nthree"),
        2 => write_two(&mut out, b"a", b"bc"),
        _ => write_three(&mut out, b"a", b"bc", b"de"),
    };
    Ok((result.is_ok(), out))
}

#[test]
fn writes_to_memory(rt: HostRuntime) -> Result<(), Fail> {
    let cases: [(usize, usize, u32, bool, &[u8]); 16] = [
        (1, 9, 0, true, b"one\n\nthree"),
        (1, 9, 1, false, b""),
        (1, 9, 2, false, b"one\n"),
        (1, 9, 3, false, b"one\n\n"),
        (1, 9, 4, true, b"one\n\nthree"),
        (1, 8, 0, false, b"one\n\n"),
        (2, 2, 0, true, b"abc"),
        (2, 2, 1, false, b""),
        (2, 2, 2, false, b"a"),
        (2, 1, 0, false, b"a"),
        (2, 2, 3, true, b"abc"),
        (3, 4, 0, true, b"abcde"),
        (3, 4, 1, false, b""),
        (3, 4, 2, false, b"a"),
        (3, 4, 3, false, b"abc"),
        (3, 3, 0, false, b"abc"),
    ];
    for (pieces, room, failing, is_whole, taken) in cases {
        let (is_ok, out) = written(rt.alloc(), pieces, room, failing)?;
        assert!(rt; is_ok == is_whole, "{pieces} at {failing}");
        assert!(rt; out.taken() == taken, "{pieces} at {failing}");
    }
    Ok(())
}

/// A stream that takes two bytes in a write, and none once it took `most`.
#[derive(Drop)]
struct Trickle {
    taken: usize,
    most: usize,
}

impl Write for Trickle {
    fn write(&mut self, buf: &[u8]) -> io::Result<usize> {
        let left = self.most.saturating_sub(self.taken);
        let count = buf.len().min(2).min(left);
        self.taken = self.taken.saturating_add(count);
        Ok(count)
    }

    fn flush(&mut self) -> io::Result<()> {
        Ok(())
    }
}

#[test]
fn writes_to_streams(rt: HostRuntime) -> Result<(), Fail> {
    for (most, is_taken) in [(5, true), (9, true), (4, false), (0, false)] {
        let mut out = RealSink::new(Trickle { taken: 0, most });
        assert_eq!(rt; out.write(b"abcde").is_ok(), is_taken);
    }
    Ok(())
}
