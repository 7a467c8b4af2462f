// What files give and how reading them fails, in memory and of the system.
use ak_outside::{Files, FilesFault, MemFiles, RealFiles};
use std::alloc::Global;
use std::fs;
use std::process::Abort;
use std::test::Fail;

/// A read: its name and limit, and the bytes or the fault that it comes to.
type Case<'a> = (&'a str, u32, Result<&'a [u8], FilesFault>);

fn read_all<F: Files>(
    rt: &impl Abort,
    alloc: Global,
    files: &mut F,
    cases: &[Case<'_>],
) -> Result<(), Fail> {
    for (name, limit, want) in cases {
        let is_wanted = match (files.read(alloc, name, *limit as usize), want) {
            (Ok(bytes), Ok(wanted)) => bytes.as_slice() == *wanted,
            (Err(fault), Err(wanted)) => fault == *wanted,
            _ => false,
        };
        assert!(rt; is_wanted, "{name} at {limit}");
    }
    Ok(())
}

#[test]
fn reads_files_in_memory(rt: HostRuntime) -> Result<(), Fail> {
    let mut files = MemFiles::new(rt.alloc());
    files.put("image", b"none")?;
    files.put("empty", b"")?;
    files.put("image", b"five!")?;
    files.fail_at(3)?;
    files.fail_at(0)?;
    let cases: [Case<'_>; 7] = [
        ("image", 5, Ok(b"five!")),
        ("image", 4, Err(FilesFault::TooLong)),
        ("image", 5, Err(FilesFault::Failed)),
        ("other", 5, Err(FilesFault::Failed)),
        ("empty", 0, Ok(b"")),
        ("image", 0, Err(FilesFault::TooLong)),
        ("image", 6, Ok(b"five!")),
    ];
    read_all(&rt, rt.alloc(), &mut files, &cases)
}

#[test]
fn reads_files_of_the_system(rt: HostRuntime) -> Result<(), Fail> {
    let name = "ak_outside_test_file";
    let text = [b'x'; 5000];
    fs::write(&rt, name, text.as_slice())?;
    let cases: [Case<'_>; 7] = [
        (name, 5000, Ok(text.as_slice())),
        (name, 4999, Err(FilesFault::TooLong)),
        (name, 0, Err(FilesFault::TooLong)),
        ("ak_outside_no_such_file", 9, Err(FilesFault::Failed)),
        ("/dev", 9, Err(FilesFault::Failed)),
        ("/dev/null", 0, Ok(b"")),
        ("/dev/zero", 70000, Err(FilesFault::TooLong)),
    ];
    read_all(&rt, rt.alloc(), &mut RealFiles::new(&rt), &cases)?;
    fs::remove_file(&rt, name)?;
    Ok(())
}
