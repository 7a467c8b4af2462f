// Registers, and the bytes of STATE and of saved frames, by words.

use ak_core::{Kind, Mode, PAGE_SIZE, Regs};
use ak_ssa::Why;
use std::test::Fail;

/// The address of page 0 in each layout.
pub const BASE: u64 = 0x1000_0000;

/// The program's registers, as an area has them.
pub const PROGRAM: Regs = Regs {
    gpr: [
        1,
        0x10020,
        3,
        4,
        5,
        6,
        7,
        8,
        9,
        10,
        11,
        12,
        13,
        14,
        15,
        0xffff_ffff_ffff_ffff,
    ],
    rip: 0x10004,
    cf: true,
    zf: false,
    sf: true,
    of: false,
    mode: Mode::Program,
};

/// The program's registers, as STATE keeps them while a call is out or a cluster is asked for.
pub const KEPT: Regs = Regs {
    rip: 0x10020,
    cf: false,
    of: true,
    ..PROGRAM
};

/// A number in decimal digits.
pub fn number(digits: &str) -> Result<u64, Fail> {
    Ok(digits.parse()?)
}

/// The registers at a step, by the address of CODE: `entry SAVED VALUE`, `guard`, `leave NUMBER ARGUMENT` or `probe NUMBER`.
pub fn at_step(code: u64, words: &str) -> Result<Regs, Fail> {
    let mut words = words.split_whitespace();
    let step = words.next().unwrap_or("");
    let first = number(words.next().unwrap_or("0"))?;
    let second = number(words.next().unwrap_or("0"))?;
    let mut regs = Regs {
        mode: Mode::Runtime,
        ..PROGRAM
    };
    let offset = match step {
        "entry" => {
            regs.gpr = [0; 16];
            regs.gpr[0] = first;
            regs.gpr[7] = second;
            regs.cf = false;
            regs.sf = false;
            0
        }
        "guard" => 16,
        "leave" => {
            regs.gpr[7] = first;
            regs.gpr[6] = second;
            32
        }
        _ => {
            regs.gpr[1] = first;
            48
        }
    };
    regs.rip = code.wrapping_add(offset);
    Ok(regs)
}

/// Puts a number of 8 bytes into a page.
fn put(page: &mut [u8; PAGE_SIZE], place: usize, value: u64) {
    for (i, byte) in value.to_le_bytes().iter().enumerate() {
        let at = place.wrapping_add(i);
        if at < PAGE_SIZE {
            page[at] = *byte;
        }
    }
}

/// Puts a phase, as `asked 1`, into the bytes of STATE.
pub fn put_phase(page: &mut [u8; PAGE_SIZE], words: &str) -> Result<(), Fail> {
    let mut words = words.split_whitespace();
    let name = words.next().unwrap_or("");
    let more = number(words.next().unwrap_or("0"))?;
    let code = match name {
        "new" => 0,
        "running" => 1,
        "calling" => 2,
        "asked" => 3,
        "ended" => 4,
        "trapped" => 5,
        _ => 6,
    };
    put(page, 0, code);
    match name {
        "asked" => put(page, 8, more),
        "ended" | "trapped" => put(page, 16, more),
        _ => {}
    }
    Ok(())
}

/// Puts a cluster at a place of the queue into the bytes of STATE.
pub fn put_cluster(page: &mut [u8; PAGE_SIZE], place: usize, cluster: u64) {
    let at = place.wrapping_mul(2).wrapping_add(1024);
    if at < PAGE_SIZE - 1 {
        page[at] = (cluster % 256) as u8;
        page[at + 1] = (cluster / 256 % 256) as u8;
    }
}

/// Puts the length of the queue into the bytes of STATE.
pub fn put_length(page: &mut [u8; PAGE_SIZE], length: u64) {
    put(page, 24, length);
}

/// Puts a queue, as `0 2`, into the bytes of STATE.
pub fn put_queue(page: &mut [u8; PAGE_SIZE], words: &str) -> Result<(), Fail> {
    let mut count: usize = 0;
    for cluster in words.split_whitespace() {
        put_cluster(page, count, number(cluster)?);
        count = count.wrapping_add(1);
    }
    put_length(page, count as u64);
    Ok(())
}

/// What was noted of an exit: `none`, `vector V` or `page P KIND`.
fn noted(words: &str) -> Result<Why, Fail> {
    let mut words = words.split_whitespace();
    let name = words.next().unwrap_or("");
    let first = number(words.next().unwrap_or("0"))?;
    let kind = match words.next().unwrap_or("") {
        "write" => Kind::Write,
        "exec" => Kind::Exec,
        _ => Kind::Read,
    };
    Ok(match name {
        "vector" => Why::Vector((first % 256) as u8),
        "page" => Why::PageFault(BASE.wrapping_add(first.wrapping_mul(4096)), kind),
        _ => Why::Interrupt,
    })
}

/// A saved frame: of the `program`, the `guard` or the `runtime` at a probe, and what was noted.
pub fn saved(code: u64, words: &str) -> Result<(Regs, Why), Fail> {
    let (whose, why) = words.trim().split_once(' ').unwrap_or(("program", "none"));
    let regs = match whose {
        "runtime" => at_step(code, "probe 1")?,
        "guard" => at_step(code, "guard")?,
        _ => PROGRAM,
    };
    Ok((regs, noted(why)?))
}
