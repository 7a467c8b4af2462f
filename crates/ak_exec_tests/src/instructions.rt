// Each encoding and each trap, over a memory of four pages.
ghost use Rattle.std.specs.Prelude.{◌≡◌, IfOk};
ghost use Rattle.ak_core.specs.declared.registers.Mode.TheVariants.{Program};

use crate::four_pages::FourPages;
use ak_core::{Fault, Kind, Layout, Mode, Page, Perm, Regs};
use ak_exec::{Turn, exec};
use std::test::Fail;

const BASE: u64 = 0x10000;

/// A layout of four program pages at `BASE`.
#[tactic(auto, unfolding(ak_core::specs::Layout::enclave_size))]
fn four_pages(rt: &HostRuntime) -> Result<Layout, Fail> {
    let perms = [Perm::Rx, Perm::Rx, Perm::Rw, Perm::Rw].to_vec(rt.alloc())?;
    let cluster_of = [0, 0, 0, 0].to_vec(rt.alloc())?;
    Ok(Layout::new(BASE, 0, perms, cluster_of, 1, 4, 16, 1))
}

/// Registers of the program: RBX points into page 2, and RSP into page 3.
const PROGRAM: Regs = Regs {
    gpr: [
        4,
        5,
        0,
        0x12000,
        0x13100,
        0,
        77,
        1,
        0,
        0x1122_3344_5566_7788,
        0,
        0,
        0,
        0,
        0,
        0,
    ],
    rip: BASE,
    cf: true,
    zf: false,
    sf: false,
    of: true,
    mode: Mode::Program,
};

/// A hexadecimal number.
fn number(digits: &str) -> Result<u64, Fail> {
    Ok(u64::from_str_radix(digits, 16)?)
}

/// Registers with those changed that words name by their numbers, as in `3=12000`. RIP has the number 10, and RFLAGS 11 (SDM
/// volume 1, "EFLAGS Register": CF is bit 0, ZF 6, SF 7 and OF 11).
fn changed(mut regs: Regs, words: &str) -> Result<Regs, Fail>
    ensures { IfOk result (λ after. after.mode ≡ Program) }
{
    for word in words.split_whitespace() {
        let (name, value) = word.split_once('=').ok_or(word)?;
        set(&mut regs, number(name)?, number(value)?);
    }
    regs.mode = Mode::Program;
    Ok(regs)
}

/// Sets a register.
fn set(regs: &mut Regs, register: u64, value: u64) {
    match register {
        0..16 => regs.gpr[register as usize] = value,
        0x10 => regs.rip = value,
        _ => {
            regs.cf = value % 2 == 1;
            regs.zf = value / 0x40 % 2 == 1;
            regs.sf = value / 0x80 % 2 == 1;
            regs.of = value / 0x800 % 2 == 1;
        }
    }
}

/// A memory with this code from RIP on, a number at 2010 and one at 3100; and where the code ends.
fn memory(rip: u64, code: &str, out: Option<u32>) -> Result<(FourPages, u64), Fail> {
    let mut mem = FourPages::new(out);
    mem.put(0x2010, &0x8877_6655_4433_2211u64.to_le_bytes());
    mem.put(0x3100, &0x10040u64.to_le_bytes());
    let mut end = rip;
    for byte in code.split_whitespace() {
        let byte = u8::from_str_radix(byte, 16)?;
        mem.put(end.wrapping_sub(BASE) as usize, &[byte]);
        end = end.wrapping_add(1);
    }
    Ok((mem, end))
}

/// A line a case: an instruction; the registers that differ from `PROGRAM` before it; how the turn ends; and where it
/// completes, the registers that differ after it, but for RIP where that goes on, and a number in memory, by its distance from
/// the base. They are by the manual, and for arithmetic as an x86-64 processor gave them. A flag that x86 leaves undefined
/// stays.
const CASES: &str = "\
49 b9 11 22 33 44 55 66 77 88 | | Done | 9=8877665544332211
48 89 cb | | Done | 3=5
48 8b d9 | | Done | 3=5
4c 8b 93 10 00 00 00 | | Done | a=8877665544332211
4c 8b 8b f0 ff ff ff | | Done | 9=0
44 8a 8b 10 00 00 00 | | Done | 9=1122334455667711
4c 89 8b 20 00 00 00 | | Done | | 2020=1122334455667788
4c 89 8b f8 ff ff ff | | Done | | 1ff8=1122334455667788
4c 89 8b f8 1f 00 00 | | Done | | 3ff8=1122334455667788
44 88 8b 10 00 00 00 | | Done | | 2010=8877665544332288
4c 01 cb | 3=123456789abcdef0 9=fedcba987654321 11=8c1 | Done | 3=2222222222222211 11=0
4c 29 cb | 3=123456789abcdef0 9=fedcba987654321 11=8c1 | Done | 3=2468acf13579bcf 11=0
4c 21 cb | 3=123456789abcdef0 9=fedcba987654321 11=8c1 | Done | 3=224422882244220 11=0
4c 09 cb | 3=123456789abcdef0 9=fedcba987654321 11=8c1 | Done | 3=1ffddff99ffddff1 11=0
4c 31 cb | 3=123456789abcdef0 9=fedcba987654321 11=8c1 | Done | 3=1dd99dd11dd99dd1 11=0
4c 39 cb | 3=123456789abcdef0 9=fedcba987654321 11=8c1 | Done | 11=0
4c 85 cb | 3=123456789abcdef0 9=fedcba987654321 11=8c1 | Done | 11=0
49 0f af d9 | 3=123456789abcdef0 9=fedcba987654321 11=8c1 | Done | 3=2236d88fe5618cf0 11=841
49 0f af d9 | 3=fffffffffffffffd 9=5555555555555555 11=8c1 | Done | 3=1 11=841
48 c1 e3 08 | 3=123456789abcdef1 11=8c1 | Done | 3=3456789abcdef100 11=800
48 c1 e3 41 | 3=c000000000000003 11=8c1 | Done | 3=8000000000000006 11=81
48 c1 e3 ff | 3=1 11=8c1 | Done | 3=8000000000000000 11=880
48 c1 eb 08 | 3=123456789abcdef1 11=8c1 | Done | 3=123456789abcde 11=801
48 c1 eb 41 | 3=c000000000000003 11=8c1 | Done | 3=6000000000000001 11=801
48 c1 eb ff | 3=1 11=8c1 | Done | 3=0 11=840
48 f7 f1 | 1=123456789abcdef1 2=123456789abcdef0 0=fedcba987654321 | Done | 0=fffffffffffffff2 2=eca8641fdb9744f
90 | | Done
e9 10 00 00 00 | | Done | 10=10015
e9 f0 ff ff ff | | Done | 10=fff5
e8 10 00 00 00 | | Done | 4=130f8 10=10015 | 30f8=10005
0f 82 10 00 00 00 | | Done | 10=10016
0f 83 10 00 00 00 | | Done
0f 84 10 00 00 00 | | Done
0f 85 10 00 00 00 | | Done | 10=10016
0f 8c 10 00 00 00 | | Done | 10=10016
0f 8d 10 00 00 00 | | Done
0f 8e 10 00 00 00 | | Done | 10=10016
0f 8f 10 00 00 00 | | Done
c3 | | Done | 4=13108 10=10040
51 | | Done | 4=130f8 | 30f8=5
41 51 | | Done | 4=130f8 | 30f8=1122334455667788
54 | | Done | 4=130f8 | 30f8=13100
59 | | Done | 1=10040 4=13108
41 59 | | Done | 9=10040 4=13108
5c | | Done | 4=10040
4c 89 8b fc 0f 00 00 | 10=10ffd | Done | | 2ffc=1122334455667788
4c 8b 93 f9 ef ff ff | 10=10ffd | Done | a=f9938b4c00000000
0f 01 d7 | 0=ffffffff00000004 | Called(1, 77) | 1=10003
90 | 10=ffff | Trapped(13)
90 | 10=14000 | Trapped(13)
48 | 10=13fff | Trapped(13)
06 | | Trapped(6)
0f 05 | 10=10fff | Trapped(6)
0f 0b | | Trapped(6)
0f 0b | 10=10fff | Trapped(6)
0f 01 d7 | 0=5 | Trapped(13)
48 f7 f1 | 1=0 | Trapped(0)
48 f7 f1 | 2=5 | Trapped(0)
4c 8b 93 00 00 00 00 | 3=ffff | Trapped(13)
44 8a 8b 00 00 00 00 | 3=14000 | Trapped(13)
4c 89 8b 00 00 00 00 | 3=13ff9 | Trapped(13)
44 88 8b 00 00 00 00 | 3=ffff | Trapped(13)
51 | 4=10007 | Trapped(13)
e8 00 00 00 00 | 4=4 | Trapped(13)
59 | 4=13ff9 | Trapped(13)
c3 | 4=14001 | Trapped(13)
";

#[test]
fn runs_each_case(rt: HostRuntime) -> Result<(), Fail> {
    let layout = four_pages(&rt)?;
    for line in CASES.lines() {
        let mut columns = line.split('|');
        let code = columns.next().unwrap_or("");
        let before = changed(PROGRAM, columns.next().unwrap_or(""))?;
        let ending = columns.next().unwrap_or("").trim();
        let after = columns.next().unwrap_or("");
        let stored = columns.next().unwrap_or("").trim();
        let (mut mem, end) = memory(before.rip, code, None)?;
        let mut regs = before;
        let turn = exec(&layout, &mut regs, &mut mem);
        assert_eq!(rt;
            format!(in rt.alloc(); "{turn:?}")?.as_str(),
            ending,
            "{line}"
        );
        if matches!(turn, Turn::Done | Turn::Called(..)) {
            let after = changed(Regs { rip: end, ..before }, after)?;
            assert_eq!(rt; regs, after, "{line}");
        }
        if let Some((place, value)) = stored.split_once('=') {
            let place = number(place)? as usize;
            assert_eq!(rt; mem.number(place), number(value)?, "{line}");
        }
    }
    Ok(())
}

/// A store whose code and whose operand are each over two pages, of which one is out.
#[test]
fn faults(rt: HostRuntime) -> Result<(), Fail> {
    let layout = four_pages(&rt)?;
    for (page, kind) in [
        (0, Kind::Exec),
        (1, Kind::Exec),
        (2, Kind::Write),
        (3, Kind::Write),
    ] {
        let mut regs = changed(PROGRAM, "10=10ffd")?;
        let (mut mem, _) = memory(regs.rip, "4c 89 8b fc 0f 00 00", Some(page))?;
        let page = Page(page);
        assert_eq!(rt;
            exec(&layout, &mut regs, &mut mem),
            Turn::Faulted(Fault { page, kind })
        );
    }
    Ok(())
}
