// Saved frames by their 200 bytes.
ghost use Rattle.std.specs.Prelude.{ℕ, List, ◌≡◌, ◌+◌, ◌^◌, ◌<◌, ◌++◌, length, take, drop};
ghost use Rattle.ak_core.specs.declared.registers.Regs.{Regs as TheRegs};
ghost use Rattle.ak_ssa.specs.SavedFrames.{saved_bytes, exinfo, tail_bytes, exit_info, fault_code, fault_address, code_of, flags_number, bit_if, mode_number, guard_regs};
ghost use Rattle.ak_ssa.specs.SavedRegisters.{AreRegs, regs_in, flag_in, mode_in, words_in};
ghost use Rattle.ak_ssa.specs.ReadFrames.{why_in, kind_in, cleared};
ghost use Rattle.ak_ssa.specs.FramesFit.{WhyFits};
ghost use Rattle.ak_ssa.specs.declared.cause.Why.{Why as TheWhy};

use crate::cause::Why;
use ak_core::{Kind, Mode, Regs};
use byteorder::{ByteOrder, LittleEndian};

/// The bytes of a saved frame: EXINFO, and then the register area (SDM volume 3D, "State Save Area").
pub const FRAME_SIZE: usize = 200;

// Where each field stands in a frame. MADDR is first.
const ERRCD: usize = 8;

const GPR: usize = 16;

const RFLAGS: usize = 144;

const RIP: usize = 152;

const EXITINFO: usize = 176;

const MODE: usize = 180;

// The flags in RFLAGS (SDM volume 1, "EFLAGS Register"). The second bit is always set.
const CF: u64 = 1 << 0;

const ALWAYS: u64 = 1 << 1;

const ZF: u64 = 1 << 6;

const SF: u64 = 1 << 7;

const OF: u64 = 1 << 11;

/// EXITINFO is valid, and of a hardware exception (SDM volume 3D, "EXITINFO").
const VALID_EXCEPTION: u32 = 1 << 31 | 3 << 8;

/// The vector of a page fault.
const PAGE_FAULT: u8 = 14;

/// How far into CODE the guard's step is.
const GUARD_STEP: u64 = 16;

/// Writes a frame: the registers, and why the processor left.
pub fn save(frame: &mut [u8], regs: &Regs, why: Why)
    requires { length frame.old ≡ FRAME_SIZE }
    ensures { frame.new ≡ saved_bytes regs.now why }
{
    frame[..GPR].copy_from_slice(&head(why));
    LittleEndian::write_u64_into(&regs.gpr, &mut frame[GPR..RFLAGS]);
    frame[RFLAGS..].copy_from_slice(&tail(regs, why));
}

/// The registers in a frame, whatever its bytes are.
pub fn load(frame: &[u8]) -> Regs
    requires { length frame.now ≡ FRAME_SIZE }
    ensures registers { result ≡ regs_in frame.now }
    ensures saved { (regs : TheRegs) (why : TheWhy) → AreRegs regs → frame.now ≡ saved_bytes regs why → result ≡ regs }
{
    let flags = LittleEndian::read_u64(&frame[RFLAGS..]);
    Regs {
        gpr: registers(&frame[GPR..RFLAGS]),
        rip: LittleEndian::read_u64(&frame[RIP..]),
        cf: has(flags, CF),
        zf: has(flags, ZF),
        sf: has(flags, SF),
        of: has(flags, OF),
        mode: mode_of(frame[MODE]),
    }
}

/// What a frame notes, whatever its bytes are. A frame that was cleared notes what an interrupt leaves.
pub fn why(frame: &[u8]) -> Why
    requires { length frame.now ≡ FRAME_SIZE }
    ensures noted { result ≡ why_in frame.now }
    ensures saved { (regs : TheRegs) (why : TheWhy) → AreRegs regs → WhyFits why → frame.now ≡ saved_bytes regs why → result ≡ why }
{
    let info = LittleEndian::read_u32(&frame[EXITINFO..]);
    let code = LittleEndian::read_u32(&frame[ERRCD..]);
    if info == 0 {
        Why::Interrupt
    } else if code == 0 {
        Why::Vector((info % 256) as u8)
    } else {
        Why::PageFault(LittleEndian::read_u64(frame), kind_of(code))
    }
}

/// Clears EXINFO, and EXITINFO with its VALID. The registers stay.
pub fn clear_valid(frame: &mut [u8])
    requires { length frame.old ≡ FRAME_SIZE }
    ensures cleared { frame.new ≡ cleared frame.old }
    ensures saved { (regs : TheRegs) (why : TheWhy) → length regs.gpr ≡ 16 → frame.old ≡ saved_bytes regs why → frame.new ≡ saved_bytes regs TheWhy.Interrupt }
{
    frame[..GPR].fill(0);
    frame[EXITINFO..MODE].fill(0);
}

/// Writes the guard's frame, where CODE has this address: who resumes it is at the runtime's guard step, with all else clear.
pub fn guard(frame: &mut [u8], code: u64)
    requires whole { length frame.old ≡ FRAME_SIZE }
    requires room { code + 16 < 2 ^ 64 }
    ensures { frame.new ≡ saved_bytes (guard_regs code) TheWhy.Interrupt }
{
    let regs = Regs {
        gpr: [0; 16],
        rip: code + GUARD_STEP,
        cf: false,
        zf: false,
        sf: false,
        of: false,
        mode: Mode::Runtime,
    };
    save(frame, &regs, Why::Interrupt);
}

// ---- Parts

/// EXINFO: MADDR, ERRCD and four zeros.
fn head(why: Why) -> [u8; 16]
    ensures { result ≡ exinfo why }
{
    let mut head = [0; 16];
    if let Why::PageFault(address, kind) = why {
        LittleEndian::write_u64(&mut head, address);
        LittleEndian::write_u32(&mut head[ERRCD..], code_of(kind));
    }
    head
}

/// What follows the sixteen registers.
fn tail(regs: &Regs, why: Why) -> [u8; 56]
    ensures { result ≡ tail_bytes regs.now why }
{
    let mut tail = [0; 56];
    LittleEndian::write_u64(&mut tail, flags_of(regs));
    LittleEndian::write_u64(&mut tail[RIP - RFLAGS..], regs.rip);
    LittleEndian::write_u32(&mut tail[EXITINFO - RFLAGS..], exit_info(why));
    tail[MODE - RFLAGS] = mode_number(regs.mode);
    tail
}

/// EXITINFO.
fn exit_info(why: Why) -> u32
    ensures { result ≡ exit_info why }
{
    match why {
        Why::Interrupt => 0,
        Why::Vector(vector) => VALID_EXCEPTION + u32::from(vector),
        Why::PageFault(..) => VALID_EXCEPTION + u32::from(PAGE_FAULT),
    }
}

/// The error code of a page fault by what the access does. The page is said not to be present.
fn code_of(kind: Kind) -> u32
    ensures { result ≡ code_of kind }
{
    const WRITE: u32 = 1 << 1;
    const USER: u32 = 1 << 2;
    const FETCH: u32 = 1 << 4;
    match kind {
        Kind::Read => USER,
        Kind::Write => USER + WRITE,
        Kind::Exec => USER + FETCH,
    }
}

/// What an access does, by its error code.
fn kind_of(code: u32) -> Kind
    ensures { result ≡ kind_in code }
{
    if code == code_of(Kind::Read) {
        Kind::Read
    } else if code == code_of(Kind::Write) {
        Kind::Write
    } else {
        Kind::Exec
    }
}

/// RFLAGS.
fn flags_of(regs: &Regs) -> u64
    ensures { result ≡ flags_number regs.now }
{
    ALWAYS + bit(regs.cf, CF) + bit(regs.zf, ZF) + bit(regs.sf, SF) + bit(regs.of, OF)
}

/// A flag at its weight.
fn bit(flag: bool, weight: u64) -> u64
    ensures { result ≡ bit_if flag weight }
{
    if flag { weight } else { 0 }
}

/// The flag of this weight is set.
fn has(flags: u64, weight: u64) -> bool
    requires { 0 < weight }
    ensures { result ≡ flag_in flags weight }
{
    flags / weight % 2 == 1
}

/// A mode as a byte.
fn mode_number(mode: Mode) -> u8
    ensures { result ≡ mode_number mode }
{
    match mode {
        Mode::Program => 0,
        Mode::Runtime => 1,
    }
}

/// The mode of a byte.
fn mode_of(byte: u8) -> Mode
    ensures { result ≡ mode_in byte }
{
    if byte == 0 {
        Mode::Program
    } else {
        Mode::Runtime
    }
}

/// Sixteen registers.
fn registers(bytes: &[u8]) -> [u64; 16]
    requires { length bytes.now ≡ 128 }
    ensures { result ≡ words_in 16 bytes.now }
{
    let mut gpr = [0; 16];
    LittleEndian::read_u64_into(bytes, &mut gpr);
    gpr
}
