// A logical processor.
ghost use Rattle.std.specs.Prelude.{◌≡◌, [], true, false};
ghost use Rattle.ak_core.specs.declared.registers.Regs.{Regs as TheRegs};
ghost use Rattle.ak_model.specs.Flat.FlatRuns.{zeroed};
ghost use Rattle.ak_enclu.specs.Processors.{entry_regs_at};

use ak_core::{Frame, Lp, Mode, Regs};
use ak_tlb::Tlb;

/// A logical processor.
#[derive(Drop)]
pub struct Cpu {
    /// Its number.
    pub lp: Lp,
    /// Its registers.
    pub regs: Regs,
    /// It is inside the enclave.
    pub inside: bool,
    /// The frame of the TCS by which it entered. It holds it while it is inside.
    pub tcs: Frame,
    /// The frame of the saved-state area for its next asynchronous exit. It holds it while it is inside.
    pub ssa: Frame,
    /// The translations that it has cached.
    pub tlb: Tlb,
}

impl Cpu {
    /// A processor that is outside. It holds nothing, its registers are clear, and it has nothing cached.
    pub fn outside(lp: Lp) -> Cpu
        ensures lp { result.lp ≡ lp }
        ensures registers { result.regs ≡ zeroed 0 }
        ensures outside { result.inside ≡ false }
        ensures tcs { result.tcs.0 ≡ 0 }
        ensures ssa { result.ssa.0 ≡ 0 }
        ensures empty { result.tlb ≡ [] }
    {
        Cpu {
            lp,
            regs: Regs {
                gpr: [0; 16],
                rip: 0,
                cf: false,
                zf: false,
                sf: false,
                of: false,
                mode: Mode::Program,
            },
            inside: false,
            tcs: Frame(0),
            ssa: Frame(0),
            tlb: Tlb::new(),
        }
    }

    /// It goes inside with these registers, and holds these frames. Nothing is cached.
    pub(crate) fn go_inside(&mut self, regs: Regs, tcs: Frame, ssa: Frame)
        ensures { self.new ≡ record self.old { regs = regs; inside = true; tcs = tcs; ssa = ssa; tlb = [] } }
    {
        self.regs = regs;
        self.inside = true;
        self.tcs = tcs;
        self.ssa = ssa;
        self.tlb.flush();
    }

    /// It goes outside. Nothing is cached.
    pub(crate) fn go_outside(&mut self)
        ensures { self.new ≡ record self.old { inside = false; tlb = [] } }
    {
        self.inside = false;
        self.tlb.flush();
    }
}

/// The registers at an entry: the runtime's code at this address comes next, in RAX is the number of contexts that are saved, in RDI
/// the value from outside, and all else is clear.
pub(crate) fn entry_regs(address: u64, saved: u32, value: u64) -> Regs
    ensures { result ≡ entry_regs_at address saved value }
{
    const RAX: usize = 0;
    const RDI: usize = 7;
    let mut gpr = [0; 16];
    gpr[RAX] = u64::from(saved);
    gpr[RDI] = value;
    Regs {
        gpr,
        rip: address,
        cf: false,
        zf: false,
        sf: false,
        of: false,
        mode: Mode::Runtime,
    }
}
