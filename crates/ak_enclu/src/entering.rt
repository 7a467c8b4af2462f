// EENTER and ERESUME.
ghost use Rattle.std.specs.Prelude.{◌≡◌, ℕ, ◌≤◌, ◌<◌, ◌+◌, ◌*◌, ◌-◌, ◌^◌, true, false, length, slice_set, IfOk, IfErr};
ghost use Rattle.ak_core.specs.declared.moves.Answer.TheVariants.{Ok as Done};
ghost use Rattle.ak_epcm.specs.Entries.{entry_at, is_of_page};
ghost use Rattle.ak_model.specs.Kernels.Repeats.{is_done};
ghost use Rattle.ak_ssa.specs.SavedRegisters.{area_regs};
ghost use Rattle.ak_encls.specs.Answering.{unless};
ghost use Rattle.ak_encls.specs.Enclave.{frame_at};
ghost use Rattle.ak_enclu.specs.EnterAnswers.{area_page, enter_answer, resume_answer, held_at};
ghost use Rattle.ak_pte.specs.Table.{pte_at};
ghost use Rattle.ak_enclu.specs.Passing.{tcs_at, HasFewSaved, inside_with, EntersTo};
ghost use Rattle.ak_enclu.specs.Processors.{entry_regs_at};
ghost use Rattle.ak_enclu.specs.TcsBytes.{saved_of, with_saved, with_pending};

use crate::areas::{Held, area_to_enter, area_to_resume, tcs_frame};
use crate::cpu::{Cpu, entry_regs};
use crate::tcs::{saved, set_pending, set_saved};
use ak_core::{Answer, Frame, Layout, Page};
use ak_encls::Encls;
use ak_pte::PageTable;

/// Enters the enclave (SDM volume 3D, EENTER) by the TCS on page `tcs`; the saved-state areas are the pages that follow. The runtime's
/// code on page `code` comes next, with the number of saved contexts and a value from outside. `busy` says whether another processor
/// is inside.
///
/// Refused, in this order: `Inside`, `TcsFault`, `Busy`, `Gp` where three contexts are saved, `SsaFault`. A refusal changes nothing.
/// Else the processor is inside, with nothing cached; it holds the frames of the TCS and of the area for the next exit; and the TCS no
/// longer refuses resuming.
pub fn eenter(
    cpu: &mut Cpu,
    value: u64,
    tcs: Page,
    code: Page,
    layout: &Layout,
    table: &PageTable,
    leaves: &mut Encls,
    busy: bool,
) -> Answer
    requires areas { tcs.0 + 3 < length table.now }
    requires numbers { tcs.0 + 3 < 2 ^ 32 }
    requires saved { HasFewSaved leaves.old tcs.0 }
    ensures row { result ≡ enter_answer leaves.old.entries table.now tcs.0 (tcs_at leaves.old table.now tcs.0) cpu.old.inside busy }
    ensures refused_cpu { is_done result ≡ false → cpu.new ≡ cpu.old }
    ensures refused_leaves { is_done result ≡ false → leaves.new ≡ leaves.old }
    ensures cpu { is_done result ≡ true → cpu.new ≡ inside_with cpu.old
        (entry_regs_at (layout.now.base + 4096 * code.0) (saved_of (tcs_at leaves.old table.now tcs.0)) value)
        (held_at table.now tcs.0 (saved_of (tcs_at leaves.old table.now tcs.0))) }
    ensures leaves { is_done result ≡ true → EntersTo cpu.old.lp.0 (pte_at table.now tcs.0).frame.0
        (with_pending false (tcs_at leaves.old table.now tcs.0)) leaves.old leaves.new }
{
    match held_to_enter(cpu.inside, tcs, table, leaves, busy) {
        Ok(held) => {
            let address = layout.base() + 4096 * u64::from(code.0);
            let regs = entry_regs(address, held.area, value);
            clear_pending(leaves, held.tcs);
            leaves.entered(cpu.lp);
            cpu.go_inside(regs, held.tcs, held.ssa);
            Answer::Ok
        }
        Err(refusal) => refusal,
    }
}

/// Resumes the newest saved context (SDM volume 3D, ERESUME) by the TCS on page `tcs`; the saved-state areas are the pages that
/// follow. `busy` says whether another processor is inside.
///
/// Refused, in this order: `Inside`, `TcsFault`, `Busy`, `Gp` where no context is saved, `Pending`, `SsaFault`. A refusal changes
/// nothing. Else the processor is inside, with the registers of the newest area and with nothing cached; it holds the frames of the TCS
/// and of that area; and one context fewer is saved.
pub fn eresume(
    cpu: &mut Cpu,
    tcs: Page,
    table: &PageTable,
    leaves: &mut Encls,
    busy: bool,
) -> Answer
    requires areas { tcs.0 + 3 < length table.now }
    requires numbers { tcs.0 + 3 < 2 ^ 32 }
    requires saved { HasFewSaved leaves.old tcs.0 }
    ensures row { result ≡ resume_answer leaves.old.entries table.now tcs.0 (tcs_at leaves.old table.now tcs.0) cpu.old.inside busy }
    ensures refused_cpu { is_done result ≡ false → cpu.new ≡ cpu.old }
    ensures refused_leaves { is_done result ≡ false → leaves.new ≡ leaves.old }
    ensures cpu { is_done result ≡ true → cpu.new ≡ inside_with cpu.old
        (area_regs (frame_at leaves.old.frames (pte_at table.now (area_page tcs.0 (saved_of (tcs_at leaves.old table.now tcs.0) - 1))).frame.0))
        (held_at table.now tcs.0 (saved_of (tcs_at leaves.old table.now tcs.0) - 1)) }
    ensures leaves { is_done result ≡ true → EntersTo cpu.old.lp.0 (pte_at table.now tcs.0).frame.0
        (with_saved (saved_of (tcs_at leaves.old table.now tcs.0) - 1) (tcs_at leaves.old table.now tcs.0)) leaves.old leaves.new }
{
    match held_to_resume(cpu.inside, tcs, table, leaves, busy) {
        Ok(held) => {
            let regs = ak_ssa::load(leaves.frame(held.ssa));
            count_saved(leaves, held.tcs, held.area);
            leaves.entered(cpu.lp);
            cpu.go_inside(regs, held.tcs, held.ssa);
            Answer::Ok
        }
        Err(refusal) => refusal,
    }
}

/// The frames that an entering finds, or why it is refused.
fn held_to_enter(
    inside: bool,
    tcs: Page,
    table: &PageTable,
    leaves: &Encls,
    busy: bool,
) -> Result<Held, Answer>
    requires areas { tcs.0 + 3 < length table.now }
    requires numbers { tcs.0 + 3 < 2 ^ 32 }
    requires saved { HasFewSaved leaves.now tcs.0 }
    ensures row { enter_answer leaves.now.entries table.now tcs.0 (tcs_at leaves.now table.now tcs.0) inside busy ≡ unless result Done }
    ensures held { IfOk result (λ held. held ≡ held_at table.now tcs.0 (saved_of (tcs_at leaves.now table.now tcs.0))) }
    ensures refusal { IfErr result (λ refusal. is_done refusal ≡ false) }
    ensures page { IfOk result (λ held. is_of_page (entry_at leaves.now.entries held.tcs.0) ≡ true) }
{
    let frame = tcs_frame(inside, tcs, table, leaves.epcm(), busy)?;
    let bytes = leaves.frame(frame);
    let ssa = area_to_enter(tcs, bytes, table, leaves.epcm())?;
    let area = saved(bytes);
    Ok(Held {
        tcs: frame,
        ssa,
        area,
    })
}

/// The frames that a resuming finds, or why it is refused.
fn held_to_resume(
    inside: bool,
    tcs: Page,
    table: &PageTable,
    leaves: &Encls,
    busy: bool,
) -> Result<Held, Answer>
    requires areas { tcs.0 + 3 < length table.now }
    requires numbers { tcs.0 + 3 < 2 ^ 32 }
    requires saved { HasFewSaved leaves.now tcs.0 }
    ensures row { resume_answer leaves.now.entries table.now tcs.0 (tcs_at leaves.now table.now tcs.0) inside busy ≡ unless result Done }
    ensures held { IfOk result (λ held. held ≡ held_at table.now tcs.0 (saved_of (tcs_at leaves.now table.now tcs.0) - 1)) }
    ensures refusal { IfErr result (λ refusal. is_done refusal ≡ false) }
    ensures page { IfOk result (λ held. is_of_page (entry_at leaves.now.entries held.tcs.0) ≡ true) }
    ensures area { IfOk result (λ held. held.ssa.0 < length leaves.now.entries) }
{
    let frame = tcs_frame(inside, tcs, table, leaves.epcm(), busy)?;
    let bytes = leaves.frame(frame);
    let ssa = area_to_resume(tcs, bytes, table, leaves.epcm())?;
    let area = saved(bytes) - 1;
    Ok(Held {
        tcs: frame,
        ssa,
        area,
    })
}

/// The TCS in a frame refuses resuming no longer.
fn clear_pending(leaves: &mut Encls, f: Frame)
    requires { is_of_page (entry_at leaves.old.entries f.0) ≡ true }
    ensures within { f.0 < length leaves.old.frames }
    ensures tcs { leaves.new ≡ record leaves.old { frames = slice_set leaves.old.frames f.0 (with_pending false (frame_at leaves.old.frames f.0)) } }
{
    set_pending(leaves.frame_mut(f), false);
}

/// So many contexts are saved by the TCS in a frame.
fn count_saved(leaves: &mut Encls, f: Frame, saved: u32)
    requires { is_of_page (entry_at leaves.old.entries f.0) ≡ true }
    ensures within { f.0 < length leaves.old.frames }
    ensures tcs { leaves.new ≡ record leaves.old { frames = slice_set leaves.old.frames f.0 (with_saved saved (frame_at leaves.old.frames f.0)) } }
{
    set_saved(leaves.frame_mut(f), saved);
}
