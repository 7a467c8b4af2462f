// Which frames an entering finds, by walks over the page table and the EPCM and by the bytes of the TCS.
ghost use Rattle.std.specs.Prelude.{◌≡◌, ◌≤◌, ◌<◌, ◌+◌, ◌-◌, ◌^◌, true, false, not, length, IfOk, IfErr, if◌then◌else◌};
ghost use Rattle.ak_core.specs.declared.moves.Answer.{Answer as TheAnswer};
ghost use Rattle.ak_core.specs.declared.moves.Answer.TheVariants.{Ok as Done, SsaFault};
ghost use Rattle.ak_epcm.specs.Entries.{entry_at, has_page, is_of_page};
ghost use Rattle.ak_model.specs.Kernels.Repeats.{is_done};
ghost use Rattle.ak_encls.specs.Answering.{unless};
ghost use Rattle.ak_enclu.specs.EnterAnswers.{finds_tcs, finds_area, area_page, unless_outside, enter_area, resume_area};
ghost use Rattle.ak_pte.specs.Table.{pte_at};
ghost use Rattle.ak_enclu.specs.TcsBytes.{saved_of};

use crate::tcs::{is_pending, saved};
use ak_core::{Answer, Frame, Kind, PAGE_SIZE, Page, SSA_AREAS};
use ak_epcm::Epcm;
use ak_pte::PageTable;
use ak_walk::{walk, walk_tcs};

/// The frames that a processor holds while it is inside.
#[derive(Clone, Copy)]
pub(crate) struct Held {
    /// That of the TCS.
    pub(crate) tcs: Frame,
    /// That of the area for its next asynchronous exit.
    pub(crate) ssa: Frame,
    /// The number of that area: how many contexts are saved while it is inside.
    pub(crate) area: u32,
}

/// The frame of the TCS, where the processor is outside, a walk finds it, and no other processor is inside.
pub(crate) fn tcs_frame(
    inside: bool,
    tcs: Page,
    table: &PageTable,
    epcm: &Epcm,
    busy: bool,
) -> Result<Frame, Answer>
    requires { tcs.0 < length table.now }
    ensures row { (answer : TheAnswer) → unless_outside inside (finds_tcs epcm.now table.now tcs.0) busy answer ≡ unless result answer }
    ensures frame { IfOk result (λ f. f ≡ (pte_at table.now tcs.0).frame) }
    ensures refusal { IfErr result (λ refusal. is_done refusal ≡ false) }
    ensures page { IfOk result (λ f. has_page (entry_at epcm.now f.0) tcs.0 ≡ true) }
{
    if inside {
        return Err(Answer::Inside);
    }
    match walk_tcs(table.get(tcs), epcm, tcs) {
        Ok(_) if busy => Err(Answer::Busy),
        Ok(frame) => Ok(frame),
        Err(_) => Err(Answer::TcsFault),
    }
}

/// The frame of the area into which a processor that enters would be saved.
pub(crate) fn area_to_enter(
    tcs: Page,
    bytes: &[u8; PAGE_SIZE],
    table: &PageTable,
    epcm: &Epcm,
) -> Result<Frame, Answer>
    requires areas { tcs.0 + 3 < length table.now }
    requires numbers { tcs.0 + 3 < 2 ^ 32 }
    requires saved { saved_of bytes.now ≤ 3 }
    ensures row { enter_area epcm.now table.now tcs.0 bytes.now ≡ unless result Done }
    ensures frame { IfOk result (λ f. f ≡ (pte_at table.now (area_page tcs.0 (saved_of bytes.now))).frame) }
    ensures refusal { IfErr result (λ refusal. is_done refusal ≡ false) }
    ensures page { IfOk result (λ f. is_of_page (entry_at epcm.now f.0) ≡ true) }
{
    let saved = saved(bytes);
    if saved == SSA_AREAS {
        return Err(Answer::Gp);
    }
    area_frame(tcs, saved, table, epcm)
}

/// The frame of the area that a processor would resume.
pub(crate) fn area_to_resume(
    tcs: Page,
    bytes: &[u8; PAGE_SIZE],
    table: &PageTable,
    epcm: &Epcm,
) -> Result<Frame, Answer>
    requires areas { tcs.0 + 3 < length table.now }
    requires numbers { tcs.0 + 3 < 2 ^ 32 }
    requires saved { saved_of bytes.now ≤ 3 }
    ensures row { resume_area epcm.now table.now tcs.0 bytes.now ≡ unless result Done }
    ensures frame { IfOk result (λ f. f ≡ (pte_at table.now (area_page tcs.0 (saved_of bytes.now - 1))).frame) }
    ensures refusal { IfErr result (λ refusal. is_done refusal ≡ false) }
    ensures some { IfOk result (λ _. 0 < saved_of bytes.now) }
    ensures page { IfOk result (λ f. is_of_page (entry_at epcm.now f.0) ≡ true) }
{
    let saved = saved(bytes);
    if saved == 0 {
        return Err(Answer::Gp);
    }
    if is_pending(bytes) {
        return Err(Answer::Pending);
    }
    area_frame(tcs, saved - 1, table, epcm)
}

/// The frame of an area, where a walk for writing finds it.
fn area_frame(tcs: Page, i: u32, table: &PageTable, epcm: &Epcm) -> Result<Frame, Answer>
    requires page { tcs.0 + 1 + i < length table.now }
    requires number { tcs.0 + 1 + i < 2 ^ 32 }
    ensures row { (if not (finds_area epcm.now table.now (area_page tcs.0 i)) then SsaFault else Done) ≡ unless result Done }
    ensures frame { IfOk result (λ f. f ≡ (pte_at table.now (area_page tcs.0 i)).frame) }
    ensures refusal { IfErr result (λ refusal. is_done refusal ≡ false) }
    ensures page { IfOk result (λ f. is_of_page (entry_at epcm.now f.0) ≡ true) }
{
    let area = Page(tcs.0 + 1 + i);
    match walk(table.get(area), epcm, area, Kind::Write) {
        Ok(frame) => Ok(frame),
        Err(_) => Err(Answer::SsaFault),
    }
}
