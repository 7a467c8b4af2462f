// What a line spells.
ghost use Rattle.std.specs.Prelude.{◌≡◌, nat_lt, IfOk, IfSome, IsTrue, Some};
ghost use Rattle.std.specs.List.{list_all};
ghost use Rattle.ak_script.specs.Line.{line_fits, line_at, line_of as the_line, cache_rows, other_rows, row_among, row_of, spelled, setpte as setpte_row, readpte as readpte_row, eblock as eblock_row, etrack as etrack_row, ewb as ewb_row, eldu as eldu_row, eldb as eldb_row, eremove as eremove_row, epa as epa_row, discard as discard_row, eenter as eenter_row, eresume as eresume_row, run as run_row, interrupt as interrupt_row, honest as honest_row, input as input_row};
ghost use Rattle.ak_script.specs.Words.{words_of};

use crate::fault::Refusal;
use crate::flags::flags_of;
use crate::items::{Item, Line};
use crate::operands::{frame_of, handle_of, lp_of, moves_of, page_of, slot_of, turns_of, value_of};
use crate::splitting::{five_words, no_words, one_word, split_word, three_words, two_words};
use ak_core::Move;

/// What a line spells: nothing where it is skipped.
pub fn read_line(line: &[u8]) -> Result<Option<Line>, Refusal>
    ensures value { result ≡ spelled line.now }
    ensures fits { IfOk result (λ o. IfSome o (λ said. IsTrue (line_fits said))) }
{
    let (first, operands) = split_word(line);
    if matches!(first, [] | [b'#', ..]) {
        return Ok(None);
    }
    if !is_ascii(line) {
        return Err(Refusal::NotAscii);
    }
    match line_of(first, operands) {
        Ok(said) => Ok(Some(said)),
        Err(why) => Err(why),
    }
}

fn is_ascii(text: &[u8]) -> bool
    ensures { result ≡ list_all (λ b. nat_lt b 128) text.now }
{
    text.iter().all(|b| b.is_ascii())
}

// What a first word says with the words after it.
fn line_of(first: &[u8], operands: &[u8]) -> Result<Line, Refusal>
    ensures value { result ≡ the_line (row_of first.now) (words_of operands.now) }
    ensures fits { IfOk result (λ line. IsTrue (line_fits line)) }
{
    match cache_line(first, operands) {
        Some(line) => line,
        None => other_line(first, operands),
    }
}

// The same of a first word that names an instruction on the page cache.
fn cache_line(first: &[u8], operands: &[u8]) -> Option<Result<Line, Refusal>>
    ensures value { result ≡ line_at (row_among cache_rows first.now) (words_of operands.now) }
    ensures fits { IfSome result (λ r. IfOk r (λ line. IsTrue (line_fits line))) }
{
    match first {
        b"eblock" => Some(eblock(operands)),
        b"etrack" => Some(etrack(operands)),
        b"ewb" => Some(ewb(operands)),
        b"eldu" => Some(eldu(operands)),
        b"eldb" => Some(eldb(operands)),
        b"eremove" => Some(eremove(operands)),
        b"epa" => Some(epa(operands)),
        _ => None,
    }
}

// The same of any other first word.
fn other_line(first: &[u8], operands: &[u8]) -> Result<Line, Refusal>
    ensures value { result ≡ the_line (row_among other_rows first.now) (words_of operands.now) }
    ensures fits { IfOk result (λ line. IsTrue (line_fits line)) }
{
    match first {
        b"setpte" => set_pte(operands),
        b"readpte" => read_pte(operands),
        b"drop" => discard(operands),
        b"eenter" => eenter(operands),
        b"eresume" => eresume(operands),
        b"run" => run(operands),
        b"interrupt" => interrupt(operands),
        b"auto" => auto(operands),
        b"input" => input(operands),
        _ => Err(Refusal::Unknown),
    }
}

fn set_pte(operands: &[u8]) -> Result<Line, Refusal>
    ensures value { result ≡ the_line (Some setpte_row) (words_of operands.now) }
    ensures fits { IfOk result (λ line. IsTrue (line_fits line)) }
{
    let (page, frame, flags) = three_words(operands)?;
    Ok(Line::Item(Item::Move(Move::SetPte(page_of(page)?, frame_of(frame)?, flags_of(flags)?))))
}

fn read_pte(operands: &[u8]) -> Result<Line, Refusal>
    ensures value { result ≡ the_line (Some readpte_row) (words_of operands.now) }
    ensures fits { IfOk result (λ line. IsTrue (line_fits line)) }
{
    let page = one_word(operands)?;
    Ok(Line::Item(Item::Move(Move::ReadPte(page_of(page)?))))
}

fn eblock(operands: &[u8]) -> Result<Line, Refusal>
    ensures value { result ≡ the_line (Some eblock_row) (words_of operands.now) }
    ensures fits { IfOk result (λ line. IsTrue (line_fits line)) }
{
    let frame = one_word(operands)?;
    Ok(Line::Item(Item::Move(Move::Eblock(frame_of(frame)?))))
}

fn etrack(operands: &[u8]) -> Result<Line, Refusal>
    ensures value { result ≡ the_line (Some etrack_row) (words_of operands.now) }
    ensures fits { IfOk result (λ line. IsTrue (line_fits line)) }
{
    no_words(operands)?;
    Ok(Line::Item(Item::Move(Move::Etrack)))
}

fn ewb(operands: &[u8]) -> Result<Line, Refusal>
    ensures value { result ≡ the_line (Some ewb_row) (words_of operands.now) }
    ensures fits { IfOk result (λ line. IsTrue (line_fits line)) }
{
    let (frame, va, slot) = three_words(operands)?;
    Ok(Line::Item(Item::Move(Move::Ewb(frame_of(frame)?, frame_of(va)?, slot_of(slot)?))))
}

fn eldu(operands: &[u8]) -> Result<Line, Refusal>
    ensures value { result ≡ the_line (Some eldu_row) (words_of operands.now) }
    ensures fits { IfOk result (λ line. IsTrue (line_fits line)) }
{
    let (frame, handle, page, va, slot) = five_words(operands)?;
    Ok(Line::Item(Item::Move(Move::Eldu(
        frame_of(frame)?,
        handle_of(handle)?,
        page_of(page)?,
        frame_of(va)?,
        slot_of(slot)?,
    ))))
}

fn eldb(operands: &[u8]) -> Result<Line, Refusal>
    ensures value { result ≡ the_line (Some eldb_row) (words_of operands.now) }
    ensures fits { IfOk result (λ line. IsTrue (line_fits line)) }
{
    let (frame, handle, page, va, slot) = five_words(operands)?;
    Ok(Line::Item(Item::Move(Move::Eldb(
        frame_of(frame)?,
        handle_of(handle)?,
        page_of(page)?,
        frame_of(va)?,
        slot_of(slot)?,
    ))))
}

fn eremove(operands: &[u8]) -> Result<Line, Refusal>
    ensures value { result ≡ the_line (Some eremove_row) (words_of operands.now) }
    ensures fits { IfOk result (λ line. IsTrue (line_fits line)) }
{
    let frame = one_word(operands)?;
    Ok(Line::Item(Item::Move(Move::Eremove(frame_of(frame)?))))
}

fn epa(operands: &[u8]) -> Result<Line, Refusal>
    ensures value { result ≡ the_line (Some epa_row) (words_of operands.now) }
    ensures fits { IfOk result (λ line. IsTrue (line_fits line)) }
{
    let frame = one_word(operands)?;
    Ok(Line::Item(Item::Move(Move::Epa(frame_of(frame)?))))
}

fn discard(operands: &[u8]) -> Result<Line, Refusal>
    ensures value { result ≡ the_line (Some discard_row) (words_of operands.now) }
    ensures fits { IfOk result (λ line. IsTrue (line_fits line)) }
{
    let handle = one_word(operands)?;
    Ok(Line::Item(Item::Move(Move::Discard(handle_of(handle)?))))
}

fn eenter(operands: &[u8]) -> Result<Line, Refusal>
    ensures value { result ≡ the_line (Some eenter_row) (words_of operands.now) }
    ensures fits { IfOk result (λ line. IsTrue (line_fits line)) }
{
    let (lp, value) = two_words(operands)?;
    Ok(Line::Item(Item::Move(Move::Eenter(lp_of(lp)?, value_of(value)?))))
}

fn eresume(operands: &[u8]) -> Result<Line, Refusal>
    ensures value { result ≡ the_line (Some eresume_row) (words_of operands.now) }
    ensures fits { IfOk result (λ line. IsTrue (line_fits line)) }
{
    let lp = one_word(operands)?;
    Ok(Line::Item(Item::Move(Move::Eresume(lp_of(lp)?))))
}

fn run(operands: &[u8]) -> Result<Line, Refusal>
    ensures value { result ≡ the_line (Some run_row) (words_of operands.now) }
    ensures fits { IfOk result (λ line. IsTrue (line_fits line)) }
{
    let (lp, turns) = two_words(operands)?;
    Ok(Line::Item(Item::Move(Move::Run(lp_of(lp)?, turns_of(turns)?))))
}

fn interrupt(operands: &[u8]) -> Result<Line, Refusal>
    ensures value { result ≡ the_line (Some interrupt_row) (words_of operands.now) }
    ensures fits { IfOk result (λ line. IsTrue (line_fits line)) }
{
    let lp = one_word(operands)?;
    Ok(Line::Item(Item::Move(Move::Interrupt(lp_of(lp)?))))
}

fn auto(operands: &[u8]) -> Result<Line, Refusal>
    ensures value { result ≡ the_line (Some honest_row) (words_of operands.now) }
    ensures fits { IfOk result (λ line. IsTrue (line_fits line)) }
{
    let moves = one_word(operands)?;
    Ok(Line::Item(Item::Auto(moves_of(moves)?)))
}

fn input(operands: &[u8]) -> Result<Line, Refusal>
    ensures value { result ≡ the_line (Some input_row) (words_of operands.now) }
    ensures fits { IfOk result (λ line. IsTrue (line_fits line)) }
{
    let value = one_word(operands)?;
    Ok(Line::Input(value_of(value)?))
}
