// How moves and scripts are written.
ghost use Rattle.std.specs.Prelude.{◌≡◌, ◌≤◌, ◌+◌, ◌*◌, ◌++◌, ◌∷◌, [], codes, decimal, length};
ghost use Rattle.arrayvec.specs.ArrayString.{array_string_len};
ghost use Rattle.ak_script.specs.Text.{flags_text, input_text, item_text, letter, move_text, numbers_text};

use crate::items::Item;
use ak_core::{Flags, Frame, Handle, Move, Page};
use arrayvec::ArrayString;
use itoa::Buffer;

/// The text of a line, which takes no memory.
pub type LineText = ArrayString<128>;

/// An item.
pub fn item_line(item: Item) -> LineText
    ensures text { result.bytes ≡ item_text item }
    ensures short { array_string_len result ≤ 120 }
{
    match item {
        Item::Move(m) => move_line(m),
        Item::Auto(moves) => words_line("auto", &[u64::from(moves)]),
    }
}

/// An input.
pub fn input_line(input: u64) -> LineText
    ensures text { result.bytes ≡ input_text input }
    ensures short { array_string_len result ≤ 120 }
{
    words_line("input", &[input])
}

/// A move: its word and its operands.
pub fn move_line(m: Move) -> LineText
    ensures text { result.bytes ≡ move_text m }
    ensures short { array_string_len result ≤ 120 }
{
    match m {
        Move::SetPte(page, frame, flags) => {
            entry_line("setpte", &[u64::from(page.0), u64::from(frame.0)], flags)
        }
        Move::ReadPte(page) => words_line("readpte", &[u64::from(page.0)]),
        Move::Eblock(frame) => words_line("eblock", &[u64::from(frame.0)]),
        Move::Etrack => words_line("etrack", &[]),
        Move::Ewb(frame, va, slot) => {
            words_line(
                "ewb",
                &[u64::from(frame.0), u64::from(va.0), u64::from(slot)],
            )
        }
        Move::Eldu(frame, handle, page, va, slot) => {
            load_line("eldu", frame, handle, page, va, slot)
        }
        Move::Eldb(frame, handle, page, va, slot) => {
            load_line("eldb", frame, handle, page, va, slot)
        }
        Move::Eremove(frame) => words_line("eremove", &[u64::from(frame.0)]),
        Move::Epa(frame) => words_line("epa", &[u64::from(frame.0)]),
        Move::Discard(handle) => words_line("drop", &[u64::from(handle.0)]),
        Move::Eenter(lp, value) => words_line("eenter", &[u64::from(lp.0), value]),
        Move::Eresume(lp) => words_line("eresume", &[u64::from(lp.0)]),
        Move::Run(lp, turns) => words_line("run", &[u64::from(lp.0), u64::from(turns)]),
        Move::Interrupt(lp) => words_line("interrupt", &[u64::from(lp.0)]),
    }
}

/// The letter of each flag that is set, or a dash for none.
pub fn flags_line(flags: Flags) -> LineText
    ensures text { result.bytes ≡ flags_text flags }
    ensures short { array_string_len result ≤ 5 }
{
    let mut line = LineText::new();
    if !(flags.p || flags.w || flags.x || flags.a || flags.d) {
        line.push_str("-");
        return line;
    }
    add_letter(&mut line, flags.p, "p");
    add_letter(&mut line, flags.w, "w");
    add_letter(&mut line, flags.x, "x");
    add_letter(&mut line, flags.a, "a");
    add_letter(&mut line, flags.d, "d");
    line
}

fn add_letter(line: &mut LineText, is_set: bool, name: &str)
    requires room { array_string_len line.old + length name.now ≤ 128 }
    ensures text { line.new.bytes ≡ line.old.bytes ++ letter is_set name.now }
    ensures short { array_string_len line.new ≤ array_string_len line.old + length name.now }
{
    if is_set {
        line.push_str(name);
    }
}

// A loading instruction: its name, the frame, the handle, the page and the slot of a VA frame.
fn load_line(name: &str, frame: Frame, handle: Handle, page: Page, va: Frame, slot: u16) -> LineText
    requires room { length name.now ≤ 9 }
    ensures text { result.bytes ≡ name.now ++ numbers_text (frame.0 ∷ handle.0 ∷ page.0 ∷ va.0 ∷ slot ∷ []) }
    ensures short { array_string_len result ≤ 120 }
{
    words_line(
        name,
        &[
            u64::from(frame.0),
            u64::from(handle.0),
            u64::from(page.0),
            u64::from(va.0),
            u64::from(slot),
        ],
    )
}

/// A name, numbers, and the flags of a page-table entry.
pub fn entry_line(name: &str, numbers: &[u64], flags: Flags) -> LineText
    requires room { length name.now + 21 * length numbers.now ≤ 114 }
    ensures text { result.bytes ≡ name.now ++ numbers_text numbers.now ++ codes " " ++ flags_text flags }
    ensures short { array_string_len result ≤ length name.now + 21 * length numbers.now + 6 }
{
    let mut line = words_line(name, numbers);
    line.push_str(" ");
    line.push_str(flags_line(flags).as_str());
    line
}

/// A name, and each number after a space.
pub fn words_line(name: &str, numbers: &[u64]) -> LineText
    requires room { length name.now + 21 * length numbers.now ≤ 120 }
    ensures text { result.bytes ≡ name.now ++ numbers_text numbers.now }
    ensures short { array_string_len result ≤ length name.now + 21 * length numbers.now }
{
    let mut line = LineText::new();
    line.push_str(name);
    for number in numbers {
        add_number(&mut line, *number);
    }
    line
}

// A space and a number.
fn add_number(line: &mut LineText, number: u64)
    requires room { array_string_len line.old + 21 ≤ 128 }
    ensures text { line.new.bytes ≡ line.old.bytes ++ codes " " ++ decimal number }
    ensures short { array_string_len line.new ≤ array_string_len line.old + 21 }
{
    let mut buffer = Buffer::new();
    line.push_str(" ");
    line.push_str(buffer.format(number));
}
