// What the words after the first one mean.
ghost use Rattle.std.specs.Prelude.{◌≡◌, ◌<◌, ◌^◌, IfOk, IsTrue, SomeIff};
ghost use Rattle.std.specs.Char.{is_ascii_digit};
ghost use Rattle.std.specs.List.{list_all};
ghost use Rattle.ak_script.specs.Operand.{PAGE, FRAME, HANDLE, SLOT, LP, VALUE, TURNS, MOVES, fits, is_within, meaning_of, number_within as the_number};
ghost use Rattle.ak_script.specs.Words.{decimal as the_decimal, is_number as the_test};

use crate::fault::Refusal;
use ak_core::{Frame, Handle, Lp, Page};

// The last slot of a version array.
const LAST_SLOT: u64 = 511;

// The last processor.
const LAST_LP: u64 = 3;

// The most turns of one move.
const MOST_TURNS: u64 = 1_000_000;

// The most moves of the honest kernel in one item.
const MOST_MOVES: u64 = 20_000;

/// A page.
pub fn page_of(word: &[u8]) -> Result<Page, Refusal>
    ensures value { result ≡ meaning_of PAGE word.now }
    ensures range { IfOk result (λ page. IsTrue (fits PAGE page.0)) }
{
    let number = number_in(word, 0, u64::from(u32::MAX))?;
    Ok(Page(number as u32))
}

/// A frame.
pub fn frame_of(word: &[u8]) -> Result<Frame, Refusal>
    ensures value { result ≡ meaning_of FRAME word.now }
    ensures range { IfOk result (λ frame. IsTrue (fits FRAME frame.0)) }
{
    let number = number_in(word, 0, u64::from(u32::MAX))?;
    Ok(Frame(number as u32))
}

/// A handle of a sealed page.
pub fn handle_of(word: &[u8]) -> Result<Handle, Refusal>
    ensures value { result ≡ meaning_of HANDLE word.now }
    ensures range { IfOk result (λ handle. IsTrue (fits HANDLE handle.0)) }
{
    let number = number_in(word, 0, u64::from(u32::MAX))?;
    Ok(Handle(number as u32))
}

/// A slot of a version array.
pub fn slot_of(word: &[u8]) -> Result<u16, Refusal>
    ensures value { result ≡ meaning_of SLOT word.now }
    ensures range { IfOk result (λ slot. IsTrue (fits SLOT slot)) }
{
    let number = number_in(word, 0, LAST_SLOT)?;
    Ok(number as u16)
}

/// A processor.
pub fn lp_of(word: &[u8]) -> Result<Lp, Refusal>
    ensures value { result ≡ meaning_of LP word.now }
    ensures range { IfOk result (λ lp. IsTrue (fits LP lp.0)) }
{
    let number = number_in(word, 0, LAST_LP)?;
    Ok(Lp(number as u8))
}

/// A value for the enclave, or an input.
pub fn value_of(word: &[u8]) -> Result<u64, Refusal>
    ensures value { result ≡ meaning_of VALUE word.now }
    ensures range { IfOk result (λ value. IsTrue (fits VALUE value)) }
{
    number_in(word, 0, u64::MAX)
}

/// A number of turns.
pub fn turns_of(word: &[u8]) -> Result<u32, Refusal>
    ensures value { result ≡ meaning_of TURNS word.now }
    ensures range { IfOk result (λ turns. IsTrue (fits TURNS turns)) }
{
    let number = number_in(word, 1, MOST_TURNS)?;
    Ok(number as u32)
}

/// A number of moves.
pub fn moves_of(word: &[u8]) -> Result<u32, Refusal>
    ensures value { result ≡ meaning_of MOVES word.now }
    ensures range { IfOk result (λ moves. IsTrue (fits MOVES moves)) }
{
    let number = number_in(word, 1, MOST_MOVES)?;
    Ok(number as u32)
}

/// The number that a word spells, from `least` to `most`.
pub fn number_in(word: &[u8], least: u64, most: u64) -> Result<u64, Refusal>
    ensures value { result ≡ the_number least most word.now }
    ensures range { IfOk result (λ number. IsTrue (is_within least most number)) }
{
    if !is_number(word) {
        return Err(Refusal::Number);
    }
    match decimal(word) {
        Some(number) if (least..=most).contains(&number) => Ok(number),
        _ => Err(Refusal::Range),
    }
}

// Whether a word is decimal digits, at least one, and no 0 before others.
fn is_number(word: &[u8]) -> bool
    ensures { result ≡ the_test word.now }
{
    !word.is_empty() && are_digits(word) && (word.len() == 1 || word[0] != b'0')
}

fn are_digits(word: &[u8]) -> bool
    ensures { result ≡ list_all is_ascii_digit word.now }
{
    word.iter().all(|b| b.is_ascii_digit())
}

// The number that digits make, if it is below 2^64.
fn decimal(digits: &[u8]) -> Option<u64>
    requires { IsTrue (list_all is_ascii_digit digits.now) }
    ensures { SomeIff result (the_decimal digits.now < 2 ^ 64) (the_decimal digits.now) }
{
    let mut number = 0u64;
    for digit in digits {
        number = number
            .checked_mul(10)?
            .checked_add(u64::from(*digit - b'0'))?;
    }
    Some(number)
}
