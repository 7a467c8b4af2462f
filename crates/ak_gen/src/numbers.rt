// The numbers that a number begins, and the pages of words that they give.
ghost use Rattle.std.specs.Prelude.{◌≡◌, ◌++◌, OnOk, IfOk};
ghost use Rattle.ak_gen.specs.Numbers.{next, number_after, word_of, word_bytes};

use ak_core::PAGE_SIZE;
use std::alloc::AllocError;

/// How many words a page has.
const PAGE_WORDS: usize = PAGE_SIZE / 8;

/// How many words there are in the pages of data.
const ALL_WORDS: u64 = 511 * PAGE_WORDS as u64;

/// The number after a number.
fn next(number: u64) -> u64
    ensures { result ≡ next number }
{
    const MULTIPLIER: u64 = 6364136223846793005;
    const INCREMENT: u64 = 1442695040888963407;
    MULTIPLIER.wrapping_mul(number).wrapping_add(INCREMENT)
}

/// The word that a number gives: the place of a word in the pages of data.
#[tactic(auto, unfolding(crate::specs::Numbers::word_of))]
fn word_of(number: u64) -> u64
    ensures { result ≡ word_of number }
{
    (number >> 20) % ALL_WORDS
}

/// Adds a page of the words that the number begins, and gives the number of the last one.
pub(crate) fn push_page(bytes: &mut Vec<u8>, number: u64) -> Result<u64, AllocError>
    ensures bytes { OnOk result (bytes.new.items ≡ bytes.old.items ++ word_bytes 512 number) }
    ensures last { IfOk result (λ last. last ≡ number_after 512 number) }
{
    let mut last = number;
    for _word in 0..PAGE_WORDS {
        last = next(last);
        bytes.extend_from_slice(&word_of(last).to_le_bytes())?;
    }
    Ok(last)
}
