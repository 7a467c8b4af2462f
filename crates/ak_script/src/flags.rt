// The flags that a word spells.
ghost use Rattle.std.specs.Prelude.{◌≡◌};
ghost use Rattle.std.specs.List.{filter};
ghost use Rattle.std.specs.Str.{bytes_eq};
ghost use Rattle.ak_core.specs.FlagLetters.{letters};
ghost use Rattle.ak_script.specs.Operand.{FLAGS, meaning_of};
ghost use Rattle.ak_script.specs.Words.{has};

use crate::fault::Refusal;
use ak_core::Flags;

// The letters of the flags, in the order in which a word has them.
const LETTERS: &[u8; 5] = b"pwxad";

/// Flags.
pub fn flags_of(word: &[u8]) -> Result<Flags, Refusal>
    ensures { result ≡ meaning_of FLAGS word.now }
{
    let is_dash = matches!(word, b"-");
    if !is_dash && (word.is_empty() || !is_in_order(word)) {
        return Err(Refusal::Flags);
    }
    Ok(Flags {
        p: word.contains(&b'p'),
        w: word.contains(&b'w'),
        x: word.contains(&b'x'),
        a: word.contains(&b'a'),
        d: word.contains(&b'd'),
    })
}

// Whether the word has letters of flags alone, each once and in their order.
fn is_in_order(word: &[u8]) -> bool
    ensures { result ≡ bytes_eq word.now (filter (has word.now) letters) }
{
    word.iter()
        .eq(LETTERS.iter().filter(|letter| word.contains(letter)))
}
