// Lines, and the words of a line.
ghost use Rattle.std.specs.Prelude.{◌≡◌, ◌<◌, ◌↔◌, [], ◌∷◌, length, not, position, ◌==◌, IfSome, IsTrue};
ghost use Rattle.std.specs.Str.Lines.{lines, strip_carriage_return};
ghost use Rattle.ak_script.specs.Words.{is_blank as the_blank, words_of};
ghost use Rattle.ak_script.specs.Splitting.{AreWords, word_before};

use crate::fault::Refusal;

// The first line of a text without its ending, and what follows it.
pub fn split_line(text: &[u8]) -> (&[u8], &[u8])
    requires { 0 < length text.now }
    ensures value { lines text.entry.now ≡ result.0.now ∷ lines result.1.now }
    ensures shorter { length result.1.now < length text.entry.now }
{
    let Some(end) = newline_in(text) else {
        return text.split_at(text.len());
    };
    let (line, rest) = text.split_at(end);
    (without_return(line), &rest[1..])
}

// A line that a newline ends, without the carriage return before the newline.
fn without_return(line: &[u8]) -> &[u8]
    ensures { result.now ≡ strip_carriage_return line.entry.now }
{
    match line {
        [line @ .., b'\r'] => line,
        _ => line,
    }
}

// Where the first newline stands.
fn newline_in(text: &[u8]) -> Option<usize>
    ensures value { result ≡ position (λ b. b == 10) text.now }
    ensures within { IfSome result (λ place. place < length text.now) }
{
    text.iter().position(|b| *b == b'\n')
}

// The first word of a text, or no bytes where it has no word, and what follows it.
pub fn split_word(text: &[u8]) -> (&[u8], &[u8])
    ensures words { words_of text.entry.now ≡ word_before result.0.now (words_of result.1.now) }
    ensures none { length result.0.now ≡ 0 → words_of result.1.now ≡ [] }
{
    let start = word_in(text).unwrap_or(text.len());
    let text = &text[start..];
    let end = blank_in(text).unwrap_or(text.len());
    text.split_at(end)
}

// A text that has no word.
pub fn no_words(text: &[u8]) -> Result<(), Refusal>
    ensures { AreWords result (λ none. []) 0 (words_of text.now) }
{
    if has_word(text) {
        Err(Refusal::Words)
    } else {
        Ok(())
    }
}

// The word of a text that has one.
pub fn one_word(text: &[u8]) -> Result<&[u8], Refusal>
    ensures { AreWords result (λ word. word.now ∷ []) 1 (words_of text.entry.now) }
{
    let (first, rest) = split_word(text);
    if first.is_empty() || has_word(rest) {
        return Err(Refusal::Words);
    }
    Ok(first)
}

// The words of a text that has two.
pub fn two_words(text: &[u8]) -> Result<(&[u8], &[u8]), Refusal>
    ensures { AreWords result (λ words. words.0.now ∷ words.1.now ∷ []) 2 (words_of text.entry.now) }
{
    let (first, rest) = split_word(text);
    let (second, rest) = split_word(rest);
    if second.is_empty() || has_word(rest) {
        return Err(Refusal::Words);
    }
    Ok((first, second))
}

// The words of a text that has three.
pub fn three_words(text: &[u8]) -> Result<(&[u8], &[u8], &[u8]), Refusal>
    ensures { AreWords result (λ words. words.0.now ∷ words.1.now ∷ words.2.now ∷ []) 3 (words_of text.entry.now) }
{
    let (first, rest) = split_word(text);
    let (second, rest) = split_word(rest);
    let (third, rest) = split_word(rest);
    if third.is_empty() || has_word(rest) {
        return Err(Refusal::Words);
    }
    Ok((first, second, third))
}

// The words of a text that has five.
pub fn five_words(text: &[u8]) -> Result<(&[u8], &[u8], &[u8], &[u8], &[u8]), Refusal>
    ensures { AreWords result (λ words. words.0.now ∷ words.1.now ∷ words.2.now ∷ words.3.now ∷ words.4.now ∷ []) 5 (words_of text.entry.now) }
{
    let (first, rest) = split_word(text);
    let (second, rest) = split_word(rest);
    let (third, rest) = split_word(rest);
    let (fourth, rest) = split_word(rest);
    let (fifth, rest) = split_word(rest);
    if fifth.is_empty() || has_word(rest) {
        return Err(Refusal::Words);
    }
    Ok((first, second, third, fourth, fifth))
}

// Whether a text has a word.
fn has_word(text: &[u8]) -> bool
    ensures { IsTrue result ↔ (0 < length (words_of text.now)) }
{
    !split_word(text).0.is_empty()
}

// Where the first word begins.
fn word_in(text: &[u8]) -> Option<usize>
    ensures value { result ≡ position (λ b. not (the_blank b)) text.now }
    ensures within { IfSome result (λ place. place < length text.now) }
{
    text.iter().position(|b| !is_blank(*b))
}

// Where the first blank stands.
fn blank_in(text: &[u8]) -> Option<usize>
    ensures value { result ≡ position the_blank text.now }
    ensures within { IfSome result (λ place. place < length text.now) }
{
    text.iter().position(|b| is_blank(*b))
}

// Whether the byte stands between words: a space or a tab.
fn is_blank(byte: u8) -> bool
    ensures { result ≡ the_blank byte }
{
    byte == b' ' || byte == b'\t'
}
