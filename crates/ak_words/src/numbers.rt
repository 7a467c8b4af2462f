// The numbers in the words.
ghost use Rattle.std.specs.Prelude.{◌≡◌, ◌≤◌, IfSome};
ghost use Rattle.std.specs.Option.{option_map};
ghost use Rattle.ak_words.specs.Asked.{frames_of as the_frames, number_between as the_number, processors_of as the_processors};

use ak_script::number_in;

// The fewest and the most frames that may be asked for.
const FEWEST_FRAMES: u64 = 9;

const MOST_FRAMES: u64 = 8192;

// The most processors.
const MOST_PROCESSORS: u64 = 4;

/// The number of frames by the text of its option, 9 to 8192; outer none where the text is no such number.
pub fn frames_of(text: Option<&str>) -> Option<Option<u32>>
    ensures frames { result ≡ the_frames (option_map (λ t. t.now) text.entry) }
    ensures range { IfSome result (λ frames. IfSome frames (λ n. (9 ≤ n) × (n ≤ 8192))) }
{
    let Some(text) = text else {
        return Some(None);
    };
    let number = number_between(text, FEWEST_FRAMES, MOST_FRAMES)?;
    Some(Some(number as u32))
}

/// The number of processors by the text of its option, 1 to 4, and 1 where there is none; none where the text is no such
/// number.
pub fn processors_of(text: Option<&str>) -> Option<u8>
    ensures processors { result ≡ the_processors (option_map (λ t. t.now) text.entry) }
    ensures range { IfSome result (λ n. (1 ≤ n) × (n ≤ 4)) }
{
    let Some(text) = text else {
        return Some(1);
    };
    let number = number_between(text, 1, MOST_PROCESSORS)?;
    Some(number as u8)
}

/// The number that a text spells, within bounds; none where it spells no such number.
pub fn number_between(text: &str, least: u64, most: u64) -> Option<u64>
    ensures number { result ≡ the_number least most text.now }
    ensures range { IfSome result (λ n. (least ≤ n) × (n ≤ most)) }
{
    number_in(text.as_bytes(), least, most).ok()
}
