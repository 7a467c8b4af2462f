// Laws over the images that numbers give.
ghost use Rattle.std.specs.Prelude.{◌≡◌, ◌+◌, ◌-◌, ◌*◌, ◌<◌, ◌≤◌, ℕ, take, drop};
ghost use Rattle.std.specs.Int.{w64, to_le_bytes};
ghost use Rattle.ak_image.specs.Built.{program_page};
ghost use Rattle.ak_image.specs.Image.{IsWhole};
ghost use Rattle.ak_gen.specs.Generated.{generated};
ghost use Rattle.ak_gen.specs.Numbers.{word_at};
ghost use Rattle.ak_gen.specs.Program.{first_page};

/// The image of a number is whole.
pub fn generated_images_are_whole()
    ensures { (number : ℕ) → IsWhole (generated number) }
{}

/// Page 0 has the program. From page 1 on each page has 512 words, each of eight bytes at its place, and the words go on from
/// page to page.
pub fn words_are_in_place()
    ensures first { (number : ℕ) → program_page (generated number) 0 ≡ first_page }
    ensures words { (number p j : ℕ) → 1 ≤ p → p < 512 → j < 512
        → take 8 (drop (8 * j) (program_page (generated number) p)) ≡ to_le_bytes w64 (word_at number (512 * (p - 1) + j)) }
{}
