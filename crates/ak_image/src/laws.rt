// Laws over what bytes spell, and over the pages of an enclave.
ghost use Rattle.std.specs.Prelude.{◌≡◌, ◌≢◌, ◌<◌, ◌≤◌, ◌+◌, ℕ, List, length};
ghost use Rattle.ak_image.specs.Built.{page_bytes, tcs_page, code_page, image_blocks, IsSameEnclave};
ghost use Rattle.ak_image.specs.Fields.{IsTcs, IsCode};
ghost use Rattle.ak_image.specs.Image;
ghost use Rattle.ak_image.specs.Image.{IsWhole};
ghost use Rattle.ak_image.specs.Reading.{image_of};
ghost use Rattle.ak_image.specs.declared.fault.ImageFault.TheVariants.{OutOfMemory};

/// An image that bytes spell is whole.
pub fn read_images_are_whole()
    ensures { (bytes : List ℕ) (image : Image.Image) → image_of bytes ≡ Ok image → IsWhole image }
{}

/// Want of memory is no refusal.
pub fn memory_is_no_refusal()
    ensures { (bytes : List ℕ) → image_of bytes ≢ Err OutOfMemory }
{}

/// Each page of an enclave has 4096 bytes when it is built.
pub fn pages_are_whole()
    ensures { (image : Image.Image) (p : ℕ) → IsWhole image → p < length image.perms + 6 → length (page_bytes image p) ≡ 4096 }
{}

/// Each number of the TCS stands at its place.
pub fn numbers_of_tcs()
    ensures { (n : ℕ) → n ≤ 512 → IsTcs n (tcs_page n) }
{}

/// Each number of CODE stands at its place.
pub fn numbers_of_code()
    ensures { (image : Image.Image) → IsWhole image → IsCode image (code_page image.cluster_of image.perms image.budget image.entry) }
{}

/// The blocks tell the image, but for its base and its signer's name: what a measurement stands for, as far as no two texts
/// have one digest.
pub fn blocks_tell_the_image()
    ensures { (image other : Image.Image) → IsWhole image → IsWhole other → image_blocks image ≡ image_blocks other → IsSameEnclave image other }
{}
