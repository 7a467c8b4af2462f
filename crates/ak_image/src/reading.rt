// Images read from TOML documents.
ghost use Rattle.std.specs.Prelude.{◌≡◌, ◌≢◌, ◌≤◌, Some, IfOk, IfErr, IsErr, length};
ghost use Rattle.toml.specs.View.{table_view};
ghost use Rattle.ak_image.specs.Numbers.{base_of};
ghost use Rattle.ak_image.specs.Reading.{image_of, image_of_document, image_of_spelled, image_of_pages};
ghost use Rattle.ak_image.specs.Results.{Gives};
ghost use Rattle.ak_image.specs.Views.{spelled_of};
ghost use Rattle.ak_image.specs.declared.fault.ImageFault.TheVariants.{OutOfMemory};

use crate::clusters::{Clusters, four_largest};
use crate::document::read_document;
use crate::keys::{has_all_keys, has_unknown_key};
use crate::numbers::{base_of, budget_of, entry_of, version_of};
use crate::pages::{bytes_of, perms_of};
use crate::spelled::Spelled;
use crate::{Image, ImageFault};
use std::alloc::Global;
use toml::Table;

/// The image of the pages, at its base.
fn image_of_pages(alloc: Global, text: &Spelled<'_>, base: u64) -> Result<Image, ImageFault>
    requires some { 1 ≤ length text.now.pages.items }
    requires few { length text.now.pages.items ≤ 512 }
    requires placed { base_of (spelled_of text.now) ≡ Some base }
    ensures { Gives (λ i. i) result (image_of_pages (spelled_of text.now) base) }
{
    let pages = text.pages.as_slice();
    let perms = perms_of(alloc, pages)?;
    let bytes = bytes_of(alloc, pages)?;
    let Some(entry) = entry_of(text) else {
        return Err(ImageFault::Entry);
    };
    let Ok(clusters) = Clusters::of_text(alloc, text) else {
        return Err(ImageFault::OutOfMemory);
    };
    let Ok(least) = four_largest(alloc, &clusters) else {
        return Err(ImageFault::OutOfMemory);
    };
    let Some(budget) = budget_of(text, least) else {
        return Err(ImageFault::Budget);
    };
    let Ok(signer) = String::from_str(alloc, text.signer) else {
        return Err(ImageFault::OutOfMemory);
    };
    Ok(Image::new(base, entry, perms, clusters, budget, signer, bytes))
}

/// The image of numbers and texts.
fn image_of_spelled(alloc: Global, text: &Spelled<'_>) -> Result<Image, ImageFault>
    ensures { Gives (λ i. i) result (image_of_spelled (spelled_of text.now)) }
{
    let pages = text.pages.as_slice();
    if version_of(text).is_none() {
        return Err(ImageFault::Version);
    }
    let Some(base) = base_of(text) else {
        return Err(ImageFault::BaseAlign);
    };
    if pages.is_empty() || pages.len() > 512 {
        return Err(ImageFault::PageCount);
    }
    image_of_pages(alloc, text, base)
}

/// The image of a document.
fn image_of_document(alloc: Global, document: &Table) -> Result<Image, ImageFault>
    ensures { Gives (λ i. i) result (image_of_document (table_view document.now)) }
{
    if has_unknown_key(document) {
        return Err(ImageFault::UnknownKey);
    }
    if !has_all_keys(document) {
        return Err(ImageFault::MissingKey);
    }
    let text = Spelled::read(alloc, document)?;
    image_of_spelled(alloc, &text)
}

impl Image {
    /// The image that the bytes spell, a TOML document. A refusal is the first that holds, in the order of `ImageFault`.
    pub fn read(alloc: Global, bytes: &[u8]) -> Result<Image, ImageFault>
        ensures image { IfOk result (λ image. image_of bytes.now ≡ Ok image) }
        ensures refusal { IfErr result (λ fault. fault ≢ OutOfMemory → image_of bytes.now ≡ Err fault) }
        ensures refused { IsErr (image_of bytes.now) → IsErr result }
    {
        let document = read_document(alloc, bytes)?;
        image_of_document(alloc, &document)
    }
}
