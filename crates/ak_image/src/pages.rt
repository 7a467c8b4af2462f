// What the texts of an image's pages say.
ghost use Rattle.std.specs.Prelude.{◌≡◌, ◌≤◌, Some, None, OnOk, OnErr, length, map};
ghost use Rattle.ak_image.specs.Pages.{perm_named, page_of, perms_of, bytes_of};
ghost use Rattle.ak_image.specs.Results.{Gives};
ghost use Rattle.ak_image.specs.Views.{page_text_of};

use crate::ImageFault;
use crate::spelled::PageText;
use ak_core::{PAGE_SIZE, Page, Perm};
use std::alloc::Global;

/// A text that spells no page.
#[derive(Clone, Copy)]
struct NotAPage;

/// The permission of this name.
fn perm_named(name: &str) -> Option<Perm>
    ensures { result ≡ perm_named name.now }
{
    match name {
        "r" => Some(Perm::R),
        "rw" => Some(Perm::Rw),
        "rx" => Some(Perm::Rx),
        _ => None,
    }
}

/// Writes the page that the digits spell.
fn read_page(text: &str, into: &mut [u8]) -> Result<(), NotAPage>
    requires { length into.old ≡ PAGE_SIZE }
    ensures page { OnOk result (page_of text.now ≡ Some into.new) }
    ensures refused { OnErr result (page_of text.now ≡ None) }
{
    let digits = text.as_bytes();
    if digits.len() % 2 == 1 || digits.len() > 2 * PAGE_SIZE {
        return Err(NotAPage);
    }
    let count = digits.len() / 2;
    into.fill(0);
    match hex::decode_to_slice(digits, &mut into[..count]) {
        Ok(()) => Ok(()),
        Err(_) => Err(NotAPage),
    }
}

/// The permissions of all pages.
pub(crate) fn perms_of(alloc: Global, pages: &[PageText<'_>]) -> Result<Vec<Perm>, ImageFault>
    requires { length pages.now ≤ 512 }
    ensures { Gives (λ v. v.items) result (perms_of (map page_text_of pages.now)) }
{
    let mut perms = Vec::new(alloc);
    for (place, page) in pages.iter().enumerate() {
        let Some(perm) = perm_named(page.perms) else {
            return Err(ImageFault::PagePerm(Page(place as u32)));
        };
        if perms.push(perm).is_err() {
            return Err(ImageFault::OutOfMemory);
        }
    }
    Ok(perms)
}

/// The bytes of all pages, one page after the other.
pub(crate) fn bytes_of(alloc: Global, pages: &[PageText<'_>]) -> Result<Vec<u8>, ImageFault>
    requires { length pages.now ≤ 512 }
    ensures { Gives (λ v. v.items) result (bytes_of (map page_text_of pages.now)) }
{
    let Ok(mut bytes) = Vec::with_capacity(alloc, PAGE_SIZE * pages.len()) else {
        return Err(ImageFault::OutOfMemory);
    };
    let mut read = [0u8; PAGE_SIZE];
    for (place, page) in pages.iter().enumerate() {
        if read_page(page.bytes, &mut read).is_err() {
            return Err(ImageFault::PageBytes(Page(place as u32)));
        }
        if bytes.extend_from_slice(&read).is_err() {
            return Err(ImageFault::OutOfMemory);
        }
    }
    Ok(bytes)
}
