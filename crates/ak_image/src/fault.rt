// Why bytes are no image.

use ak_core::Page;
use thiserror::Error;

/// Why no image was read. All but the last are refusals, in the order in which they are looked for: the first that holds
/// is the one that is told. A refusal of a page names the least such page.
#[derive(Clone, Copy, Debug, Drop, PartialEq, Eq, Error)]
pub enum ImageFault {
    /// The bytes are no TOML document.
    #[error("the image is no TOML document")]
    NotToml,
    /// There is a key that is none of an image's.
    #[error("the image has an unknown key")]
    UnknownKey,
    /// A key is missing.
    #[error("the image lacks a key")]
    MissingKey,
    /// A value has another type than its key asks for.
    #[error("a value of the image has the wrong type")]
    WrongType,
    /// The version is not 1.
    #[error("the image's version is unknown")]
    Version,
    /// The base is no multiple of the enclave's size, or the enclave ends above 2^47.
    #[error("the image's base is not aligned")]
    BaseAlign,
    /// There are no pages, or more than 512.
    #[error("the image has no pages or too many")]
    PageCount,
    /// The page's permission is none of `r`, `rw` and `rx`.
    #[error("the permission of page {page} is unknown", page = .0.0)]
    PagePerm(Page),
    /// The page's bytes are no pairs of hexadecimal digits, or more than 4096.
    #[error("the bytes of page {page} are no page", page = .0.0)]
    PageBytes(Page),
    /// The first instruction is outside the program's pages.
    #[error("the image's entry is outside its pages")]
    Entry,
    /// The budget is too small for the four largest clusters, or over 512.
    #[error("the image's budget is out of range")]
    Budget,
    /// Memory ran out.
    #[error("memory ran out")]
    OutOfMemory,
}
