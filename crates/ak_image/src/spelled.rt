// The numbers and texts of an image's document.
ghost use Rattle.std.specs.Prelude.{◌≡◌, map, IfOk};
ghost use Rattle.std.specs.Option.{option_map, option_copied, ok_or};
ghost use Rattle.ak_image.specs.Results.{Gives};
ghost use Rattle.ak_image.specs.Spelled.{text_at, number_at, items_at, table_text, page_text, spelled};
ghost use Rattle.ak_measure.specs.Stages.{each_of};
ghost use Rattle.ak_image.specs.Views.{page_text_of, spelled_of};
ghost use Rattle.ak_image.specs.declared.fault.ImageFault.TheVariants.{WrongType};
ghost use Rattle.toml.specs.Data.{get_member};
ghost use Rattle.toml.specs.View.{table_view, view};

use crate::ImageFault;
use crate::keys::value_at;
use std::alloc::Global;
use toml::{Table, Value};

/// A page's texts, as its document has them.
#[derive(Clone, Copy)]
pub(crate) struct PageText<'a> {
    pub perms: &'a str,
    pub cluster: &'a str,
    pub bytes: &'a str,
}

/// The numbers and texts of a document.
#[derive(Drop)]
pub(crate) struct Spelled<'a> {
    pub version: i64,
    pub base: i64,
    pub entry: i64,
    pub budget: i64,
    pub signer: &'a str,
    pub pages: Vec<PageText<'a>>,
}

/// The string at a key.
fn text_at<'a>(table: &'a Table, key: &str) -> Option<&'a str>
    ensures { option_copied result ≡ text_at key.now (table_view table.now) }
{
    match value_at(table, key) {
        Some(Value::String(text)) => Some(text.as_str()),
        _ => None,
    }
}

/// The integer at a key.
fn number_at(table: &Table, key: &str) -> Option<i64>
    ensures { result ≡ number_at key.now (table_view table.now) }
{
    match value_at(table, key) {
        Some(Value::Integer(number)) => Some(*number),
        _ => None,
    }
}

/// The texts of a table.
fn table_text(table: &Table) -> Option<PageText<'_>>
    ensures { option_map page_text_of result ≡ table_text (table_view table.now) }
{
    let perms = text_at(table, "perms")?;
    let cluster = text_at(table, "cluster")?;
    let bytes = text_at(table, "bytes")?;
    Some(PageText {
        perms,
        cluster,
        bytes,
    })
}

/// The texts of a page, if it is a table with three strings.
fn page_text(value: &Value) -> Option<PageText<'_>>
    ensures { option_map page_text_of result ≡ page_text (view value.now) }
{
    match value {
        Value::Table(table) => table_text(table),
        _ => None,
    }
}

/// The texts of all pages.
fn page_texts<'a>(alloc: Global, items: &'a [Value]) -> Result<Vec<PageText<'a>>, ImageFault>
    ensures { Gives (λ v. map page_text_of v.items) result (ok_or (each_of page_text (map view items.now)) WrongType) }
{
    let mut pages = Vec::new(alloc);
    for item in items {
        let Some(page) = page_text(item) else {
            return Err(ImageFault::WrongType);
        };
        if pages.push(page).is_err() {
            return Err(ImageFault::OutOfMemory);
        }
    }
    Ok(pages)
}

/// The elements of an array at a key.
fn items_at<'a>(table: &'a Table, key: &str) -> Option<&'a [Value]>
    ensures { option_map (λ items. map view items.now) result ≡ items_at key.now (table_view table.now) }
{
    match value_at(table, key) {
        Some(Value::Array(items)) => Some(items.as_slice()),
        _ => None,
    }
}

impl<'a> Spelled<'a> {
    /// What the document spells.
    pub(crate) fn read(alloc: Global, table: &'a Table) -> Result<Spelled<'a>, ImageFault>
        ensures { Gives spelled_of result (ok_or (spelled (table_view table.now)) WrongType) }
    {
        let Some(version) = number_at(table, "version") else {
            return Err(ImageFault::WrongType);
        };
        let Some(base) = number_at(table, "base") else {
            return Err(ImageFault::WrongType);
        };
        let Some(entry) = number_at(table, "entry") else {
            return Err(ImageFault::WrongType);
        };
        let Some(budget) = number_at(table, "budget") else {
            return Err(ImageFault::WrongType);
        };
        let Some(signer) = text_at(table, "signer") else {
            return Err(ImageFault::WrongType);
        };
        let Some(items) = items_at(table, "page") else {
            return Err(ImageFault::WrongType);
        };
        let pages = page_texts(alloc, items)?;
        Ok(Spelled {
            version,
            base,
            entry,
            budget,
            signer,
            pages,
        })
    }
}
