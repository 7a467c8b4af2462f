// The keys of an image's document.
ghost use Rattle.std.specs.Prelude.{◌≡◌, map, not, ◌||◌, ◌&&◌, true, false, is_some, string_bytes, length};
ghost use Rattle.std.specs.BTreeMap.{keys};
ghost use Rattle.std.specs.List.{list_any, list_all, filter_map};
ghost use Rattle.std.specs.Option.{option_map, option_map_or};
ghost use Rattle.std.specs.Str.{bytes_eq};
ghost use Rattle.ak_image.specs.Keys.{top_keys, page_keys, is_other, has_other, has_each, has_unknown_key, has_all_keys, page_tables};
ghost use Rattle.toml.specs.Data.{get_member, as_table};
ghost use Rattle.toml.specs.View.{table_view, view};

use toml::{Table, Value};

/// The keys at the top of an image.
const TOP_KEYS: [&str; 6] = ["version", "base", "entry", "budget", "signer", "page"];

/// The keys of a page.
const PAGE_KEYS: [&str; 3] = ["perms", "cluster", "bytes"];

/// The value at a key.
pub(crate) fn value_at<'a>(table: &'a Table, key: &str) -> Option<&'a Value>
    ensures { option_map (λ v. view v.now) result ≡ get_member key.now (table_view table.now) }
{
    table.get(key)
}

/// Whether the table has the key.
fn has_key(table: &Table, key: &str) -> bool
    ensures { result ≡ is_some (get_member key.now (table_view table.now)) }
{
    value_at(table, key).is_some()
}

/// Whether the key is among these.
fn is_among(key: &str, known: &[&str]) -> bool
    ensures { result ≡ list_any (λ k. bytes_eq key.now k.now) known.now }
{
    known.iter().any(|k| key == *k)
}

/// Whether the table has a key that is none of these.
fn has_other_key(table: &Table, known: &[&str]) -> bool
    ensures { result ≡ list_any (λ key. not (list_any (λ k. bytes_eq (string_bytes key) k.now) known.now)) (keys table.now) }
{
    table.keys().any(|key| !is_among(key.as_str(), known))
}

/// Whether the table has each of these keys.
fn has_each_key(table: &Table, known: &[&str]) -> bool
    ensures { result ≡ list_all (λ k. is_some (get_member k.now (table_view table.now))) known.now }
{
    known.iter().all(|key| has_key(table, key))
}

/// Whether a key is unknown at the top.
fn has_other_top_key(table: &Table) -> bool
    ensures { result ≡ has_other top_keys (table_view table.now) }
{
    has_other_key(table, &TOP_KEYS)
}

/// Whether no key is missing at the top.
fn has_each_top_key(table: &Table) -> bool
    ensures { result ≡ has_each top_keys (table_view table.now) }
{
    has_each_key(table, &TOP_KEYS)
}

/// Whether a key is unknown in a page.
fn has_other_page_key(page: &Table) -> bool
    ensures { result ≡ has_other page_keys (table_view page.now) }
{
    has_other_key(page, &PAGE_KEYS)
}

/// Whether the value is a table with an unknown key.
fn is_page_with_other_key(value: &Value) -> bool
    ensures { result ≡ option_map_or (has_other page_keys) (as_table (view value.now)) false }
{
    match value {
        Value::Table(page) => has_other_page_key(page),
        _ => false,
    }
}

/// Whether the value is a table that lacks no key, or no table.
fn is_no_page_without_a_key(value: &Value) -> bool
    ensures { result ≡ option_map_or (has_each page_keys) (as_table (view value.now)) true }
{
    match value {
        Value::Table(page) => has_each_key(page, &PAGE_KEYS),
        _ => true,
    }
}

/// The elements of the array `page`; none, where it is no array.
fn page_items(table: &Table) -> &[Value]
    ensures { page_tables (table_view table.now) ≡ filter_map (λ v. as_table (view v)) result.now }
{
    match value_at(table, "page") {
        Some(Value::Array(items)) => items,
        _ => &[],
    }
}

/// Whether one of the values is a table with an unknown key.
fn has_page_with_other_key(items: &[Value]) -> bool
    ensures { result ≡ list_any (λ v. option_map_or (has_other page_keys) (as_table (view v)) false) items.now }
{
    items.iter().any(|item| is_page_with_other_key(item))
}

/// Whether none of the values is a table that lacks a key.
fn has_no_page_without_a_key(items: &[Value]) -> bool
    ensures { result ≡ list_all (λ v. option_map_or (has_each page_keys) (as_table (view v)) true) items.now }
{
    items.iter().all(|item| is_no_page_without_a_key(item))
}

/// Whether a key is unknown, at the top or in a table of the array `page`.
pub(crate) fn has_unknown_key(table: &Table) -> bool
    ensures { result ≡ has_unknown_key (table_view table.now) }
{
    has_other_top_key(table) || has_page_with_other_key(page_items(table))
}

/// Whether no key is missing, at the top and in each table of the array `page`.
pub(crate) fn has_all_keys(table: &Table) -> bool
    ensures { result ≡ has_all_keys (table_view table.now) }
{
    has_each_top_key(table) && has_no_page_without_a_key(page_items(table))
}
