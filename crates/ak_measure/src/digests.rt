// The digests that the values of a signers file spell.
ghost use Rattle.std.specs.Prelude.{◌≡◌, ◌⊎◌, true, false, Some, is_some, IsSome, IfOk, IfErr, IfSome};
ghost use Rattle.std.specs.List.{list_all};
ghost use Rattle.std.specs.BTreeMap.{values};
ghost use Rattle.toml.specs.Data.{as_str};
ghost use Rattle.toml.specs.View.{view};
ghost use Rattle.ak_measure.specs.Stages.{each_of};
ghost use Rattle.ak_measure.specs.Signers.{texts_of, repeats};
ghost use Rattle.ak_measure.specs.Collected.{digest_at, digests_at};

use crate::fault::SignersFault;
use hex::FromHex;
use indexmap::IndexSet;
use std::alloc::Global;
use toml::{Table, Value};

// The digest that a string of 64 hexadecimal digits spells.
fn digest_of(value: &Value) -> Option<[u8; 32]>
    ensures { result ≡ digest_at value.now }
{
    match value {
        Value::String(text) => <[u8; 32]>::from_hex(text.as_str()).ok(),
        _ => None,
    }
}

fn are_strings(items: &[Value]) -> bool
    ensures { result ≡ list_all (λ v. is_some (as_str (view v))) items.now }
{
    items.iter().all(|item| item.is_str())
}

fn are_digests(items: &[Value]) -> bool
    ensures { result ≡ list_all (λ v. is_some (digest_at v)) items.now }
{
    items.iter().all(|item| digest_of(item).is_some())
}

fn is_array_of_strings(value: &Value) -> bool
    ensures { result ≡ is_some (texts_of (view value.now)) }
{
    match value {
        Value::Array(items) => are_strings(items),
        _ => false,
    }
}

fn is_array_of_digests(value: &Value) -> bool
    ensures { result ≡ is_some (digests_at value.now) }
{
    match value {
        Value::Array(items) => are_digests(items),
        _ => false,
    }
}

/// Whether each value is an array of strings.
pub(crate) fn all_are_arrays_of_strings(document: &Table) -> bool
    ensures { result ≡ list_all (λ v. is_some (texts_of (view v))) (values document.now) }
{
    document.values().all(|value| is_array_of_strings(value))
}

/// Whether each value is an array of strings of 64 hexadecimal digits.
pub(crate) fn all_are_arrays_of_digests(document: &Table) -> bool
    ensures { result ≡ list_all (λ v. is_some (digests_at v)) (values document.now) }
{
    document.values().all(|value| is_array_of_digests(value))
}

// The digests that the items spell, in their order, where none of them stands twice.
fn distinct_digests(alloc: Global, items: &[Value]) -> Result<IndexSet<[u8; 32]>, SignersFault>
    requires { IsSome (each_of digest_at items.now) }
    ensures read { IfOk result (λ digests. each_of digest_at items.now ≡ Some digests.keys) }
    ensures distinct { IfOk result (λ digests. repeats digests.keys ≡ false) }
    ensures repeated { result ≡ Err SignersFault.Repeated
        → IfSome (each_of digest_at items.now) (λ digests. repeats digests ≡ true) }
    ensures only { IfErr result (λ e. (e ≡ SignersFault.Repeated) ⊎ (e ≡ SignersFault.OutOfMemory)) }
{
    let mut digests = IndexSet::new(alloc);
    for item in items {
        let Some(digest) = digest_of(item) else {
            unreachable!()
        };
        let (_, is_new) = digests.insert_full(digest)?;
        if !is_new {
            return Err(SignersFault::Repeated);
        }
    }
    Ok(digests)
}

/// The digests that the value spells, in their order, where none of them stands twice.
pub(crate) fn digests_of(alloc: Global, value: Value) -> Result<IndexSet<[u8; 32]>, SignersFault>
    requires { IsSome (digests_at value) }
    ensures read { IfOk result (λ digests. digests_at value ≡ Some digests.keys) }
    ensures distinct { IfOk result (λ digests. repeats digests.keys ≡ false) }
    ensures repeated { result ≡ Err SignersFault.Repeated
        → IfSome (digests_at value) (λ digests. repeats digests ≡ true) }
    ensures only { IfErr result (λ e. (e ≡ SignersFault.Repeated) ⊎ (e ≡ SignersFault.OutOfMemory)) }
{
    match value {
        Value::Array(items) => distinct_digests(alloc, &items),
        _ => unreachable!(),
    }
}
