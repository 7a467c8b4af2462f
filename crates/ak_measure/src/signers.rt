// The signers of a file, by name.
ghost use Rattle.std.specs.Prelude.{◌≡◌, ◌⊎◌, false, true, Some, is_some, Ok, Err, IsTrue, IfOk, IfErr, IfSome, OnOk};
ghost use Rattle.std.specs.List.{list_all};
ghost use Rattle.std.specs.BTreeMap.{values, insert_entry, IsOrdered};
ghost use Rattle.std.specs.String.{string_cmp};
ghost use Rattle.ak_measure.specs.Stages.{each_of};
ghost use Rattle.ak_measure.specs.Signers.{any_repeats};
ghost use Rattle.ak_measure.specs.Collected.{digests_at, signer_at, named};

use crate::digests::{all_are_arrays_of_digests, all_are_arrays_of_strings, digests_of};
use crate::document::read_document;
use crate::fault::{DocumentFault, SignersFault};
use ak_core::OutOfMemory;
use indexmap::IndexSet;
use std::alloc::Global;
use std::collections::BTreeMap;
use std::marker::Model;
use toml::Table;

/// The signers of a file, each with the digests of the enclaves that it signed.
///
/// Contracts see the list of the names with their digests, ascending by name.
#[derive(Drop)]
pub struct Signers {
    digests: BTreeMap<String, IndexSet<[u8; 32]>>,
}

impl Model for Signers {
    ghost use Rattle.ak_measure.specs.Collected.{named};
    ghost use Rattle.ak_measure.specs.Signers.{Signed};

    ghost Value = { Signed };

    ghost view = { λ s. named (λ s. s.keys) s.digests.entries };
}

impl Signers {
    ghost use Rattle.ak_measure.specs.Signers.{signers_of, single, names_of, knows, allows, Ascend, IsReason, IsRefusedFor};

    /// Reads a signers file: a TOML document whose keys are the names, each with an array of strings of 64 hexadecimal
    /// digits, of which none spells the same digest as another of the same name.
    pub fn read(alloc: Global, bytes: &[u8]) -> Result<Signers, SignersFault>
        ensures read { IfOk result (λ signers. signers_of bytes.now ≡ Ok signers) }
        ensures ascending { IfOk result (λ signers. Ascend (names_of signers)) }
        ensures refused { IfErr result (IsReason (signers_of bytes.now)) }
        ensures refuses { IfErr (signers_of bytes.now) (IsRefusedFor result) }
    {
        let document = match read_document(alloc, bytes) {
            Ok(document) => document,
            Err(DocumentFault::NotToml) => return Err(SignersFault::NotToml),
            Err(DocumentFault::OutOfMemory) => return Err(SignersFault::OutOfMemory),
        };
        if !all_are_arrays_of_strings(&document) {
            return Err(SignersFault::BadKey);
        }
        if !all_are_arrays_of_digests(&document) {
            return Err(SignersFault::BadDigest);
        }
        match by_name(alloc, document) {
            Ok(digests) => Ok(Signers { digests }),
            Err(fault) => Err(fault),
        }
    }

    /// The one signer of this name, who signed this one digest.
    pub fn single(alloc: Global, name: &str, digest: &[u8; 32]) -> Result<Signers, OutOfMemory>
        ensures { IfOk result (λ signers. signers ≡ single name.now digest.now) }
    {
        let mut signed = IndexSet::new(alloc);
        if signed.insert(*digest).is_err() {
            return Err(OutOfMemory);
        }
        let Ok(name) = String::from_str(alloc, name) else {
            return Err(OutOfMemory);
        };
        let mut digests = BTreeMap::new(alloc);
        if add(&mut digests, name, signed).is_err() {
            return Err(OutOfMemory);
        }
        Ok(Signers { digests })
    }

    /// Whether there is a signer of this name.
    pub fn knows(&self, name: &str) -> bool
        ensures { result ≡ knows self.now name.now }
    {
        self.digests.contains_key(name)
    }

    /// Whether there is a signer of this name, and it signed this digest.
    pub fn allows(&self, name: &str, digest: &[u8; 32]) -> bool
        ensures { result ≡ allows self.now name.now digest.now }
    {
        match self.digests.get(name) {
            Some(digests) => digests.contains(digest),
            None => false,
        }
    }
}

// The digests of each name, where no name has one twice.
fn by_name(
    alloc: Global,
    document: Table,
) -> Result<BTreeMap<String, IndexSet<[u8; 32]>>, SignersFault>
    requires { IsTrue (list_all (λ v. is_some (digests_at v)) (values document)) }
    ensures read { IfOk result (λ names. each_of signer_at document.entries ≡ Some (named (λ s. s.keys) names.entries)) }
    ensures distinct { IfOk result (λ names. any_repeats (named (λ s. s.keys) names.entries) ≡ false) }
    ensures ordered { IfOk result (λ names. IsOrdered string_cmp names) }
    ensures repeated { result ≡ Err SignersFault.Repeated
        → IfSome (each_of signer_at document.entries) (λ signers. any_repeats signers ≡ true) }
    ensures only { IfErr result (λ e. (e ≡ SignersFault.Repeated) ⊎ (e ≡ SignersFault.OutOfMemory)) }
{
    let mut names = BTreeMap::new(alloc);
    for (name, value) in document {
        match digests_of(alloc, value) {
            Ok(digests) => add(&mut names, name, digests)?,
            Err(fault) => return Err(fault),
        };
    }
    Ok(names)
}

// Adds a name, in its place in the order of names.
fn add(
    names: &mut BTreeMap<String, IndexSet<[u8; 32]>>,
    name: String,
    digests: IndexSet<[u8; 32]>,
) -> Result<(), SignersFault>
    ensures added { OnOk result (names.new.entries ≡ insert_entry string_cmp names.old.entries name digests) }
    ensures ordered { IsOrdered string_cmp names.new }
    ensures refused { IfErr result (λ e. e ≡ SignersFault.OutOfMemory) }
{
    names.insert(name, digests)?;
    Ok(())
}
