// The TOML document of a file.
ghost use Rattle.std.specs.Prelude.{◌≡◌, Some, None, IfOk, IsErr};
ghost use Rattle.toml.specs.View.{table_view};
ghost use Rattle.ak_measure.specs.Document.{document_of};

use crate::fault::DocumentFault;
use std::alloc::Global;
use toml::Table;

/// The TOML document that the bytes spell. It is refused exactly where they spell none, or memory runs out.
pub fn read_document(alloc: Global, bytes: &[u8]) -> Result<Table, DocumentFault>
    ensures read { IfOk result (λ table. document_of bytes.now ≡ Some (table_view table)) }
    ensures not_toml { result ≡ Err DocumentFault.NotToml → document_of bytes.now ≡ None }
    ensures refused { document_of bytes.now ≡ None → IsErr result }
{
    match toml::table_from_slice(alloc, bytes) {
        Ok(table) => Ok(table),
        Err(error) => {
            if error.is_memory() {
                Err(DocumentFault::OutOfMemory)
            } else {
                Err(DocumentFault::NotToml)
            }
        }
    }
}
