// The TOML document that bytes spell.
ghost use Rattle.std.specs.Option.{ok_or};
ghost use Rattle.ak_image.specs.Results.{Gives};
ghost use Rattle.ak_image.specs.declared.fault.ImageFault.TheVariants.{NotToml};
ghost use Rattle.ak_measure.specs.Document.{document_of};
ghost use Rattle.toml.specs.View.{table_view};

use crate::ImageFault;
use ak_measure::DocumentFault;
use std::alloc::Global;
use toml::Table;

/// The document that the bytes spell.
pub(crate) fn read_document(alloc: Global, bytes: &[u8]) -> Result<Table, ImageFault>
    ensures { Gives table_view result (ok_or (document_of bytes.now) NotToml) }
{
    match ak_measure::read_document(alloc, bytes) {
        Ok(table) => Ok(table),
        Err(DocumentFault::NotToml) => Err(ImageFault::NotToml),
        Err(DocumentFault::OutOfMemory) => Err(ImageFault::OutOfMemory),
    }
}
