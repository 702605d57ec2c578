ghost use Rattle.std.specs.Prelude.{◌≡◌, ℕ, List, Err, None, IfOk, IsErrOf};
ghost use Rattle.document_model.specs.Document.{Document};
ghost use Rattle.fcdoc_file.specs.FirstDocument.{ReadsFirst};
ghost use Rattle.fcdoc_file.specs.Loading.{loaded, Loads};
ghost use Rattle.fcdoc_file.specs.Reading.{document_of};

use crate::fault::FormFault;
use crate::first_document::load_first;
use crate::load_error::{LoadError, LoadFault};
use doc_tables::Tables;
use fcxml_profile::first_fault;
use std::alloc::Global;

/// Why bytes that are no text of the first form are no document.
fn refused(alloc: Global, bytes: &[u8]) -> LoadError
    requires { document_of bytes.now ≡ None }
    ensures { Loads (loaded bytes.now) (Err result) }
{
    match first_fault(alloc, bytes) {
        Ok(Some(fault)) => LoadError::Load(LoadFault::of(fault)),
        Ok(None) => LoadError::NotBuilt,
        Err(error) => LoadError::Memory(error),
    }
}

/// Reads a document. Of bytes that are not well-formed Load tells what is wrong first, and where.
/// NotBuilt comes for all others that are not the text of a document of the first form.
///
/// The time grows with the bytes. A text of the first form is well-formed, so it is gone through once;
/// all others are scanned as XML too.
pub fn load(alloc: Global, bytes: &[u8]) -> Result<Tables, LoadError>
    ensures exact { Loads (loaded bytes.now) result }
    ensures found { IfOk result (λ t. ReadsFirst bytes.now t.document) }
    ensures not_built { IsErrOf result LoadError.NotBuilt → (d : Document) → ReadsFirst bytes.now d → ⊥ }
{
    match load_first(alloc, bytes) {
        Ok(tables) => Ok(tables),
        Err(FormFault::NotBuilt) => Err(refused(alloc, bytes)),
        Err(FormFault::Memory(error)) => Err(LoadError::Memory(error)),
    }
}
