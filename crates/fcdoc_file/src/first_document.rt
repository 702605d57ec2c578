ghost use Rattle.std.specs.Prelude.{◌≡◌, ◌||◌, ℕ, List, [], IfOk, IsErrOf, None, Some, map};
ghost use Rattle.std.specs.Str.{bytes_eq};
ghost use Rattle.fcdoc_file.specs.FirstForm.{empty_text, first_text};
ghost use Rattle.document_model.specs.Document.{Document};
ghost use Rattle.doc_tables.specs.Numbered.{Numbered};
ghost use Rattle.fcxml_profile.specs.Scanning.{scan_of};
ghost use Rattle.fcdoc_file.specs.Answers.{Gives};
ghost use Rattle.fcdoc_file.specs.FirstDocument.{ReadsFirst};
ghost use Rattle.fcdoc_file.specs.Reading.{first_form_of, document_of};
ghost use Rattle.fcdoc_file.specs.Rows.{object_of};

use crate::fault::FormFault;
use crate::filling::tables_of;
use crate::reading::read_content;
use crate::standing::stand_together;
use crate::var_set::VarSet;
use doc_tables::Tables;
use std::alloc::Global;

/// The short text of the document without objects.
const EMPTY_TEXT: &[u8] = b"<Document SchemaVersion=\"4\"/>";

/// The long text of the document without objects.
const LONG_EMPTY_TEXT: &[u8] =
    b"<?xml version='1.0' encoding='utf-8'?>\n<Document SchemaVersion=\"4\">\n<Objects Count=\"0\"/>\n<ObjectData Count=\"0\"/>\n</Document>\n";

/// Whether the bytes are the text of the document without objects.
fn is_without_objects(bytes: &[u8]) -> bool
    ensures { result ≡ (bytes_eq bytes.now empty_text || bytes_eq bytes.now (first_text [])) }
{
    bytes == EMPTY_TEXT || bytes == LONG_EMPTY_TEXT
}

/// The objects of the document of the first form that the bytes are the text of.
#[tactic(auto, unfolding(crate::specs::Reading::first_form_of))]
fn load_objects(alloc: Global, bytes: &[u8]) -> Result<Vec<VarSet>, FormFault>
    ensures { Gives (λ v. map object_of v.items) result (first_form_of bytes.now) }
{
    if is_without_objects(bytes) {
        return Ok(Vec::new(alloc));
    }
    let Ok(text) = str::from_utf8(bytes) else {
        return Err(FormFault::NotBuilt);
    };
    let objects = read_content(alloc, text)?;
    if !stand_together(alloc, &objects)? {
        return Err(FormFault::NotBuilt);
    }
    Ok(objects)
}

/// Reads a document of the first form. NotBuilt comes exactly where the bytes are the text of none.
pub(crate) fn load_first(alloc: Global, bytes: &[u8]) -> Result<Tables, FormFault>
    ensures exact { Gives (λ (t : Numbered). t.document) result (document_of bytes.now) }
    ensures found { IfOk result (λ t. ReadsFirst bytes.now t.document) }
    ensures not_built { IsErrOf result FormFault.NotBuilt → (d : Document) → ReadsFirst bytes.now d → ⊥ }
{
    let objects = load_objects(alloc, bytes)?;
    Ok(tables_of(alloc, &objects)?)
}

/// The bytes have a document exactly where they are its text, and so one at most. They are
/// well-formed then.
pub fn document_is_read_exactly()
    ensures found { (bytes : List ℕ) (d : Document) → document_of bytes ≡ Some d → ReadsFirst bytes d }
    ensures only { (bytes : List ℕ) (d : Document) → ReadsFirst bytes d → document_of bytes ≡ Some d }
    ensures well_formed { (bytes : List ℕ) (d : Document) → ReadsFirst bytes d → (scan_of bytes).fault ≡ None }
{}
