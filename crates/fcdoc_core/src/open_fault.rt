ghost use Rattle.std.specs.Prelude.{◌≡◌, IfOk, IsTrue};
ghost use Rattle.doc_rules.specs.Edits.{fault_told};
ghost use Rattle.doc_rules.specs.Refusals.{is_refusal_number};
ghost use Rattle.fcdoc_core.specs.Opening.{faulty};
ghost use Rattle.fcdoc_file.specs.Loading.{malformed};
ghost use Rattle.fcdoc_core.specs.Replies.{cause_text, unloaded_text, unopened_text};
ghost use Rattle.fcdoc_core.specs.OpenFaults.{HasLine, open_fault_text};

use doc_rules::DocFault;
use fcdoc_file::{LoadCause, LoadFault};
use itoa::Buffer;
use std::alloc::{AllocError, Global};
use thiserror::Error;

/// Why a document was not opened.
#[derive(Debug, Drop, Error)]
pub enum OpenFault {
    /// The bytes are well-formed, and not the text of a document of the first form.
    #[error("not a document of the first form")]
    NotBuilt,
    /// The bytes are not well-formed: the first fault that a scan from the front finds.
    #[error("not well-formed: {0}")]
    Load(LoadFault),
    /// The bytes are the text of a document, and this is its first fault.
    #[error("{0}")]
    Doc(DocFault),
    /// No memory was left, which says nothing of the bytes.
    #[error("out of memory")]
    Memory(AllocError),
}

/// The name of a cause, as `Truncated`.
fn cause_text(cause: LoadCause) -> &'static str
    ensures { result.now ≡ cause_text cause }
{
    match cause {
        LoadCause::NotUtf8 => "NotUtf8",
        LoadCause::Character => "Character",
        LoadCause::Truncated => "Truncated",
        LoadCause::Declaration => "Declaration",
        LoadCause::Unbalanced => "Unbalanced",
        LoadCause::Deep => "Deep",
        LoadCause::RepeatedAttribute => "RepeatedAttribute",
        LoadCause::Syntax => "Syntax",
    }
}

/// The line for bytes that are not well-formed.
fn malformed_line(alloc: Global, fault: &LoadFault) -> Result<Vec<u8>, AllocError>
    ensures { IfOk result (λ text. text.items ≡ unloaded_text (malformed fault.now)) }
{
    let mut text = Vec::from_slice(alloc, b"document refused ")?;
    text.extend_from_slice(cause_text(fault.cause).as_bytes())?;
    text.extend_from_slice(b" at ")?;
    let mut buffer = Buffer::new();
    text.extend_from_slice(buffer.format(fault.place).as_bytes())?;
    text.push(b'\n')?;
    Ok(text)
}

/// The line for a document with a fault.
fn faulty_line(alloc: Global, fault: &DocFault) -> Result<Vec<u8>, AllocError>
    requires { IsTrue (is_refusal_number fault.now.number) }
    ensures { IfOk result (λ text. text.items ≡ unopened_text (faulty (fault_told fault.now))) }
{
    let refusal = fault.refusal(alloc)?;
    let refused = refusal.write(alloc)?;
    let mut text = Vec::from_slice(alloc, b"document ")?;
    text.extend_from_slice(refused.as_slice())?;
    text.push(b'\n')?;
    Ok(text)
}

impl OpenFault {
    /// The line of a run whose document is refused, with the LF: `document refused Truncated at 60` or
    /// `document refused 6 LabelTaken V`. There is none for want of memory, and none for a fault whose
    /// number is not that of a refusal.
    pub fn write(&self, alloc: Global) -> Result<Vec<u8>, AllocError>
        requires { HasLine self.now }
        ensures { IfOk result (λ text. text.items ≡ open_fault_text self.now) }
    {
        match self {
            OpenFault::NotBuilt => Vec::from_slice(alloc, b"document refused NotBuilt\n"),
            OpenFault::Load(fault) => malformed_line(alloc, fault),
            OpenFault::Doc(fault) => faulty_line(alloc, fault),
            OpenFault::Memory(_) => unreachable!(),
        }
    }
}
