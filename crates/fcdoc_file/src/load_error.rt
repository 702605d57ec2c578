ghost use Rattle.std.specs.Prelude.{◌≡◌};
ghost use Rattle.fcdoc_file.specs.Causes.{cause_of, load_fault_of};

use fcxml_profile::{XmlCause, XmlFault};
use std::alloc::AllocError;
use std::fmt;
use thiserror::Error;

/// What is wrong with the bytes of a document.
#[derive(Clone, Copy, Debug, Drop, PartialEq, Eq)]
pub enum LoadCause {
    /// A byte begins no character of UTF-8.
    NotUtf8,
    /// A control character other than tab, line feed and carriage return.
    Character,
    /// The bytes end before the root element is closed.
    Truncated,
    /// `<!` or `<?` of another kind than a comment or the declaration in front.
    Declaration,
    /// An end tag whose name is not that of the innermost open element.
    Unbalanced,
    /// A tag where 64 elements are open.
    Deep,
    /// A tag that has an attribute name twice.
    RepeatedAttribute,
    /// Anything else that may not stand there.
    Syntax,
}

/// What is wrong with the bytes of a document, and the place: how many bytes stand in front of it.
#[derive(Clone, Copy, Debug, Drop, PartialEq, Eq)]
pub struct LoadFault {
    pub place: u64,
    pub cause: LoadCause,
}

/// The cause and the place, as `Truncated at 60`.
impl fmt::Display for LoadFault {
    fn fmt<W: fmt::Write>(&self, f: &mut fmt::Formatter<W>) -> fmt::Result {
        write!(f, "{:?} at {}", self.cause, self.place)
    }
}

/// The cause of bytes that are not well-formed.
fn cause_of(cause: XmlCause) -> LoadCause
    ensures { result ≡ cause_of cause }
{
    match cause {
        XmlCause::NotUtf8 => LoadCause::NotUtf8,
        XmlCause::Character => LoadCause::Character,
        XmlCause::Truncated => LoadCause::Truncated,
        XmlCause::Declaration => LoadCause::Declaration,
        XmlCause::Unbalanced => LoadCause::Unbalanced,
        XmlCause::Deep => LoadCause::Deep,
        XmlCause::RepeatedAttribute => LoadCause::RepeatedAttribute,
        XmlCause::Syntax => LoadCause::Syntax,
    }
}

impl LoadFault {
    /// The fault of bytes that are not well-formed.
    pub(crate) fn of(fault: XmlFault) -> LoadFault
        ensures { result ≡ load_fault_of fault }
    {
        LoadFault {
            place: fault.place,
            cause: cause_of(fault.cause),
        }
    }
}

/// Why bytes were not read as a document.
#[derive(Debug, Drop, Error)]
pub enum LoadError {
    /// They are not well-formed: the first fault that a scan from the front finds.
    #[error("not well-formed: {0}")]
    Load(LoadFault),
    /// They are well-formed, and not the text of a document of the first form.
    #[error("not a document of the first form")]
    NotBuilt,
    /// No memory was left, which says nothing of the bytes.
    #[error("out of memory")]
    Memory(AllocError),
}
