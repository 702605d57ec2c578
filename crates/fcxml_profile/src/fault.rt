//! Why a document is not well-formed, and where.
ghost use Rattle.std.specs.Prelude.{◌≡◌};

use thiserror::Error;

/// Why bytes are not well-formed.
#[derive(Clone, Copy, Debug, Drop, PartialEq, Eq, Error)]
pub enum XmlCause {
    /// A byte begins no character of UTF-8.
    #[error("not UTF-8")]
    NotUtf8,
    /// A control character other than tab, line feed and carriage return.
    #[error("a control character")]
    Character,
    /// The bytes end before the root element is closed.
    #[error("the document ends too early")]
    Truncated,
    /// `<!` or `<?` of another kind than a comment or the declaration in front.
    #[error("a declaration that may not stand there")]
    Declaration,
    /// An end tag whose name is not that of the innermost open element.
    #[error("an end tag of another name")]
    Unbalanced,
    /// A tag where 64 elements are open.
    #[error("more than 64 elements are open")]
    Deep,
    /// A tag that has an attribute name twice.
    #[error("an attribute name stands twice")]
    RepeatedAttribute,
    /// Anything else that may not stand there.
    #[error("a fault of syntax")]
    Syntax,
}

/// What is wrong with bytes, and the place: how many bytes stand in front of it.
#[derive(Clone, Copy, Debug, Drop, PartialEq, Eq, Error)]
#[error("{cause}, at {place}")]
pub struct XmlFault {
    pub place: u64,
    pub cause: XmlCause,
}

impl XmlFault {
    pub(crate) fn at(place: u64, cause: XmlCause) -> XmlFault
        ensures { result ≡ record { place = place; cause = cause } }
    {
        XmlFault { place, cause }
    }
}
