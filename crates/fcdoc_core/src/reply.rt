ghost use Rattle.std.specs.Prelude.{◌≡◌, IfOk, string_bytes};
ghost use Rattle.fcdoc_core.specs.Replies.{reply_text};

use crate::writing::{expression_line, outcome_line, recomputed_line};
use property_types::Outcome;
use recompute::Report;
use std::alloc::{AllocError, Global};
use std::marker::Model;

/// The printed form of an expression. It is seen as the list of its bytes.
#[derive(Debug, Drop)]
pub struct ExprText {
    text: String,
}

impl Model for ExprText {
    ghost use Rattle.std.specs.Prelude.{List, ℕ, string_bytes};

    ghost Value = { List ℕ };

    ghost view = { λ t. string_bytes t.text };
}

impl ExprText {
    pub(crate) fn of(text: String) -> ExprText
        ensures { result ≡ string_bytes text }
    {
        ExprText { text }
    }

    /// The bytes of the text.
    pub fn bytes(&self) -> &[u8]
        ensures { result.now ≡ self.now }
    {
        self.text.as_bytes()
    }
}

/// What a command answers that was not refused.
#[derive(Debug, Drop)]
pub enum Reply {
    /// An edit was made.
    Ok,
    /// The outcome of a slot.
    Value(Outcome),
    /// The expression to which a slot is bound, if it is.
    Expression(Option<ExprText>),
    /// What a recompute has done.
    Recomputed(Report),
}

impl Reply {
    /// Its line, with the LF: `ok`, `= 2 mm`, `! Range`, `: V.a * 2`, `: none` or
    /// `recomputed 0 calls 2 faults`.
    pub fn write(&self, alloc: Global) -> Result<Vec<u8>, AllocError>
        ensures { IfOk result (λ text. text.items ≡ reply_text self.now) }
    {
        match self {
            Reply::Ok => Vec::from_slice(alloc, b"ok\n"),
            Reply::Value(outcome) => outcome_line(alloc, outcome),
            Reply::Expression(text) => expression_line(alloc, text),
            Reply::Recomputed(report) => recomputed_line(alloc, report),
        }
    }
}
