ghost use Rattle.std.specs.Prelude.{◌≡◌, [], IfOk, IsTrue, Some, unwrap_or};
ghost use Rattle.std.specs.Option.{option_map_or};
ghost use Rattle.doc_rules.specs.Commanded.{refused};
ghost use Rattle.doc_rules.specs.Refusals.{behind_space, is_refusal_number, place_text, refusal_name, refusal_text};

use crate::numbers;
use fc_base::TextValue;
use std::alloc::{AllocError, Global};
use std::fmt;

/// Why a command was refused: its number, what it is about, and the place of a fault in an
/// expression.
#[derive(Debug, Drop)]
pub struct Refusal {
    pub number: u8,
    pub subject: Option<TextValue>,
    pub place: Option<u64>,
}

/// The name of a refusal by its number; empty where no refusal has the number.
pub fn name_of(number: u8) -> &'static str
    ensures { result.now ≡ refusal_name number }
{
    match number {
        numbers::SYNTAX => "Syntax",
        numbers::NO_OBJECT => "NoObject",
        numbers::NO_PROPERTY => "NoProperty",
        numbers::NAME_TAKEN => "NameTaken",
        numbers::BAD_NAME => "BadName",
        numbers::LABEL_TAKEN => "LabelTaken",
        numbers::BAD_LABEL => "BadLabel",
        numbers::READ_ONLY => "ReadOnly",
        numbers::WRONG_TYPE => "WrongType",
        numbers::OUT_OF_RANGE => "OutOfRange",
        numbers::EXPR_SYNTAX => "ExprSyntax",
        numbers::UNKNOWN_REFERENCE => "UnknownReference",
        numbers::NOT_DYNAMIC => "NotDynamic",
        numbers::CYCLE => "Cycle",
        numbers::UNIT_MISMATCH => "UnitMismatch",
        numbers::KIND_MISMATCH => "KindMismatch",
        numbers::EXPONENT_RANGE => "ExponentRange",
        numbers::NOT_OVERRIDDEN => "NotOverridden",
        numbers::SHEET_EDGE => "SheetEdge",
        numbers::CELL_TAKEN => "CellTaken",
        numbers::BAD_ALIAS => "BadAlias",
        numbers::ALIAS_TAKEN => "AliasTaken",
        numbers::LINK_KIND => "LinkKind",
        numbers::TRANSACTION_OPEN => "TransactionOpen",
        numbers::NO_TRANSACTION => "NoTransaction",
        numbers::NOTHING_TO_UNDO => "NothingToUndo",
        numbers::NOTHING_TO_REDO => "NothingToRedo",
        numbers::NOT_RECOMPUTED => "NotRecomputed",
        numbers::TOO_MANY => "TooMany",
        numbers::NO_FEATURE => "NoFeature",
        numbers::NOT_BUILT => "NotBuilt",
        _ => "",
    }
}

impl Refusal {
    /// A refusal of that number, without a subject and a place.
    pub fn of(number: u8) -> Refusal
        ensures { result ≡ refused number }
    {
        Refusal {
            number,
            subject: None,
            place: None,
        }
    }

    /// Its reply without the LF, such as `refused 14 Cycle V.a` or `refused 11 ExprSyntax at 2`. The
    /// number is one of those of refusals: 1 to 30, or 99.
    pub fn write(&self, alloc: Global) -> Result<Vec<u8>, AllocError>
        requires { IsTrue (is_refusal_number self.now.number) }
        ensures { IfOk result (λ text. text.items ≡ refusal_text self.now) }
    {
        Ok(self.to_string(alloc)?.into_bytes())
    }

    /// The text of the subject; empty where there is none.
    fn subject_text(&self) -> &str
        ensures { result.now ≡ unwrap_or self.now.subject [] }
    {
        match &self.subject {
            Some(subject) => subject.as_str(),
            None => "",
        }
    }
}

/// A space and a subject, or nothing where it is empty.
#[derive(Drop)]
pub struct SubjectText<'a>(pub &'a str);

impl fmt::Display for SubjectText<'_> {
    ghost output = { λ s. Some (behind_space s.0.now) };

    fn fmt<W: fmt::Write>(&self, f: &mut fmt::Formatter<W>) -> fmt::Result {
        let subject = self.0;
        if subject.is_empty() {
            return Ok(());
        }
        write!(f, " {subject}")
    }
}

/// A place, where there is one.
#[derive(Drop)]
struct PlaceText(Option<u64>);

impl fmt::Display for PlaceText {
    ghost output = { λ p. Some (option_map_or place_text p.0 []) };

    fn fmt<W: fmt::Write>(&self, f: &mut fmt::Formatter<W>) -> fmt::Result {
        match self.0 {
            Some(place) => write!(f, " at {place}"),
            None => Ok(()),
        }
    }
}

/// The text of its reply.
impl fmt::Display for Refusal {
    ghost output = { λ r. Some (refusal_text r) };

    fn fmt<W: fmt::Write>(&self, f: &mut fmt::Formatter<W>) -> fmt::Result {
        let number = self.number;
        let name = name_of(number);
        let subject = SubjectText(self.subject_text());
        let place = PlaceText(self.place);
        write!(f, "refused {number} {name}{subject}{place}")
    }
}
