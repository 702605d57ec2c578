use crate::sign::Sign;
use fc_base::{Address, Name, TextValue};
use quantities::Amount;

/// What a text holds between its blanks, each by itself.
#[derive(Debug, Drop)]
pub enum Lexeme {
    /// `2.5`: its amount, and where it is one or two digits, the number that they write.
    Numeral(Amount, Option<u8>),
    /// `Width`
    Identifier(Name),
    /// `$A$1`, an address with at least one mark.
    Marked(Address),
    /// `<<text>>`
    Text(TextValue),
    /// `+`
    Sign(Sign),
}

/// A lexeme, and the number of bytes in front of it.
#[derive(Debug, Drop)]
pub struct Placed {
    pub place: u64,
    pub lexeme: Lexeme,
}

/// What the grammar is about: a lexeme, where identifiers are told apart by their neighbours.
#[derive(Debug, Drop)]
pub enum Token {
    /// `2.5`: its amount, and where it is one or two digits, the number that they write.
    Numeral(Amount, Option<u8>),
    /// `mm`, an identifier of the table of units.
    Unit(Name),
    /// `true`, `false`
    Flag(bool),
    /// `Width`
    Name(Name),
    /// `sum`, an identifier before `(`
    Function(Name),
    /// `$A$1`
    Marked(Address),
    /// `<<text>>`
    Text(TextValue),
    /// `+`
    Sign(Sign),
}
