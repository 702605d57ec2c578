ghost use Rattle.std.specs.Prelude.{◌≡◌, ◌≢◌, ◌∷◌, ℕ, List, IfOk, MatchOption, alloc_error, true};
ghost use Rattle.object_paths.specs.PathParts.{is_blank, opened};
ghost use Rattle.expr_tokens.specs.Lexemes.{lexed, lexeme_at, mark_or_word};
ghost use Rattle.expr_tokens.specs.Signs.{sign_at};
ghost use Rattle.expr_tokens.specs.Lexing.{GivesLexed};
ghost use Rattle.expr_tokens.specs.declared.lexing.LexFault.TheVariants.{Memory};

mod numeral;
mod quoted;
pub(crate) mod signs;
mod word;

use crate::token::{Lexeme, Placed};
use numeral::numeral;
use object_paths::opened;
use quoted::quoted;
use signs::{sign_at, sign_text};
use std::alloc::{AllocError, AllocFailed, Global};
use thiserror::Error;
use word::word;

/// Why a text was not read as lexemes.
#[derive(Debug, Drop, Error)]
pub enum LexFault {
    /// No lexeme begins at the place, the number of bytes in front of it.
    #[error("no token at {0}")]
    Place(u64),
    #[error("out of memory")]
    Memory(AllocError),
}

impl From<AllocError> for LexFault {
    ghost from_gives = { λ cause e. e ≡ Memory cause };

    fn from(cause: AllocError) -> LexFault {
        LexFault::Memory(cause)
    }
}

impl<T: Drop> From<AllocFailed<T>> for LexFault {
    ghost from_gives = { λ _ e. e ≡ Memory alloc_error };

    fn from(_cause: AllocFailed<T>) -> LexFault {
        LexFault::Memory(AllocError)
    }
}

/// What follows a space or a tab in front.
fn strip_blank(text: &str) -> Option<&str>
    ensures { MatchOption result ((c : ℕ) (rest : List ℕ) → is_blank c ≡ true → text.now ≢ c ∷ rest)
        (λ rest. (c : ℕ) × (is_blank c ≡ true) × (text.now ≡ c ∷ rest.now)) }
{
    match text.strip_prefix(' ') {
        Some(rest) => Some(rest),
        None => text.strip_prefix('\t'),
    }
}

/// The text, the sign or the word in front, and its number of bytes; none where none begins.
fn mark_or_word(alloc: Global, text: &str) -> Result<Option<(Lexeme, usize)>, AllocError>
    ensures { IfOk result
        (λ found. found ≡ mark_or_word (opened text.now) (sign_at text.now) text.now) }
{
    if let Some(rest) = opened(text) {
        return quoted(alloc, rest);
    }
    match sign_at(text) {
        Some(sign) => Ok(Some((Lexeme::Sign(sign), sign_text(sign).len()))),
        None => word(alloc, text),
    }
}

/// The lexeme that the text begins with, and its number of bytes; none where none begins.
#[tactic(auto, unfolding(crate::specs::Lexemes::lexeme_at))]
fn lexeme(alloc: Global, text: &str) -> Result<Option<(Lexeme, usize)>, AllocError>
    ensures { IfOk result (λ found. found ≡ lexeme_at text.now) }
{
    match text.as_bytes() {
        [] => Ok(None),
        [first, ..] if first.is_ascii_digit() => Ok(numeral(text.as_bytes())),
        _ => mark_or_word(alloc, text),
    }
}

/// The lexemes of a text with their places, each the longest that begins at its place, or the first
/// place where none begins. Spaces and tabs may stand between them. The cost grows with the length of
/// the text.
pub fn lexemes(alloc: Global, text: &str) -> Result<Vec<Placed>, LexFault>
    ensures { GivesLexed result (lexed text.now) }
{
    let mut lexemes = Vec::new(alloc);
    let mut rest = text;
    while !rest.is_empty() {
        if let Some(after) = strip_blank(rest) {
            rest = after;
            continue;
        }
        let place = (text.len() - rest.len()) as u64;
        let Some((lexeme, length)) = lexeme(alloc, rest)? else {
            return Err(LexFault::Place(place));
        };
        lexemes.push(Placed { place, lexeme })?;
        rest = &rest[length..];
    }
    Ok(lexemes)
}
