ghost use Rattle.std.specs.Prelude.{◌≡◌, IfOk};
ghost use Rattle.object_paths.specs.PathParts.{until_closing};
ghost use Rattle.expr_tokens.specs.Lexemes.{quoted};

use crate::token::Lexeme;
use fc_base::{TextFault, TextValue};
use object_paths::until_closing;
use std::alloc::{AllocError, Global};

/// The text up to the first `>>`, of what follows a `<<`, and the number of bytes with the marks.
pub(super) fn quoted(alloc: Global, rest: &str) -> Result<Option<(Lexeme, usize)>, AllocError>
    ensures { IfOk result (λ found. found ≡ quoted (until_closing rest.now)) }
{
    let Some((text, _)) = until_closing(rest) else {
        return Ok(None);
    };
    match TextValue::read(alloc, text) {
        Ok(value) => Ok(Some((Lexeme::Text(value), text.len() + 4))),
        Err(TextFault::Memory(error)) => Err(error),
        Err(TextFault::TooLong | TextFault::BadText) => Ok(None),
    }
}
