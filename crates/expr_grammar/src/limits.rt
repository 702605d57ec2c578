ghost use Rattle.std.specs.Prelude.{◌≡◌, IfOk};
ghost use Rattle.expr_grammar.specs.Large.{is_too_large};

use crate::printing::print;
use expr_tokens::{LexFault, excess, lexemes};
use expr_tree::Expr;
use std::alloc::{AllocError, Global};

/// Whether the printed form of an expression has more than 512 tokens, or more than 32 round
/// brackets open at once. It is printed and cut into tokens for that.
pub fn is_too_large(alloc: Global, tree: &Expr) -> Result<bool, AllocError>
    ensures { IfOk result (λ b. b ≡ is_too_large tree.now) }
{
    let text = print(alloc, tree)?;
    match lexemes(alloc, text.as_str()) {
        Ok(lexemes) => Ok(excess(&lexemes).is_some()),
        Err(LexFault::Place(_)) => Ok(false),
        Err(LexFault::Memory(error)) => Err(error),
    }
}
