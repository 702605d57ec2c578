ghost use Rattle.std.specs.Prelude.{◌≡◌, ◌≤◌, IfOk, Ok};
ghost use Rattle.expr_tokens.specs.Limits.{most_tokens};
ghost use Rattle.expr_grammar.specs.Parse.{closed_expression_in, Tells, without_reference};
ghost use Rattle.expr_tree.specs.References.{reference_count};
ghost use Rattle.expr_tree.specs.Spelled.{IsSpelled};

use crate::fault::{ExprCause, ParseFault};
use crate::parsing::{fault, lexemes_within_limits, tree_of};
use expr_tokens::{place_of_reference, tokens};
use expr_tree::Expr;
use std::alloc::Global;

/// The tree, but where there is a reference, a fault at its place.
fn without_reference(place: Option<u64>, tree: Expr) -> Result<Expr, ParseFault>
    ensures { Tells (without_reference place (Ok tree)) result }
{
    match place {
        Some(place) => Err(fault(ExprCause::Syntax, place)),
        None => Ok(tree),
    }
}

/// Reads an expression without paths and areas: `2 * (3 mm + 1 cm)`.
///
/// The causes are those of `parse`, and behind them Syntax at the first token with which a path or
/// an area begins.
pub fn parse_closed(alloc: Global, text: &str) -> Result<Expr, ParseFault>
    ensures found { Tells (closed_expression_in text.now) result }
    ensures spelled { IfOk result IsSpelled }
    ensures references { IfOk result (λ e. reference_count e ≤ most_tokens) }
    ensures closed { IfOk result (λ e. reference_count e ≡ 0) }
{
    let lexemes = lexemes_within_limits(alloc, text)?;
    let tokens = tokens(alloc, &lexemes).map_err(ParseFault::Memory)?;
    let tree = tree_of(alloc, &lexemes, &tokens, text.len() as u64)?;
    without_reference(place_of_reference(&lexemes, &tokens), tree)
}
