ghost use Rattle.std.specs.Prelude.{◌≡◌, ◌≤◌, IfOk};
ghost use Rattle.expr_grammar.specs.Parse.{expression_in, MeetsGrammar, MeetsLimits, MeetsParse, Tells};
ghost use Rattle.expr_tokens.specs.Kinds.{tokens_of};
ghost use Rattle.expr_tokens.specs.Limits.{most_tokens};
ghost use Rattle.expr_tree.specs.References.{reference_count};
ghost use Rattle.expr_tree.specs.Spelled.{IsSpelled};
ghost use Rattle.expr_grammar.specs.declared.fault.ParseFault.TheVariants as answer;

use crate::descent::tree;
use crate::fault::{ExprCause, ExprFault, ParseFault};
use crate::no_tree::NoTree;
use expr_tokens::{LexFault, Placed, Token, excess, first_misplaced, lexemes, tokens};
use expr_tree::Expr;
use std::alloc::Global;

/// The fault of that cause at the place.
pub(crate) fn fault(cause: ExprCause, place: u64) -> ParseFault
    ensures { result ≡ answer.Expr (record { place = place; cause = cause }) }
{
    ParseFault::Expr(ExprFault { place, cause })
}

/// The lexemes of the text, within the limits.
pub(crate) fn lexemes_within_limits(alloc: Global, text: &str) -> Result<Vec<Placed>, ParseFault>
    ensures { MeetsLimits text.now result }
{
    let lexemes = match lexemes(alloc, text) {
        Ok(lexemes) => lexemes,
        Err(LexFault::Place(place)) => return Err(fault(ExprCause::Lexical, place)),
        Err(LexFault::Memory(error)) => return Err(ParseFault::Memory(error)),
    };
    match excess(&lexemes) {
        Some(place) => Err(fault(ExprCause::TooLarge, place)),
        None => Ok(lexemes),
    }
}

/// The tree of the tokens of these lexemes, of a text of that length.
pub(crate) fn tree_of(
    alloc: Global,
    lexemes: &[Placed],
    tokens: &[Token],
    end: u64,
) -> Result<Expr, ParseFault>
    requires { tokens.now ≡ tokens_of lexemes.now }
    ensures { MeetsGrammar lexemes.now end result }
{
    match tree(alloc, tokens) {
        Ok(tree) => Ok(tree),
        Err(NoTree::Syntax) => Err(fault(ExprCause::Syntax, first_misplaced(lexemes, tokens, end))),
        Err(NoTree::Memory(error)) => Err(ParseFault::Memory(error)),
    }
}

/// Reads an expression: `2 * Width + 1 mm`. Spaces and tabs may stand between its tokens.
///
/// Lexical comes where at some place no token begins, TooLarge where there are more than 512 tokens
/// or more than 32 round brackets open at once, and Syntax where the tokens are no expression, in
/// this order. Identifiers are XID words (Unicode Standard Annex 31). The cost grows with the length
/// of the text.
pub fn parse(alloc: Global, text: &str) -> Result<Expr, ParseFault>
    ensures exact { MeetsParse text.now result }
    ensures found { Tells (expression_in text.now) result }
    ensures spelled { IfOk result IsSpelled }
    ensures references { IfOk result (λ e. reference_count e ≤ most_tokens) }
{
    let lexemes = lexemes_within_limits(alloc, text)?;
    let tokens = tokens(alloc, &lexemes).map_err(ParseFault::Memory)?;
    tree_of(alloc, &lexemes, &tokens, text.len() as u64)
}
