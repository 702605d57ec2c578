ghost use Rattle.std.specs.Prelude.{◌≡◌, ◌≤◌, ◌<◌, ◌^◌, map, option_copied};
ghost use Rattle.expr_tokens.specs.Misplaced.{behind_operand, closes_by_sign, closes_nothing, is_closing, is_minus_or_point, is_misplaced, is_opening, is_unit_of, is_unknown_function, misplaced, open_behind_token, opens_by_sign, wants_operand, wants_operand_by_sign};

use crate::sign::Sign;
use crate::token::{Placed, Token};
use expr_tree::is_function_name;

/// Whether the token may begin an operand.
fn is_opening(token: &Token) -> bool
    ensures { result ≡ is_opening token.now }
{
    match token {
        Token::Sign(sign) => matches!(sign, Sign::Open | Sign::Minus | Sign::Dot),
        _ => true,
    }
}

/// Whether the token may end an operand.
fn is_closing(token: &Token) -> bool
    ensures { result ≡ is_closing token.now }
{
    match token {
        Token::Function(_) => false,
        Token::Sign(sign) => matches!(sign, Sign::Close),
        _ => true,
    }
}

/// Whether an operand is wanted: at the start, and behind each sign but `)`, `^` and `.`.
fn wants_operand(previous: Option<&Token>) -> bool
    ensures { result ≡ wants_operand (option_copied previous.entry) }
{
    match previous {
        None => true,
        Some(Token::Sign(sign)) => !matches!(sign, Sign::Close | Sign::Caret | Sign::Dot),
        Some(_) => false,
    }
}

/// Whether the token in front may end an operand.
fn behind_operand(previous: Option<&Token>) -> bool
    ensures { result ≡ behind_operand (option_copied previous.entry) }
{
    match previous {
        None => false,
        Some(token) => is_closing(token),
    }
}

/// Whether the token is a minus or a point, which may stand behind an operand too.
fn is_minus_or_point(token: &Token) -> bool
    ensures { result ≡ is_minus_or_point token.now }
{
    matches!(token, Token::Sign(Sign::Minus | Sign::Dot))
}

/// Whether the token is a unit behind a numeral.
fn is_unit_of(previous: Option<&Token>, token: &Token) -> bool
    ensures { result ≡ is_unit_of (option_copied previous.entry) token.now }
{
    matches!(
        (previous, token),
        (Some(Token::Numeral(..)), Token::Unit(_))
    )
}

/// Whether the token is a function that there is not.
fn is_unknown_function(token: &Token) -> bool
    ensures { result ≡ is_unknown_function token.now }
{
    match token {
        Token::Function(name) => !is_function_name(name.as_str()),
        _ => false,
    }
}

/// Whether the token is a closing bracket where none is open.
fn closes_nothing(brackets: usize, token: &Token) -> bool
    ensures { result ≡ closes_nothing brackets token.now }
{
    matches!(token, Token::Sign(Sign::Close)) && brackets == 0
}

/// Whether the token is wrong behind the one in front of it, with so many brackets open.
fn is_misplaced(previous: Option<&Token>, brackets: usize, token: &Token) -> bool
    ensures { result ≡ is_misplaced (option_copied previous.entry) brackets token.now }
{
    is_unknown_function(token)
        || wants_operand(previous) && !is_opening(token)
        || behind_operand(previous)
            && is_opening(token)
            && !is_minus_or_point(token)
            && !is_unit_of(previous, token)
        || closes_nothing(brackets, token)
}

/// How many brackets are open behind the token.
fn open_behind(brackets: usize, token: &Token) -> usize
    requires { brackets < usize.MAX }
    ensures { result ≡ open_behind_token brackets token.now }
{
    match token {
        Token::Sign(Sign::Open) => brackets + 1,
        Token::Sign(Sign::Close) => brackets.saturating_sub(1),
        _ => brackets,
    }
}

/// The place of the first of the tokens that is wrong, found by its neighbours, or the end. The cost
/// grows with the number of tokens.
#[tactic(auto, unfolding(crate::specs::Misplaced::misplaced_from))]
pub fn first_misplaced(lexemes: &[Placed], tokens: &[Token], end: u64) -> u64
    ensures { result ≡ misplaced (map (λ x. x.place) lexemes.now) tokens.now end }
{
    let mut previous: Option<&Token> = None;
    let mut brackets = 0;
    for (placed, token) in lexemes.iter().zip(tokens) {
        if is_misplaced(previous, brackets, token) {
            return placed.place;
        }
        brackets = open_behind(brackets, token);
        previous = Some(token);
    }
    end
}
