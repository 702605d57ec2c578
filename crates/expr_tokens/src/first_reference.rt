ghost use Rattle.std.specs.Prelude.{◌≡◌, map};
ghost use Rattle.expr_tokens.specs.FirstReference.{begins_reference, dot_follows, first_reference_among};

use crate::sign::Sign;
use crate::token::{Placed, Token};

/// Whether the first of the tokens is `.`.
fn dot_follows(rest: &[Token]) -> bool
    ensures { result ≡ dot_follows rest.now }
{
    matches!(rest, [Token::Sign(Sign::Dot), ..])
}

/// Whether a path or an area begins with the token, where those follow it.
fn begins_reference(token: &Token, rest: &[Token]) -> bool
    ensures { result ≡ begins_reference token.now rest.now }
{
    match token {
        Token::Name(_) | Token::Marked(_) => true,
        Token::Sign(sign) => matches!(sign, Sign::Dot),
        Token::Text(_) => dot_follows(rest),
        _ => false,
    }
}

/// The place of the first of the tokens with which a path or an area begins.
#[tactic(auto, unfolding(crate::specs::FirstReference::first_reference_among))]
pub fn place_of_reference(lexemes: &[Placed], tokens: &[Token]) -> Option<u64>
    ensures { result ≡ first_reference_among (map (λ x. x.place) lexemes.now) tokens.now }
{
    let mut lexemes = lexemes;
    let mut tokens = tokens;
    while let [placed, later @ ..] = lexemes {
        let [token, rest @ ..] = tokens else {
            return None;
        };
        if begins_reference(token, rest) {
            return Some(placed.place);
        }
        lexemes = later;
        tokens = rest;
    }
    None
}
