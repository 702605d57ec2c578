ghost use Rattle.std.specs.Prelude.{◌≡◌, IfOk, map};
ghost use Rattle.expr_tokens.specs.Kinds.{bracket_follows, is_opening_bracket, is_point, kind_of, lone_word, point_follows, tokens_of, word};

use crate::sign::Sign;
use crate::token::{Lexeme, Placed, Token};
use fc_base::Name;
use std::alloc::{AllocError, Global};
use unit_signatures::unit_named;

/// Whether the lexeme is `(`.
fn is_opening_bracket(lexeme: &Lexeme) -> bool
    ensures { result ≡ is_opening_bracket lexeme.now }
{
    matches!(lexeme, Lexeme::Sign(Sign::Open))
}

/// Whether the lexeme is `.`.
fn is_point(lexeme: &Lexeme) -> bool
    ensures { result ≡ is_point lexeme.now }
{
    matches!(lexeme, Lexeme::Sign(Sign::Dot))
}

/// Whether the first of the lexemes is `(`.
fn bracket_follows(rest: &[Placed]) -> bool
    ensures { result ≡ bracket_follows (map (λ x. x.lexeme) rest.now) }
{
    match rest {
        [] => false,
        [first, ..] => is_opening_bracket(&first.lexeme),
    }
}

/// Whether the first of the lexemes is `.`.
fn point_follows(rest: &[Placed]) -> bool
    ensures { result ≡ point_follows (map (λ x. x.lexeme) rest.now) }
{
    match rest {
        [] => false,
        [first, ..] => is_point(&first.lexeme),
    }
}

/// An identifier with no bracket behind it and no point beside it: a flag, a unit or else a name.
fn lone_word(name: Name) -> Token
    ensures { result ≡ lone_word name }
{
    match name.as_str() {
        "true" => Token::Flag(true),
        "false" => Token::Flag(false),
        text if unit_named(text).is_some() => Token::Unit(name),
        _ => Token::Name(name),
    }
}

/// An identifier before `(` is a function, else one beside a point a name.
fn word(before_bracket: bool, beside_point: bool, name: Name) -> Token
    ensures { result ≡ word before_bracket beside_point name }
{
    if before_bracket {
        Token::Function(name)
    } else if beside_point {
        Token::Name(name)
    } else {
        lone_word(name)
    }
}

/// The token that the lexeme is, with whether a point stands before it, and what stands behind it.
fn token(
    alloc: Global,
    behind_point: bool,
    lexeme: &Lexeme,
    rest: &[Placed],
) -> Result<Token, AllocError>
    ensures { IfOk result
        (λ t. t ≡ kind_of behind_point lexeme.now (map (λ x. x.lexeme) rest.now)) }
{
    match lexeme {
        Lexeme::Numeral(amount, number) => Ok(Token::Numeral(*amount, *number)),
        Lexeme::Identifier(name) => {
            let beside_point = behind_point || point_follows(rest);
            Ok(word(bracket_follows(rest), beside_point, name.copy(alloc)?))
        }
        Lexeme::Marked(address) => Ok(Token::Marked(*address)),
        Lexeme::Text(text) => Ok(Token::Text(text.copy(alloc)?)),
        Lexeme::Sign(sign) => Ok(Token::Sign(*sign)),
    }
}

/// The tokens of the lexemes: each identifier is told apart by its neighbours. The cost grows with
/// the number of lexemes.
pub fn tokens(alloc: Global, lexemes: &[Placed]) -> Result<Vec<Token>, AllocError>
    ensures { IfOk result (λ ts. ts.items ≡ tokens_of lexemes.now) }
{
    let mut tokens = Vec::new(alloc);
    let mut behind_point = false;
    let mut rest = lexemes;
    while let [first, after @ ..] = rest {
        tokens.push(token(alloc, behind_point, &first.lexeme, after)?)?;
        behind_point = is_point(&first.lexeme);
        rest = after;
    }
    Ok(tokens)
}
