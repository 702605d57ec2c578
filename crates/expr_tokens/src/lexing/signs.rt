ghost use Rattle.std.specs.Prelude.{◌≡◌};
ghost use Rattle.expr_tokens.specs.Signs.{sign_at, sign_text};

use crate::sign::Sign;

/// All signs, those of two bytes before those of one.
const SIGNS: [Sign; 19] = [
    Sign::Equal,
    Sign::NotEqual,
    Sign::LessOrEqual,
    Sign::GreaterOrEqual,
    Sign::Less,
    Sign::Greater,
    Sign::Plus,
    Sign::Minus,
    Sign::Asterisk,
    Sign::Slash,
    Sign::Percent,
    Sign::Caret,
    Sign::Question,
    Sign::Colon,
    Sign::Semicolon,
    Sign::Comma,
    Sign::Open,
    Sign::Close,
    Sign::Dot,
];

/// How the sign is written.
pub(crate) fn sign_text(sign: Sign) -> &'static str
    ensures { result.now ≡ sign_text sign }
{
    match sign {
        Sign::Equal => "==",
        Sign::NotEqual => "!=",
        Sign::LessOrEqual => "<=",
        Sign::GreaterOrEqual => ">=",
        Sign::Less => "<",
        Sign::Greater => ">",
        Sign::Plus => "+",
        Sign::Minus => "-",
        Sign::Asterisk => "*",
        Sign::Slash => "/",
        Sign::Percent => "%",
        Sign::Caret => "^",
        Sign::Question => "?",
        Sign::Colon => ":",
        Sign::Semicolon => ";",
        Sign::Comma => ",",
        Sign::Open => "(",
        Sign::Close => ")",
        Sign::Dot => ".",
    }
}

/// The longest sign that the text begins with.
#[tactic(auto, unfolding(crate::specs::Signs::sign_at))]
pub(super) fn sign_at(text: &str) -> Option<Sign>
    ensures { result ≡ sign_at text.now }
{
    for sign in &SIGNS {
        if text.starts_with(sign_text(*sign)) {
            return Some(*sign);
        }
    }
    None
}
