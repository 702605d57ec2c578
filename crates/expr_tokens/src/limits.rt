ghost use Rattle.std.specs.Prelude.{◌≡◌, ◌≤◌};
ghost use Rattle.expr_tokens.specs.Limits.{excess, most_brackets, open_behind};

use crate::sign::Sign;
use crate::token::{Lexeme, Placed};

/// The most tokens of an expression.
const MOST_TOKENS: usize = 512;

/// The most round brackets of an expression that are open at once.
const MOST_BRACKETS: usize = 32;

/// How many brackets are open behind the lexeme.
fn open_behind(brackets: usize, lexeme: &Lexeme) -> usize
    requires { brackets ≤ most_brackets }
    ensures { result ≡ open_behind brackets lexeme.now }
{
    match lexeme {
        Lexeme::Sign(Sign::Open) => brackets + 1,
        Lexeme::Sign(Sign::Close) => brackets.saturating_sub(1),
        _ => brackets,
    }
}

/// The place of the first token too many: one above 512, or a bracket above 32 open ones.
#[tactic(auto, unfolding(crate::specs::Limits::excess_from))]
pub fn excess(lexemes: &[Placed]) -> Option<u64>
    ensures { result ≡ excess lexemes.now }
{
    let mut brackets = 0;
    for (count, placed) in lexemes.iter().enumerate() {
        brackets = open_behind(brackets, &placed.lexeme);
        if count >= MOST_TOKENS || brackets > MOST_BRACKETS {
            return Some(placed.place);
        }
    }
    None
}
