ghost use Rattle.std.specs.Prelude.{◌≡◌, ◌≤◌, IfOk, MatchOption, Some, false, length, take, true};
ghost use Rattle.std.specs.List.{list_all};
ghost use Rattle.fc_base.specs.Places.{address_of};
ghost use Rattle.fc_base.specs.Texts.{begins_name};
ghost use Rattle.expr_tokens.specs.Longest.{longest};
ghost use Rattle.expr_tokens.specs.Lexemes.{identifier_of, is_marked_address, of_length, spells_word, word_at};

use crate::token::Lexeme;
use fc_base::{Address, Name, NameFault};
use std::alloc::{AllocError, Global};
use unicode_ident::{is_xid_continue, is_xid_start};

/// The most bytes of an address: `$ZZ$16384`.
const MOST_ADDRESS_BYTES: usize = 9;

/// Whether a name may begin with the character.
fn begins_name(character: char) -> bool
    ensures { result ≡ begins_name character }
{
    is_xid_start(character) || character == '_'
}

/// How many bytes in front spell a word: an XID start character or `_` and then XID continue
/// characters, however many.
fn word_length(text: &str) -> usize
    ensures { result ≡ longest spells_word text.now }
{
    let mut rest = text.chars();
    match rest.next() {
        Some(first) if begins_name(first) => {}
        _ => return 0,
    }
    loop {
        let length = text.len() - rest.as_str().len();
        match rest.next() {
            Some(next) if is_xid_continue(next) => {}
            _ => return length,
        }
    }
}

/// The address with a mark that the front of that length is.
fn marked_front(text: &str, bytes: usize) -> Option<Address>
    ensures { MatchOption result
        (bytes ≤ length text.now → is_marked_address (take bytes text.now) ≡ false)
        (λ place. (bytes ≤ length text.now) × (is_marked_address (take bytes text.now) ≡ true)
        × (address_of (take bytes text.now) ≡ Some place)) }
{
    let address = Address::read(text.get(..bytes)?)?;
    if address.fixed_column || address.fixed_row {
        Some(address)
    } else {
        None
    }
}

/// The longest address with a mark that stands in front, and its number of bytes.
fn longest_marked(text: &str) -> Option<(Address, usize)>
    ensures { MatchOption result (longest is_marked_address text.now ≡ 0)
        (λ r. (longest is_marked_address text.now ≡ r.1) × (address_of (take r.1 text.now) ≡ Some r.0)) }
{
    for length in (1..=MOST_ADDRESS_BYTES).rev() {
        if let Some(address) = marked_front(text, length) {
            return Some((address, length));
        }
    }
    None
}

/// The identifier that the text is, where it has at most 64 bytes, and its number of bytes.
fn identifier(alloc: Global, text: &str) -> Result<Option<(Lexeme, usize)>, AllocError>
    ensures { IfOk result
        (λ found. found ≡ of_length (length text.now) (identifier_of text.now)) }
{
    match Name::read(alloc, text) {
        Ok(name) => Ok(Some((Lexeme::Identifier(name), text.len()))),
        Err(NameFault::BadName) => Ok(None),
        Err(NameFault::Memory(error)) => Err(error),
    }
}

/// The identifier or the marked address in front, whichever is longer, and its number of bytes.
#[tactic(auto, unfolding(crate::specs::Lexemes::word_at))]
pub(super) fn word(alloc: Global, text: &str) -> Result<Option<(Lexeme, usize)>, AllocError>
    ensures { IfOk result (λ found. found ≡ word_at text.now) }
{
    let length = word_length(text);
    match longest_marked(text) {
        Some((address, marked)) if length < marked => {
            Ok(Some((Lexeme::Marked(address), marked)))
        }
        _ => identifier(alloc, &text[..length]),
    }
}
