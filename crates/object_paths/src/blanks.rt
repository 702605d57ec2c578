ghost use Rattle.std.specs.Prelude.{◌≡◌, ◌≢◌, ◌∷◌, ◌++◌, ℕ, [], List, IsTrue, MatchOption, IfOk, map, reverse, true};
ghost use Rattle.std.specs.List.{slice_split};
ghost use Rattle.object_paths.specs.PathParts.{is_blank, after_blanks, trimmed, parts_of};

use std::alloc::{AllocError, Global};

/// What follows a space or a tab in front.
fn strip_blank_front(text: &str) -> Option<&str>
    ensures { MatchOption result ((c : ℕ) (rest : List ℕ) → is_blank c ≡ true → text.now ≢ c ∷ rest)
        (λ rest. (c : ℕ) × (is_blank c ≡ true) × (text.now ≡ c ∷ rest.now)) }
{
    match text.strip_prefix(' ') {
        Some(rest) => Some(rest),
        None => text.strip_prefix('\t'),
    }
}

/// What stands before a space or a tab at the end.
fn strip_blank_end(text: &str) -> Option<&str>
    ensures { MatchOption result ((c : ℕ) (front : List ℕ) → is_blank c ≡ true → text.now ≢ front ++ (c ∷ []))
        (λ front. (c : ℕ) × (is_blank c ≡ true) × (text.now ≡ front.now ++ (c ∷ []))) }
{
    match text.strip_suffix(' ') {
        Some(front) => Some(front),
        None => text.strip_suffix('\t'),
    }
}

/// What follows the spaces and tabs in front.
fn after_blanks(text: &str) -> &str
    ensures { result.now ≡ after_blanks text.now }
{
    let mut rest = text;
    loop {
        match strip_blank_front(rest) {
            Some(shorter) => rest = shorter,
            None => return rest,
        }
    }
}

/// What stands before the spaces and tabs at the end.
fn before_blanks(text: &str) -> &str
    ensures { result.now ≡ reverse (after_blanks (reverse text.now)) }
{
    let mut front = text;
    loop {
        match strip_blank_end(front) {
            Some(shorter) => front = shorter,
            None => return front,
        }
    }
}

/// The text without the spaces and tabs at both ends.
pub(crate) fn trimmed(text: &str) -> &str
    ensures { result.now ≡ trimmed text.now }
{
    before_blanks(after_blanks(text))
}

/// What stands between the dots of the text, without outer blanks.
pub(crate) fn parts(alloc: Global, text: &str) -> Result<Vec<&str>, AllocError>
    ensures { IfOk result (λ parts. map (λ x. x.now) parts.items ≡ parts_of text.now) }
{
    text.split('.').map(trimmed).collect(alloc)
}
