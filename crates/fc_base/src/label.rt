ghost use Rattle.std.specs.Prelude.{◌≡◌, ◌↔◌, false, nat_eq, Some, refl, IsTrue, IfOk, IsErrOf, string_bytes};
ghost use Rattle.std.proofs.Common.{rules};
ghost use Rattle.std.specs.Cmp.{partial_equiv_from_equiv};
ghost use Rattle.std.specs.Cmp.Lexicographic.{slice_cmp, pointwise, nat_list_eq_equiv, nat_list_cmp_total, texts_po, texts_ties};
ghost use Rattle.std.specs.Cmp.Rules.{hashing};
ghost use Rattle.std.specs.Hash as fed;
ghost use Rattle.std.specs.Ordering.{nat_cmp};
ghost use Rattle.std.specs.List.{list_any};
ghost use Rattle.fc_base.specs.Texts.{has_closing_mark, ends_in_mark, is_control, is_label};

use std::alloc::{AllocError, Global};
use std::cmp::Ordering;
use std::hash::{Hash, Hasher};
use std::marker::Model;
use thiserror::Error;

/// A label of an object, which the user changes: 1 to 255 bytes, without `>>`, control characters
/// or a `>` at the end. It is seen as the list of its bytes.
#[derive(Debug, Drop)]
pub struct Label {
    text: String,
}

impl Model for Label {
    ghost use Rattle.std.specs.Prelude.{List, ℕ, IsTrue, string_bytes};
    ghost use Rattle.fc_base.specs.Texts.{is_label};

    ghost Value = { List ℕ };

    ghost view = { λ n. string_bytes n.text };

    ghost invariant = { λ n. IsTrue (is_label (string_bytes n.text)) };
}

/// Why a text was not read as a label.
#[derive(Debug, Drop, Error)]
pub enum LabelFault {
    /// It is not 1 to 255 bytes, has `>>` or a control character, or ends in `>`.
    #[error("not a label")]
    BadLabel,
    #[error("out of memory")]
    Memory(AllocError),
}

/// The most bytes that a label has.
const MOST_BYTES: usize = 255;

/// Whether a control character, one below U+0020, stands in the text.
fn has_control(text: &str) -> bool
    ensures { result ≡ list_any is_control text.now }
{
    text.as_bytes().iter().any(|byte| *byte < b' ')
}

/// Whether `>>` stands in the text.
fn has_closing_mark(text: &str) -> bool
    ensures { result ≡ has_closing_mark text.now }
{
    text.contains(">>")
}

/// Whether the text ends in `>`.
fn ends_in_mark(text: &str) -> bool
    ensures { result ≡ ends_in_mark text.now }
{
    text.ends_with('>')
}

impl Label {
    /// Whether the text is a label: 1 to 255 bytes, without `>>`, control characters or a `>` at
    /// the end.
    pub fn is_label(text: &str) -> bool
        ensures { result ≡ is_label text.now }
    {
        !text.is_empty()
            && text.len() <= MOST_BYTES
            && !has_closing_mark(text)
            && !has_control(text)
            && !ends_in_mark(text)
    }

    /// Reads a label. BadLabel comes exactly where the text is none.
    pub fn read(alloc: Global, text: &str) -> Result<Label, LabelFault>
        ensures found { IfOk result (λ label. (label ≡ text.now) × IsTrue (is_label text.now)) }
        ensures refused { IsErrOf result LabelFault.BadLabel ↔ (is_label text.now ≡ false) }
    {
        if !Label::is_label(text) {
            return Err(LabelFault::BadLabel);
        }
        let text = String::from_str(alloc, text).map_err(LabelFault::Memory)?;
        Ok(Label { text })
    }

    /// The label with that text.
    pub(crate) fn of(text: String) -> Label
        requires { IsTrue (is_label (string_bytes text)) }
        ensures { result ≡ string_bytes text }
    {
        Label { text }
    }

    /// An equal label.
    pub fn copy(&self, alloc: Global) -> Result<Label, AllocError>
        ensures { IfOk result (λ label. label ≡ self.now) }
    {
        let text = String::from_str(alloc, self.text.as_str())?;
        Ok(Label { text })
    }

    /// The label as text.
    pub fn as_str(&self) -> &str
        ensures text { result.now ≡ self.now }
        ensures label { IsTrue (is_label self.now) }
    {
        self.text.as_str()
    }
}

impl PartialEq for Label {
    ghost eq = { pointwise nat_eq };

    ghost laws = { partial_equiv_from_equiv nat_list_eq_equiv };

    fn eq(&self, other: &Label) -> bool {
        self.as_str() == other.as_str()
    }
}

impl Eq for Label {
    ghost laws = { nat_list_eq_equiv };
}

impl Hash for Label {
    ghost hash_input = { fed.str };

    ghost respects_eq = { Prim.search (hashing, rules) };

    fn hash<H: Hasher>(&self, state: &mut H) {
        self.as_str().hash(state);
    }
}

impl PartialOrd for Label {
    ghost partial_cmp = { λ a b. Some (slice_cmp nat_cmp a b) };

    ghost laws = { texts_po };

    fn partial_cmp(&self, other: &Label) -> Option<Ordering> {
        Some(self.cmp(other))
    }
}

impl Ord for Label {
    ghost cmp = { slice_cmp nat_cmp };

    ghost total = { nat_list_cmp_total };

    ghost matches_partial_cmp = { λ a b. refl };

    ghost matches_eq = { texts_ties };

    fn cmp(&self, other: &Label) -> Ordering {
        self.as_str().cmp(other.as_str())
    }
}
