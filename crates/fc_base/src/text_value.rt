ghost use Rattle.std.specs.Prelude.{◌≡◌, ◌↔◌, ◌<◌, ◌≤◌, length, false, nat_eq, Some, refl, IsTrue, IfOk, IsErrOf, string_bytes};
ghost use Rattle.std.specs.Cmp.{partial_equiv_from_equiv};
ghost use Rattle.std.specs.Cmp.Lexicographic.{slice_cmp, pointwise, nat_list_eq_equiv, nat_list_cmp_total, texts_po, texts_ties};
ghost use Rattle.std.specs.Ordering.{nat_cmp};
ghost use Rattle.std.specs.List.{list_all};
ghost use Rattle.fc_base.specs.Texts.{is_text_byte, is_text_value};

use std::alloc::{AllocError, Global};
use std::cmp::Ordering;
use std::marker::Model;
use thiserror::Error;

/// A text of a String property or a cell: at most 1,024 bytes, no control character but tab, LF
/// and CR. It is seen as the list of its bytes.
#[derive(Debug, Drop)]
pub struct TextValue {
    text: String,
}

impl Model for TextValue {
    ghost use Rattle.std.specs.Prelude.{List, ℕ, IsTrue, string_bytes};
    ghost use Rattle.fc_base.specs.Texts.{is_text_value};

    ghost Value = { List ℕ };

    ghost view = { λ n. string_bytes n.text };

    ghost invariant = { λ n. IsTrue (is_text_value (string_bytes n.text)) };
}

/// Why a text was not read as a text value.
#[derive(Debug, Drop, Error)]
pub enum TextFault {
    /// It has more than 1,024 bytes.
    #[error("longer than 1,024 bytes")]
    TooLong,
    /// It has a control character other than tab, LF and CR.
    #[error("a control character")]
    BadText,
    #[error("out of memory")]
    Memory(AllocError),
}

/// The most bytes that a text value has.
const MOST_BYTES: usize = 1024;

/// Whether no control character, one below U+0020, stands in the text but tab, LF and CR.
fn has_text_bytes(text: &str) -> bool
    ensures { result ≡ list_all is_text_byte text.now }
{
    text.as_bytes().iter().all(|byte| *byte >= b' '
        || *byte == b'\t'
        || *byte == b'\n'
        || *byte == b'\r')
}

impl TextValue {
    /// Whether the text is a text value: at most 1,024 bytes, no control character, one below
    /// U+0020, but tab, LF and CR.
    pub fn is_text_value(text: &str) -> bool
        ensures { result ≡ is_text_value text.now }
    {
        text.len() <= MOST_BYTES && has_text_bytes(text)
    }

    /// Reads a text value. TooLong comes exactly above 1,024 bytes, and else BadText exactly
    /// where a control character other than tab, LF and CR stands in the text.
    pub fn read(alloc: Global, text: &str) -> Result<TextValue, TextFault>
        ensures found { IfOk result (λ value. (value ≡ text.now) × IsTrue (is_text_value text.now)) }
        ensures too_long { IsErrOf result TextFault.TooLong ↔ (1024 < length text.now) }
        ensures bad { IsErrOf result TextFault.BadText
            ↔ ((length text.now ≤ 1024) × (list_all is_text_byte text.now ≡ false)) }
    {
        if text.len() > MOST_BYTES {
            return Err(TextFault::TooLong);
        }
        if !TextValue::is_text_value(text) {
            return Err(TextFault::BadText);
        }
        let text = String::from_str(alloc, text).map_err(TextFault::Memory)?;
        Ok(TextValue { text })
    }

    /// The text value with that text.
    #[tactic(auto, using(crate::proofs::TextLemmas::string_is_text_value))]
    pub fn of(text: String) -> TextValue
        requires short { length (string_bytes text) ≤ 1024 }
        requires bytes { IsTrue (list_all is_text_byte (string_bytes text)) }
        ensures { result ≡ string_bytes text }
    {
        TextValue { text }
    }

    /// An equal text value.
    pub fn copy(&self, alloc: Global) -> Result<TextValue, AllocError>
        ensures { IfOk result (λ value. value ≡ self.now) }
    {
        let text = String::from_str(alloc, self.text.as_str())?;
        Ok(TextValue { text })
    }

    /// The text value as text.
    pub fn as_str(&self) -> &str
        ensures text { result.now ≡ self.now }
        ensures value { IsTrue (is_text_value self.now) }
    {
        self.text.as_str()
    }
}

impl PartialEq for TextValue {
    ghost eq = { pointwise nat_eq };

    ghost laws = { partial_equiv_from_equiv nat_list_eq_equiv };

    fn eq(&self, other: &TextValue) -> bool {
        self.as_str() == other.as_str()
    }
}

impl Eq for TextValue {
    ghost laws = { nat_list_eq_equiv };
}

impl PartialOrd for TextValue {
    ghost partial_cmp = { λ a b. Some (slice_cmp nat_cmp a b) };

    ghost laws = { texts_po };

    fn partial_cmp(&self, other: &TextValue) -> Option<Ordering> {
        Some(self.cmp(other))
    }
}

impl Ord for TextValue {
    ghost cmp = { slice_cmp nat_cmp };

    ghost total = { nat_list_cmp_total };

    ghost matches_partial_cmp = { λ a b. refl };

    ghost matches_eq = { texts_ties };

    fn cmp(&self, other: &TextValue) -> Ordering {
        self.as_str().cmp(other.as_str())
    }
}
