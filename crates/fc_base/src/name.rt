ghost use Rattle.std.specs.Prelude.{◌≡◌, ◌↔◌, ◌||◌, ◌==◌, ◌<◌, length, false, nat_eq, Some, refl, IsTrue, IfOk, IsErrOf};
ghost use Rattle.std.proofs.Common.{rules};
ghost use Rattle.std.specs.Cmp.{partial_equiv_from_equiv};
ghost use Rattle.std.specs.Cmp.Lexicographic.{slice_cmp, pointwise, nat_list_eq_equiv, nat_list_cmp_total, texts_po, texts_ties};
ghost use Rattle.std.specs.Cmp.Rules.{hashing};
ghost use Rattle.std.specs.Hash as fed;
ghost use Rattle.std.specs.Ordering.{nat_cmp};
ghost use Rattle.std.specs.List.{list_all, AllPass};
ghost use Rattle.std.specs.Str.{chars};
ghost use Rattle.unicode_ident.specs.Ident.{is_xid_continue};
ghost use Rattle.fc_base.specs.Texts.{begins_name, spells_name, is_name, is_name_byte};

use crate::label::Label;
use crate::text_value::TextValue;
use std::alloc::{AllocError, Global};
use std::cmp::Ordering;
use std::hash::{Hash, Hasher};
use std::marker::Model;
use thiserror::Error;

/// A name of an object or a property: 1 to 64 bytes, an XID start character or `_` and then XID
/// continue characters (Unicode Standard Annex 31). It is seen as the list of its bytes.
#[derive(Debug, Drop)]
pub struct Name {
    text: String,
}

impl Model for Name {
    ghost use Rattle.std.specs.Prelude.{List, ℕ, IsTrue, string_bytes};
    ghost use Rattle.fc_base.specs.Texts.{is_name};

    ghost Value = { List ℕ };

    ghost view = { λ n. string_bytes n.text };

    ghost invariant = { λ n. IsTrue (is_name (string_bytes n.text)) };
}

/// Why a text was not read as a name.
#[derive(Debug, Drop, Error)]
pub enum NameFault {
    /// It is not 1 to 64 bytes, an XID start character or `_` and then XID continue characters.
    #[error("not a name")]
    BadName,
    #[error("out of memory")]
    Memory(AllocError),
}

/// The most bytes that a name has.
const MOST_BYTES: usize = 64;

/// Whether a name may begin with the character.
fn begins_name(character: char) -> bool
    ensures { result ≡ begins_name character }
{
    unicode_ident::is_xid_start(character) || character == '_'
}

/// Whether each character may go on in a name.
fn all_continue(text: &str) -> bool
    ensures { result ≡ list_all is_xid_continue (chars text.now) }
{
    text.chars().all(unicode_ident::is_xid_continue)
}

/// Whether the first character may begin a name and each further one go on in it.
fn spells_name(text: &str) -> bool
    ensures { result ≡ spells_name (chars text.now) }
{
    let mut characters = text.chars();
    match characters.next() {
        Some(first) => begins_name(first) && all_continue(characters.as_str()),
        None => false,
    }
}

impl Name {
    /// Whether the text is a name: 1 to 64 bytes, an XID start character or `_` and then XID
    /// continue characters (Unicode Standard Annex 31).
    pub fn is_name(text: &str) -> bool
        ensures value { result ≡ is_name text.now }
        ensures nonempty { IsTrue result → 0 < length text.now }
        ensures bytes { IsTrue result → AllPass is_name_byte text.now }
    {
        text.len() <= MOST_BYTES && spells_name(text)
    }

    /// Reads a name. BadName comes exactly where the text is none.
    pub fn read(alloc: Global, text: &str) -> Result<Name, NameFault>
        ensures found { IfOk result (λ name. (name ≡ text.now) × IsTrue (is_name text.now)) }
        ensures refused { IsErrOf result NameFault.BadName ↔ (is_name text.now ≡ false) }
    {
        if !Name::is_name(text) {
            return Err(NameFault::BadName);
        }
        let text = String::from_str(alloc, text).map_err(NameFault::Memory)?;
        Ok(Name { text })
    }

    /// An equal name.
    pub fn copy(&self, alloc: Global) -> Result<Name, AllocError>
        ensures { IfOk result (λ name. name ≡ self.now) }
    {
        let text = String::from_str(alloc, self.text.as_str())?;
        Ok(Name { text })
    }

    /// The label with the same text.
    #[tactic(auto, using(crate::proofs::NameTexts::name_is_label))]
    pub fn to_label(&self, alloc: Global) -> Result<Label, AllocError>
        ensures { IfOk result (λ label. label ≡ self.now) }
    {
        let text = String::from_str(alloc, self.as_str())?;
        Ok(Label::of(text))
    }

    /// The text value with the same text.
    #[tactic(auto, using(crate::proofs::NameTexts::name_length, crate::proofs::NameTexts::name_text_bytes))]
    pub fn to_text_value(&self, alloc: Global) -> Result<TextValue, AllocError>
        ensures { IfOk result (λ value. value ≡ self.now) }
    {
        let text = String::from_str(alloc, self.as_str())?;
        Ok(TextValue::of(text))
    }

    /// The name as text.
    pub fn as_str(&self) -> &str
        ensures text { result.now ≡ self.now }
        ensures name { IsTrue (is_name self.now) }
    {
        self.text.as_str()
    }
}

impl PartialEq for Name {
    ghost eq = { pointwise nat_eq };

    ghost laws = { partial_equiv_from_equiv nat_list_eq_equiv };

    fn eq(&self, other: &Name) -> bool {
        self.as_str() == other.as_str()
    }
}

impl Eq for Name {
    ghost laws = { nat_list_eq_equiv };
}

impl Hash for Name {
    ghost hash_input = { fed.str };

    ghost respects_eq = { Prim.search (hashing, rules) };

    fn hash<H: Hasher>(&self, state: &mut H) {
        self.as_str().hash(state);
    }
}

impl PartialOrd for Name {
    ghost partial_cmp = { λ a b. Some (slice_cmp nat_cmp a b) };

    ghost laws = { texts_po };

    fn partial_cmp(&self, other: &Name) -> Option<Ordering> {
        Some(self.cmp(other))
    }
}

impl Ord for Name {
    ghost cmp = { slice_cmp nat_cmp };

    ghost total = { nat_list_cmp_total };

    ghost matches_partial_cmp = { λ a b. refl };

    ghost matches_eq = { texts_ties };

    fn cmp(&self, other: &Name) -> Ordering {
        self.as_str().cmp(other.as_str())
    }
}
