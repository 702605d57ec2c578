//! Laws on definitions, as contracts of functions that do nothing.

ghost use Rattle.std.specs.Prelude.{◌≡◌, ℕ, List, Some};
ghost use Rattle.fcxml_profile.specs.Items.{Item, item_at};
ghost use Rattle.fcxml_profile.specs.Spelled.{SpellsItem};

/// What stands in front of a text is found as an item exactly where it spells that one.
pub fn items_are_spelled()
    ensures read { (n : ℕ) (text : List ℕ) (item : Item) (rest : List ℕ) → SpellsItem n text item rest → item_at n text ≡ Some (item, rest) }
    ensures spelled { (n : ℕ) (text : List ℕ) (item : Item) (rest : List ℕ) → item_at n text ≡ Some (item, rest) → SpellsItem n text item rest }
{}
