ghost use Rattle.std.specs.Prelude.{◌≡◌, ◌<◌, ◌≤◌, length, OnOk};
ghost use Rattle.expr_grammar.specs.Descent as d;
ghost use Rattle.expr_grammar.specs.Reading.{Gives};
ghost use Rattle.expr_tokens.specs.declared.sign.Sign.TheVariants as sign;

use crate::no_tree::NoTree;
use crate::parser::Parser;
use expr_tokens::{Sign, Token};
use fc_base::Name;
use object_paths::{Component, Owner, Path, SlotName};

impl Parser<'_> {
    /// The last name of a component of the group.
    fn component_part(&mut self, group: &Name) -> Result<Component, NoTree>
        ensures read { Gives result self.new.tokens.now (d.part_of group.now (d.name_in_front self.old.tokens.now)) }
        ensures shorter { OnOk result (length self.new.tokens.now < length self.old.tokens.now) }
    {
        let part = self.name()?;
        match Component::named(group.as_str(), part.as_str()) {
            Some(component) => Ok(component),
            None => Err(NoTree::Syntax),
        }
    }

    /// A component of the placement that is named in front of the point.
    fn component(&mut self) -> Result<Component, NoTree>
        ensures read { Gives result self.new.tokens.now (d.component_of_group (d.name_in_front self.old.tokens.now)) }
        ensures shorter { OnOk result (length self.new.tokens.now < length self.old.tokens.now) }
    {
        let group = self.name()?;
        if !self.skip(Sign::Dot) {
            return Err(NoTree::Syntax);
        }
        self.component_part(&group)
    }

    /// A slot of the object whose point stands in front.
    pub(crate) fn slot(&mut self) -> Result<SlotName, NoTree>
        ensures read { Gives result self.new.tokens.now (d.slot_in_front self.old.tokens.now) }
        ensures shorter { OnOk result (length self.new.tokens.now < length self.old.tokens.now) }
    {
        match self.advance() {
            Some(Token::Marked(address)) => Ok(SlotName::Marked(*address)),
            Some(Token::Name(name)) => {
                let name = name.copy(self.alloc)?;
                self.slot_named(name)
            }
            _ => Err(NoTree::Syntax),
        }
    }

    /// A slot whose first name stands in front.
    fn slot_named(&mut self, name: Name) -> Result<SlotName, NoTree>
        ensures read { Gives result self.new.tokens.now
            (d.slot_behind_name name (d.behind_sign sign.Dot self.old.tokens.now) self.old.tokens.now) }
        ensures shorter { OnOk result (length self.new.tokens.now ≤ length self.old.tokens.now) }
    {
        if !self.skip(Sign::Dot) {
            return Ok(SlotName::Plain(name));
        }
        let part = self.component()?;
        Ok(SlotName::Component(name, part))
    }

    /// A path that begins with the name in front.
    pub(crate) fn path(&mut self, first: Name) -> Result<Path, NoTree>
        ensures read { Gives result self.new.tokens.now
            (d.named_path first (d.behind_sign sign.Dot self.old.tokens.now) self.old.tokens.now) }
        ensures shorter { OnOk result (length self.new.tokens.now ≤ length self.old.tokens.now) }
    {
        if self.skip(Sign::Dot) {
            return self.behind_owner(first);
        }
        Ok(Path {
            owner: Owner::Here,
            slot: SlotName::Plain(first),
        })
    }

    /// What follows the first name of a path and a point.
    fn behind_owner(&mut self, first: Name) -> Result<Path, NoTree>
        ensures read { Gives result self.new.tokens.now (d.behind_owner first self.old.tokens.now) }
        ensures shorter { OnOk result (length self.new.tokens.now < length self.old.tokens.now) }
    {
        match self.advance() {
            Some(Token::Marked(address)) => Ok(Path {
                owner: Owner::ByName(first),
                slot: SlotName::Marked(*address),
            }),
            Some(Token::Name(second)) => {
                let second = second.copy(self.alloc)?;
                self.behind_second(first, second)
            }
            _ => Err(NoTree::Syntax),
        }
    }

    /// What follows the first two names of a path.
    fn behind_second(&mut self, first: Name, second: Name) -> Result<Path, NoTree>
        ensures read { Gives result self.new.tokens.now
            (d.behind_second_name first second (d.behind_sign sign.Dot self.old.tokens.now) self.old.tokens.now) }
        ensures shorter { OnOk result (length self.new.tokens.now ≤ length self.old.tokens.now) }
    {
        if !self.skip(Sign::Dot) {
            return Ok(Path {
                owner: Owner::ByName(first),
                slot: SlotName::Plain(second),
            });
        }
        let third = self.name()?;
        self.behind_third(first, second, third)
    }

    /// What follows the first three names of a path: they are a component of the object itself, or
    /// with a fourth one that of an owner.
    fn behind_third(&mut self, first: Name, second: Name, third: Name) -> Result<Path, NoTree>
        ensures read { Gives result self.new.tokens.now
            (d.behind_third_name first second third (d.behind_sign sign.Dot self.old.tokens.now) self.old.tokens.now) }
        ensures shorter { OnOk result (length self.new.tokens.now ≤ length self.old.tokens.now) }
    {
        if self.skip(Sign::Dot) {
            let part = self.component_part(&third)?;
            return Ok(Path {
                owner: Owner::ByName(first),
                slot: SlotName::Component(second, part),
            });
        }
        match Component::named(second.as_str(), third.as_str()) {
            Some(part) => Ok(Path {
                owner: Owner::Here,
                slot: SlotName::Component(first, part),
            }),
            None => Err(NoTree::Syntax),
        }
    }
}
