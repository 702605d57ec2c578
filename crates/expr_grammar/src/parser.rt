ghost use Rattle.std.specs.Prelude.{◌≡◌, ◌<◌, ◌≤◌, length, option_copied, IsTrue, IfOk, IsErrOf, ◌↔◌, false, Some, OnOk, OnSome};
ghost use Rattle.std.specs.Option.{option_map};
ghost use Rattle.fc_base.specs.Texts.{is_label};
ghost use Rattle.expr_grammar.specs.Descent as d;
ghost use Rattle.expr_grammar.specs.Grammar as level;
ghost use Rattle.expr_grammar.specs.Reading.{Gives, Finds, Passes, Advances};
ghost use Rattle.expr_tokens.specs.declared.sign.Sign.TheVariants as sign;

use crate::no_tree::NoTree;
use expr_tokens::{Sign, Token};
use expr_tree::{BinaryOp, CompareOp, Expr, Node, UnitPower};
use fc_base::{Address, Area, Label, LabelFault, Name, TextValue};
use object_paths::{Owner, Path};
use quantities::Amount;
use std::alloc::Global;

/// The comparison that the sign stands for.
fn compare_of(sign: Sign) -> Option<CompareOp>
    ensures { result ≡ d.compare_of sign }
{
    match sign {
        Sign::Equal => Some(CompareOp::Equal),
        Sign::NotEqual => Some(CompareOp::NotEqual),
        Sign::Less => Some(CompareOp::Less),
        Sign::LessOrEqual => Some(CompareOp::LessOrEqual),
        Sign::Greater => Some(CompareOp::Greater),
        Sign::GreaterOrEqual => Some(CompareOp::GreaterOrEqual),
        _ => None,
    }
}

/// The operation between terms that the sign stands for.
fn sum_of(sign: Sign) -> Option<BinaryOp>
    ensures { result ≡ d.sum_of sign }
{
    match sign {
        Sign::Plus => Some(BinaryOp::Plus),
        Sign::Minus => Some(BinaryOp::Minus),
        _ => None,
    }
}

/// The operation between operands of a term that the sign stands for.
fn product_of(sign: Sign) -> Option<BinaryOp>
    ensures { result ≡ d.product_of sign }
{
    match sign {
        Sign::Asterisk => Some(BinaryOp::Times),
        Sign::Slash => Some(BinaryOp::Over),
        Sign::Percent => Some(BinaryOp::Modulo),
        _ => None,
    }
}

/// The text as a label.
fn label(alloc: Global, text: &TextValue) -> Result<Label, NoTree>
    ensures found { IfOk result (λ label. (label ≡ text.now) × IsTrue (is_label text.now)) }
    ensures refused { IsErrOf result NoTree.Syntax ↔ (is_label text.now ≡ false) }
{
    match Label::read(alloc, text.as_str()) {
        Ok(label) => Ok(label),
        Err(LabelFault::BadLabel) => Err(NoTree::Syntax),
        Err(LabelFault::Memory(error)) => Err(NoTree::Memory(error)),
    }
}

/// The place that the token names as a corner of an area.
fn corner(token: &Token) -> Option<Address>
    ensures { result ≡ d.corner_of token.now }
{
    match token {
        Token::Name(name) => Address::read(name.as_str()),
        Token::Marked(address) => Some(*address),
        _ => None,
    }
}

/// Whether an argument may end in front of the tokens.
fn argument_ends(rest: &[Token]) -> bool
    ensures { result ≡ d.argument_ends (d.sign_in_front rest.now) }
{
    matches!(
        rest,
        [Token::Sign(Sign::Semicolon | Sign::Comma | Sign::Close), ..]
    )
}

/// The area of the corners, where an argument may end behind it.
fn area_of(from: Address, to: Address, rest: &[Token]) -> Option<Area>
    ensures { d.area_of (Some from) (Some to) rest.now ≡ option_map (λ area. (area, rest.now)) result }
{
    if argument_ends(rest) {
        Area::of(from, to)
    } else {
        None
    }
}

/// A reader of trees: what is left of its tokens.
#[derive(Drop)]
pub(crate) struct Parser<'a> {
    pub(crate) alloc: Global,
    pub(crate) tokens: &'a [Token],
}

impl<'a> Parser<'a> {
    /// Goes past the first token.
    pub(crate) fn advance(&mut self) -> Option<&'a Token>
        ensures read { Advances (option_copied result) self.new.tokens.now self.old.tokens.now }
        ensures shorter { OnSome result (length self.new.tokens.now < length self.old.tokens.now) }
    {
        let (first, rest) = self.tokens.split_first()?;
        self.tokens = rest;
        Some(first)
    }

    /// Goes past the sign, where it comes next.
    pub(crate) fn skip(&mut self, sign: Sign) -> bool
        ensures read { Passes result self.new.tokens.now self.old.tokens.now (d.behind_sign sign self.old.tokens.now) }
        ensures shorter { IsTrue result → length self.new.tokens.now < length self.old.tokens.now }
    {
        match self.tokens {
            [Token::Sign(first), rest @ ..] if *first == sign => {
                self.tokens = rest;
                true
            }
            _ => false,
        }
    }

    /// Goes past a `;` or `,`, where one comes next.
    pub(crate) fn skip_separator(&mut self) -> bool
        ensures read { Passes result self.new.tokens.now self.old.tokens.now (d.behind_separator self.old.tokens.now) }
        ensures shorter { IsTrue result → length self.new.tokens.now < length self.old.tokens.now }
    {
        match self.tokens {
            [Token::Sign(Sign::Semicolon | Sign::Comma), rest @ ..] => {
                self.tokens = rest;
                true
            }
            _ => false,
        }
    }

    /// Goes past a sign that compares, where one comes next.
    pub(crate) fn comparison_sign(&mut self) -> Option<CompareOp>
        ensures read { Finds result self.new.tokens.now self.old.tokens.now (d.comparison_in_front self.old.tokens.now) }
        ensures shorter { OnSome result (length self.new.tokens.now < length self.old.tokens.now) }
    {
        let (op, rest) = match self.tokens {
            [Token::Sign(sign), rest @ ..] => (compare_of(*sign)?, rest),
            _ => return None,
        };
        self.tokens = rest;
        Some(op)
    }

    /// Goes past a `+` or `-`, where one comes next.
    pub(crate) fn sum_sign(&mut self) -> Option<BinaryOp>
        ensures read { Finds result self.new.tokens.now self.old.tokens.now (d.operation_in_front level.sum self.old.tokens.now) }
        ensures shorter { OnSome result (length self.new.tokens.now < length self.old.tokens.now) }
    {
        let (op, rest) = match self.tokens {
            [Token::Sign(sign), rest @ ..] => (sum_of(*sign)?, rest),
            _ => return None,
        };
        self.tokens = rest;
        Some(op)
    }

    /// Goes past a `*`, `/` or `%`, where one comes next.
    pub(crate) fn product_sign(&mut self) -> Option<BinaryOp>
        ensures read { Finds result self.new.tokens.now self.old.tokens.now (d.operation_in_front level.term self.old.tokens.now) }
        ensures shorter { OnSome result (length self.new.tokens.now < length self.old.tokens.now) }
    {
        let (op, rest) = match self.tokens {
            [Token::Sign(sign), rest @ ..] => (product_of(*sign)?, rest),
            _ => return None,
        };
        self.tokens = rest;
        Some(op)
    }

    /// Goes past a name.
    pub(crate) fn name(&mut self) -> Result<Name, NoTree>
        ensures read { Gives result self.new.tokens.now (d.name_in_front self.old.tokens.now) }
        ensures shorter { OnOk result (length self.new.tokens.now < length self.old.tokens.now) }
    {
        match self.advance() {
            Some(Token::Name(name)) => Ok(name.copy(self.alloc)?),
            _ => Err(NoTree::Syntax),
        }
    }

    /// The number that one or two digits write.
    pub(crate) fn digits(&mut self) -> Result<u8, NoTree>
        ensures read { Gives result self.new.tokens.now (d.digits_in_front self.old.tokens.now) }
        ensures shorter { OnOk result (length self.new.tokens.now < length self.old.tokens.now) }
    {
        match self.advance() {
            Some(Token::Numeral(_, Some(number))) if *number < 100 => Ok(*number),
            _ => Err(NoTree::Syntax),
        }
    }

    #[tactic(auto, unfolding(crate::specs::Descent::exponent_in_front))]
    /// An exponent: one or two digits, and a minus or none.
    pub(crate) fn exponent(&mut self) -> Result<i8, NoTree>
        ensures read { Gives result self.new.tokens.now (d.exponent_in_front self.old.tokens.now) }
        ensures shorter { OnOk result (length self.new.tokens.now < length self.old.tokens.now) }
    {
        if self.skip(Sign::Minus) {
            let digits = self.digits()?;
            return Ok(-(digits as i8));
        }
        let digits = self.digits()?;
        Ok(digits as i8)
    }

    /// A number, with the unit behind it or none.
    pub(crate) fn numeral(&mut self, amount: Amount) -> Result<Expr, NoTree>
        ensures read { Gives result self.new.tokens.now (d.numeral_behind amount self.old.tokens.now) }
        ensures shorter { OnOk result (length self.new.tokens.now ≤ length self.old.tokens.now) }
    {
        match self.tokens {
            [Token::Unit(name), rest @ ..] => {
                let unit = name.copy(self.alloc)?;
                self.tokens = rest;
                self.measure(amount, unit)
            }
            _ => Ok(Expr {
                node: Node::Literal(amount, None),
            }),
        }
    }

    /// A number with the unit, which may have an exponent behind it.
    fn measure(&mut self, amount: Amount, unit: Name) -> Result<Expr, NoTree>
        ensures read { Gives result self.new.tokens.now
            (d.measured amount unit (d.behind_sign sign.Caret self.old.tokens.now) self.old.tokens.now) }
        ensures shorter { OnOk result (length self.new.tokens.now ≤ length self.old.tokens.now) }
    {
        let exponent = if self.skip(Sign::Caret) {
            self.exponent()?
        } else {
            1
        };
        Ok(Expr {
            node: Node::Literal(amount, Some(UnitPower { unit, exponent })),
        })
    }

    /// A text; or with a point behind it a label, and the slot of its object.
    pub(crate) fn text_or_label(&mut self, text: &TextValue) -> Result<Expr, NoTree>
        ensures read { Gives result self.new.tokens.now
            (d.text_or_label text.now (d.behind_sign sign.Dot self.old.tokens.now) self.old.tokens.now) }
        ensures shorter { OnOk result (length self.new.tokens.now ≤ length self.old.tokens.now) }
    {
        if !self.skip(Sign::Dot) {
            let text = text.copy(self.alloc)?;
            return Ok(Expr {
                node: Node::Text(text),
            });
        }
        let label = label(self.alloc, text)?;
        let slot = self.slot()?;
        Ok(Expr::path(Path {
            owner: Owner::ByLabel(label),
            slot,
        }))
    }

    /// Goes past an area that is a whole argument, where one comes next.
    pub(crate) fn area(&mut self) -> Option<Area>
        ensures read { Finds result self.new.tokens.now self.old.tokens.now (d.area_in_front self.old.tokens.now) }
        ensures shorter { OnSome result (length self.new.tokens.now < length self.old.tokens.now) }
    {
        let (area, rest) = match self.tokens {
            [first, Token::Sign(Sign::Colon), second, rest @ ..] => {
                (area_of(corner(first)?, corner(second)?, rest)?, rest)
            }
            _ => return None,
        };
        self.tokens = rest;
        Some(area)
    }
}
