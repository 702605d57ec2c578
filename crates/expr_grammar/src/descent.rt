//! From tokens to trees. The precedence of the operators is decided here: each level of the grammar
//! is a method, which reads its operands by the method of the next tighter level.
ghost use Rattle.std.specs.Prelude.{◌≡◌, ◌<◌, ◌≤◌, length, OnOk};
ghost use Rattle.expr_grammar.specs.Descent as d;
ghost use Rattle.expr_grammar.specs.Grammar.{expression, comparison, sum, term, unary, powers, primary};
ghost use Rattle.expr_tree.specs.NodesAsTrees.{arguments_of};
ghost use Rattle.expr_grammar.specs.Reading.{Gives, GivesBy, GivesWhole, arms_in_front, raised_in_front, modulo_in_front, aggregate_in_front, argument_in_front};
ghost use Rattle.expr_tokens.specs.declared.sign.Sign.TheVariants as sign;

use crate::no_tree::NoTree;
use crate::parser::Parser;
use expr_tokens::{Sign, Token};
use expr_tree::{AggregateOp, Argument, Expr, FunctionOp, Node};
use fc_base::Name;
use object_paths::{Owner, Path, SlotName};
use std::alloc::Global;

impl Parser<'_> {
    /// A condition with two arms, or a comparison.
    #[cycle(descent)]
    #[tactic(auto, using(crate::proofs::LevelEquations::expression_is, crate::proofs::LevelEquations::arms_are))]
    fn expression(&mut self) -> Result<Expr, NoTree>
        ensures read { Gives result self.new.tokens.now (d.parsed expression self.old.tokens.now) }
        ensures shorter { OnOk result (length self.new.tokens.now < length self.old.tokens.now) }
    {
        let condition = self.comparison()?;
        if !self.skip(Sign::Question) {
            return Ok(condition);
        }
        let (first, second) = self.arms()?;
        Ok(Expr::conditional(self.alloc, condition, first, second)?)
    }

    /// What follows a condition and `?`: both arms, with `:` between them.
    #[cycle(descent)]
    fn arms(&mut self) -> Result<(Expr, Expr), NoTree>
        ensures read { Gives result self.new.tokens.now (arms_in_front self.old.tokens.now) }
        ensures shorter { OnOk result (length self.new.tokens.now < length self.old.tokens.now) }
    {
        let first = self.expression()?;
        if !self.skip(Sign::Colon) {
            return Err(NoTree::Syntax);
        }
        let second = self.expression()?;
        Ok((first, second))
    }

    /// Two sums compared, or a sum.
    #[cycle(descent)]
    #[tactic(auto, using(crate::proofs::LevelEquations::comparison_is))]
    fn comparison(&mut self) -> Result<Expr, NoTree>
        ensures read { Gives result self.new.tokens.now (d.parsed comparison self.old.tokens.now) }
        ensures shorter { OnOk result (length self.new.tokens.now < length self.old.tokens.now) }
    {
        let left = self.sum()?;
        match self.comparison_sign() {
            None => Ok(left),
            Some(op) => {
                let right = self.sum()?;
                Ok(Expr::compare(self.alloc, op, left, right)?)
            }
        }
    }

    /// Terms with `+` and `-` between them.
    #[cycle(descent)]
    #[tactic(auto, using(crate::proofs::LevelEquations::sum_is, crate::proofs::LevelEquations::operands_is))]
    fn sum(&mut self) -> Result<Expr, NoTree>
        ensures read { Gives result self.new.tokens.now (d.parsed sum self.old.tokens.now) }
        ensures shorter { OnOk result (length self.new.tokens.now < length self.old.tokens.now) }
    {
        let mut left = self.term()?;
        while let Some(op) = self.sum_sign() {
            let right = self.term()?;
            left = Expr::binary(self.alloc, op, left, right)?;
        }
        Ok(left)
    }

    /// Operands with `*`, `/` and `%` between them.
    #[cycle(descent)]
    #[tactic(auto, using(crate::proofs::LevelEquations::term_is, crate::proofs::LevelEquations::operands_is))]
    fn term(&mut self) -> Result<Expr, NoTree>
        ensures read { Gives result self.new.tokens.now (d.parsed term self.old.tokens.now) }
        ensures shorter { OnOk result (length self.new.tokens.now < length self.old.tokens.now) }
    {
        let mut left = self.unary()?;
        while let Some(op) = self.product_sign() {
            let right = self.unary()?;
            left = Expr::binary(self.alloc, op, left, right)?;
        }
        Ok(left)
    }

    /// A minus and its operand, or a power.
    #[cycle(descent)]
    #[tactic(auto, using(crate::proofs::LevelEquations::unary_is))]
    fn unary(&mut self) -> Result<Expr, NoTree>
        ensures read { Gives result self.new.tokens.now (d.parsed unary self.old.tokens.now) }
        ensures shorter { OnOk result (length self.new.tokens.now < length self.old.tokens.now) }
    {
        if !self.skip(Sign::Minus) {
            return self.power();
        }
        let operand = self.unary()?;
        Ok(operand.negated(self.alloc)?)
    }

    /// A base with its exponents.
    #[cycle(descent)]
    #[tactic(auto, using(crate::proofs::LevelEquations::powers_is))]
    fn power(&mut self) -> Result<Expr, NoTree>
        ensures read { Gives result self.new.tokens.now (d.parsed powers self.old.tokens.now) }
        ensures shorter { OnOk result (length self.new.tokens.now < length self.old.tokens.now) }
    {
        let base = self.primary()?;
        self.exponents(base)
    }

    /// The powers of the base: further exponents behind it, from the left.
    #[tactic(auto, using(crate::proofs::LevelEquations::exponents_is, crate::proofs::LevelEquations::exponents_are))]
    fn exponents(&mut self, base: Expr) -> Result<Expr, NoTree>
        ensures read { Gives result self.new.tokens.now (d.parsed_exponents base self.old.tokens.now) }
        ensures shorter { OnOk result (length self.new.tokens.now ≤ length self.old.tokens.now) }
    {
        let mut power = base;
        while self.skip(Sign::Caret) {
            power = self.raised(power)?;
        }
        Ok(power)
    }

    /// The power of the base by the exponent that comes next.
    fn raised(&mut self, base: Expr) -> Result<Expr, NoTree>
        ensures read { Gives result self.new.tokens.now (raised_in_front base self.old.tokens.now) }
        ensures shorter { OnOk result (length self.new.tokens.now < length self.old.tokens.now) }
    {
        let exponent = self.exponent()?;
        Ok(Expr::power(self.alloc, base, exponent)?)
    }

    /// What stands without an operation round it.
    #[cycle(descent)]
    #[tactic(auto, using(crate::proofs::LevelEquations::primary_is))]
    fn primary(&mut self) -> Result<Expr, NoTree>
        ensures read { Gives result self.new.tokens.now (d.parsed primary self.old.tokens.now) }
        ensures shorter { OnOk result (length self.new.tokens.now < length self.old.tokens.now) }
    {
        match self.advance() {
            None => Err(NoTree::Syntax),
            Some(Token::Numeral(amount, _)) => self.numeral(*amount),
            Some(Token::Unit(name)) => Ok(Expr {
                node: Node::UnitOne(name.copy(self.alloc)?),
            }),
            Some(Token::Flag(flag)) => Ok(Expr {
                node: Node::Flag(*flag),
            }),
            Some(Token::Name(name)) => {
                let name = name.copy(self.alloc)?;
                Ok(Expr::path(self.path(name)?))
            }
            Some(Token::Function(name)) => self.call(name),
            Some(Token::Marked(address)) => Ok(Expr::path(Path {
                owner: Owner::Here,
                slot: SlotName::Marked(*address),
            })),
            Some(Token::Text(text)) => self.text_or_label(text),
            Some(Token::Sign(Sign::Open)) => self.bracketed(),
            Some(Token::Sign(Sign::Dot)) => Ok(Expr::path(Path {
                owner: Owner::Here,
                slot: self.slot()?,
            })),
            Some(Token::Sign(_)) => Err(NoTree::Syntax),
        }
    }

    /// An expression and a closing bracket.
    #[cycle(descent)]
    fn bracketed(&mut self) -> Result<Expr, NoTree>
        ensures read { Gives result self.new.tokens.now (d.with_bracket (d.parsed expression self.old.tokens.now)) }
        ensures shorter { OnOk result (length self.new.tokens.now < length self.old.tokens.now) }
    {
        let tree = self.expression()?;
        if self.skip(Sign::Close) {
            Ok(tree)
        } else {
            Err(NoTree::Syntax)
        }
    }

    /// The call of a function, behind its name.
    #[cycle(descent)]
    fn call(&mut self, name: &Name) -> Result<Expr, NoTree>
        ensures read { Gives result self.new.tokens.now
            (d.call d.whole_readers name.now (d.behind_sign sign.Open self.old.tokens.now)) }
        ensures shorter { OnOk result (length self.new.tokens.now < length self.old.tokens.now) }
    {
        if !self.skip(Sign::Open) {
            return Err(NoTree::Syntax);
        }
        if let Some(op) = FunctionOp::named(name.as_str()) {
            let operand = self.bracketed()?;
            return Ok(Expr::function(self.alloc, op, operand)?);
        }
        if name.as_str() == "mod" {
            return self.modulo();
        }
        match AggregateOp::named(name.as_str()) {
            Some(op) => self.aggregate(op),
            None => Err(NoTree::Syntax),
        }
    }

    /// The two arguments of a remainder, and a closing bracket.
    #[cycle(descent)]
    fn modulo(&mut self) -> Result<Expr, NoTree>
        ensures read { Gives result self.new.tokens.now (modulo_in_front self.old.tokens.now) }
        ensures shorter { OnOk result (length self.new.tokens.now < length self.old.tokens.now) }
    {
        let left = self.expression()?;
        if !self.skip_separator() {
            return Err(NoTree::Syntax);
        }
        let right = self.bracketed()?;
        Ok(Expr::modulo(self.alloc, left, right)?)
    }

    /// The arguments of a function of many numbers, and a closing bracket.
    #[cycle(descent)]
    fn aggregate(&mut self, op: AggregateOp) -> Result<Expr, NoTree>
        ensures read { Gives result self.new.tokens.now (aggregate_in_front op self.old.tokens.now) }
        ensures shorter { OnOk result (length self.new.tokens.now < length self.old.tokens.now) }
    {
        let all = self.arguments()?;
        if self.skip(Sign::Close) {
            Ok(Expr::aggregate(op, all))
        } else {
            Err(NoTree::Syntax)
        }
    }

    /// Arguments with `;` or `,` between them, one at least.
    #[cycle(descent)]
    #[tactic(auto, using(crate::proofs::ArgumentLemmas::argument_none))]
    fn arguments(&mut self) -> Result<Vec<Argument>, NoTree>
        ensures read { GivesBy (λ all. arguments_of all.items) result self.new.tokens.now (d.parsed_arguments self.old.tokens.now) }
        ensures shorter { OnOk result (length self.new.tokens.now < length self.old.tokens.now) }
    {
        let mut all = Vec::new(self.alloc);
        loop {
            let argument = self.argument()?;
            all.push(argument)?;
            if !self.skip_separator() {
                return Ok(all);
            }
        }
    }

    /// An area, or else an expression.
    #[cycle(descent)]
    fn argument(&mut self) -> Result<Argument, NoTree>
        ensures read { Gives result self.new.tokens.now (argument_in_front self.old.tokens.now) }
        ensures shorter { OnOk result (length self.new.tokens.now < length self.old.tokens.now) }
    {
        match self.area() {
            Some(area) => Ok(Argument::Cells(area)),
            None => Ok(Argument::Tree(self.expression()?)),
        }
    }
}

/// Reads the expression that the tokens are, all of them. Syntax comes exactly where they are none.
pub(crate) fn tree(alloc: Global, tokens: &[Token]) -> Result<Expr, NoTree>
    ensures { GivesWhole result tokens.now }
{
    let mut parser = Parser { alloc, tokens };
    let tree = parser.expression()?;
    match parser.tokens {
        [] => Ok(tree),
        _ => Err(NoTree::Syntax),
    }
}
