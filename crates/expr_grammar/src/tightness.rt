//! The precedence of the operators in a printed form: where brackets are needed.
ghost use Rattle.std.specs.Prelude.{◌≡◌};
ghost use Rattle.expr_grammar.specs.Grammar.{binary_level, right_level};
ghost use Rattle.expr_grammar.specs.Printed.{tightness, level_of, fits, fits_as_base};
ghost use Rattle.expr_grammar.specs.PrintingLevels.{level};

use expr_tree::{BinaryOp, Expr, Node};

/// How tightly a form holds its parts together: the levels of the grammar, the loosest first.
#[derive(Clone, Copy)]
pub(crate) enum Tightness {
    Expression,
    Comparison,
    Sum,
    Term,
    Unary,
    Powers,
    Primary,
}

impl Tightness {
    /// The number of looser levels.
    pub(crate) fn rank(self) -> u8
        ensures { result ≡ tightness (level self) }
    {
        self as u8
    }
}

/// The level of an operation, and of its left operand.
pub(crate) fn level_of_operation(op: BinaryOp) -> Tightness
    ensures { level result ≡ binary_level op }
{
    match op {
        BinaryOp::Plus | BinaryOp::Minus => Tightness::Sum,
        BinaryOp::Times | BinaryOp::Over | BinaryOp::Modulo => Tightness::Term,
    }
}

/// The level of an operation's right operand.
pub(crate) fn level_of_right(op: BinaryOp) -> Tightness
    ensures { level result ≡ right_level op }
{
    match op {
        BinaryOp::Plus | BinaryOp::Minus => Tightness::Term,
        BinaryOp::Times | BinaryOp::Over | BinaryOp::Modulo => Tightness::Unary,
    }
}

/// The level of the form at the top of an expression.
fn level_of(tree: &Expr) -> Tightness
    ensures { level result ≡ level_of tree.now }
{
    match &tree.node {
        Node::Conditional(..) => Tightness::Expression,
        Node::Compare(..) => Tightness::Comparison,
        Node::Binary(op, ..) => level_of_operation(*op),
        Node::Negate(_) => Tightness::Unary,
        Node::Power(..) => Tightness::Powers,
        _ => Tightness::Primary,
    }
}

/// Whether the expression may stand at the level without brackets.
pub(crate) fn fits(place: Tightness, tree: &Expr) -> bool
    ensures { result ≡ fits (level place) tree.now }
{
    place.rank() <= level_of(tree).rank()
}

/// Whether the expression may be the base of a power without brackets.
pub(crate) fn fits_as_base(tree: &Expr) -> bool
    ensures { result ≡ fits_as_base tree.now }
{
    match &tree.node {
        Node::Literal(_, Some(_)) => false,
        _ => fits(Tightness::Powers, tree),
    }
}
