ghost use Rattle.std.specs.Prelude.{◌≡◌, ◌++◌, List, IfOk, OnOk, codes, string_bytes};
ghost use Rattle.std.specs.Fmt.{signed_decimal};
ghost use Rattle.fc_base.specs.Places.{address_text};
ghost use Rattle.quantities.specs.Texts.{decimal_text};
ghost use Rattle.object_paths.specs.PathTexts.{path_text};
ghost use Rattle.expr_grammar.specs.Grammar.{binary_sign, compare_sign};
ghost use Rattle.expr_grammar.specs.Printed.{exponent_text, measure_text, area_text, bracketed, spaced, printed, printed_arguments};
ghost use Rattle.expr_tree.specs.NodesAsTrees.{arguments_of};
ghost use Rattle.expr_grammar.specs.Parse.{IsLexed, Parses};
ghost use Rattle.expr_tokens.specs.Signs.{sign_text};
ghost use Rattle.expr_tree.specs.Spelled.{IsSpelled};
ghost use Rattle.expr_tree.specs.Tree.{binary, compare, conditional, function, modulo};
ghost use Rattle.expr_tokens.specs.declared.token.Placed.{Placed};

use crate::tightness::{Tightness, fits, fits_as_base, level_of_operation, level_of_right};
use arrayvec::ArrayString;
use expr_tree::{Argument, BinaryOp, CompareOp, Expr, FunctionOp, Node, UnitPower};
use fc_base::{Address, Area, TextValue};
use object_paths::Path;
use quantities::Amount;
use std::alloc::{AllocError, Global};

/// The text of an operation's sign.
fn operation_text(op: BinaryOp) -> &'static str
    ensures { result.now ≡ sign_text (binary_sign op) }
{
    match op {
        BinaryOp::Plus => "+",
        BinaryOp::Minus => "-",
        BinaryOp::Times => "*",
        BinaryOp::Over => "/",
        BinaryOp::Modulo => "%",
    }
}

/// The text of a comparison's sign.
fn comparison_text(op: CompareOp) -> &'static str
    ensures { result.now ≡ sign_text (compare_sign op) }
{
    match op {
        CompareOp::Equal => "==",
        CompareOp::NotEqual => "!=",
        CompareOp::Less => "<",
        CompareOp::LessOrEqual => "<=",
        CompareOp::Greater => ">",
        CompareOp::GreaterOrEqual => ">=",
    }
}

/// Writes `^` and an exponent.
fn push_raised(exponent: i8, out: &mut String) -> Result<(), AllocError>
    ensures { OnOk result (string_bytes out.new ≡ string_bytes out.old ++ (codes "^" ++ signed_decimal exponent)) }
{
    write!(out, "^{exponent}")
}

/// Writes `^` and an exponent, unless it is 1.
fn push_exponent(exponent: i8, out: &mut String) -> Result<(), AllocError>
    ensures { OnOk result (string_bytes out.new ≡ string_bytes out.old ++ exponent_text exponent) }
{
    if exponent == 1 {
        return Ok(());
    }
    push_raised(exponent, out)
}

/// Writes a sign with a space on both sides.
fn push_spaced(sign: &str, out: &mut String) -> Result<(), AllocError>
    ensures { OnOk result (string_bytes out.new ≡ string_bytes out.old ++ spaced sign.now) }
{
    out.push_str(" ")?;
    out.push_str(sign)?;
    out.push_str(" ")
}

/// Writes a number, and its unit behind a space.
fn push_literal(
    amount: &Amount,
    unit: &Option<UnitPower>,
    out: &mut String,
) -> Result<(), AllocError>
    ensures { OnOk result (string_bytes out.new ≡ string_bytes out.old ++ (decimal_text amount.now ++ measure_text unit.now)) }
{
    let mut number = ArrayString::new();
    amount.write_decimal(&mut number);
    out.push_str(number.as_str())?;
    if let Some(unit) = unit {
        out.push_str(" ")?;
        out.push_str(unit.unit.as_str())?;
        push_exponent(unit.exponent, out)?;
    }
    Ok(())
}

/// Writes a text between `<<` and `>>`.
fn push_quoted(text: &TextValue, out: &mut String) -> Result<(), AllocError>
    ensures { OnOk result (string_bytes out.new ≡ string_bytes out.old ++ (codes "<<" ++ (text.now ++ codes ">>"))) }
{
    out.push_str("<<")?;
    out.push_str(text.as_str())?;
    out.push_str(">>")
}

/// Writes a path.
fn push_path(alloc: Global, path: &Path, out: &mut String) -> Result<(), AllocError>
    ensures { OnOk result (string_bytes out.new ≡ string_bytes out.old ++ path_text path.now) }
{
    let text = path.write(alloc)?;
    out.push_str(text.as_str())
}

/// Writes an address.
fn push_address(address: &Address, out: &mut String) -> Result<(), AllocError>
    ensures { OnOk result (string_bytes out.new ≡ string_bytes out.old ++ address_text address.now) }
{
    let mut text = ArrayString::new();
    address.write(&mut text);
    out.push_str(text.as_str())
}

/// Writes an area by its corners.
fn push_area(area: &Area, out: &mut String) -> Result<(), AllocError>
    ensures { OnOk result (string_bytes out.new ≡ string_bytes out.old ++ area_text area.now) }
{
    push_address(&area.from, out)?;
    out.push_str(":")?;
    push_address(&area.to, out)
}

/// Writes an expression, in brackets where it may not stand as it is.
#[cycle(printing)]
fn push_in_place(
    alloc: Global,
    as_it_is: bool,
    tree: &Expr,
    out: &mut String,
) -> Result<(), AllocError>
    ensures { OnOk result (string_bytes out.new ≡ string_bytes out.old ++ bracketed as_it_is (printed tree.now)) }
{
    if as_it_is {
        return push_tree(alloc, tree, out);
    }
    out.push_str("(")?;
    push_tree(alloc, tree, out)?;
    out.push_str(")")
}

/// Writes arguments with `; ` between them.
#[cycle(printing)]
#[tactic(auto, unfolding(crate::specs::Printed::printed, crate::specs::Printed::printed_arguments))]
fn push_arguments(alloc: Global, all: &[Argument], out: &mut String) -> Result<(), AllocError>
    ensures { OnOk result (string_bytes out.new ≡ string_bytes out.old ++ printed_arguments (arguments_of all.now)) }
{
    let mut first = true;
    for argument in all {
        if !first {
            out.push_str("; ")?;
        }
        first = false;
        match argument {
            Argument::Tree(tree) => push_tree(alloc, tree, out)?,
            Argument::Cells(area) => push_area(area, out)?,
        }
    }
    Ok(())
}

/// Writes a call of a function of one number.
#[cycle(printing)]
#[tactic(auto, unfolding(crate::specs::Printed::printed))]
fn push_function(
    alloc: Global,
    op: FunctionOp,
    operand: &Expr,
    out: &mut String,
) -> Result<(), AllocError>
    ensures { OnOk result (string_bytes out.new ≡ string_bytes out.old ++ printed (function op operand.now)) }
{
    out.push_str(op.name())?;
    push_in_place(alloc, false, operand, out)
}

/// Writes a remainder.
#[cycle(printing)]
#[tactic(auto, unfolding(crate::specs::Printed::printed))]
fn push_modulo(alloc: Global, left: &Expr, right: &Expr, out: &mut String) -> Result<(), AllocError>
    ensures { OnOk result (string_bytes out.new ≡ string_bytes out.old ++ printed (modulo left.now right.now)) }
{
    out.push_str("mod(")?;
    push_tree(alloc, left, out)?;
    out.push_str("; ")?;
    push_tree(alloc, right, out)?;
    out.push_str(")")
}

/// Writes a condition and what stands behind it.
#[cycle(printing)]
#[tactic(auto, unfolding(crate::specs::Printed::printed))]
fn push_conditional(
    alloc: Global,
    condition: &Expr,
    chosen: &Expr,
    other: &Expr,
    out: &mut String,
) -> Result<(), AllocError>
    ensures { OnOk result (string_bytes out.new ≡ string_bytes out.old ++ printed (conditional condition.now chosen.now other.now)) }
{
    push_in_place(
        alloc,
        fits(Tightness::Comparison, condition),
        condition,
        out,
    )?;
    out.push_str(" ? ")?;
    push_tree(alloc, chosen, out)?;
    out.push_str(" : ")?;
    push_tree(alloc, other, out)
}

/// Writes an operation between two operands.
#[cycle(printing)]
#[tactic(auto, unfolding(crate::specs::Printed::printed))]
fn push_binary(
    alloc: Global,
    op: BinaryOp,
    left: &Expr,
    right: &Expr,
    out: &mut String,
) -> Result<(), AllocError>
    ensures { OnOk result (string_bytes out.new ≡ string_bytes out.old ++ printed (binary op left.now right.now)) }
{
    push_in_place(alloc, fits(level_of_operation(op), left), left, out)?;
    push_spaced(operation_text(op), out)?;
    push_in_place(alloc, fits(level_of_right(op), right), right, out)
}

/// Writes a comparison.
#[cycle(printing)]
#[tactic(auto, unfolding(crate::specs::Printed::printed))]
fn push_comparison(
    alloc: Global,
    op: CompareOp,
    left: &Expr,
    right: &Expr,
    out: &mut String,
) -> Result<(), AllocError>
    ensures { OnOk result (string_bytes out.new ≡ string_bytes out.old ++ printed (compare op left.now right.now)) }
{
    push_in_place(alloc, fits(Tightness::Sum, left), left, out)?;
    push_spaced(comparison_text(op), out)?;
    push_in_place(alloc, fits(Tightness::Sum, right), right, out)
}

/// Writes an expression.
#[cycle(printing)]
#[tactic(auto, unfolding(crate::specs::Printed::printed))]
fn push_tree(alloc: Global, tree: &Expr, out: &mut String) -> Result<(), AllocError>
    ensures { OnOk result (string_bytes out.new ≡ string_bytes out.old ++ printed tree.now) }
{
    match &tree.node {
        Node::Literal(amount, unit) => push_literal(amount, unit, out),
        Node::UnitOne(name) => out.push_str(name.as_str()),
        Node::Flag(flag) => out.push_str(if *flag { "true" } else { "false" }),
        Node::Text(text) => push_quoted(text, out),
        Node::Path(path) => push_path(alloc, path, out),
        Node::Negate(operand) => {
            out.push_str("-")?;
            push_in_place(alloc, fits(Tightness::Unary, operand), operand, out)
        }
        Node::Binary(op, left, right) => push_binary(alloc, *op, left, right, out),
        Node::Power(base, exponent) => {
            push_in_place(alloc, fits_as_base(base), base, out)?;
            push_raised(*exponent, out)
        }
        Node::Compare(op, left, right) => push_comparison(alloc, *op, left, right, out),
        Node::Conditional(condition, chosen, other) => {
            push_conditional(alloc, condition, chosen, other, out)
        }
        Node::Function(op, operand) => push_function(alloc, *op, operand, out),
        Node::Modulo(left, right) => push_modulo(alloc, left, right, out),
        Node::Aggregate(op, all) => {
            out.push_str(op.name())?;
            out.push_str("(")?;
            push_arguments(alloc, all.as_slice(), out)?;
            out.push_str(")")
        }
    }
}

/// The printed form of an expression: binary signs, signs of comparison, `?` and `:` have a space
/// on both sides, arguments are joined by `; `, and brackets stand only where the tree needs them
/// and round a literal with a unit under `^`. Where the leaves of the tree can be spelled and the
/// text is within the limits on tokens and brackets, it is read as the tree again. The cost grows with
/// the length of the printed form.
#[tactic(auto, using(crate::proofs::ReadBack::printed_is_read))]
pub fn print(alloc: Global, tree: &Expr) -> Result<String, AllocError>
    ensures text { IfOk result (λ text. string_bytes text ≡ printed tree.now) }
    ensures reads_back { IsSpelled tree.now → (xs : List Placed) → IsLexed (printed tree.now) xs → Parses (printed tree.now) tree.now }
{
    let mut text = String::new(alloc);
    push_tree(alloc, tree, &mut text)?;
    Ok(text)
}
