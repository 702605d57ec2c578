use expr_tree::Expr;
use property_types::Value;

/// What stands in a slot that can be written: a value of its own, or the expression to which the
/// slot is bound.
#[derive(Drop)]
pub enum Content {
    Own(Value),
    Bound(Expr),
}
