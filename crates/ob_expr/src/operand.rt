//! The kinds that operators take and make. An operator that is added gets its kinds here,
//! and in `specs/TypedTree`.

ghost use Rattle.std.specs.Prelude.{◌≡◌};
ghost use Rattle.ob_expr.specs.TypedTree.{operator_kind, prefix_kind, takes};

use crate::kind::Kind;
use ob_base::{Operator, Prefix};

/// The kind of a prefix's operand, and of what it makes.
pub(crate) fn prefix_kind(prefix: Prefix) -> Kind
    ensures { result ≡ prefix_kind prefix }
{
    match prefix {
        Prefix::Not => Kind::Bool,
        Prefix::Minus => Kind::Int,
    }
}

/// The kind of what an operator makes.
pub(crate) fn operator_kind(operator: Operator) -> Kind
    ensures { result ≡ operator_kind operator }
{
    match operator {
        Operator::Add
        | Operator::Subtract
        | Operator::Multiply
        | Operator::Divide
        | Operator::Modulo => Kind::Int,
        _ => Kind::Bool,
    }
}

/// Whether an operator takes operands of the kind.
pub(crate) fn takes(operator: Operator, kind: Kind) -> bool
    ensures { result ≡ takes operator kind }
{
    match operator {
        Operator::Or | Operator::And => kind == Kind::Bool,
        Operator::Equal | Operator::NotEqual => true,
        Operator::Less | Operator::LessOrEqual | Operator::Greater | Operator::GreaterOrEqual =>
            kind.is_ordered(),
        _ => kind == Kind::Int,
    }
}
