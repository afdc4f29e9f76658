//! Operands that were read, and what waits for one: a prefix, an operator behind its left
//! operand, a parenthesis, or a call.

ghost use Rattle.std.specs.Prelude.{◌≡◌, map};
ghost use Rattle.ob_base.specs.Syntax.{tree_of, depth};
ghost use Rattle.ob_syntax.specs.Grammar.{left_level, level_of, level_of_prefix};
ghost use Rattle.ob_syntax.specs.Parsing.{deepest_of};

use ob_base::{Expr, Operator, Prefix, Word};

/// How tightly an operator binds.
pub fn operator_level(operator: Operator) -> usize
    ensures { result ≡ level_of operator }
{
    match operator {
        Operator::Or => 0,
        Operator::And => 1,
        Operator::Add | Operator::Subtract => 4,
        Operator::Multiply | Operator::Divide | Operator::Modulo => 5,
        _ => 3,
    }
}

/// How tightly an operator's left operand binds at least: chains nest to the left, and
/// comparisons do not chain.
pub fn left_operand_level(operator: Operator) -> usize
    ensures { result ≡ left_level operator }
{
    match operator {
        Operator::Or => 0,
        Operator::And => 1,
        Operator::Multiply | Operator::Divide | Operator::Modulo => 5,
        _ => 4,
    }
}

/// How tightly a prefix binds, and its operand at least.
pub fn prefix_level(prefix: Prefix) -> usize
    ensures { result ≡ level_of_prefix prefix }
{
    match prefix {
        Prefix::Not => 2,
        Prefix::Minus => 6,
    }
}

/// A tree that was read, the offset of its first token, parentheses among them, and how deep
/// it nests.
#[derive(Drop)]
pub struct Operand {
    pub expr: Expr,
    pub first: u32,
    pub deep: usize,
    ghost counted: { deep ≡ depth (tree_of expr) },
}

/// A function by name, its arguments so far, how deep they nest, and its offset.
#[derive(Drop)]
pub struct Calling {
    pub name: Word,
    pub arguments: Vec<Expr>,
    pub deep: usize,
    pub first: u32,
    ghost counted: { deep ≡ deepest_of (map tree_of arguments.items) },
}

/// What waits for an operand.
#[derive(Drop)]
pub enum Frame {
    Prefix(Prefix, u32),
    /// An operator behind its left operand.
    Left(Operator, Operand),
    /// A parenthesis.
    Group(u32),
    Call(Calling),
}

impl Frame {
    ghost use Rattle.std.specs.Prelude.{◌≡◌, [], ◌∷◌};
    ghost use Rattle.ob_syntax.specs.Parsing.{takes, closes_at, nodes_in, part_in};
    ghost use Rattle.ob_syntax.specs.Waits.{pending};

    /// How tightly the operand binds at least.
    pub fn takes(&self) -> usize
        ensures { result ≡ takes (pending self.now ∷ []) }
    {
        match self {
            Frame::Prefix(prefix, _) => prefix_level(*prefix),
            Frame::Left(operator, _) => operator_level(*operator) + 1,
            Frame::Group(_) | Frame::Call(_) => 0,
        }
    }

    /// Whether its node binds as tightly as a level.
    pub fn closes(&self, level: usize) -> bool
        ensures { result ≡ closes_at level (pending self.now ∷ []) }
    {
        match self {
            Frame::Prefix(prefix, _) => level <= prefix_level(*prefix),
            Frame::Left(operator, _) => level <= operator_level(*operator),
            Frame::Group(_) | Frame::Call(_) => false,
        }
    }

    /// How many nodes it makes round its operand.
    pub fn nodes(&self) -> usize
        ensures { result ≡ nodes_in (pending self.now) }
    {
        match self {
            Frame::Group(_) => 0,
            _ => 1,
        }
    }

    /// How deep its parts so far nest.
    pub fn part(&self) -> usize
        ensures { result ≡ part_in (pending self.now) }
    {
        match self {
            Frame::Prefix(..) | Frame::Group(_) => 0,
            Frame::Left(_, left) => left.deep,
            Frame::Call(call) => call.deep,
        }
    }
}
