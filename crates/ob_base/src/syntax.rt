//! The tree of an expression as it was written, which the parser makes and the checker reads.
//! Each part has the offset of its first token, by which faults are told: with parentheses
//! before it, a part begins earlier than its first leaf. A new form of the language gets its
//! variant here, in `specs/Syntax`, and in the grammar.

ghost use Rattle.std.specs.Prelude.{◌≡◌, MatchOption, None, Some};
ghost use Rattle.ob_base.specs.Syntax.{CallsKeepTheirOrder, offset_of_tree, path_names, tree_of};

use crate::word::Word;

/// What joins two operands.
#[derive(Clone, Copy, Debug, PartialEq, Eq)]
pub enum Operator {
    Or,
    And,
    Equal,
    NotEqual,
    Less,
    LessOrEqual,
    Greater,
    GreaterOrEqual,
    Add,
    Subtract,
    Multiply,
    Divide,
    Modulo,
}

/// What stands before its one operand.
#[derive(Clone, Copy, Debug, PartialEq, Eq)]
pub enum Prefix {
    Not,
    Minus,
}

/// An expression as it was written. The last number is the offset of its first token.
#[derive(Debug, Drop)]
pub enum Expr {
    Integer(i64, u32),
    Text(Word, u32),
    Truth(bool, u32),
    Unset(u32),
    /// Names with dots between them.
    Path(Vec<Word>, u32),
    Prefix(Prefix, Box<Expr>, u32),
    Binary(Operator, Box<Expr>, Box<Expr>, u32),
    /// A function by name, and its arguments.
    Call(Word, Vec<Expr>, u32),
}

impl Expr {
    /// The offset of its first token.
    pub fn first(&self) -> u32
        ensures { result ≡ offset_of_tree (tree_of self.now) }
    {
        match self {
            Expr::Integer(_, at)
            | Expr::Text(_, at)
            | Expr::Truth(_, at)
            | Expr::Unset(at)
            | Expr::Path(_, at)
            | Expr::Prefix(_, _, at)
            | Expr::Binary(_, _, _, at)
            | Expr::Call(_, _, at) => *at,
        }
    }

    /// Its names, where it is a path.
    pub fn as_path(&self) -> Option<&[Word]>
        ensures { MatchOption result
            (path_names (tree_of self.now) ≡ None)
            (λ names. path_names (tree_of self.now) ≡ Some names.now) }
    {
        match self {
            Expr::Path(names, _) => Some(names),
            _ => None,
        }
    }
}

/// A call's tree has the trees of its arguments in their order, for whoever goes over them.
pub fn call_order()
    ensures { CallsKeepTheirOrder }
{}
