//! The terms of a domain, as they were read. Nothing outside the crate sees them: contracts
//! see the tree that they spell, whose parts are defined in `specs/Trees`.

ghost use Rattle.std.specs.Prelude.{◌≡◌};
ghost use Rattle.ob_domain.specs.Trees.{has_sense};

use crate::operator::{Comparison, Logical, Sense};
use ob_base::{FieldNo, Sequence, Value};
use ob_expr::Link;
use ob_schema::Step;

/// What is given beside an operator.
#[derive(Debug, Drop)]
pub enum Operand {
    /// The id of the caller.
    User,
    /// A value of the field; an integer where it names a row.
    Value(Value),
}

/// What a text is to match: `_` is any one character, `%` any run of them, and each other
/// character itself.
#[derive(Debug, Drop)]
pub struct Pattern {
    pub characters: Sequence<char>,
    /// The characters are folded, and so is the text before it is matched.
    pub folds: bool,
}

/// What is asked of a value.
#[derive(Debug, Drop)]
pub enum Test {
    /// Whatever it is.
    Always,
    /// It is one of these; a list names one of them, or is empty where one is unset.
    OneOf(Sequence<Operand>),
    Compares(Comparison, Operand),
    Matches(Pattern),
    /// A row that it names stands below one of these, or is one; in the tree whose paths the
    /// field has.
    ChildOf(Step, Sequence<Operand>),
    /// A row that it names stands above one of these, or is one.
    ParentOf(Step, Sequence<Operand>),
}

/// A term of a domain's list.
#[derive(Debug, Drop)]
pub enum Term {
    /// Takes the terms behind it.
    Logical(Logical),
    /// Holds always, or never.
    Constant(bool),
    /// The field's value passes the test.
    Criterion(Sense, FieldNo, Test),
    /// Some row to which the links lead meets the terms.
    Any(Sense, Vec<Link>, Vec<Term>),
}

impl Sense {
    /// What a criterion answers where its operator says so much.
    pub fn of(self, answer: bool) -> bool
        ensures { result ≡ has_sense self answer }
    {
        match self {
            Sense::Positive => answer,
            Sense::Negative => !answer,
        }
    }
}
