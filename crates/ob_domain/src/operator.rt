//! The operators of domains, by their texts. One that is added gets its variant here, and its
//! text in `specs/Operators`.

ghost use Rattle.std.specs.Prelude.{◌≡◌};
ghost use Rattle.ob_domain.specs.Operators.{logical_of, operator_of};

/// What stands before the terms that it takes.
#[derive(Clone, Copy, Debug, PartialEq, Eq)]
pub enum Logical {
    /// Two terms.
    And,
    /// Two terms.
    Or,
    /// One term.
    Not,
}

/// Whether a criterion asks for what its operator says, or for the complement.
#[derive(Clone, Copy, Debug, PartialEq, Eq)]
pub enum Sense {
    Positive,
    Negative,
}

/// How a value is to stand to an operand, in the order of values.
#[derive(Clone, Copy, Debug, PartialEq, Eq)]
pub enum Comparison {
    Less,
    LessOrEqual,
    Greater,
    GreaterOrEqual,
}

/// How an operand gives a pattern.
#[derive(Clone, Copy, Debug, PartialEq, Eq)]
pub struct Likeness {
    /// The text may stand anywhere in the value.
    pub anywhere: bool,
    /// Case makes no difference.
    pub folds: bool,
}

/// What a criterion asks of a field's value.
#[derive(Clone, Copy, Debug, PartialEq, Eq)]
pub enum Operator {
    /// `=`
    Equal,
    /// `=?`: `=`, or nothing where the operand is unset.
    EqualIfSet,
    In,
    Compares(Comparison),
    Like(Likeness),
    /// Some row that the field names meets a domain.
    Any,
    ChildOf,
    ParentOf,
}

/// The operator before terms that a text is.
#[tactic(auto, unfolding(crate::specs::Operators::logical_of))]
pub fn logical_of(text: &str) -> Option<Logical>
    ensures { result ≡ logical_of text.now }
{
    match text {
        "&" => Some(Logical::And),
        "|" => Some(Logical::Or),
        "!" => Some(Logical::Not),
        _ => None,
    }
}

/// The operator of a criterion that a text is.
#[tactic(auto, unfolding(crate::specs::Operators::operator_of))]
pub fn operator_of(text: &str) -> Option<(Sense, Operator)>
    ensures { result ≡ operator_of text.now }
{
    match text {
        "=" => Some((Sense::Positive, Operator::Equal)),
        "!=" => Some((Sense::Negative, Operator::Equal)),
        "=?" => Some((Sense::Positive, Operator::EqualIfSet)),
        "in" => Some((Sense::Positive, Operator::In)),
        "not in" => Some((Sense::Negative, Operator::In)),
        "<" => Some((Sense::Positive, Operator::Compares(Comparison::Less))),
        "<=" => Some((Sense::Positive, Operator::Compares(Comparison::LessOrEqual))),
        ">" => Some((Sense::Positive, Operator::Compares(Comparison::Greater))),
        ">=" => Some((
            Sense::Positive,
            Operator::Compares(Comparison::GreaterOrEqual),
        )),
        "=like" => Some((Sense::Positive, like(false, false))),
        "=ilike" => Some((Sense::Positive, like(false, true))),
        "like" => Some((Sense::Positive, like(true, false))),
        "ilike" => Some((Sense::Positive, like(true, true))),
        "not like" => Some((Sense::Negative, like(true, false))),
        "not ilike" => Some((Sense::Negative, like(true, true))),
        "any" => Some((Sense::Positive, Operator::Any)),
        "not any" => Some((Sense::Negative, Operator::Any)),
        "child_of" => Some((Sense::Positive, Operator::ChildOf)),
        "parent_of" => Some((Sense::Positive, Operator::ParentOf)),
        _ => None,
    }
}

/// An operator that asks for a pattern.
fn like(anywhere: bool, folds: bool) -> Operator
    ensures { result ≡ Operator.Like (record { anywhere = anywhere; folds = folds }) }
{
    Operator::Like(Likeness { anywhere, folds })
}
