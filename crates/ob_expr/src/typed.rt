//! An expression whose names and kinds are checked. Crates above hold it, ask for its kind
//! and its paths and renumber its fields; they match on none of its variants, so that a form
//! that is added here changes nothing there.

ghost use Rattle.std.specs.Prelude.{◌≡◌};
ghost use Rattle.ob_expr.specs.TypedTree.{aggregate_kind, gathers, kind_of, typed_tree_of};

use crate::kind::Kind;
use crate::operand::{operator_kind, prefix_kind};
use ob_base::{FieldNo, ModelNo, Operator, Prefix, Word};
use std::marker::Model;

/// A step of a path that leads to the rows of a model.
#[derive(Clone, Copy, Debug, PartialEq, Eq)]
pub struct Link {
    pub field: FieldNo,
    pub target: ModelNo,
}

/// Links from a row, and the field that is read at their end.
#[derive(Debug, Drop)]
pub struct Path {
    pub(crate) links: Vec<Link>,
    pub(crate) field: FieldNo,
    kind: Kind,
}

impl Model for Path {
    ghost use Rattle.ob_expr.specs.Route.{Route};

    ghost Value = { Route };

    ghost view = { λ path. record { links = path.links.items; field = path.field; kind = path.kind } };
}

impl Path {
    /// A path of these links and this field.
    pub fn new(links: Vec<Link>, field: FieldNo, kind: Kind) -> Path
        ensures { result ≡ record { links = links.items; field = field; kind = kind } }
    {
        Path { links, field, kind }
    }

    /// Its links, from the row on.
    pub fn links(&self) -> &[Link]
        ensures { result.now ≡ self.now.links }
    {
        self.links.as_slice()
    }

    /// The field at its end.
    pub fn field(&self) -> FieldNo
        ensures { result ≡ self.now.field }
    {
        self.field
    }

    /// The kind of the field at its end.
    pub fn kind(&self) -> Kind
        ensures { result ≡ self.now.kind }
    {
        self.kind
    }
}

/// Which of two values is chosen.
#[derive(Clone, Copy, Debug, PartialEq, Eq)]
pub enum Extreme {
    Least,
    Greatest,
}

/// What is made of an expression's values at the targets of a path.
#[derive(Clone, Copy, Debug, PartialEq, Eq)]
pub enum Aggregate {
    Count,
    Any,
    All,
    Sum,
    Extreme(Extreme),
}

/// An expression whose names and kinds are checked.
#[derive(Debug, Drop)]
pub enum Typed {
    /// The id of the row.
    Id,
    Integer(i64),
    Text(Word),
    Truth(bool),
    /// An unset value of the kind.
    Unset(Kind),
    Path(Path),
    Prefix(Prefix, Box<Typed>),
    Binary(Operator, Box<Typed>, Box<Typed>),
    /// The lesser or the greater of two integers.
    Chosen(Extreme, Box<Typed>, Box<Typed>),
    /// The second where the first is true, else the third.
    If(Box<Typed>, Box<Typed>, Box<Typed>),
    /// Texts, one behind another.
    Joined(Vec<Typed>),
    /// The decimal digits of an integer.
    Digits(Box<Typed>),
    /// An expression over the targets of a path, rows of the model.
    Over(Aggregate, Path, ModelNo, Box<Typed>),
}

impl Typed {
    /// The kind of its values.
    pub fn kind(&self) -> Kind
        ensures { result ≡ kind_of (typed_tree_of self.now) }
    {
        match self {
            Typed::Id | Typed::Integer(_) | Typed::Chosen(..) => Kind::Int,
            Typed::Text(_) | Typed::Joined(_) | Typed::Digits(_) => Kind::Word,
            Typed::Truth(_) => Kind::Bool,
            Typed::Unset(kind) => *kind,
            Typed::Path(path) => path.kind(),
            Typed::Prefix(prefix, _) => prefix_kind(*prefix),
            Typed::Binary(operator, ..) => operator_kind(*operator),
            Typed::If(_, chosen, _) => chosen.kind(),
            Typed::Over(aggregate, _, _, inner) => aggregate.kind(inner.kind()),
        }
    }
}

impl Aggregate {
    /// The kind of what it makes of values of a kind.
    pub fn kind(self, inner: Kind) -> Kind
        ensures { result ≡ aggregate_kind self inner }
    {
        match self {
            Aggregate::Count | Aggregate::Sum => Kind::Int,
            Aggregate::Any | Aggregate::All => Kind::Bool,
            Aggregate::Extreme(_) => inner,
        }
    }

    /// Whether it takes values of the kind.
    pub fn gathers(self, kind: Kind) -> bool
        ensures { result ≡ gathers self kind }
    {
        match self {
            Aggregate::Count | Aggregate::Any | Aggregate::All => kind == Kind::Bool,
            Aggregate::Sum => kind == Kind::Int,
            Aggregate::Extreme(_) => kind.is_ordered() && kind != Kind::Word,
        }
    }
}
