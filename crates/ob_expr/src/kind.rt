//! Kinds, and what a name stands for in a model: what the crates above tell the checker.

ghost use Rattle.std.specs.Prelude.{◌≡◌, List, ℕ, Option};
ghost use Rattle.ob_base.specs.declared.id.ModelNo.{ModelNo};
ghost use Rattle.ob_expr.specs.declared.kind.Found.{Found};
ghost use Rattle.ob_expr.specs.Kinds.{can_be_unset, is_ordered};

use ob_base::{FieldNo, ModelNo};

/// The kind of the values of a field or an expression.
#[derive(Clone, Copy, Debug, PartialEq, Eq)]
pub enum Kind {
    Bool,
    Int,
    Word,
    Day,
    Moment,
    /// A row of the model.
    Ref(ModelNo),
    /// Rows of the model.
    Refs(ModelNo),
}

impl Kind {
    /// Whether a value of the kind may be unset.
    pub fn can_be_unset(self) -> bool
        ensures { result ≡ can_be_unset self }
    {
        matches!(self, Kind::Word | Kind::Day | Kind::Moment | Kind::Ref(_))
    }

    /// Whether values of the kind have an order in expressions.
    pub fn is_ordered(self) -> bool
        ensures { result ≡ is_ordered self }
    {
        matches!(self, Kind::Int | Kind::Word | Kind::Day | Kind::Moment)
    }
}

/// What a name stands for in a model.
#[derive(Clone, Copy, Debug, PartialEq, Eq)]
pub struct Found {
    /// The reference and its target, where the field is delegated: the field is of that model.
    pub via: Option<(FieldNo, ModelNo)>,
    pub field: FieldNo,
    pub kind: Kind,
    /// Whether expressions may name the field.
    pub usable: bool,
}

/// The fields of the models, by name.
pub trait Scope {
    /// The field that a name stands for in a model.
    ghost finds: { Self → ModelNo → List ℕ → Option Found };

    fn field(&self, model: ModelNo, name: &str) -> Option<Found>
        ensures { result ≡ finds self.now model name.now };
}
