//! What the registry knows of models and fields: their definitions with every name
//! resolved. A new key of the module format gets its meaning here.

ghost use Rattle.std.specs.Prelude.{◌≡◌};
ghost use Rattle.ob_schema.specs.Fields.{is_kept, is_plain_kept};

use ob_base::{FieldNo, ModelNo, Sequence, Value, Word};
use ob_definition::{Choice, FieldType, OnDelete};
use ob_expr::Typed;

/// A model: its fields in byte order of their names, so that field number `n` stands at
/// `n - 1`.
#[derive(Debug, Drop)]
pub struct ModelInfo {
    pub name: Word,
    pub fields: Sequence<FieldInfo>,
    /// The conditions of each row, by name, and then when it is locked: computed Booleans
    /// that aren't kept, numbered on from the fields.
    pub hidden: Sequence<FieldInfo>,
    /// The parents whose fields are delegated.
    pub inherits: Sequence<ParentInfo>,
    /// The many2one to the model itself that makes its rows a tree.
    pub parent: Option<FieldNo>,
    /// Sets of plain fields that no two rows share.
    pub unique: Sequence<Sequence<FieldNo>>,
    /// The order of a search; by id where it is empty.
    pub order: Sequence<OrderTerm>,
    /// Whether calls may not create, write or delete its rows.
    pub managed: bool,
}

/// A parent model, and the field that links to its row.
#[derive(Clone, Copy, Debug, PartialEq, Eq)]
pub struct ParentInfo {
    pub link: FieldNo,
    pub model: ModelNo,
}

/// A field by which rows are ordered.
#[derive(Clone, Copy, Debug, PartialEq, Eq)]
pub struct OrderTerm {
    pub field: FieldNo,
    pub descending: bool,
}

/// A field of a model.
#[derive(Debug, Drop)]
pub struct FieldInfo {
    pub name: Word,
    pub field_type: FieldType,
    pub origin: Origin,
    /// The words that people see.
    pub string: Word,
    pub required: bool,
    /// What a create puts where no value is given.
    pub default: Option<Value>,
    /// Whether a computed field is kept; true of all others.
    pub store: bool,
    /// Whether a computed field may read itself through its tree.
    pub recursive: bool,
    /// The model whose rows a relation names.
    pub relation: Option<ModelNo>,
    /// The many2one back, of a one2many: a field of the relation's model.
    pub inverse: Option<FieldNo>,
    /// The many2many back, of a many2many that isn't kept.
    pub mirror: Option<FieldNo>,
    pub ondelete: OnDelete,
    /// The values of a selection.
    pub selection: Sequence<Choice>,
    /// The full names of the groups that may see the field; empty: everybody.
    pub groups: Sequence<Word>,
    pub managed: bool,
    pub fixed: bool,
    pub secret: bool,
}

/// Where a field's value comes from.
#[derive(Debug, Drop)]
pub enum Origin {
    /// The row's id.
    Id,
    /// Calls give it.
    Plain,
    /// A row of a parent has it.
    Delegated(Delegation),
    /// An expression gives it.
    Computed(Formula),
}

/// Where a delegated field's value stands: behind a link, as a field of the parent's model.
#[derive(Clone, Copy, Debug, PartialEq, Eq)]
pub struct Delegation {
    pub link: FieldNo,
    pub model: ModelNo,
    pub field: FieldNo,
}

/// The expression of a computed field.
#[derive(Debug, Drop)]
pub struct Formula {
    pub typed: Typed,
    /// The paths on which its value depends.
    pub depends: Sequence<Path>,
    /// The length of the longest chain of other computed fields that are read in turn.
    pub stratum: u16,
}

/// The steps from a row to a cell: each but the last through a relation to rows of the next
/// one's model.
#[derive(Debug, Drop)]
pub struct Path {
    pub steps: Sequence<Step>,
}

/// A field of a model, through which a path leads or at which it ends.
#[derive(Clone, Copy, Debug, PartialEq, Eq)]
pub struct Step {
    pub model: ModelNo,
    pub field: FieldNo,
}

impl FieldInfo {
    /// Whether a row's kept form has the field: a plain one that no other field mirrors,
    /// or a computed one that is stored.
    pub fn is_kept(&self) -> bool
        ensures { result ≡ is_kept self.now }
    {
        match self.origin {
            Origin::Id | Origin::Delegated(_) => false,
            Origin::Plain => self.is_own(),
            Origin::Computed(_) => self.store,
        }
    }

    /// Whether calls give its value and the row keeps it.
    pub fn is_plain_kept(&self) -> bool
        ensures { result ≡ is_plain_kept self.now }
    {
        matches!(self.origin, Origin::Plain) && self.is_own()
    }

    /// Whether its values stand in the row itself: no one2many, and no mirror.
    fn is_own(&self) -> bool
        ensures { result ≡ Rattle.ob_schema.specs.Fields.is_own self.now }
    {
        !matches!(self.field_type, FieldType::One2many) && self.mirror.is_none()
    }
}
