//! Why definitions make no registry. The order of the variants is that in which the
//! faults of one spot are told: add a variant only where the documented order has it.

ghost use Rattle.std.specs.Prelude.{◌≡◌, IfSome, IsNone};
ghost use Rattle.ob_definition.specs.declared.fault.SchemaFault.TheVariants.{NoMemory as no_memory};
ghost use Rattle.ob_definition.specs.Ranking.{rank};

use ob_base::{ExprFault, NoMemory, Word};
use thiserror::Error;

/// Where a definition is faulty: the entry's place in the list, from 0, and the field, which
/// is empty for the entry's own keys and the model as a whole. It is `check:NAME` for a check
/// and `locked` for that expression.
#[derive(Debug, Drop)]
pub struct Spot {
    pub entry: u32,
    pub field: Word,
}

/// Why definitions make no registry.
#[derive(Debug, Drop, Error)]
pub enum SchemaFault {
    /// A relation is to a model that nobody declares, or an entry names no model.
    #[error("unknown model")]
    Model(Spot),
    /// An order, an inverse, an expression or a declared path names no field that may be used
    /// there.
    #[error("unknown field")]
    Field(Spot),
    /// A name, an order or a key is of another form, the keys don't fit one another, or an
    /// expression is of another kind.
    #[error("wrong kind")]
    Kind(Spot),
    /// The name is an earlier entry's, an automatic field's or another field's or check's.
    #[error("declared twice")]
    Twice(Spot),
    /// Computed fields read one another in a circle, or one reads itself in another way than
    /// along its tree.
    #[error("cycle")]
    Cycle(Spot),
    /// A field reads itself through its tree and doesn't say so.
    #[error("not marked recursive")]
    Recursion(Spot),
    /// The expression reads a path that no declared one covers; or a declared path leads
    /// through another field than a plain relation, or ends at a field without a value.
    #[error("wrong path")]
    Path(Spot),
    /// The field back isn't the plain one to this model.
    #[error("wrong inverse")]
    Inverse(Spot),
    /// A parent is the model itself, or has parents.
    #[error("wrong parent")]
    Inherits(Spot),
    /// More than the limits allow.
    #[error("past a limit")]
    Limit(Spot),
    /// An expression that can't be read.
    #[error("wrong expression")]
    Text(Spot, ExprFault),
    /// An allocation failed.
    #[error("no memory")]
    NoMemory,
}

impl SchemaFault {
    /// Where it is; want of memory is nowhere.
    pub fn spot(&self) -> Option<&Spot>
        ensures entry { IfSome result (λ spot. spot.now.entry ≡ (rank self.now).entry) }
        ensures field { IfSome result (λ spot. spot.now.field ≡ (rank self.now).field) }
        ensures none { IsNone result → self.now ≡ SchemaFault.NoMemory }
    {
        match self {
            SchemaFault::Model(spot)
            | SchemaFault::Field(spot)
            | SchemaFault::Kind(spot)
            | SchemaFault::Twice(spot)
            | SchemaFault::Cycle(spot)
            | SchemaFault::Recursion(spot)
            | SchemaFault::Path(spot)
            | SchemaFault::Inverse(spot)
            | SchemaFault::Inherits(spot)
            | SchemaFault::Limit(spot)
            | SchemaFault::Text(spot, _) => Some(spot),
            SchemaFault::NoMemory => None,
        }
    }
}

impl From<NoMemory> for SchemaFault {
    ghost from_gives = { λ _ fault. fault ≡ no_memory };

    fn from(_error: NoMemory) -> SchemaFault {
        SchemaFault::NoMemory
    }
}
