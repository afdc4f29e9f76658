//! What may be wrong at a spot. A variant of `SchemaFault` that definitions may have gets
//! its variant here.

ghost use Rattle.std.specs.Prelude.{◌≡◌};
ghost use Rattle.ob_definition.specs.Findings.{fault_at, fault_variant};

use crate::fault::{SchemaFault, Spot};
use ob_base::ExprFault;

/// What is wrong at a spot: a fault without its spot.
#[derive(Debug, Drop)]
pub enum Wrong {
    Model,
    Field,
    Kind,
    Twice,
    Cycle,
    Recursion,
    Path,
    Inverse,
    Inherits,
    Limit,
    Text(ExprFault),
}

impl Wrong {
    /// The fault at a spot.
    pub(crate) fn at(self, spot: Spot) -> SchemaFault
        ensures { result ≡ fault_at self spot }
    {
        match self {
            Wrong::Model => SchemaFault::Model(spot),
            Wrong::Field => SchemaFault::Field(spot),
            Wrong::Kind => SchemaFault::Kind(spot),
            Wrong::Twice => SchemaFault::Twice(spot),
            Wrong::Cycle => SchemaFault::Cycle(spot),
            Wrong::Recursion => SchemaFault::Recursion(spot),
            Wrong::Path => SchemaFault::Path(spot),
            Wrong::Inverse => SchemaFault::Inverse(spot),
            Wrong::Inherits => SchemaFault::Inherits(spot),
            Wrong::Limit => SchemaFault::Limit(spot),
            Wrong::Text(why) => SchemaFault::Text(spot, why),
        }
    }

    /// Its place among the variants of a fault.
    pub(crate) fn variant(&self) -> u8
        ensures { result ≡ fault_variant self.now }
    {
        match self {
            Wrong::Model => 0,
            Wrong::Field => 1,
            Wrong::Kind => 2,
            Wrong::Twice => 3,
            Wrong::Cycle => 4,
            Wrong::Recursion => 5,
            Wrong::Path => 6,
            Wrong::Inverse => 7,
            Wrong::Inherits => 8,
            Wrong::Limit => 9,
            Wrong::Text(_) => 10,
        }
    }
}
