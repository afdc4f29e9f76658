//! The questions that the facts are asked about rows. A fault of the facts is passed on as
//! theirs.

ghost use Rattle.std.specs.Prelude.{◌≡◌, true, IfErr, IfOk};
ghost use Rattle.ob_expr.specs.Meaning.{cell_in, row_at};
ghost use Rattle.ob_schema.specs.Facts.{Asked, FailedBehind, OfAllTold};
ghost use Rattle.ob_schema.specs.Models.{HasField, HasModel};
ghost use Rattle.ob_domain.specs.Holding.{IsHoldFault};

use crate::fault::HoldFault;
use ob_base::{Cell, FieldNo, ModelNo, RecId, Value};
use ob_schema::Facts;

/// A row of a model.
#[derive(Clone, Copy)]
pub(crate) struct Row {
    pub model: ModelNo,
    pub id: RecId,
}

/// Whether a row is known.
pub(crate) fn is_known<F: Facts>(row: Row, facts: &mut F) -> Result<bool, HoldFault<F::Fault>>
    requires { HasModel (F.registry facts.old) row.model }
    ensures told { IfOk result (λ b. OfAllTold (F.tells facts.old) (λ told. b ≡ told.knows row.model row.id)) }
    ensures fault { IfErr result (IsHoldFault (FailedBehind F.asks F.has_failed facts.old facts.new)) }
    ensures asked { Asked F.asks facts.old facts.new }
    ensures same { F.registry facts.new ≡ F.registry facts.old }
    ensures kept { OfAllTold (F.tells facts.old) (F.tells facts.new) }
    ensures only { OfAllTold (F.tells facts.new) (F.tells facts.old) }
{
    facts.known(row.model, row.id).map_err(HoldFault::Fact)
}

/// The value of a field of a known row.
pub(crate) fn value_in<F: Facts>(
    row: Row,
    field: FieldNo,
    facts: &mut F,
) -> Result<Value, HoldFault<F::Fault>>
    requires field { HasField (F.registry facts.old) row.model field }
    requires known { OfAllTold (F.tells facts.old) (λ told. told.knows row.model row.id ≡ true) }
    ensures told { IfOk result (λ v. OfAllTold (F.tells facts.old) (λ told. v ≡ told.held (cell_in (row_at row.model row.id) field))) }
    ensures fault { IfErr result (IsHoldFault (FailedBehind F.asks F.has_failed facts.old facts.new)) }
    ensures asked { Asked F.asks facts.old facts.new }
    ensures same { F.registry facts.new ≡ F.registry facts.old }
    ensures kept { OfAllTold (F.tells facts.old) (F.tells facts.new) }
    ensures only { OfAllTold (F.tells facts.new) (F.tells facts.old) }
{
    let cell = Cell {
        model: row.model,
        id: row.id,
        field,
    };
    facts.value(cell).map_err(HoldFault::Fact)
}
