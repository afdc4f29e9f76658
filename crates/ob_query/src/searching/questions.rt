//! The questions that are asked an engine of rows on behalf of a caller, as it has told them last:
//! which rows he sees, and what he sees of their cells. Each changes nothing that is told, and fails
//! only where the keeper did or memory is wanting.

ghost use Rattle.std.specs.Prelude.{◌≡◌, true, IfErr, IfOk};
ghost use Rattle.ob_access.specs.Policies.{IsPolicyOver};
ghost use Rattle.ob_cache.specs.Calls.{models_at, standpoint};
ghost use Rattle.ob_codec.specs.Held.{HasText};
ghost use Rattle.ob_domain.specs.Holding.{holds};
ghost use Rattle.ob_domain.specs.Trees.{tree_of_domain};
ghost use Rattle.ob_expr.specs.Meaning.{row_at};
ghost use Rattle.ob_query.specs.Search.{held_of};
ghost use Rattle.ob_query.specs.SearchParts.{IsSoughtOver};
ghost use Rattle.ob_query.specs.SearchQuestions.{IsUnanswered, OnlyAsked, TellsOf, TellsTo};
ghost use Rattle.ob_schema.specs.Facts.{OfAllTold};
ghost use Rattle.ob_schema.specs.Fields.{HasFieldType};
ghost use Rattle.ob_schema.specs.Models.{HasField, HasModel, field_at};

use crate::caller::{Caller, answered};
use crate::searching::sought::Sought;
use ob_base::{Cell, FieldNo, ModelNo, RecId, Value};
use ob_cache::{Engine, ReadFault};
use ob_io::{KeepFault, Keeper};
use ob_schema::Facts;
use ob_tables::initial_value;
use std::alloc::Global;

/// Whether an id exists, whoever asks.
pub fn exists<K: Keeper>(
    engine: &mut Engine<'_, K>,
    model: ModelNo,
    id: RecId,
) -> Result<bool, KeepFault>
    requires { HasModel (models_at (standpoint K.Keeper engine.old)) model }
    ensures told { IfOk result (λ known. OfAllTold (TellsOf K.Keeper engine.old) (λ told. known ≡ told.knows model id)) }
    ensures asked { OnlyAsked K.Keeper engine.old engine.new }
    ensures causes { IfErr result (IsUnanswered K.Keeper engine.old engine.new) }
{
    match engine.known(model, id) {
        Ok(known) => Ok(known),
        Err(ReadFault::Missing) => Ok(false),
        Err(ReadFault::Keeper) => Err(KeepFault::Failed),
        Err(ReadFault::NoMemory) => Err(KeepFault::NoMemory),
    }
}

/// Whether a caller sees a row.
pub fn is_known<K: Keeper>(
    alloc: Global,
    engine: &mut Engine<'_, K>,
    by: &Caller<'_>,
    model: ModelNo,
    id: RecId,
) -> Result<bool, KeepFault>
    requires policy { IsPolicyOver (models_at (standpoint K.Keeper engine.old)) by.now.policy.now }
    requires model { HasModel (models_at (standpoint K.Keeper engine.old)) model }
    ensures told { IfOk result (λ known. OfAllTold (TellsTo K.Keeper by.now engine.old) (λ told. known ≡ told.knows model id)) }
    ensures asked { OnlyAsked K.Keeper engine.old engine.new }
    ensures causes { IfErr result (IsUnanswered K.Keeper engine.old engine.new) }
{
    // The law that questions behind one another are one question.
    engine.questions_are_questions();
    let known = by.policy.sees(alloc, by.groups, by.user, model, id, engine);
    answered(known, false)
}

/// What a caller sees of a field of a row that he sees.
pub fn value_in<K: Keeper>(
    alloc: Global,
    engine: &mut Engine<'_, K>,
    by: &Caller<'_>,
    model: ModelNo,
    field: FieldNo,
    id: RecId,
) -> Result<Value, KeepFault>
    requires policy { IsPolicyOver (models_at (standpoint K.Keeper engine.old)) by.now.policy.now }
    requires field { HasField (models_at (standpoint K.Keeper engine.old)) model field }
    requires known { OfAllTold (TellsTo K.Keeper by.now engine.old) (λ told. told.knows model id ≡ true) }
    ensures told { IfOk result (λ value. OfAllTold (TellsTo K.Keeper by.now engine.old) (λ told. value ≡ held_of told model field id)) }
    ensures typed { IfOk result (HasFieldType (field_at (models_at (standpoint K.Keeper engine.old)) model field)) }
    ensures text { IfOk result HasText }
    ensures asked { OnlyAsked K.Keeper engine.old engine.new }
    ensures causes { IfErr result (IsUnanswered K.Keeper engine.old engine.new) }
{
    // The law that questions behind one another are one question.
    engine.questions_are_questions();
    let schema = engine.schema();
    let other = initial_value(alloc, schema.info(model, field).field_type);
    let cell = Cell { model, id, field };
    let value = by
        .policy
        .seen_value(alloc, by.groups, by.user, schema, cell, engine);
    answered(value, other)
}

/// Whether a row that a caller sees meets the domain that he seeks by.
pub fn meets<K: Keeper>(
    alloc: Global,
    engine: &mut Engine<'_, K>,
    sought: &Sought<'_>,
    id: RecId,
) -> Result<bool, KeepFault>
    requires over { IsSoughtOver (models_at (standpoint K.Keeper engine.old)) sought.now }
    requires known { OfAllTold (TellsTo K.Keeper sought.now.by engine.old) (λ told. told.knows sought.now.model id ≡ true) }
    ensures told { IfOk result (λ b. OfAllTold (TellsTo K.Keeper sought.now.by engine.old)
        (λ told. b ≡ holds told sought.now.by.user (tree_of_domain sought.now.domain) (row_at sought.now.model id))) }
    ensures asked { OnlyAsked K.Keeper engine.old engine.new }
    ensures causes { IfErr result (IsUnanswered K.Keeper engine.old engine.new) }
{
    // The law that questions behind one another are one question.
    engine.questions_are_questions();
    let schema = engine.schema();
    let by = &sought.by;
    let met = by.policy.meets_seen(
        alloc,
        by.groups,
        by.user,
        schema,
        &sought.domain,
        sought.model,
        id,
        engine,
    );
    answered(met, false)
}
