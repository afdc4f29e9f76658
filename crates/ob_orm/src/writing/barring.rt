//! What bars a write, in the order in which it is told: a right that its caller lacks, to rows that
//! are touched or to a field; a value that hasn't its form; an id that no row has; a rule that
//! denies him a row. A change begins with `BarsWrite`.

ghost use Rattle.std.specs.Prelude.{◌≡◌, ◌≤◌, ◌∷◌, All, Contains, IfErr, OnOk, map, option_map};
ghost use Rattle.ob_access.specs.Policies.{IsPolicyOver};
ghost use Rattle.ob_cache.specs.Calls.{Refuses};
ghost use Rattle.ob_cache.specs.Standing.{RestsAt, Stays};
ghost use Rattle.ob_cache.specs.declared.stages.Phase.TheVariants as phase;
ghost use Rattle.ob_call.specs.Places.{IsMalformedAt};
ghost use Rattle.ob_io.specs.Cause.{Rose};
ghost use Rattle.ob_orm.specs.NewRowSteps.{IsTyped};
ghost use Rattle.ob_orm.specs.ObjectSteps.{object_view};
ghost use Rattle.ob_rows.specs.Rights as rights;
ghost use Rattle.ob_orm.specs.Writable.{withheld};
ghost use Rattle.ob_orm.specs.Write.{BarsWrite, IsAdmissible, MayBarWrite};
ghost use Rattle.ob_orm.specs.WriteSteps.{TestsWritable, asked_change};
ghost use Rattle.ob_schema.specs.Models.{HasModel};
ghost use Rattle.ob_schema.specs.Tables.{Tables};

use crate::creating::given::GivenObject;
use crate::making::Maker;
use crate::writing::change::Change;
use crate::writing::touched::{given_parents, touched_rows};
use ob_base::{ModelNo, NoMemory, Op, Place, RecId, Refusal, RowKey};
use ob_cache::Engine;
use ob_io::Keeper;
use ob_rows::{Caller, first_unwritable, may, missing_id, test_rules};
use ob_schema::ParentInfo;
use std::alloc::Global;

/// Whether nothing bars a change of a caller.
pub(crate) fn test_change<K: Keeper>(
    maker: &Maker<'_>,
    engine: &mut Engine<'_, K>,
    by: &Caller<'_>,
    model: ModelNo,
    change: &Change,
) -> Result<(), Refusal>
    requires schema { engine.old.held.models ≡ maker.now.schema.now }
    requires model { HasModel engine.old.held.models model }
    requires policy { IsPolicyOver engine.old.held.models by.now.policy.now }
    requires typed { All (IsTyped engine.old.held.models model) change.now.object.values }
    requires rest { engine.old.held.phase ≡ phase.Settled }
    ensures passes { OnOk result ((tables : Tables) → RestsAt (K.kept engine.old.keeper.now) engine.old.held tables
        → IsAdmissible engine.old.held.models by.now.policy.now by.now.user model tables by.now.groups.now (asked_change change.now)) }
    ensures barred { IfErr result (λ why. (tables : Tables) → RestsAt (K.kept engine.old.keeper.now) engine.old.held tables
        → Refuses (Rose (K.faults engine.old.keeper.now) (K.faults engine.new.keeper.now))
        (BarsWrite engine.old.held.models by.now.policy.now by.now.user model tables by.now.groups.now (asked_change change.now)) why) }
    ensures causes { IfErr result (Refuses (Rose (K.faults engine.old.keeper.now) (K.faults engine.new.keeper.now))
        (MayBarWrite engine.old.held.models by.now.policy.now by.now.user model (asked_change change.now))) }
    ensures same { Stays (K.kept engine.old.keeper.now) engine.old.held (K.kept engine.new.keeper.now) engine.new.held }
    ensures count { K.faults engine.old.keeper.now ≤ K.faults engine.new.keeper.now }
    ensures lender { engine.new.keeper.ghost_name ≡ engine.old.keeper.ghost_name }
{
    let parents = given_parents(maker, model, change.object.values.as_slice())?;
    let rows = touched_rows(maker, engine, model, parents.as_slice(), change)?;
    test_writable(
        maker.alloc,
        by,
        model,
        parents.as_slice(),
        rows.as_slice(),
        &change.object,
    )?;
    let missing = missing_id(engine, model, change.ids.as_slice())?;
    if let Some(id) = missing {
        return Err(Refusal::Missing(model, RecId(id)));
    }
    test_rules(maker.alloc, engine, by, Op::Write, rows.as_slice())
}

/// Whether a caller may touch rows of a model and of parents, and give it what an object gives, each
/// value of which has its form.
fn test_writable(
    alloc: Global,
    by: &Caller<'_>,
    model: ModelNo,
    parents: &[ParentInfo],
    rows: &[RowKey],
    object: &GivenObject,
) -> Result<(), Refusal>
    requires models { All (λ row. Contains (model ∷ map (λ parent. parent.model) parents.now) row.model) rows.now }
    ensures { TestsWritable by.now.policy.now by.now.groups.now by.now.user model rows.now (object_view object.now) result }
{
    if let Some(lacking) = withheld(by, model, parents, rows) {
        return Err(Refusal::Right(lacking, Op::Write));
    }
    if let Some(field) = first_unwritable(by, model, object.fields.as_slice()) {
        return Err(Refusal::FieldRight(model, field));
    }
    match &object.wrong {
        Some(place) => Err(malformed(alloc, place)),
        None => Ok(()),
    }
}

/// The model of the first rows that he may not write: the model itself, else that of the first row
/// that is touched. Where he may write those of each parent no row is gone through.
fn withheld(
    by: &Caller<'_>,
    model: ModelNo,
    parents: &[ParentInfo],
    rows: &[RowKey],
) -> Option<ModelNo>
    requires models { All (λ row. Contains (model ∷ map (λ parent. parent.model) parents.now) row.model) rows.now }
    ensures { option_map (λ lacking. (Op.Write, lacking)) result ≡ withheld by.now.policy.now by.now.groups.now by.now.user model rows.now }
{
    if !may(by, Op::Write, model) {
        return Some(model);
    }
    for parent in parents {
        if !may(by, Op::Write, parent.model) {
            return first_withheld(by, rows);
        }
    }
    None
}

/// The model of the first of some rows that he may not write.
fn first_withheld(by: &Caller<'_>, rows: &[RowKey]) -> Option<ModelNo>
    ensures { option_map (λ lacking. (Op.Write, lacking)) result
        ≡ rights.first_withheld by.now.policy.now by.now.groups.now by.now.user (map (λ row. (Op.Write, row.model)) rows.now) }
{
    for row in rows {
        if !may(by, Op::Write, row.model) {
            return Some(row.model);
        }
    }
    None
}

/// The refusal of a call that is wrong at a place.
fn malformed(alloc: Global, place: &Place) -> Refusal
    ensures { IsMalformedAt place.now result }
{
    let mut told = Place::whole(alloc);
    match told.extend(alloc, place) {
        Ok(()) => Refusal::Request(told),
        Err(NoMemory) => Refusal::NoMemory,
    }
}
