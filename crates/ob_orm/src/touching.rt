//! What the edits of a call do to rows, one behind another: which operations are asked for on which
//! models, and of which rows rules are asked. Whether a row is there is asked as of what the engine
//! settled last; a row that an edit makes is there for the edits behind it.

ghost use Rattle.std.specs.Prelude.{◌≡◌, ◌≤◌, ◌∷◌, ◌++◌, [], All, Bool, Contains, IfErr, IfOk, IsTrue, OnOk, filter, true};
ghost use Rattle.ob_access.specs.Policies.{IsPolicyOver};
ghost use Rattle.ob_base.specs.declared.id.ModelNo.{ModelNo};
ghost use Rattle.ob_base.specs.declared.refusal.Op.{Op};
ghost use Rattle.ob_base.specs.declared.refusal.Op.TheVariants as op;
ghost use Rattle.ob_cache.specs.Calls.{Refuses};
ghost use Rattle.ob_cache.specs.Standing.{RestsAt, Stays};
ghost use Rattle.ob_cache.specs.Telling.{TellsFacts};
ghost use Rattle.ob_io.specs.Cause.{Rose};
ghost use Rattle.ob_rows.specs.AskingSteps.{AdmitsBy, DeniesBy};
ghost use Rattle.ob_orm.specs.NewRowSteps.{MayFit};
ghost use Rattle.ob_rows.specs.Rights.{DeniesOne};
ghost use Rattle.ob_orm.specs.Touches.{touch_by, touch_there};
ghost use Rattle.ob_orm.specs.TouchSteps.{Adds, AsksSame, IsTouched, IsWithin, MayDo, is_there_by, first_withheld_by, knows_row};
ghost use Rattle.ob_schema.specs.Facts.{OfAllTold};
ghost use Rattle.ob_schema.specs.Models.{HasModel};
ghost use Rattle.ob_schema.specs.Tables.{Tables};

use ob_base::{ModelNo, NoMemory, Op, Refusal, RowKey};
use ob_cache::{Engine, ReadFault};
use ob_io::Keeper;
use ob_rows::{Caller, may, test_rules};
use ob_schema::Facts;
use ob_tables::Edit;
use std::alloc::Global;
use std::collections::BTreeSet;

/// What edits do to rows: the operations that are asked for, each where it comes first; the rows
/// that are made; and those that were there before all and are changed.
#[derive(Drop)]
pub(crate) struct Touched {
    pub(crate) askings: Vec<(Op, ModelNo)>,
    pub(crate) made: BTreeSet<RowKey>,
    pub(crate) changed: BTreeSet<RowKey>,
}

/// What edits do to rows, behind an operation that is asked for before all.
pub(crate) fn touched_by<K: Keeper>(
    alloc: Global,
    engine: &mut Engine<'_, K>,
    first: (Op, ModelNo),
    edits: &[Edit],
) -> Result<Touched, Refusal>
    requires fit { All (MayFit engine.old.held.models) edits.now }
    ensures touched { IfOk result (λ touched. (tables : Tables) → RestsAt (K.kept engine.old.keeper.now) engine.old.held tables
        → IsTouched engine.old.held.models tables first edits.now touched) }
    ensures within { IfOk result (λ touched. (may : Op → ModelNo → Bool) → may first.0 first.1 ≡ true → All (MayDo may) edits.now → IsWithin may touched) }
    ensures causes { IfErr result (Refuses (Rose (K.faults engine.old.keeper.now) (K.faults engine.new.keeper.now)) (λ _. ⊥)) }
    ensures same { Stays (K.kept engine.old.keeper.now) engine.old.held (K.kept engine.new.keeper.now) engine.new.held }
    ensures count { K.faults engine.old.keeper.now ≤ K.faults engine.new.keeper.now }
    ensures lender { engine.new.keeper.ghost_name ≡ engine.old.keeper.ghost_name }
{
    let mut touched = Touched {
        askings: Vec::new(alloc),
        made: BTreeSet::new(alloc),
        changed: BTreeSet::new(alloc),
    };
    touched.askings.push(first)?;
    for edit in edits {
        touch(engine, &mut touched, edit)?;
    }
    Ok(touched)
}

/// Adds what one more edit does.
fn touch<K: Keeper>(
    engine: &mut Engine<'_, K>,
    touched: &mut Touched,
    edit: &Edit,
) -> Result<(), Refusal>
    requires fit { MayFit engine.old.held.models edit.now }
    ensures adds { OnOk result (OfAllTold (TellsFacts (K.kept engine.old.keeper.now) engine.old.held)
        (λ told. Adds (knows_row told) (touch_by (is_there_by told touched.old) edit.now) touched.old touched.new)) }
    ensures within { OnOk result ((may : Op → ModelNo → Bool) → MayDo may edit.now → IsWithin may touched.old → IsWithin may touched.new) }
    ensures causes { IfErr result (Refuses (Rose (K.faults engine.old.keeper.now) (K.faults engine.new.keeper.now)) (λ _. ⊥)) }
    ensures same { Stays (K.kept engine.old.keeper.now) engine.old.held (K.kept engine.new.keeper.now) engine.new.held }
    ensures count { K.faults engine.old.keeper.now ≤ K.faults engine.new.keeper.now }
    ensures lender { engine.new.keeper.ghost_name ≡ engine.old.keeper.ghost_name }
{
    match edit {
        Edit::Make { model, id, .. } => Ok(touch_made(
            touched,
            RowKey {
                model: *model,
                id: *id,
            },
        )?),
        Edit::Set { cell, .. } => touch_changed(
            engine,
            touched,
            RowKey {
                model: cell.model,
                id: cell.id,
            },
        ),
        // No row goes.
        Edit::Gone { .. } => unreachable!(),
    }
}

/// Adds a row that is made.
fn touch_made(touched: &mut Touched, row: RowKey) -> Result<(), NoMemory>
    ensures adds { OnOk result ((was_there : RowKey → Bool) → Adds was_there (record { op = op.Create; row = row } ∷ []) touched.old touched.new) }
    ensures within { OnOk result ((may : Op → ModelNo → Bool) → may op.Create row.model ≡ true → IsWithin may touched.old → IsWithin may touched.new) }
{
    touched.made.insert(row)?;
    ask(&mut touched.askings, Op::Create, row.model)
}

/// Adds a row that is changed, where it is there.
fn touch_changed<K: Keeper>(
    engine: &mut Engine<'_, K>,
    touched: &mut Touched,
    row: RowKey,
) -> Result<(), Refusal>
    requires model { HasModel engine.old.held.models row.model }
    ensures adds { OnOk result (OfAllTold (TellsFacts (K.kept engine.old.keeper.now) engine.old.held)
        (λ told. Adds (knows_row told) (touch_there (is_there_by told touched.old) op.Write row) touched.old touched.new)) }
    ensures within { OnOk result ((may : Op → ModelNo → Bool) → may op.Write row.model ≡ true → IsWithin may touched.old → IsWithin may touched.new) }
    ensures causes { IfErr result (Refuses (Rose (K.faults engine.old.keeper.now) (K.faults engine.new.keeper.now)) (λ _. ⊥)) }
    ensures same { Stays (K.kept engine.old.keeper.now) engine.old.held (K.kept engine.new.keeper.now) engine.new.held }
    ensures count { K.faults engine.old.keeper.now ≤ K.faults engine.new.keeper.now }
    ensures lender { engine.new.keeper.ghost_name ≡ engine.old.keeper.ghost_name }
{
    if was_there(engine, row)? {
        touched.changed.insert(row)?;
    } else if !touched.made.contains(&row) {
        return Ok(());
    }
    Ok(ask(&mut touched.askings, Op::Write, row.model)?)
}

/// Adds an operation that is asked for, where it isn't among these.
fn ask(askings: &mut Vec<(Op, ModelNo)>, op: Op, model: ModelNo) -> Result<(), NoMemory>
    ensures asked { OnOk result (AsksSame askings.new.items (askings.old.items ++ (op, model) ∷ [])) }
    ensures within { OnOk result ((may : Op → ModelNo → Bool) → may op model ≡ true → All (λ asking. may asking.0 asking.1 ≡ true) askings.old.items
        → All (λ asking. may asking.0 asking.1 ≡ true) askings.new.items) }
{
    if !is_asked(askings.as_slice(), op, model) {
        askings.push((op, model))?;
    }
    Ok(())
}

/// Whether an operation is among some that are asked for.
fn is_asked(askings: &[(Op, ModelNo)], op: Op, model: ModelNo) -> bool
    ensures { IsTrue result → Contains askings.now (op, model) }
{
    for asking in askings {
        if asking.0 == op && asking.1 == model {
            return true;
        }
    }
    false
}

/// Whether a row was there when the engine settled last.
fn was_there<K: Keeper>(engine: &mut Engine<'_, K>, row: RowKey) -> Result<bool, Refusal>
    requires model { HasModel engine.old.held.models row.model }
    ensures told { IfOk result (λ was. OfAllTold (TellsFacts (K.kept engine.old.keeper.now) engine.old.held) (λ told. was ≡ knows_row told row)) }
    ensures causes { IfErr result (Refuses (Rose (K.faults engine.old.keeper.now) (K.faults engine.new.keeper.now)) (λ _. ⊥)) }
    ensures same { Stays (K.kept engine.old.keeper.now) engine.old.held (K.kept engine.new.keeper.now) engine.new.held }
    ensures count { K.faults engine.old.keeper.now ≤ K.faults engine.new.keeper.now }
    ensures lender { engine.new.keeper.ghost_name ≡ engine.old.keeper.ghost_name }
{
    match engine.known(row.model, row.id) {
        Ok(known) => Ok(known),
        Err(ReadFault::Missing) => Ok(false),
        Err(ReadFault::Keeper) => Err(Refusal::Keeper),
        Err(ReadFault::NoMemory) => Err(Refusal::NoMemory),
    }
}

/// The first of some operations that a caller may not do.
pub(crate) fn first_withheld(by: &Caller<'_>, askings: &[(Op, ModelNo)]) -> Option<(Op, ModelNo)>
    ensures { result ≡ first_withheld_by by.now askings.now }
{
    for asking in askings {
        if !may(by, asking.0, asking.1) {
            return Some(*asking);
        }
    }
    None
}

/// Whether rules admit some rows to a caller, which were there when the engine settled last; others
/// are passed over. Refused is the least that one denies.
pub(crate) fn test_touched<K: Keeper>(
    alloc: Global,
    engine: &mut Engine<'_, K>,
    by: &Caller<'_>,
    op: Op,
    rows: &BTreeSet<RowKey>,
) -> Result<(), Refusal>
    requires policy { IsPolicyOver engine.old.held.models by.now.policy.now }
    requires models { All (λ row. HasModel engine.old.held.models row.model) rows.now.keys }
    ensures admits { OnOk result (OfAllTold (TellsFacts (K.kept engine.old.keeper.now) engine.old.held)
        (λ told. AdmitsBy by.now told op (filter (knows_row told) rows.now.keys))) }
    ensures denies { IfErr result (λ why. OfAllTold (TellsFacts (K.kept engine.old.keeper.now) engine.old.held)
        (λ told. Refuses (Rose (K.faults engine.old.keeper.now) (K.faults engine.new.keeper.now)) (DeniesBy by.now told op (filter (knows_row told) rows.now.keys)) why)) }
    ensures causes { IfErr result (Refuses (Rose (K.faults engine.old.keeper.now) (K.faults engine.new.keeper.now)) (DeniesOne op rows.now.keys)) }
    ensures same { Stays (K.kept engine.old.keeper.now) engine.old.held (K.kept engine.new.keeper.now) engine.new.held }
    ensures count { K.faults engine.old.keeper.now ≤ K.faults engine.new.keeper.now }
    ensures lender { engine.new.keeper.ghost_name ≡ engine.old.keeper.ghost_name }
{
    let rows = listed(alloc, rows)?;
    let there = rows_there(alloc, engine, rows.as_slice())?;
    test_rules(alloc, engine, by, op, there.as_slice())
}

/// The rows of a set as a list.
fn listed(alloc: Global, rows: &BTreeSet<RowKey>) -> Result<Vec<RowKey>, NoMemory>
    ensures { IfOk result (λ list. list.items ≡ rows.now.keys) }
{
    Ok(rows.iter().copied().collect(alloc)?)
}

/// Those of some rows that were there when the engine settled last.
fn rows_there<K: Keeper>(
    alloc: Global,
    engine: &mut Engine<'_, K>,
    rows: &[RowKey],
) -> Result<Vec<RowKey>, Refusal>
    requires models { All (λ row. HasModel engine.old.held.models row.model) rows.now }
    ensures told { IfOk result (λ there. OfAllTold (TellsFacts (K.kept engine.old.keeper.now) engine.old.held)
        (λ told. there.items ≡ filter (knows_row told) rows.now)) }
    ensures among { IfOk result (λ there. All (Contains rows.now) there.items) }
    ensures causes { IfErr result (Refuses (Rose (K.faults engine.old.keeper.now) (K.faults engine.new.keeper.now)) (λ _. ⊥)) }
    ensures same { Stays (K.kept engine.old.keeper.now) engine.old.held (K.kept engine.new.keeper.now) engine.new.held }
    ensures count { K.faults engine.old.keeper.now ≤ K.faults engine.new.keeper.now }
    ensures lender { engine.new.keeper.ghost_name ≡ engine.old.keeper.ghost_name }
{
    let mut there = Vec::new(alloc);
    for row in rows {
        if was_there(engine, *row)? {
            there.push(*row)?;
        }
    }
    Ok(there)
}
