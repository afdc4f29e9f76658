//! Sound tables with the value of each computed cell, a condition's too: evaluated once, and
//! read from then on.

ghost use Rattle.std.specs.Prelude.{◌≡◌, ◌↔◌, IfErr, IfOk, IfSome, IsSome, IsSomeAnd, IsTrue, Ok, OnOk, Some, false, true};
ghost use Rattle.std.specs.BTreeMap as tree;
ghost use Rattle.ob_base.specs.BrokenOrder.{cell_order};
ghost use Rattle.ob_cache.specs.Native.{IsNativeRegistry};
ghost use Rattle.ob_cache.specs.Rooms.{AreReadable, AreRight, AreValues, HaveValues, IsIn, IsOf, IsValueIn, KeepsAll, NamesBrokenField, ShowsUnsound};
ghost use Rattle.ob_codec.specs.Held.{HasFieldType};
ghost use Rattle.ob_schema.specs.Broken.{AreSound};
ghost use Rattle.ob_schema.specs.Models.{HasModel, IsRegistry, field_at, is_computed_from, is_delegated_from};
ghost use Rattle.ob_schema.specs.declared.info.Origin.TheVariants as origin;
ghost use Rattle.ob_schema.specs.Tables.{ids_in, row_at};
ghost use Rattle.ob_schema.specs.Val.{val};

use ob_base::limits::MAX_MODELS;
use ob_base::{Cell, FieldNo, ModelNo, NoMemory, RecId, Value, cell_cmp};
use ob_expr::reads_along_paths;
use ob_schema::{Delegation, FieldInfo, Origin, Schema};
use ob_shared::SharedMap;
use ob_tables::{
    ApplyFault, ScratchFault, Tables, Values, ids_are_of_rows, initial_value, sound_values,
};
use std::alloc::Global;
use std::marker::Model;

/// The values of computed cells. Copies share what they have in common.
pub(crate) type CellValues = SharedMap<Cell, Value>;

/// Tables of a registry; contracts see the tables.
#[derive(Drop)]
pub(crate) struct Whole<'a> {
    alloc: Global,
    schema: &'a Schema,
    tables: Tables<'a>,
    values: CellValues,
}

impl<'a> Model for Whole<'a> {
    ghost use Rattle.ob_cache.specs.Rooms.{AreWhole};
    ghost use Rattle.ob_schema.specs.Tables.{Standing};
    ghost use Rattle.ob_expr.specs.contracts.typed.Typed as typed;
    ghost use Rattle.std.specs.Coded.{codes};
    ghost use Rattle.ob_tables.specs.Coding.{coded_standing};

    ghost coded = { coded_standing (Prim.hlevel (codes, typed.the_row.coded)) (Prim.hlevel codes) };

    ghost Value = { Standing };

    ghost view = { λ w. w.tables };

    ghost invariant = { λ w. AreWhole w.schema.now w.tables w.values };
}

impl<'a> Whole<'a> {
    /// Tables with their values, if nothing is broken in them; else the first that is.
    pub(crate) fn of(
        alloc: Global,
        schema: &'a Schema,
        tables: Tables<'a>,
    ) -> Result<Whole<'a>, ApplyFault>
        requires over { tables.models ≡ schema.now }
        requires native { IsNativeRegistry schema.now }
        ensures whole { IfOk result (λ whole. whole ≡ tables.entry) }
        ensures sound { IfOk result (λ _. AreSound tables.entry.models tables.entry.tables) }
        ensures fault { IfErr result (ShowsUnsound tables.entry) }
        ensures field { IfErr result (NamesBrokenField schema.now) }
    {
        tables.fit_together();
        if let Some(broken) = tables.broken()? {
            return Err(ApplyFault::Broken(broken));
        }
        let values = values_of(alloc, schema, &tables)?;
        Ok(Whole {
            alloc,
            schema,
            tables,
            values,
        })
    }

    /// Sound tables with the values of their computed cells.
    pub(crate) fn with(
        alloc: Global,
        schema: &'a Schema,
        tables: Tables<'a>,
        values: CellValues,
    ) -> Whole<'a>
        requires over { tables.models ≡ schema.now }
        requires native { IsNativeRegistry schema.now }
        requires sound { AreSound tables.models tables.tables }
        requires values { AreValues tables.models tables.tables values }
        ensures { result ≡ tables.entry }
    {
        Whole {
            alloc,
            schema,
            tables,
            values,
        }
    }

    /// The registry over which the tables stand.
    pub(crate) fn schema(&self) -> &'a Schema
        ensures { result.now ≡ self.now.models }
    {
        self.schema
    }

    pub(crate) fn tables(&self) -> &Tables<'a>
        ensures { result.now ≡ self.now }
    {
        &self.tables
    }

    /// The values of the computed cells.
    pub(crate) fn values(&self) -> &CellValues
        ensures { AreValues self.now.models self.now.tables result.now }
    {
        &self.values
    }

    /// What holds of all of them.
    pub(crate) fn laws(&self)
        ensures registry { IsRegistry self.now.models }
        ensures native { IsNativeRegistry self.now.models }
        ensures readable { AreReadable self.now.models self.now.tables }
    {
        self.tables.fit_together();
        // The law of sound tables: each of their cells has a value, which its field may hold.
        sound_values();
    }

    /// The value of a cell; none exactly where its row isn't there.
    pub(crate) fn value(&self, cell: Cell) -> Result<Option<Value>, NoMemory>
        requires { IsSome (field_at self.now.models cell.model cell.field) }
        ensures told { IfOk result (IsValueIn self.now cell) }
        ensures typed { IfOk result (λ told. IfSome told (HasFieldType (field_at self.now.models cell.model cell.field))) }
    {
        self.laws();
        let info = self.schema.info(cell.model, cell.field);
        match &info.origin {
            Origin::Id | Origin::Plain => self.tables.plain(cell),
            Origin::Computed(_) => self.computed(cell),
            Origin::Delegated(at) => self.value_behind(cell, *at, info),
        }
    }

    /// The value of a computed cell; none exactly where its row isn't there.
    fn computed(&self, cell: Cell) -> Result<Option<Value>, NoMemory>
        requires { IsSomeAnd (field_at self.now.models cell.model cell.field) (λ info. is_computed_from info.origin ≡ true) }
        ensures told { IfOk result (IsValueIn self.now cell) }
        ensures typed { IfOk result (λ told. IfSome told (HasFieldType (field_at self.now.models cell.model cell.field))) }
    {
        self.laws();
        match self.values.get(&cell) {
            Some(value) => Ok(Some(value.try_clone(self.alloc)?)),
            None => Ok(None),
        }
    }

    /// The value of a delegated cell; none exactly where its row isn't there.
    fn value_behind(
        &self,
        cell: Cell,
        at: Delegation,
        info: &FieldInfo,
    ) -> Result<Option<Value>, NoMemory>
        requires field { field_at self.now.models cell.model cell.field ≡ Some info.now }
        requires delegated { info.now.origin ≡ origin.Delegated at }
        ensures told { IfOk result (IsValueIn self.now cell) }
        ensures typed { IfOk result (λ told. IfSome told (HasFieldType (field_at self.now.models cell.model cell.field))) }
    {
        self.laws();
        reads_along_paths();
        let link = Cell {
            field: at.link,
            ..cell
        };
        let Some(value) = self.tables.plain(link)? else {
            return Ok(None);
        };
        match value {
            Value::Ref(id) => self.own_value(Cell {
                model: at.model,
                id,
                field: at.field,
            }),
            _ => Ok(Some(initial_value(self.alloc, info.field_type))),
        }
    }

    /// The value of a cell that isn't delegated; none exactly where its row isn't there.
    fn own_value(&self, cell: Cell) -> Result<Option<Value>, NoMemory>
        requires { IsSomeAnd (field_at self.now.models cell.model cell.field) (λ info. is_delegated_from info.origin ≡ false) }
        ensures told { IfOk result (IsValueIn self.now cell) }
        ensures typed { IfOk result (λ told. IfSome told (HasFieldType (field_at self.now.models cell.model cell.field))) }
    {
        self.laws();
        let info = self.schema.info(cell.model, cell.field);
        match &info.origin {
            Origin::Computed(_) => self.computed(cell),
            _ => self.tables.plain(cell),
        }
    }
}

/// The values of all computed cells.
fn values_of(alloc: Global, schema: &Schema, tables: &Tables<'_>) -> Result<CellValues, NoMemory>
    requires models { tables.now.models ≡ schema.now }
    requires sound { AreSound tables.now.models tables.now.tables }
    ensures { IfOk result (AreValues tables.now.models tables.now.tables) }
{
    tables.fit_together();
    let mut source = Values::of(tables)?;
    let mut values = SharedMap::new(alloc);
    for place in 0..MAX_MODELS {
        let model = ModelNo(place as u16 + 1);
        add_model(schema, tables, model, &mut source, &mut values)?;
    }
    Ok(values)
}

/// Adds the values of the computed cells of a model, if it is there.
fn add_model(
    schema: &Schema,
    tables: &Tables<'_>,
    model: ModelNo,
    source: &mut Values<'_, '_>,
    values: &mut CellValues,
) -> Result<(), NoMemory>
    requires tables { source.old ≡ tables.now }
    requires models { source.old.models ≡ schema.now }
    requires sound { AreSound source.old.models source.old.tables }
    requires right { AreRight source.old.models source.old.tables values.old }
    ensures same { source.new ≡ source.old }
    ensures right { OnOk result (AreRight source.old.models source.old.tables values.new) }
    ensures kept { OnOk result (KeepsAll values.old values.new) }
    ensures values { OnOk result (HaveValues source.old.models source.old.tables (IsOf model) values.new) }
{
    let Some(info) = schema.find_model(model) else {
        return Ok(());
    };
    // The law of the registry: a model has fewer fields than there are numbers.
    tables.fit_together();
    let ids = tables.ids(model)?;
    for place in 0..info.fields.len() + info.hidden.len() {
        let field = FieldNo(place as u16 + 1);
        add_column(schema, model, field, ids.as_slice(), source, values)?;
    }
    Ok(())
}

/// Adds the values of the cells of a field, if it is computed.
fn add_column(
    schema: &Schema,
    model: ModelNo,
    field: FieldNo,
    ids: &[RecId],
    source: &mut Values<'_, '_>,
    values: &mut CellValues,
) -> Result<(), NoMemory>
    requires model { HasModel source.old.models model }
    requires ids { ids.now ≡ ids_in source.old.tables model }
    requires models { source.old.models ≡ schema.now }
    requires registry { IsRegistry source.old.models }
    requires sound { AreSound source.old.models source.old.tables }
    requires right { AreRight source.old.models source.old.tables values.old }
    ensures same { source.new ≡ source.old }
    ensures right { OnOk result (AreRight source.old.models source.old.tables values.new) }
    ensures kept { OnOk result (KeepsAll values.old values.new) }
    ensures values { OnOk result (HaveValues source.old.models source.old.tables (IsIn model field) values.new) }
{
    if !is_computed(schema, model, field) {
        return Ok(());
    }
    // The law of ids: each is that of a row.
    ids_are_of_rows();
    for id in ids {
        let id = *id;
        add_value(Cell { model, id, field }, source, values)?;
    }
    Ok(())
}

/// Adds the value of a computed cell of a row that is there.
fn add_value(
    cell: Cell,
    source: &mut Values<'_, '_>,
    values: &mut CellValues,
) -> Result<(), NoMemory>
    requires field { IsSomeAnd (field_at source.old.models cell.model cell.field) (λ info. is_computed_from info.origin ≡ true) }
    requires row { IsSome (row_at source.old.tables cell.model cell.id) }
    requires registry { IsRegistry source.old.models }
    requires sound { AreSound source.old.models source.old.tables }
    requires right { AreRight source.old.models source.old.tables values.old }
    ensures same { source.new ≡ source.old }
    ensures right { OnOk result (AreRight source.old.models source.old.tables values.new) }
    ensures kept { OnOk result (KeepsAll values.old values.new) }
    ensures there { OnOk result (IsSome (tree.get cell_order values.new cell)) }
{
    // The law of the order of cells: it tells any two apart.
    let _order = cell_cmp(&cell, &cell);
    let value = value_in(source, cell)?;
    values.insert(cell, value)?;
    Ok(())
}

/// Whether a formula computes a field.
fn is_computed(schema: &Schema, model: ModelNo, field: FieldNo) -> bool
    ensures { IsTrue result ↔ IsSomeAnd (field_at schema.now model field) (λ info. is_computed_from info.origin ≡ true) }
{
    match schema.find_field(model, field) {
        Some(info) => matches!(info.origin, Origin::Computed(_)),
        None => false,
    }
}

/// The value of a cell of a row that is there.
fn value_in(source: &mut Values<'_, '_>, cell: Cell) -> Result<Value, NoMemory>
    requires field { IsSome (field_at source.old.models cell.model cell.field) }
    requires row { IsSome (row_at source.old.tables cell.model cell.id) }
    requires registry { IsRegistry source.old.models }
    requires sound { AreSound source.old.models source.old.tables }
    ensures same { source.new ≡ source.old }
    ensures value { IfOk result (λ value. val source.old.models source.old.tables cell ≡ Ok value) }
{
    // The law of sound tables: each of their cells has a value.
    sound_values();
    match source.value(cell) {
        Ok(value) => Ok(value),
        Err(fault) => match fault {
            ScratchFault::NoMemory => Err(NoMemory),
            _ => unreachable!(),
        },
    }
}
