//! Facts about rows from JSON: the `rows` of a case are a list, each `[MODEL, ID, VALUES]`, where
//! VALUES is an object. A date and a moment are the texts that name them; a field without a
//! value, or with `false`, is unset, 0, false or empty; a value of another type than its field's
//! fails the question. Rows that aren't listed aren't known.
//! With `answered` so many questions about each row that is asked for are answered.

ghost use Rattle.std.specs.Prelude.{◌≡◌};

use crate::unanswered::Unanswered;
use ob_base::{Cell, FieldNo, ModelNo, RecId, RefList, Sequence, Value};
use ob_dates::{day_of, moment_of};
use ob_domain::Json;
use ob_schema::{Facts, FieldInfo, FieldType, Origin, Schema};
use ob_tables::is_givable;
use probe_parts::parts::{id_of, ids_of, items_of, list_part, text_of};
use probe_parts::told::Told;
use probe_parts::words::plain_word;
use std::alloc::Global;
use std::collections::BTreeMap;

/// The number of a field that each model has.
const SOME_FIELD: FieldNo = FieldNo(1);

/// Rows that are known, each cell with its value.
#[derive(Drop)]
pub(crate) struct RowFacts<'s> {
    alloc: Global,
    schema: &'s Schema,
    cells: BTreeMap<Cell, Value>,
    /// How many questions about a row that is asked for are answered.
    pub(crate) answered: u64,
    /// How many questions are answered from here on.
    pub(crate) left: u64,
    /// Whether a question that was asked wasn't to be answered.
    pub(crate) has_failed: bool,
}

impl<'s> RowFacts<'s> {
    /// The facts of a case.
    pub(crate) fn of(
        alloc: Global,
        told: &mut Told,
        schema: &'s Schema,
        case: &Json,
    ) -> RowFacts<'s>
        ensures { result.schema.now ≡ schema.now }
    {
        let answered = match case.get("answered") {
            Some(count) => id_of(told, count).0,
            None => u64::MAX,
        };
        let mut facts = RowFacts {
            alloc,
            schema,
            cells: BTreeMap::new(alloc),
            answered,
            left: answered,
            has_failed: false,
        };
        let rows = list_part(told, case, "rows");
        facts.add_all(told, rows);
        facts
    }

    /// Adds rows.
    fn add_all(&mut self, told: &mut Told, rows: &[Json])
        ensures { self.new.schema.now ≡ self.old.schema.now }
    {
        for row in rows {
            self.add(told, row);
        }
    }

    /// The registry of their models.
    pub(crate) fn schema(&self) -> &'s Schema
        ensures { result.now ≡ self.now.schema.now }
    {
        self.schema
    }

    /// Adds a row.
    fn add(&mut self, told: &mut Told, row: &Json)
        ensures { self.new.schema.now ≡ self.old.schema.now }
    {
        let [name, id, values] = items_of(told, row) else {
            return told.refuse();
        };
        let name = text_of(told, name);
        let schema = self.schema;
        let Some(model) = schema.model(name) else {
            return told.refuse();
        };
        let id = id_of(told, id);
        for (place, field) in schema.fields(model).iter().enumerate() {
            let cell = Cell {
                model,
                id,
                field: FieldNo(place as u16 + 1),
            };
            self.add_cell(told, cell, field, values);
        }
    }

    /// Adds the value of a field of a row.
    fn add_cell(&mut self, told: &mut Told, cell: Cell, field: &FieldInfo, values: &Json)
        ensures { self.new.schema.now ≡ self.old.schema.now }
    {
        let json = values.get(field.name.as_str());
        let value = cell_value(self.alloc, told, field, cell.id, json);
        if self.cells.insert(cell, value).is_err() {
            told.lack();
        }
    }

    /// The ids of a model's rows.
    pub(crate) fn ids(&self, told: &mut Told, model: ModelNo) -> Sequence<RecId> {
        let mut ids = Sequence::new(self.alloc);
        for cell in self.cells.keys() {
            if cell.model == model && cell.field == SOME_FIELD {
                told.add(&mut ids, cell.id);
            }
        }
        ids
    }
}

impl Facts for RowFacts<'_> {
    ghost use Rattle.std.specs.BTreeMap.{get};
    ghost use Rattle.std.specs.Prelude.{is_some, unwrap_or};
    ghost use Rattle.ob_base.specs.declared.value.Value.TheVariants as value;

    type Fault = Unanswered;

    ghost registry = { λ rows. rows.schema.now };

    ghost tells = { λ rows told. told ≡ record {
      knows = λ model id. is_some (get ⟦<Cell as Ord>⟧.cmp rows.cells (record { model = model; id = id; field = record { 0 = 1 } }));
      held = λ cell. unwrap_or (get ⟦<Cell as Ord>⟧.cmp rows.cells cell) value.Nil;
    } };

    ghost asks = { λ _ _. Unit {0} };

    ghost has_failed = { λ _ _ _. Unit {0} };

    fn known(&mut self, model: ModelNo, id: RecId) -> Result<bool, Unanswered> {
        self.left = self.left.checked_sub(1).ok_or(Unanswered::Failed)?;
        let field = SOME_FIELD;
        Ok(self.cells.contains_key(&Cell { model, id, field }))
    }

    fn value(&mut self, cell: Cell) -> Result<Value, Unanswered> {
        self.left = self.left.checked_sub(1).ok_or(Unanswered::Failed)?;
        let field = self.schema.info(cell.model, cell.field);
        match self.cells.get(&cell) {
            Some(value) if is_givable(field, value) => Ok(value.try_clone(self.alloc)?),
            _ => Err(Unanswered::Failed),
        }
    }
}

/// The value of a field of a row, or what stands for nothing.
fn cell_value(
    alloc: Global,
    told: &mut Told,
    field: &FieldInfo,
    id: RecId,
    json: Option<&Json>,
) -> Value {
    if let Origin::Id = &field.origin {
        return Value::Int(told.found(i64::try_from(id.0).ok(), 0));
    }
    match json {
        Some(json) => given_value(alloc, told, field.field_type, json),
        None => empty_value(alloc, field.field_type),
    }
}

/// What JSON gives a field of the type.
fn given_value(alloc: Global, told: &mut Told, field_type: FieldType, json: &Json) -> Value {
    match json {
        Json::Bool(flag) if field_type == FieldType::Boolean => Value::Bool(*flag),
        Json::Number(_) if field_type == FieldType::Integer => {
            Value::Int(told.found(json.as_i64(), 0))
        }
        Json::Number(_) => Value::Ref(id_of(told, json)),
        Json::String(text) => text_value(alloc, told, field_type, text.as_str()),
        Json::Array(_) => Value::Refs(ids_of(alloc, told, json)),
        _ => empty_value(alloc, field_type),
    }
}

/// What a text gives a field of the type.
fn text_value(alloc: Global, told: &mut Told, field_type: FieldType, text: &str) -> Value {
    match field_type {
        FieldType::Date => Value::Day(told.found(day_of(text), 0)),
        FieldType::Datetime => Value::Moment(told.found(moment_of(text), 0)),
        _ => Value::Word(plain_word(alloc, told, text)),
    }
}

/// What stands for nothing.
fn empty_value(alloc: Global, field_type: FieldType) -> Value {
    match field_type {
        FieldType::Boolean => Value::Bool(false),
        FieldType::Integer => Value::Int(0),
        FieldType::One2many | FieldType::Many2many => Value::Refs(RefList::new(alloc)),
        _ => Value::Nil,
    }
}
