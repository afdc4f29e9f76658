//! The cells that expressions read: what a line gives them, and which were read, in their
//! turn. A value is `-` where it is unset, `yes` or `no`, a number, an id, ids with commas
//! between them, or `COUNT*TEXT`, a text so many times, written as `probe_parts::words` has it.

ghost use Rattle.std.specs.Prelude.{◌≡◌, Some};
ghost use Rattle.ob_base.specs.declared.id.Cell.{Cell};
ghost use Rattle.ob_base.specs.declared.value.Value.{Value};
ghost use Rattle.ob_expr.specs.Kinds.{HasKind};
ghost use Rattle.probe_values.specs.Fields.{has_kind, kind_of_field};

use crate::fields::{Fields, kind_of, model_name, model_of};
use ob_base::{Cell, FieldNo, ModelNo, NoMemory, RecId, RefList, Value, Word};
use ob_expr::{Kind, Reads};
use probe_parts::items::{Parts, flag_of, id_of, number_of as integer_of};
use probe_parts::parts::add_id;
use probe_parts::told::Told;
use probe_parts::words::repeated;
use std::alloc::Global;
use std::collections::BTreeMap;

/// Why a cell wasn't read.
#[derive(Debug, Drop)]
pub(crate) enum Unread {
    NoValue,
    NoMemory,
}

impl From<NoMemory> for Unread {
    fn from(_error: NoMemory) -> Unread {
        Unread::NoMemory
    }
}

/// The cells, and which were read.
#[derive(Drop)]
pub(crate) struct Cells {
    alloc: Global,
    values: BTreeMap<Cell, Value>,
    /// Whether what is read is kept, and what was.
    keeps: bool,
    read: Vec<Cell>,
}

impl Cells {
    /// The cells of a text, `MODEL:ID:FIELD:VALUE` each; the last value of a cell counts.
    pub(crate) fn of(alloc: Global, told: &mut Told, fields: &Fields, text: &str) -> Cells {
        let mut cells = Cells {
            alloc,
            values: BTreeMap::new(alloc),
            keeps: false,
            read: Vec::new(alloc),
        };
        for word in text.split_whitespace() {
            cells.add(told, fields, word);
        }
        cells
    }

    /// Adds the cell of a word and its value.
    fn add(&mut self, told: &mut Told, fields: &Fields, word: &str) {
        let (cell, part) = cell_and_part(told, fields, word);
        let value = value_of(self.alloc, told, kind_of(cell.field), part);
        if self.values.insert(cell, value).is_err() {
            told.lack();
        }
    }

    /// A law for whoever evaluates over them: what a cell holds is of its field's kind.
    pub(crate) fn hold_their_kinds(&self)
        ensures { (cell : Cell) (v : Value) → ⟦<Cells as Reads>⟧.held self.now cell ≡ Some v → HasKind (kind_of_field cell.field) v }
    {}

    /// From now on what is read is kept.
    pub(crate) fn keep_reads(&mut self) {
        self.keeps = true;
    }

    /// Adds the cells that were read.
    pub(crate) fn put_reads(&self, told: &mut Told, fields: &Fields) {
        for cell in &self.read {
            told.put(" ");
            told.put(model_name(cell.model));
            told.put(":");
            told.put_count(cell.id.0);
            told.put(":");
            told.put(fields.name_of(cell.field));
        }
    }
}

impl Reads for Cells {
    ghost use Rattle.std.specs.Prelude.{IsTrue, true};
    ghost use Rattle.std.specs.BTreeMap.{get};
    ghost use Rattle.probe_values.specs.Fields.{of_kind, kind_of_field};

    type Fault = Unread;

    ghost held = { λ cells cell. of_kind (kind_of_field cell.field) (get ⟦<Cell as Ord>⟧.cmp cells.values cell) };

    ghost can_read = { λ _ _. IsTrue true };

    ghost has_failed = { λ _ _ _. Unit {0} };

    fn value(&mut self, cell: Cell) -> Result<Value, Unread> {
        if self.keeps && self.read.push(cell).is_err() {
            return Err(Unread::NoMemory);
        }
        match self.values.get(&cell) {
            Some(value) if has_kind(kind_of(cell.field), value) => Ok(value.try_clone(self.alloc)?),
            _ => Err(Unread::NoValue),
        }
    }
}

/// Whether a value is of the kind.
fn has_kind(kind: Kind, value: &Value) -> bool
    ensures { result ≡ has_kind kind value.now }
{
    match kind {
        Kind::Bool => matches!(value, Value::Bool(_)),
        Kind::Int => matches!(value, Value::Int(_)),
        Kind::Word => matches!(value, Value::Nil | Value::Word(_)),
        Kind::Day => matches!(value, Value::Nil | Value::Day(_)),
        Kind::Moment => matches!(value, Value::Nil | Value::Moment(_)),
        Kind::Ref(_) => matches!(value, Value::Nil | Value::Ref(_)),
        Kind::Refs(_) => matches!(value, Value::Refs(_)),
    }
}

/// A cell, and the part of its word that is its value.
fn cell_and_part<'a>(told: &mut Told, fields: &Fields, word: &'a str) -> (Cell, &'a str) {
    let mut parts = Parts::of(word);
    let model = told.found(model_of(parts.text()), ModelNo(0));
    let id = parts.id();
    let field = told.found(fields.number_of(parts.text()), FieldNo(0));
    let part = parts.text();
    if !parts.are_read() {
        told.refuse();
    }
    (Cell { model, id, field }, part)
}

/// The value that a part gives a field of the kind.
pub(crate) fn value_of(alloc: Global, told: &mut Told, kind: Kind, part: &str) -> Value {
    if part == "-" {
        return Value::Nil;
    }
    match kind {
        Kind::Bool => Value::Bool(told.found(flag_of(part), false)),
        Kind::Int => Value::Int(told.found(integer_of(part), 0)),
        Kind::Word => Value::Word(Word::new(repeated(alloc, told, part))),
        Kind::Day => Value::Day(told.found(part.parse().ok(), 0)),
        Kind::Moment => Value::Moment(told.found(integer_of(part), 0)),
        Kind::Ref(_) => Value::Ref(told.found(id_of(part), RecId(0))),
        Kind::Refs(_) => Value::Refs(ids_of(alloc, told, part)),
    }
}

/// The ids of a part, which rise.
fn ids_of(alloc: Global, told: &mut Told, part: &str) -> RefList {
    let mut ids = RefList::new(alloc);
    for word in part.split(',') {
        if !word.is_empty() {
            let id = told.found(id_of(word), RecId(0));
            add_id(told, &mut ids, id);
        }
    }
    ids
}
