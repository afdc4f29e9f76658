//! The fields that expressions are asked about: three models, and what their names stand
//! for. A name has the same number and the same kind in each model that has it. A field that
//! is added gets its place in the table here and its kind in `kind_of`, both here and in
//! `specs/Fields`, and its line in tools/probe_expr.py.

ghost use Rattle.std.specs.Prelude.{◌≡◌};
ghost use Rattle.std.specs.List.{find};
ghost use Rattle.probe_values.specs.Fields.{found_in, has_field, has_name, is_usable, kind_of_field, kind_of_relation};

use ob_base::{FieldNo, ModelNo, NoMemory};
use ob_expr::{Found, Kind, Renumbering, Scope};
use std::alloc::Global;

pub(crate) const ORDER: ModelNo = ModelNo(1);

pub(crate) const PERSON: ModelNo = ModelNo(2);

pub(crate) const LINE: ModelNo = ModelNo(3);

/// The link through which an order has the fields of its owner.
const OWNER: FieldNo = FieldNo(16);

/// Each name with its number and the models that have it: `o` order, `p` person, `l` line.
const TABLE: &str =
    "done:1:ol active:2:p id:3:opl qty:4:ol age:5:p price:6:l hidden:7:o name:8:opl city:9:p key:10:p day:11:ol born:12:p at:13:ol seen:14:p order:15:opl owner:16:ol boss:17:p part:18:opl orders:19:p people:20:o lines:21:o parts:22:l";

/// A field of the table.
#[derive(Clone, Copy)]
struct Entry {
    name: &'static str,
    field: FieldNo,
    of_order: bool,
    of_person: bool,
    of_line: bool,
}

/// The three models.
#[derive(Drop)]
pub(crate) struct Fields {
    entries: Vec<Entry>,
}

impl Fields {
    /// The fields of the table.
    pub(crate) fn new(alloc: Global) -> Result<Fields, NoMemory> {
        let mut entries = Vec::new(alloc);
        for item in TABLE.split(' ') {
            if let Some(entry) = entry_of(item) {
                entries.push(entry)?;
            }
        }
        Ok(Fields { entries })
    }

    /// The entry of a name.
    fn entry(&self, name: &str) -> Option<Entry>
        ensures { result ≡ find (has_name name.now) self.now.entries.items }
    {
        self.entries
            .iter()
            .copied()
            .find(|entry| entry.name == name)
    }

    /// The number of a name.
    pub(crate) fn number_of(&self, name: &str) -> Option<FieldNo> {
        match self.entry(name) {
            Some(entry) => Some(entry.field),
            None => None,
        }
    }

    /// The name of a field.
    pub(crate) fn name_of(&self, field: FieldNo) -> &'static str {
        for entry in &self.entries {
            if entry.field == field {
                return entry.name;
            }
        }
        "?"
    }
}

/// The entry that an item of the table is.
fn entry_of(item: &'static str) -> Option<Entry> {
    let (name, rest) = item.split_once(':')?;
    let (number, models) = rest.split_once(':')?;
    Some(Entry {
        name,
        field: FieldNo(number.parse().ok()?),
        of_order: models.contains('o'),
        of_person: models.contains('p'),
        of_line: models.contains('l'),
    })
}

impl Scope for Fields {
    ghost use Rattle.probe_values.specs.Fields.{finds};

    ghost finds = { λ fields. finds fields.entries.items };

    fn field(&self, model: ModelNo, name: &str) -> Option<Found> {
        let entry = self.entry(name)?;
        found_in(model, entry)
    }
}

/// What a field is in a model: its own, or for an order its owner's.
fn found_in(model: ModelNo, entry: Entry) -> Option<Found>
    ensures { result ≡ found_in model entry }
{
    let via = if has_field(model, entry) {
        None
    } else if model == ORDER && has_field(PERSON, entry) {
        Some((OWNER, PERSON))
    } else {
        return None;
    };
    Some(Found {
        via,
        field: entry.field,
        kind: kind_of(entry.field),
        usable: is_usable(entry.field),
    })
}

/// Whether a model has the field of its own.
fn has_field(model: ModelNo, entry: Entry) -> bool
    ensures { result ≡ has_field model entry }
{
    match model {
        ORDER => entry.of_order,
        PERSON => entry.of_person,
        LINE => entry.of_line,
        _ => false,
    }
}

/// The fields `qty` and `price` change places.
pub(crate) struct Swapped;

impl Renumbering for Swapped {
    ghost use Rattle.std.specs.Prelude.{◌==◌, if◌then◌else◌};

    ghost renumbers = { λ _ _ field.
        if field.0 == 4 then record { 0 = 6 }
        else if field.0 == 6 then record { 0 = 4 }
        else field };

    fn number(&self, _model: ModelNo, field: FieldNo) -> FieldNo {
        match field.0 {
            4 => FieldNo(6),
            6 => FieldNo(4),
            _ => field,
        }
    }
}

/// Whether expressions may name the field: `hidden` and `key` are of no use to them.
fn is_usable(field: FieldNo) -> bool
    ensures { result ≡ is_usable field }
{
    field.0 != 7 && field.0 != 10
}

/// The kind of a field's values.
pub(crate) fn kind_of(field: FieldNo) -> Kind
    ensures { result ≡ kind_of_field field }
{
    let n = field.0;
    if n <= 2 {
        Kind::Bool
    } else if n <= 7 {
        Kind::Int
    } else if n <= 10 {
        Kind::Word
    } else if n <= 12 {
        Kind::Day
    } else if n <= 14 {
        Kind::Moment
    } else {
        kind_of_relation(n)
    }
}

/// The kind of the values of a field that names rows.
fn kind_of_relation(n: u16) -> Kind
    ensures { result ≡ kind_of_relation n }
{
    if n <= 15 {
        Kind::Ref(ORDER)
    } else if n <= 17 {
        Kind::Ref(PERSON)
    } else if n <= 18 {
        Kind::Ref(LINE)
    } else if n <= 19 {
        Kind::Refs(ORDER)
    } else if n <= 20 {
        Kind::Refs(PERSON)
    } else {
        Kind::Refs(LINE)
    }
}

/// The model of a name.
pub(crate) fn model_of(name: &str) -> Option<ModelNo> {
    match name {
        "order" => Some(ORDER),
        "person" => Some(PERSON),
        "line" => Some(LINE),
        _ => None,
    }
}

/// The name of a model.
pub(crate) fn model_name(model: ModelNo) -> &'static str {
    match model {
        ORDER => "order",
        PERSON => "person",
        _ => "line",
    }
}
