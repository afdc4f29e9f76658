//! Which keys the tables of a module's text have. A key of the format that is added has its
//! line here and in `specs/Keys`, and its meaning in `definitions` and `specs/Meaning`.

ghost use Rattle.std.specs.Prelude.{◌≡◌, IfOk, is_none};
ghost use Rattle.ob_definition.specs.Names.{is_field_name as is_name_of_field};
ghost use Rattle.toml.specs.Data.{table};
ghost use Rattle.toml.specs.View.{table_view, view};
ghost use Rattle.ob_module.specs.Forms as forms;
ghost use Rattle.ob_module.specs.Keys as spec;
ghost use Rattle.ob_module.specs.Rooms.{type_key};

use crate::form::{
    AnyKey, AnyTable, Constant, Flag, Form, Keys, ListOf, PairOf, TableOf, Text, absent,
    wrong_member,
};
use crate::tables::has;
use crate::wrong::Wrong;
use ob_base::NoMemory;
use ob_definition::is_field_name;
use std::alloc::Global;
use toml::{Table, Value};

/// Any list of texts.
const TEXTS: ListOf<Text<'static>> = ListOf { items: Text::Any };

/// The keys of a selection, each with its words.
const CHOICES: ListOf<PairOf<Text<'static>, Text<'static>>> = ListOf {
    items: PairOf {
        first: Text::Any,
        second: Text::Any,
    },
};

/// Checks, by any name.
const CHECKS: TableOf<AnyKey<Text<'static>>> = TableOf {
    keys: AnyKey { values: Text::Any },
};

/// The keys of a field.
#[derive(Clone, Copy)]
struct FieldKeys;

impl Keys for FieldKeys {
    ghost keys = { λ _. spec.among spec.field_keys };

    ghost missing = { λ _. forms.absent type_key };

    fn wrong(&self, alloc: Global, key: &str, value: &Value) -> Result<Option<Wrong>, NoMemory> {
        match key {
            "type" => Text::FieldType.wrong(alloc, value),
            "ondelete" => Text::OnDelete.wrong(alloc, value),
            "default" => Constant.wrong(alloc, value),
            "string" | "compute" | "related" | "relation" | "inverse" | "mirror" => {
                Text::Any.wrong(alloc, value)
            }
            "required" | "store" | "recursive" | "managed" | "fixed" | "secret" => {
                Flag.wrong(alloc, value)
            }
            "depends" | "groups" => TEXTS.wrong(alloc, value),
            "selection" => CHOICES.wrong(alloc, value),
            _ => Ok(Some(Wrong::here(alloc))),
        }
    }

    fn missing(&self, table: &Table) -> Option<&'static str> {
        absent(table, "type")
    }
}

/// A list of pairs of a text and a text of this form.
fn pairs<'n>(second: Text<'n>) -> ListOf<PairOf<Text<'static>, Text<'n>>>
    ensures { result ≡ record { items = record { first = Text.Any; second = second.entry } } }
{
    ListOf {
        items: PairOf {
            first: Text::Any,
            second,
        },
    }
}

/// The fields of a model, by name.
#[derive(Clone, Copy)]
struct Fields;

impl Keys for Fields {
    ghost keys = { λ _. forms.keys_where is_name_of_field spec.field };

    ghost missing = { λ _. forms.no_key };

    fn wrong(&self, alloc: Global, key: &str, value: &Value) -> Result<Option<Wrong>, NoMemory> {
        if is_field_name(key) {
            TableOf { keys: FieldKeys }.wrong(alloc, value)
        } else {
            Ok(Some(Wrong::here(alloc)))
        }
    }

    fn missing(&self, _table: &Table) -> Option<&'static str> {
        None
    }
}

/// The keys of a model.
#[derive(Clone, Copy)]
struct ModelKeys;

impl Keys for ModelKeys {
    ghost keys = { λ _. spec.among spec.model_keys };

    ghost missing = { λ _. spec.missing_name };

    fn wrong(&self, alloc: Global, key: &str, value: &Value) -> Result<Option<Wrong>, NoMemory> {
        match key {
            "name" => Text::ModelName.wrong(alloc, value),
            "inherit" | "order" | "parent" | "locked" => Text::Any.wrong(alloc, value),
            "inherits" => pairs(Text::FieldName).wrong(alloc, value),
            "unique" => ListOf { items: TEXTS }.wrong(alloc, value),
            "check" => CHECKS.wrong(alloc, value),
            "managed" => Flag.wrong(alloc, value),
            "field" => TableOf { keys: Fields }.wrong(alloc, value),
            _ => Ok(Some(Wrong::here(alloc))),
        }
    }

    fn missing(&self, table: &Table) -> Option<&'static str> {
        if has(table, "inherit") {
            None
        } else {
            absent(table, "name")
        }
    }
}

/// The keys of a group.
#[derive(Clone, Copy)]
struct GroupKeys;

impl Keys for GroupKeys {
    ghost use Rattle.std.specs.Prelude.{codes};

    ghost keys = { λ _. spec.among spec.group_keys };

    ghost missing = { λ _. forms.absent (codes "name") };

    fn wrong(&self, alloc: Global, key: &str, value: &Value) -> Result<Option<Wrong>, NoMemory> {
        match key {
            "name" => Text::Any.wrong(alloc, value),
            "implies" => TEXTS.wrong(alloc, value),
            _ => Ok(Some(Wrong::here(alloc))),
        }
    }

    fn missing(&self, table: &Table) -> Option<&'static str> {
        absent(table, "name")
    }
}

/// The keys of an access line.
#[derive(Clone, Copy)]
struct AccessKeys;

impl Keys for AccessKeys {
    ghost use Rattle.std.specs.Prelude.{codes};

    ghost keys = { λ _. spec.among spec.access_keys };

    ghost missing = { λ _. forms.absent (codes "model") };

    fn wrong(&self, alloc: Global, key: &str, value: &Value) -> Result<Option<Wrong>, NoMemory> {
        match key {
            "model" | "group" => Text::Any.wrong(alloc, value),
            "read" | "create" | "write" | "unlink" => Flag.wrong(alloc, value),
            _ => Ok(Some(Wrong::here(alloc))),
        }
    }

    fn missing(&self, table: &Table) -> Option<&'static str> {
        absent(table, "model")
    }
}

/// The keys of a rule.
#[derive(Clone, Copy)]
struct RuleKeys;

impl Keys for RuleKeys {
    ghost use Rattle.std.specs.Prelude.{◌∷◌, [], codes};

    ghost keys = { λ _. spec.among spec.rule_keys };

    ghost missing = { λ _. forms.first_absent (codes "domain" ∷ codes "model" ∷ codes "name" ∷ []) };

    fn wrong(&self, alloc: Global, key: &str, value: &Value) -> Result<Option<Wrong>, NoMemory> {
        match key {
            "name" | "model" | "domain" => Text::Any.wrong(alloc, value),
            "groups" => TEXTS.wrong(alloc, value),
            "ops" => ListOf { items: Text::Op }.wrong(alloc, value),
            _ => Ok(Some(Wrong::here(alloc))),
        }
    }

    fn missing(&self, table: &Table) -> Option<&'static str> {
        if !has(table, "domain") {
            Some("domain")
        } else if !has(table, "model") {
            Some("model")
        } else {
            absent(table, "name")
        }
    }
}

/// The keys of a row.
#[derive(Clone, Copy)]
struct RowKeys;

impl Keys for RowKeys {
    ghost use Rattle.std.specs.Prelude.{◌∷◌, [], codes};

    ghost keys = { λ _. spec.among spec.row_keys };

    ghost missing = { λ _. forms.first_absent (codes "model" ∷ codes "ref" ∷ codes "values" ∷ []) };

    fn wrong(&self, alloc: Global, key: &str, value: &Value) -> Result<Option<Wrong>, NoMemory> {
        match key {
            "model" | "ref" => Text::Any.wrong(alloc, value),
            "values" => AnyTable.wrong(alloc, value),
            _ => Ok(Some(Wrong::here(alloc))),
        }
    }

    fn missing(&self, table: &Table) -> Option<&'static str> {
        if !has(table, "model") {
            Some("model")
        } else if !has(table, "ref") {
            Some("ref")
        } else {
            absent(table, "values")
        }
    }
}

/// The key of what names a row.
#[derive(Clone, Copy)]
struct ReferenceKeys;

impl Keys for ReferenceKeys {
    ghost use Rattle.std.specs.Prelude.{codes};

    ghost keys = { λ _. spec.among spec.reference_keys };

    ghost missing = { λ _. forms.absent (codes "ref") };

    fn wrong(&self, alloc: Global, key: &str, value: &Value) -> Result<Option<Wrong>, NoMemory> {
        match key {
            "ref" => Text::Any.wrong(alloc, value),
            _ => Ok(Some(Wrong::here(alloc))),
        }
    }

    fn missing(&self, table: &Table) -> Option<&'static str> {
        absent(table, "ref")
    }
}

/// Whether a value is a table that names a row and does nothing else.
pub fn is_reference(alloc: Global, value: &Value) -> Result<bool, NoMemory>
    ensures { IfOk result (λ is. is ≡ is_none (spec.reference_table (view value.now))) }
{
    let wrong = TableOf {
        keys: ReferenceKeys,
    }
    .wrong(alloc, value)?;
    Ok(wrong.is_none())
}

/// The keys of a document, which says the name of its module.
#[derive(Clone, Copy)]
struct DocumentKeys<'n> {
    name: &'n str,
}

impl<'n> Keys for DocumentKeys<'n> {
    ghost use Rattle.std.specs.Prelude.{codes};

    ghost keys = { λ d. spec.among (spec.document_keys d.name.now) };

    ghost missing = { λ _. forms.absent (codes "name") };

    fn wrong(&self, alloc: Global, key: &str, value: &Value) -> Result<Option<Wrong>, NoMemory> {
        match key {
            "name" => Text::Exactly(self.name).wrong(alloc, value),
            "depends" => TEXTS.wrong(alloc, value),
            "model" => listed(alloc, ModelKeys, value),
            "group" => listed(alloc, GroupKeys, value),
            "access" => listed(alloc, AccessKeys, value),
            "rule" => listed(alloc, RuleKeys, value),
            "row" => listed(alloc, RowKeys, value),
            _ => Ok(Some(Wrong::here(alloc))),
        }
    }

    fn missing(&self, table: &Table) -> Option<&'static str> {
        absent(table, "name")
    }
}

/// Where a list of tables with these keys breaks its form first.
fn listed<K: Keys + Copy>(alloc: Global, keys: K, value: &Value) -> Result<Option<Wrong>, NoMemory>
    ensures { IfOk result (λ found. found ≡ forms.list_of
        (forms.table_of (K.keys keys) (K.missing keys)) (view value.now)) }
{
    let tables = ListOf {
        items: TableOf { keys },
    };
    tables.wrong(alloc, value)
}

/// Where the document of a module of this name breaks its form first.
pub fn wrong_document(
    alloc: Global,
    name: &str,
    document: &Table,
) -> Result<Option<Wrong>, NoMemory>
    ensures { IfOk result
        (λ found. found ≡ spec.document name.now (table (table_view document.now))) }
{
    wrong_member(alloc, &DocumentKeys { name }, document)
}
