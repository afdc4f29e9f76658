//! How a field of a registry is told. `through=LINK:MODEL:FIELD` is where a delegated field's
//! value stands, `computed=KIND:STRATUM` a formula: in `depends` each step of a path is
//! `MODEL:FIELD`, in `reads` the number of a field, with a dot between two.

use crate::told_models::{put_flag, put_number, put_place};
use ob_base::Word;
use ob_expr::Path as ReadPath;
use ob_schema::{Choice, FieldInfo, FieldType, Formula, OnDelete, Origin, Path};
use probe_parts::told::{Told, put_text, put_value};
use std::alloc::Global;

/// Adds a field.
pub(crate) fn put_field(alloc: Global, told: &mut Told, field: &FieldInfo) {
    told.put(field.name.as_str());
    put_type(told, field.field_type);
    put_text(alloc, told, field.string.as_str());
    put_origin(alloc, told, &field.origin);
    put_flags(told, field);
    put_relation(told, field);
    put_choices(alloc, told, field.selection.as_slice());
    put_groups(alloc, told, field.groups.as_slice());
    if let Some(value) = &field.default {
        told.put(" default=");
        put_value(alloc, told, value);
    }
}

/// Adds the name of a type, with a space on either side.
fn put_type(told: &mut Told, field_type: FieldType) {
    told.put(" ");
    told.put_debug(&field_type);
    told.put(" ");
}

/// Adds where a field's value comes from.
fn put_origin(alloc: Global, told: &mut Told, origin: &Origin) {
    match origin {
        Origin::Id => told.put(" id"),
        Origin::Plain => told.put(" plain"),
        Origin::Delegated(at) => {
            put_number(told, " through=", u64::from(at.link.0));
            put_number(told, ":", u64::from(at.model.0));
            put_number(told, ":", u64::from(at.field.0));
        }
        Origin::Computed(formula) => put_formula(alloc, told, formula),
    }
}

/// Adds a formula.
fn put_formula(alloc: Global, told: &mut Told, formula: &Formula) {
    told.put(" computed=");
    told.put_debug(&formula.typed.kind());
    put_number(told, ":", u64::from(formula.stratum));
    for path in formula.depends.as_slice() {
        put_path(told, path);
    }
    match formula.typed.paths(alloc) {
        Ok(paths) => put_reads(told, paths.as_slice()),
        Err(_) => told.lack(),
    }
}

/// Adds a path on which a value depends.
fn put_path(told: &mut Told, path: &Path) {
    let mut between = " depends=";
    for step in path.steps.as_slice() {
        put_number(told, between, u64::from(step.model.0));
        put_number(told, ":", u64::from(step.field.0));
        between = ".";
    }
}

/// Adds the paths that an expression reads.
fn put_reads(told: &mut Told, paths: &[ReadPath]) {
    for path in paths {
        put_read(told, path);
    }
}

/// Adds a path that an expression reads.
fn put_read(told: &mut Told, path: &ReadPath) {
    let mut between = " reads=";
    for link in path.links() {
        put_number(told, between, u64::from(link.field.0));
        between = ".";
    }
    put_number(told, between, u64::from(path.field().0));
}

/// Adds the flags of a field that are set.
fn put_flags(told: &mut Told, field: &FieldInfo) {
    put_flag(told, " required", field.required);
    put_flag(told, " store", field.store);
    put_flag(told, " recursive", field.recursive);
    put_flag(told, " managed", field.managed);
    put_flag(told, " fixed", field.fixed);
    put_flag(told, " secret", field.secret);
    put_flag(told, " kept", field.is_kept());
    put_flag(told, " plain_kept", field.is_plain_kept());
}

/// Adds what a relation has.
fn put_relation(told: &mut Told, field: &FieldInfo) {
    if let Some(model) = field.relation {
        put_number(told, " relation=", u64::from(model.0));
    }
    put_place(told, " inverse=", field.inverse);
    put_place(told, " mirror=", field.mirror);
    match field.ondelete {
        OnDelete::SetNull => {}
        OnDelete::Restrict => told.put(" ondelete=restrict"),
        OnDelete::Cascade => told.put(" ondelete=cascade"),
    }
}

/// Adds the keys of a selection with their words.
fn put_choices(alloc: Global, told: &mut Told, choices: &[Choice]) {
    for choice in choices {
        told.put(" choice=");
        put_text(alloc, told, choice.key.as_str());
        told.put(":");
        put_text(alloc, told, choice.label.as_str());
    }
}

/// Adds the names of groups.
fn put_groups(alloc: Global, told: &mut Told, groups: &[Word]) {
    for group in groups {
        told.put(" group=");
        put_text(alloc, told, group.as_str());
    }
}
