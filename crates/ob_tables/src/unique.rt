//! Rows of a model that share a set of fields which no two may share. The rows are sorted
//! by their values in the set, so that rows which share it stand beside each other.

ghost use Rattle.std.specs.Prelude.{◌≡◌, ◌↔◌, All, IfOk, IsTrue, OnOk, map, true};
ghost use Rattle.std.specs.Cmp.Lexicographic.{slice_cmp};
ghost use Rattle.ob_base.specs.ValueOrder.{value_order};
ghost use Rattle.ob_base.specs.declared.value.Value.TheVariants as variants;
ghost use Rattle.ob_schema.specs.Fields.{is_plain_kept};
ghost use Rattle.ob_schema.specs.Models.{FieldHas, HasModel};
ghost use Rattle.ob_tables.specs.Finding.{BreaksIn, Finds, IsOf, is_of_sets};
ghost use Rattle.ob_tables.specs.Sets.{AreMembers, IsAscending, SharesInSet, SharesAmong, member_values, set_values};
ghost use Rattle.ob_schema.specs.Tables.{ids_in};

use crate::findings::{Findings, add_if};
use crate::tables::Tables;
use ob_base::{BrokenKind, Cell, FieldNo, ModelNo, NoMemory, RecId, Value, value_cmp};
use std::cmp::Ordering;

/// A row and its values of a set of fields, none of them unset.
#[derive(Drop)]
struct Member<'t> {
    id: RecId,
    values: Vec<&'t Value>,
}

/// Finds the rows of a model that share a set with another, each at the set's first field.
pub(crate) fn find_in_sets(
    tables: &Tables<'_>,
    model: ModelNo,
    ids: &[RecId],
    findings: &mut Findings,
) -> Result<(), NoMemory>
    requires model { HasModel tables.now.models model }
    requires ids { ids.now ≡ ids_in tables.now.tables model }
    ensures { OnOk result (Finds (BreaksIn tables.now.models tables.now.tables is_of_sets (IsOf model)) findings.old findings.new) }
{
    let info = tables.schema.model_info(model);
    for set in info.unique.as_slice() {
        find_in_set(tables, model, set.as_slice(), ids, findings)?;
    }
    Ok(())
}

/// Finds the rows that share a set.
fn find_in_set(
    tables: &Tables<'_>,
    model: ModelNo,
    set: &[FieldNo],
    ids: &[RecId],
    findings: &mut Findings,
) -> Result<(), NoMemory>
    requires fields { All (FieldHas tables.now.models (λ field. is_plain_kept field ≡ true) model) set.now }
    requires ids { ids.now ≡ ids_in tables.now.tables model }
    ensures { OnOk result (Finds (SharesInSet tables.now.models tables.now.tables model set.now) findings.old findings.new) }
{
    let Some(first) = set.first() else {
        return Ok(());
    };
    tables.fit_together();
    let mut members = members_of(tables, model, set, ids)?;
    members.sort_by(|a, b| values_cmp(a.values.as_slice(), b.values.as_slice()))?;
    find_alike(model, *first, members.as_slice(), findings);
    Ok(())
}

/// Finds members with the same values among members that ascend by them.
fn find_alike(model: ModelNo, first: FieldNo, members: &[Member<'_>], findings: &mut Findings)
    requires { IsAscending members.now }
    ensures { Finds (SharesAmong model first members.now) findings.old findings.new }
{
    for place in 1..members.len() {
        let one = &members[place - 1];
        let next = &members[place];
        let are_alike = values_cmp(one.values.as_slice(), next.values.as_slice()).is_eq();
        add_if(
            findings,
            are_alike,
            BrokenKind::Unique,
            first_cell(model, one.id, first),
        );
        add_if(
            findings,
            are_alike,
            BrokenKind::Unique,
            first_cell(model, next.id, first),
        );
    }
}

fn first_cell(model: ModelNo, id: RecId, field: FieldNo) -> Cell
    ensures { result ≡ record { model = model; id = id; field = field } }
{
    Cell { model, id, field }
}

/// The rows of a model in which no field of a set is unset.
fn members_of<'t>(
    tables: &'t Tables<'_>,
    model: ModelNo,
    set: &[FieldNo],
    ids: &[RecId],
) -> Result<Vec<Member<'t>>, NoMemory>
    ensures { IfOk result (λ members. AreMembers tables.now.tables model set.now ids.now members.items) }
{
    let mut members = Vec::new(tables.alloc);
    for id in ids {
        if let Some(values) = values_of(tables, model, *id, set)? {
            members.push(Member { id: *id, values })?;
        }
    }
    Ok(members)
}

/// The values of a row in a set of fields; none where one of them is unset.
fn values_of<'t>(
    tables: &'t Tables<'_>,
    model: ModelNo,
    id: RecId,
    set: &[FieldNo],
) -> Result<Option<Vec<&'t Value>>, NoMemory>
    ensures { IfOk result (λ values. member_values values ≡ set_values tables.now.tables model id set.now) }
{
    let mut values = Vec::new(tables.alloc);
    for field in set {
        let field = *field;
        let Some(value) = tables.kept(Cell { model, id, field }) else {
            return Ok(None);
        };
        if is_unset(value) {
            return Ok(None);
        }
        values.push(value)?;
    }
    Ok(Some(values))
}

pub(crate) fn is_unset(value: &Value) -> bool
    ensures { IsTrue result ↔ (value.now ≡ variants.Nil) }
{
    matches!(value, Value::Nil)
}

/// Compares values one by one, from the front.
fn values_cmp(a: &[&Value], b: &[&Value]) -> Ordering
    ensures { result ≡ slice_cmp value_order (map (λ v. v.now) a.now) (map (λ v. v.now) b.now) }
{
    for (x, y) in a.iter().zip(b.iter()) {
        let order = value_cmp(x, y);
        if order.is_ne() {
            return order;
        }
    }
    a.len().cmp(&b.len())
}
