//! The quantities of each product's quants together. A registry without quants has none.

ghost use Rattle.std.specs.Prelude.{◌≡◌, ◌↔◌, ◌++◌, IfOk, IfSome, IsTrue, OnOk, map, pos, true};
ghost use Rattle.std.specs.List.{AllByRecursion};
ghost use Rattle.ob_audit.specs.Report.{sum_line};
ghost use Rattle.ob_audit.specs.Sums.{AreTotals, goods_in, goods_of, plain_named, quant_fields};
ghost use Rattle.ob_audit.specs.Comparing.{AddsSums, AreGiven};
ghost use Rattle.ob_schema.specs.Models.{FieldHas, HasModel, is_given_from, model_at};

use crate::lines::sum_line;
use crate::report::Report;
use ob_base::{Cell, FieldNo, ModelNo, NoMemory, RecId, Value};
use ob_schema::Schema;
use ob_tables::Tables;
use std::alloc::Global;
use std::collections::BTreeMap;

/// The model of quants, and its fields that name the product and tell how much of it there is.
#[derive(Clone, Copy, Debug, PartialEq, Eq)]
pub(crate) struct QuantFields {
    pub(crate) model: ModelNo,
    pub(crate) product: FieldNo,
    pub(crate) quantity: FieldNo,
}

/// Adds a line for each product with quants, and whether each sum is 0.
pub(crate) fn add_sums(
    alloc: Global,
    schema: &Schema,
    tables: &Tables<'_>,
    report: &mut Report,
) -> Result<(), NoMemory>
    requires { tables.now.models ≡ schema.now }
    ensures { OnOk result (AddsSums (goods_in tables.now.models tables.now.tables) report.old report.new) }
{
    let totals = totals_of(alloc, schema, tables)?;
    for (product, total) in totals.iter() {
        let line = sum_line(alloc, *product, *total)?;
        report.add(line, *total == 0)?;
    }
    Ok(())
}

/// The sum of each product of which there are quants, by the product's id.
fn totals_of(
    alloc: Global,
    schema: &Schema,
    tables: &Tables<'_>,
) -> Result<BTreeMap<u64, i128>, NoMemory>
    requires { tables.now.models ≡ schema.now }
    ensures { IfOk result (λ totals. AreTotals (goods_in tables.now.models tables.now.tables) totals.entries) }
{
    let mut totals = BTreeMap::new(alloc);
    let Some(fields) = quant_fields(schema) else {
        return Ok(totals);
    };
    let ids = tables.ids(fields.model)?;
    for id in ids.as_slice() {
        if let Some(goods) = goods_of(tables, fields, *id)? {
            let had = totals.get(&goods.0).copied().unwrap_or(0);
            totals.insert(goods.0, had + goods.1 as i128)?;
        }
    }
    Ok(totals)
}

/// The product that a quant names, and how much of it there is; none where it names none.
fn goods_of(
    tables: &Tables<'_>,
    fields: QuantFields,
    id: RecId,
) -> Result<Option<(u64, i64)>, NoMemory>
    requires { AreGiven tables.now.models fields }
    ensures { IfOk result (λ goods. goods ≡ goods_of tables.now.models tables.now.tables fields id) }
{
    let cell = Cell {
        model: fields.model,
        id,
        field: fields.product,
    };
    let product = match tables.plain(cell)? {
        Some(Value::Ref(product)) => product,
        _ => return Ok(None),
    };
    let quantity = Cell {
        field: fields.quantity,
        ..cell
    };
    match tables.plain(quantity)? {
        Some(Value::Int(number)) => Ok(Some((product.0, number))),
        _ => Ok(Some((product.0, 0))),
    }
}

/// The model of quants with its fields, where the registry has them.
fn quant_fields(schema: &Schema) -> Option<QuantFields>
    ensures fields { result ≡ quant_fields schema.now }
    ensures given { IfSome result (AreGiven schema.now) }
{
    let model = schema.model("stock.quant")?;
    let product = plain_named(schema, model, "product_id")?;
    let quantity = plain_named(schema, model, "quantity")?;
    Some(QuantFields {
        model,
        product,
        quantity,
    })
}

/// The plain kept field of a name.
fn plain_named(schema: &Schema, model: ModelNo, name: &str) -> Option<FieldNo>
    requires { HasModel schema.now model }
    ensures named { IfSome (model_at schema.now model) (λ info. result ≡ plain_named name.now info) }
    ensures given { IfSome result (FieldHas schema.now (λ info. is_given_from info.origin ≡ true) model) }
{
    let field = schema.field(model, name)?;
    if schema.info(model, field).is_plain_kept() {
        Some(field)
    } else {
        None
    }
}
