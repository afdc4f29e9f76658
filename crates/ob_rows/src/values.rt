//! To which fields calls give values, and to which they never do.

ghost use Rattle.std.specs.Prelude.{◌≡◌};
ghost use Rattle.ob_rows.specs.Values as spec;
ghost use Rattle.ob_rows.specs.Values.{is_computed_at, is_free, is_readonly};

use ob_schema::{FieldInfo, Origin, Schema};

/// Whether calls give values to a field: it is plain, no list of rows, and not managed.
fn is_free(field: &FieldInfo) -> bool
    ensures { result ≡ is_free field.now }
{
    field.is_plain_kept() && !(field.field_type.is_list() || field.managed)
}

/// Whether `create` and `write` give values to a field of a row: it is free, which is plain, no list
/// of rows and not managed, or delegated to a parent's free field that isn't fixed.
pub fn is_settable(schema: &Schema, field: &FieldInfo) -> bool
    ensures { result ≡ spec.is_settable schema.now field.now }
{
    match &field.origin {
        Origin::Delegated(at) => match schema.find_field(at.model, at.field) {
            Some(target) => is_free(target) && !target.fixed,
            None => false,
        },
        _ => is_free(field),
    }
}

/// Whether calls never give a value to a field of this registry: `id`, what an expression gives, and
/// managed fields.
pub fn is_readonly(schema: &Schema, field: &FieldInfo) -> bool
    ensures { result ≡ is_readonly schema.now field.now }
{
    matches!(field.origin, Origin::Id) || is_computed(schema, &field.origin) || field.managed
}

/// Whether an expression gives a value; of a delegated field that of the parent's.
fn is_computed(schema: &Schema, origin: &Origin) -> bool
    ensures { result ≡ is_computed_at schema.now origin.now }
{
    match origin {
        Origin::Delegated(at) => match schema.find_field(at.model, at.field) {
            Some(field) => matches!(field.origin, Origin::Computed(_)),
            None => false,
        },
        own => matches!(own, Origin::Computed(_)),
    }
}
