//! Writers of the parts of a row's body. Each adds its part at the end of `out`.

ghost use Rattle.std.specs.Prelude.{◌≡◌, ◌<◌, ◌^◌, ◌++◌, ◌∷◌, length, OnOk};
ghost use Rattle.ob_codec.specs.KeptForm.{HasContent, head_form, content_of, field_form};

use crate::kept_form::{BOOL, DAY, INT, MOMENT, REF, REFS, TEXT, UNSET, VERSION};
use ob_base::{NoMemory, RecId, Value};

/// The head of a body that has so many fields.
pub(crate) fn put_head(out: &mut Vec<u8>, count: u16) -> Result<(), NoMemory>
    ensures { OnOk result (out.new.items ≡ out.old.items ++ head_form count) }
{
    out.push(VERSION)?;
    out.extend_from_slice(&count.to_be_bytes())?;
    Ok(())
}

/// A field: the length of its name in one byte, its name, and its value.
pub(crate) fn put_field(out: &mut Vec<u8>, name: &[u8], value: &Value) -> Result<(), NoMemory>
    requires name { length name.now < 256 }
    requires value { HasContent value.now }
    ensures { OnOk result (out.new.items ≡ out.old.items
        ++ field_form (record { name = name.now; value = value.now })) }
{
    out.push(name.len() as u8)?;
    out.extend_from_slice(name)?;
    put_value(out, value)
}

/// The tag of a value, and its content.
fn put_value(out: &mut Vec<u8>, value: &Value) -> Result<(), NoMemory>
    requires { HasContent value.now }
    ensures { OnOk result (out.new.items ≡ out.old.items ++ content_of value.now) }
{
    match value {
        Value::Nil => put_tagged(out, UNSET, &[]),
        Value::Bool(flag) => put_tagged(out, BOOL, &[u8::from(*flag)]),
        Value::Int(number) => put_tagged(out, INT, &number.to_be_bytes()),
        Value::Word(text) => put_text(out, text.as_str().as_bytes()),
        Value::Day(day) => put_tagged(out, DAY, &day.to_be_bytes()),
        Value::Moment(moment) => put_tagged(out, MOMENT, &moment.to_be_bytes()),
        Value::Ref(id) => put_tagged(out, REF, &id.0.to_be_bytes()),
        Value::Refs(ids) => put_ids(out, ids.as_slice()),
    }
}

fn put_tagged(out: &mut Vec<u8>, tag: u8, content: &[u8]) -> Result<(), NoMemory>
    ensures { OnOk result (out.new.items ≡ out.old.items ++ tag ∷ content.now) }
{
    out.push(tag)?;
    out.extend_from_slice(content)?;
    Ok(())
}

/// A text, after its length in four bytes.
fn put_text(out: &mut Vec<u8>, text: &[u8]) -> Result<(), NoMemory>
    requires { length text.now < 2 ^ 32 }
    ensures { OnOk result (out.new.items ≡ out.old.items ++ content_of (Value.Word text.now)) }
{
    put_tagged(out, TEXT, &(text.len() as u32).to_be_bytes())?;
    out.extend_from_slice(text)?;
    Ok(())
}

/// Ids of eight bytes each, after their count in four.
fn put_ids(out: &mut Vec<u8>, ids: &[RecId]) -> Result<(), NoMemory>
    requires { length ids.now < 2 ^ 32 }
    ensures { OnOk result (out.new.items ≡ out.old.items ++ content_of (Value.Refs ids.now)) }
{
    put_tagged(out, REFS, &(ids.len() as u32).to_be_bytes())?;
    for id in ids {
        out.extend_from_slice(&id.0.to_be_bytes())?;
    }
    Ok(())
}
