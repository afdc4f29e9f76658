//! What the constants of a registry have by their types: integers fit 64 bits, texts are UTF-8.
//! So does each value from scratch, then. Contracts see numbers and bytes of any size, and learn
//! of the types of constants only where the program comes to each of them.

ghost use Rattle.std.specs.Prelude.{All};
ghost use Rattle.std.specs.Str.{IsUtf8};
ghost use Rattle.ob_cache.specs.Native.{HasNativeConstants, HasNativeFormula, IsNativeField, IsNativeModel, IsNativeRegistry};
ghost use Rattle.ob_expr.specs.TypedTree.{typed_tree_of};

use ob_base::ModelNo;
use ob_base::limits::MAX_MODELS;
use ob_definition::Choice;
use ob_expr::Typed;
use ob_schema::{FieldInfo, ModelInfo, Origin, Schema};

/// The law of the constants of a registry.
pub(crate) fn constants_are_native(schema: &Schema)
    ensures { IsNativeRegistry schema.now }
{
    schema.parts_fit_together();
    for place in 0..MAX_MODELS {
        if let Some(info) = schema.find_model(ModelNo(place as u16 + 1)) {
            model_is_native(info);
        }
    }
}

fn model_is_native(info: &ModelInfo)
    ensures { IsNativeModel info.now }
{
    fields_are_native(info.fields.as_slice());
    fields_are_native(info.hidden.as_slice());
}

fn fields_are_native(fields: &[FieldInfo])
    ensures { All IsNativeField fields.now }
{
    for field in fields {
        keys_are_native(field.selection.as_slice());
        origin_is_native(&field.origin);
    }
}

fn keys_are_native(choices: &[Choice])
    ensures { All (λ choice. IsUtf8 choice.key) choices.now }
{
    for choice in choices {
        let _key = choice.key.as_str();
    }
}

fn origin_is_native(origin: &Origin)
    ensures { HasNativeFormula origin.now }
{
    if let Origin::Computed(formula) = origin {
        tree_is_native(&formula.typed);
    }
}

#[cycle(native)]
fn tree_is_native(typed: &Typed)
    ensures { HasNativeConstants (typed_tree_of typed.now) }
{
    match typed {
        Typed::Integer(number) => {
            let _number = *number;
        }
        Typed::Text(text) => {
            let _text = text.as_str();
        }
        Typed::Prefix(_, inner) => tree_is_native(inner),
        Typed::Digits(inner) => tree_is_native(inner),
        Typed::Over(_, _, _, inner) => tree_is_native(inner),
        Typed::Binary(_, left, right) => {
            tree_is_native(left);
            tree_is_native(right);
        }
        Typed::Chosen(_, left, right) => {
            tree_is_native(left);
            tree_is_native(right);
        }
        Typed::If(condition, first, second) => {
            tree_is_native(condition);
            tree_is_native(first);
            tree_is_native(second);
        }
        Typed::Joined(parts) => trees_are_native(parts),
        Typed::Id | Typed::Truth(_) | Typed::Unset(_) | Typed::Path(_) => {}
    }
}

#[cycle(native)]
fn trees_are_native(parts: &[Typed])
    ensures { All (λ part. HasNativeConstants (typed_tree_of part)) parts.now }
{
    for part in parts {
        tree_is_native(part);
    }
}
