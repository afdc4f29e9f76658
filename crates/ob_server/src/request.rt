//! What the elements of an envelope ask for: a call of a method of a model. Which methods models
//! have so far stands here; the first element that is wrong is told by its number.

ghost use Rattle.std.specs.Prelude.{◌≡◌, option_and_then, IfErr, IfOk, IfSome};
ghost use Rattle.ob_cache.specs.Calls.{IsResting, models_at, standpoint};
ghost use Rattle.ob_query.specs.SearchQuestions.{IsUnanswered, OnlyAsked};
ghost use Rattle.ob_rpc.specs.Envelope.{is_text};
ghost use Rattle.ob_schema.specs.Models.{HasModel, model_named};
ghost use Rattle.serde_json.specs.Find.{as_str};
ghost use Rattle.serde_json.specs.View.{view, items_view};
ghost use Rattle.ob_server.specs.Directory.{OfDirectory};
ghost use Rattle.ob_server.specs.MethodCall.{CallIs, IsUnread};
ghost use Rattle.ob_server.specs.Request.{call_of, method_named};
ghost use Rattle.ob_server.specs.Setup.{over};

use crate::callers::caller_of;
use crate::terms::Terms;
use ob_base::{ModelNo, RecId};
use ob_cache::Engine;
use ob_io::{KeepFault, Keeper};
use ob_rpc::Json;
use ob_schema::Schema;

/// The methods that read.
#[derive(Clone, Copy, Debug, PartialEq, Eq)]
pub(crate) enum ReadMethod {
    Read,
    Search,
    SearchCount,
    SearchRead,
    ReadGroup,
    FieldsGet,
}

/// The methods that write.
#[derive(Clone, Copy, Debug, PartialEq, Eq)]
pub(crate) enum WriteMethod {
    Create,
    Write,
    Unlink,
}

/// A method of a model.
#[derive(Clone, Copy, Debug, PartialEq, Eq)]
pub(crate) enum Method {
    Reads(ReadMethod),
    Writes(WriteMethod),
}

/// How a body gives the arguments of a call.
#[derive(Clone, Copy, Debug, PartialEq, Eq)]
pub(crate) enum Layout {
    /// In a list and an object, the elements 5 and 6 (`execute_kw`).
    Listed,
    /// Each as an element by itself, from element 5 on (`execute`).
    Spread,
}

/// A call of a method, with its arguments by position and, where they are there, by name.
#[derive(Clone, Copy)]
pub(crate) struct MethodCall<'a> {
    pub(crate) caller: RecId,
    pub(crate) model: ModelNo,
    pub(crate) method: Method,
    pub(crate) args: &'a Json,
    pub(crate) kw: Option<&'a Json>,
    pub(crate) layout: Layout,
}

/// Why elements aren't read.
#[derive(Clone, Copy, Debug, PartialEq, Eq)]
pub(crate) enum ElementFault {
    /// The element of this number is wrong, or missing.
    Wrong(u64),
    /// The user wasn't looked up.
    Keeper(KeepFault),
}

/// The call that elements make: a database, which must be this one, user, key, model, method,
/// arguments, and maybe arguments by name. Or the number of the first that is wrong, or missing.
pub(crate) fn call_of<'a, K: Keeper>(
    engine: &mut Engine<'_, K>,
    terms: &Terms<'_>,
    layout: Layout,
    elements: &'a [Json],
) -> Result<MethodCall<'a>, ElementFault>
    requires rest { IsResting (standpoint K.Keeper engine.old) }
    ensures found { OfDirectory (standpoint K.Keeper engine.old) (λ directory.
        CallIs result (call_of (over terms.now (models_at (standpoint K.Keeper engine.old))) directory layout (items_view elements.now))) }
    ensures model { IfOk result (λ call. HasModel (models_at (standpoint K.Keeper engine.old)) call.model) }
    ensures asked { OnlyAsked K.Keeper engine.old engine.new }
    ensures causes { IfErr result (IsUnread (IsUnanswered K.Keeper engine.old engine.new)) }
{
    let [db, user, key, model, method, args, named @ ..] = elements else {
        return Err(ElementFault::Wrong(elements.len() as u64));
    };
    if !is_text(db, terms.database) {
        return Err(ElementFault::Wrong(0));
    }
    let caller = match caller_of(engine, user, key) {
        Ok(Some(caller)) => caller,
        Ok(None) => return Err(ElementFault::Wrong(1)),
        Err(fault) => return Err(ElementFault::Keeper(fault)),
    };
    let schema = engine.schema();
    let Some(model) = model_named(schema, model) else {
        return Err(ElementFault::Wrong(3));
    };
    let Some(method) = method_named(method) else {
        return Err(ElementFault::Wrong(4));
    };
    Ok(MethodCall {
        caller,
        model,
        method,
        args,
        kw: named.first(),
        layout,
    })
}

/// The model of a name.
fn model_named(schema: &Schema, model: &Json) -> Option<ModelNo>
    ensures found { result ≡ option_and_then (model_named schema.now) (as_str (view model.now)) }
    ensures there { IfSome result (HasModel schema.now) }
{
    schema.model(model.as_str()?)
}

/// The method of a name. Each model has those that stand here.
fn method_named(method: &Json) -> Option<Method>
    ensures { result ≡ method_named (view method.now) }
{
    if is_text(method, "read") {
        Some(Method::Reads(ReadMethod::Read))
    } else if is_text(method, "search") {
        Some(Method::Reads(ReadMethod::Search))
    } else if is_text(method, "search_count") {
        Some(Method::Reads(ReadMethod::SearchCount))
    } else if is_text(method, "search_read") {
        Some(Method::Reads(ReadMethod::SearchRead))
    } else if is_text(method, "read_group") {
        Some(Method::Reads(ReadMethod::ReadGroup))
    } else if is_text(method, "fields_get") {
        Some(Method::Reads(ReadMethod::FieldsGet))
    } else if is_text(method, "create") {
        Some(Method::Writes(WriteMethod::Create))
    } else if is_text(method, "write") {
        Some(Method::Writes(WriteMethod::Write))
    } else if is_text(method, "unlink") {
        Some(Method::Writes(WriteMethod::Unlink))
    } else {
        None
    }
}

/// Whether the value is this text.
pub(crate) fn is_text(value: &Json, text: &str) -> bool
    ensures { result ≡ is_text text.now (view value.now) }
{
    match value.as_str() {
        Some(found) => text == found,
        None => false,
    }
}
