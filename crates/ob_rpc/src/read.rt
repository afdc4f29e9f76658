//! The envelope of a request, or the first place that is wrong. One function reads
//! each part and answers none where it is wrong; the order in which `envelope`,
//! `read_body` and `read_params` ask for the parts is the order in which faults are
//! told. Parts are moved out of the parsed body and never copied, for a body is large.
//! Which services and methods there are, `methods` says.

ghost use Rattle.std.specs.Prelude.{◌≡◌, ◌≢◌, ◌≤◌, ℕ, List, false, true, length, map, IfOk, IfErr, IfSome, IfNone, option_map, option_and_then};
ghost use Rattle.ob_base.specs.declared.place.PathStep.TheVariants.{Key};
ghost use Rattle.serde_json.specs.Find.{get_member, as_object, as_array};
ghost use Rattle.serde_json.specs.View.{view, members_view, items_view};
ghost use Rattle.serde_json.specs.Written.{has_float};
ghost use Rattle.ob_rpc.specs.Envelope as spec;
ghost use Rattle.ob_rpc.specs.Envelope.{json_of, text_for, element_place, asked_in, envelope_in, Takes};
ghost use Rattle.std.specs.Str.{bytes_eq};
ghost use Rattle.ob_rpc.specs.declared.methods.Served.TheVariants.{ExecuteKw};
ghost use Rattle.ob_rpc.specs.Seen.{seen, seen_arity, answer_id, FaultIs, EnvelopeIs};

use crate::Json;
use crate::methods::{Arity, Served, arity_of, is_service, wrong_element};
use crate::request::{EnvFault, Envelope};
use ob_base::{NoMemory, PathStep, Place, Sequence, Word};
use serde_json::Map;
use std::alloc::Global;

/// The envelope of a body, or the first place of it that is wrong. A body is one JSON
/// object; then, in this order: `id` is an integer, a text or null, or absent, which is
/// null; `jsonrpc` is "2.0" or absent; `method` is "call"; `params` is an object, its
/// `service` is one that is served, its `method` is one that is served of this service,
/// and its `args` is a list of as many elements as the method takes. Other keys are
/// unread, and the last of a repeated key counts.
///
/// `EnvFault::At` tells the place with the id, which is null where none was read before
/// it: too few elements are told at the first that is missing, too many at the first
/// that is too much. `EnvFault::NoMemory` comes where an allocation fails.
pub fn envelope(alloc: Global, served: Served, body: &[u8]) -> Result<Envelope, EnvFault>
    ensures ok { IfOk result (λ e. spec.envelope_of served body.now ≡ Ok (seen e)) }
    ensures fault { IfErr result (λ f. FaultIs f (spec.envelope_of served body.now)) }
    // The elements are as many as the envelope's own method takes.
    ensures elements { IfOk result (λ e. Takes served e.service e.method (length e.args)) }
    // Where `execute_kw` alone is served, there are six or seven.
    ensures execute_kw { IfOk result (λ e. served ≡ ExecuteKw → (6 ≤ length e.args) × (length e.args ≤ 7)) }
    ensures id { has_float (answer_id result) ≡ false }
{
    let Some(members) = members_of(value_of(alloc, body)?) else {
        return Err(fault_at(alloc, &[], Json::Null));
    };
    read_body(alloc, served, members)
}

/// The envelope in the members of a body.
fn read_body(
    alloc: Global,
    served: Served,
    mut body: Map<String, Json>,
) -> Result<Envelope, EnvFault>
    ensures envelope { EnvelopeIs result (envelope_in served (members_view body.entries)) }
    ensures elements { IfOk result (λ e. Takes served e.service e.method (length e.args)) }
{
    let Some(id) = id_of(take(&mut body, "id")) else {
        return Err(fault_at(alloc, &["id"], Json::Null));
    };
    let Some(_) = version_of(take(&mut body, "jsonrpc")) else {
        return Err(fault_at(alloc, &["jsonrpc"], id));
    };
    let Some(_) = text_equal(take(&mut body, "method"), "call") else {
        return Err(fault_at(alloc, &["method"], id));
    };
    let Some(params) = members_of(take(&mut body, "params")) else {
        return Err(fault_at(alloc, &["params"], id));
    };
    read_params(alloc, served, id, params)
}

/// The envelope of an id and the members of `params`.
fn read_params(
    alloc: Global,
    served: Served,
    id: Json,
    mut params: Map<String, Json>,
) -> Result<Envelope, EnvFault>
    ensures envelope { EnvelopeIs result (asked_in served (view id) (members_view params.entries)) }
    ensures elements { IfOk result (λ e. Takes served e.service e.method (length e.args)) }
{
    let Some(service) = service_of(served, take(&mut params, "service")) else {
        return Err(fault_at(alloc, &["params", "service"], id));
    };
    let Some((method, arity)) = method_of(served, service.as_str(), take(&mut params, "method"))
    else {
        return Err(fault_at(alloc, &["params", "method"], id));
    };
    let Some(args) = list_of(take(&mut params, "args")) else {
        return Err(fault_at(alloc, &["params", "args"], id));
    };
    if let Some(number) = wrong_element(arity, args.len()) {
        return Err(fault_at_element(alloc, number, id));
    }
    Ok(Envelope {
        id,
        service,
        method,
        args,
    })
}

/// The JSON value of a body, where it is one.
fn value_of(alloc: Global, body: &[u8]) -> Result<Option<Json>, NoMemory>
    ensures { IfOk result (λ value. option_map view value ≡ json_of body.now) }
{
    match Json::from_slice(alloc, body) {
        Ok(value) => Ok(Some(value)),
        Err(error) => if error.is_memory() {
            Err(NoMemory)
        } else {
            Ok(None)
        },
    }
}

/// Takes the value at a key out of an object, where there is one.
fn take(members: &mut Map<String, Json>, key: &str) -> Option<Json>
    ensures value { option_map view result ≡ get_member key.now (members_view members.old.entries) }
    ensures others { (other : List ℕ) → other ≢ key.now
        → get_member other (members_view members.new.entries)
        ≡ get_member other (members_view members.old.entries) }
{
    members.remove(key)
}

fn id_of(given: Option<Json>) -> Option<Json>
    ensures { option_map view result ≡ spec.given_id (option_map view given) }
{
    match given {
        None => Some(Json::Null),
        Some(Json::Null) => Some(Json::Null),
        Some(Json::String(text)) => Some(Json::String(text)),
        Some(Json::Number(number)) => if number.is_f64() {
            None
        } else {
            Some(Json::Number(number))
        },
        Some(_) => None,
    }
}

fn version_of(given: Option<Json>) -> Option<Json>
    ensures { option_map view result ≡ spec.version_of (option_map view given) }
{
    match given {
        None => Some(Json::Null),
        Some(Json::String(text)) => if "2.0" == text.as_str() {
            Some(Json::String(text))
        } else {
            None
        },
        Some(_) => None,
    }
}

fn members_of(given: Option<Json>) -> Option<Map<String, Json>>
    ensures { option_map (λ m. members_view m.entries) result ≡ option_and_then as_object (option_map view given) }
{
    match given? {
        Json::Object(members) => Some(members),
        _ => None,
    }
}

/// A part that has to be this text.
fn text_equal(given: Option<Json>, text: &str) -> Option<Word>
    ensures { result ≡ text_for (bytes_eq text.now) (option_map view given) }
{
    let found = text_of(given)?;
    if text == found.as_str() {
        Some(found)
    } else {
        None
    }
}

fn text_of(given: Option<Json>) -> Option<Word>
    ensures { result ≡ text_for (λ _. true) (option_map view given) }
{
    match given {
        Some(Json::String(text)) => Some(Word::new(text)),
        _ => None,
    }
}

/// The service, where it is served.
fn service_of(served: Served, given: Option<Json>) -> Option<Word>
    ensures { result ≡ text_for (spec.is_service served) (option_map view given) }
{
    let service = text_of(given)?;
    if is_service(served, service.as_str()) {
        Some(service)
    } else {
        None
    }
}

/// The method that a service has, and how many elements it takes.
fn method_of(served: Served, service: &str, given: Option<Json>) -> Option<(Word, Arity)>
    ensures found { option_map (λ m. (m.0, seen_arity m.1)) result ≡ spec.method_of served service.now (option_map view given) }
    ensures arity { IfSome result (λ m. spec.arity_of served service.now m.0 ≡ Some (seen_arity m.1)) }
{
    let method = text_of(given)?;
    let arity = arity_of(served, service, method.as_str())?;
    Some((method, arity))
}

fn list_of(given: Option<Json>) -> Option<Sequence<Json>>
    ensures { option_map (λ s. items_view s) result ≡ option_and_then as_array (option_map view given) }
{
    match given {
        Some(Json::Array(items)) => Some(Sequence::from_vec(items)),
        _ => None,
    }
}

/// The fault at a path of keys, by the id.
fn fault_at(alloc: Global, keys: &[&str], id: Json) -> EnvFault
    ensures { FaultIs result (Err (record { place = map (λ key. Key key.now) keys.now; id = view id })) }
{
    match place_of(alloc, keys) {
        Ok(place) => EnvFault::At(place, id),
        Err(NoMemory) => EnvFault::NoMemory,
    }
}

/// The fault at an element of the arguments, by the id.
fn fault_at_element(alloc: Global, number: usize, id: Json) -> EnvFault
    ensures { FaultIs result (Err (record { place = element_place number; id = view id })) }
{
    match place_of_element(alloc, number) {
        Ok(place) => EnvFault::At(place, id),
        Err(NoMemory) => EnvFault::NoMemory,
    }
}

fn place_of(alloc: Global, keys: &[&str]) -> Result<Place, NoMemory>
    ensures { IfOk result (λ place. place ≡ map (λ key. Key key.now) keys.now) }
{
    let mut place = Place::whole(alloc);
    for key in keys {
        place.push_key(alloc, key)?;
    }
    Ok(place)
}

fn place_of_element(alloc: Global, number: usize) -> Result<Place, NoMemory>
    ensures { IfOk result (λ place. place ≡ element_place number) }
{
    let mut place = place_of(alloc, &["params", "args"])?;
    place.push(PathStep::Item(number as u64))?;
    Ok(place)
}
