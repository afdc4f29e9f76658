//! The arguments of a call, by position or by name, each of its form. The first that is
//! wrong is told at its place. What a form is stands in `form`, and the order in which
//! arguments are gone through in specs/Arguments.

ghost use Rattle.std.specs.Prelude.{◌≡◌, ◌∷◌, ◌<◌, true, false, codes, length, slice_get, map, vec_len, option_map, OnOk, IfOk, IfErr, Some, None};
ghost use Rattle.serde_json.specs.View.{view, members_view};
ghost use Rattle.ob_call.specs.Arguments.{AreFit, are_apart, arguments_of, by_name, by_position, entries, has_key, is_absent, is_context, is_nothing, judged, name_place, named, positioned};
ghost use Rattle.ob_call.specs.ArgumentsSteps.{all_given_of, at_position, expected_of, given_of, missing, names_of, number_named};
ghost use Rattle.ob_call.specs.Places.{IsMalformedAt, spot_place};
ghost use Rattle.ob_call.specs.Results.{IsResultOf};

use crate::call::Json;
use crate::form::Form;
use crate::places::{Below, Spot, malformed, malformed_whole};
use ob_base::{NoMemory, Refusal};
use serde_json::Map;
use std::alloc::Global;

/// What a call expects of an argument.
#[derive(Clone, Copy, Debug)]
pub struct Parameter<F> {
    pub name: &'static str,
    pub required: bool,
    pub form: F,
}

/// An argument that was given.
#[derive(Clone, Copy)]
pub struct Given<'a> {
    pub spot: Spot<'a>,
    pub json: &'a Json,
}

/// The arguments of a call, one for each that it expects: none where nothing is given. An
/// optional one that is `null` counts as not given, and so does `false` where it isn't of
/// the form. Beside them every call takes a `context`, an object without effect so far.
/// Refused is the first that is wrong, at its place, which begins with `args` or `kw`: of
/// the positions in turn, then of the names in byte order.
pub fn arguments_of<'a, F: Form>(
    alloc: Global,
    expected: &[Parameter<F>],
    args: &'a Json,
    kw: &'a Json,
) -> Result<Vec<Option<Given<'a>>>, Refusal>
    requires apart { are_apart (codes "context" ∷ names_of expected.now) ≡ true }
    ensures told { IsResultOf (λ given. all_given_of given.items) result
        (arguments_of (map (expected_of F.fault) expected.now) (view args.now) (view kw.now)) }
    // Each that must be given is given, and each that is given is of its form.
    ensures fit { IfOk result (λ given. AreFit (map (expected_of F.fault) expected.now) (all_given_of given.items)) }
{
    let Json::Array(items) = args else {
        return Err(malformed_whole(alloc, "args"));
    };
    let given = by_position(alloc, expected, items.as_slice(), kw)?;
    let Json::Object(members) = kw else {
        return Err(malformed_whole(alloc, "kw"));
    };
    by_name(alloc, expected, members, given)
}

/// The arguments by position; a surplus one is told last.
fn by_position<'a, F: Form>(
    alloc: Global,
    expected: &[Parameter<F>],
    items: &'a [Json],
    kw: &Json,
) -> Result<Vec<Option<Given<'a>>>, Refusal>
    ensures told { IsResultOf (λ given. all_given_of given.items) result
        (by_position (view kw.now) 0 (map (expected_of F.fault) expected.now) (map view items.now)) }
    ensures sized { IfOk result (λ given. vec_len given ≡ length expected.now) }
{
    let mut given = Vec::new(alloc);
    for (number, parameter) in expected.iter().enumerate() {
        let own = at_position(alloc, parameter, number, items, kw)?;
        given.push(own)?;
    }
    if items.len() > expected.len() {
        let surplus = Spot::Position(expected.len());
        return Err(malformed(alloc, surplus, Below::Whole));
    }
    Ok(given)
}

/// What stands at a position, or is missing there.
fn at_position<'a, F: Form>(
    alloc: Global,
    parameter: &Parameter<F>,
    number: usize,
    items: &'a [Json],
    kw: &Json,
) -> Result<Option<Given<'a>>, Refusal>
    ensures { IsResultOf (option_map given_of) result
        (at_position (view kw.now) number (expected_of F.fault parameter.now) (option_map view (slice_get items.now number))) }
{
    let spot = Spot::Position(number);
    match items.get(number) {
        Some(json) => positioned(alloc, parameter, spot, json),
        None => missing(alloc, parameter, spot, kw),
    }
}

/// An argument at its position: none where it counts as not given.
fn positioned<'a, F: Form>(
    alloc: Global,
    parameter: &Parameter<F>,
    spot: Spot<'a>,
    json: &'a Json,
) -> Result<Option<Given<'a>>, Refusal>
    ensures { IsResultOf (option_map given_of) result
        (positioned (spot_place spot.entry) (expected_of F.fault parameter.now) (view json.now)) }
{
    if is_absent(alloc, parameter, json)? {
        return Ok(None);
    }
    judged(alloc, &parameter.form, spot, json)
}

/// An argument at a spot, where it is of its form.
fn judged<'a, F: Form>(
    alloc: Global,
    form: &F,
    spot: Spot<'a>,
    json: &'a Json,
) -> Result<Option<Given<'a>>, Refusal>
    ensures { IsResultOf (option_map given_of) result
        (judged (spot_place spot.entry) (view json.now) (F.fault form.now (view json.now))) }
{
    match form.fault(alloc, json)? {
        None => Ok(Some(Given { spot, json })),
        Some(below) => Err(malformed(alloc, spot, below)),
    }
}

/// Whether an argument counts as not given: an optional one that is nothing.
fn is_absent<F: Form>(
    alloc: Global,
    parameter: &Parameter<F>,
    json: &Json,
) -> Result<bool, NoMemory>
    ensures { IfOk result (λ absent. absent ≡ is_absent (expected_of F.fault parameter.now) (view json.now)) }
{
    if parameter.required {
        return Ok(false);
    }
    is_nothing(alloc, &parameter.form, json)
}

/// Whether a value is `null`, or is `false` and that isn't of the form.
fn is_nothing<F: Form>(alloc: Global, form: &F, json: &Json) -> Result<bool, NoMemory>
    ensures { IfOk result (λ nothing. nothing ≡ is_nothing (F.fault form.now) (view json.now)) }
{
    match json {
        Json::Null => Ok(true),
        Json::Bool(false) => Ok(form.fault(alloc, json)?.is_some()),
        _ => Ok(false),
    }
}

/// Nothing stands at a position: one that must be given has to come by name.
fn missing<'a, F: Form>(
    alloc: Global,
    parameter: &Parameter<F>,
    spot: Spot<'_>,
    kw: &Json,
) -> Result<Option<Given<'a>>, Refusal>
    ensures { IsResultOf (option_map given_of) result
        (missing (spot_place spot.entry) (expected_of F.fault parameter.now) (view kw.now)) }
{
    if parameter.required && !has_key(kw, parameter.name) {
        return Err(malformed(alloc, spot, Below::Whole));
    }
    Ok(None)
}

/// Whether an object has the key; no other value has one.
fn has_key(json: &Json, name: &str) -> bool
    ensures { result ≡ has_key name.now (view json.now) }
{
    match json {
        Json::Object(members) => members.get(name).is_some(),
        _ => false,
    }
}

/// The arguments with those by name, in byte order.
fn by_name<'a, F: Form>(
    alloc: Global,
    expected: &[Parameter<F>],
    members: &'a Map<String, Json>,
    given: Vec<Option<Given<'a>>>,
) -> Result<Vec<Option<Given<'a>>>, Refusal>
    requires { vec_len given ≡ length expected.now }
    ensures { IsResultOf (λ given. all_given_of given.items) result
        (by_name (map (expected_of F.fault) expected.now) (entries (members_view members.now.entries)) (all_given_of given.entry.items)) }
{
    let mut given = given;
    for (name, json) in members {
        let name = name.as_str();
        if name == "context" {
            context(alloc, json)?;
        } else {
            let number = number_named(alloc, expected, name)?;
            given[number] = named(alloc, &expected[number], name, json, given[number])?;
        }
    }
    Ok(given)
}

/// The context is an object, or counts as not given.
fn context(alloc: Global, json: &Json) -> Result<(), Refusal>
    ensures ok { OnOk result (is_context (view json.now) ≡ true) }
    ensures err { IfErr result (λ why. (is_context (view json.now) ≡ false)
        × IsMalformedAt (name_place (codes "context")) why) }
{
    match json {
        Json::Object(_) | Json::Null | Json::Bool(false) => Ok(()),
        _ => Err(malformed(alloc, Spot::Name("context"), Below::Whole)),
    }
}

/// The number of the argument of a name.
fn number_named<F>(alloc: Global, expected: &[Parameter<F>], name: &str) -> Result<usize, Refusal>
    ensures ok { IfOk result (λ number. number_named name.now expected.now ≡ Some number) }
    ensures within { IfOk result (λ number. number < length expected.now) }
    ensures err { IfErr result (λ why. (number_named name.now expected.now ≡ None)
        × IsMalformedAt (name_place name.now) why) }
{
    match expected.iter().position(|parameter| parameter.name == name) {
        Some(number) => Ok(number),
        None => Err(malformed(alloc, Spot::Name(name), Below::Whole)),
    }
}

/// An argument by its name, beside what was given before.
fn named<'a, F: Form>(
    alloc: Global,
    parameter: &Parameter<F>,
    name: &'a str,
    json: &'a Json,
    before: Option<Given<'a>>,
) -> Result<Option<Given<'a>>, Refusal>
    ensures { IsResultOf (option_map given_of) result
        (named name.now (view json.now) (expected_of F.fault parameter.now) (option_map given_of before.entry)) }
{
    let spot = Spot::Name(name);
    if is_absent(alloc, parameter, json)? {
        return Ok(before);
    }
    if before.is_some() {
        return Err(malformed(alloc, spot, Below::Whole));
    }
    judged(alloc, &parameter.form, spot, json)
}
