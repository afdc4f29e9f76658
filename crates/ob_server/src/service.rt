//! What is no call of a model: `version`, `login` and `authenticate` of the service `common`; and how
//! the elements of `execute` stand for those of `execute_kw`. Who logs in is settled in `callers`.

ghost use Rattle.std.specs.Prelude.{◌≡◌, IfErr, IfOk, false};
ghost use Rattle.ob_cache.specs.Calls.{IsResting, standpoint};
ghost use Rattle.ob_query.specs.SearchQuestions.{IsUnanswered, OnlyAsked};
ghost use Rattle.serde_json.specs.View.{items_view, view};
ghost use Rattle.serde_json.specs.Written.{has_float};
ghost use Rattle.ob_server.specs.Directory.{OfDirectory};
ghost use Rattle.ob_server.specs.MethodCall.{IsUnread};
ghost use Rattle.ob_server.specs.Request.{is_login, listed, login_of, user_json, version_json};
ghost use Rattle.ob_server.specs.Service.{LoginIs};

use crate::callers::user_with;
use crate::request::{ElementFault, is_text};
use ob_base::{NoMemory, RecId, Sequence};
use ob_cache::Engine;
use ob_call::put_member;
use ob_io::Keeper;
use ob_rpc::Json;
use serde_json::Map;
use std::alloc::Global;

/// The series of Odoo whose documented behaviour is served.
const SERIE: &str = "17.0";

/// What the server is, as a client asks before it logs in.
pub(crate) fn version_json(alloc: Global) -> Result<Json, NoMemory>
    ensures told { IfOk result (λ json. view json ≡ version_json) }
    ensures plain { IfOk result (λ json. has_float (view json) ≡ false) }
{
    let mut members = Map::new(alloc);
    put_member(alloc, &mut members, "protocol_version", Json::from(1u64))?;
    let serie = String::from_str(alloc, SERIE)?;
    put_member(alloc, &mut members, "server_serie", Json::String(serie))?;
    let version = String::from_str(alloc, SERIE)?;
    put_member(alloc, &mut members, "server_version", Json::String(version))?;
    Ok(Json::Object(members))
}

/// Whether a method is `login` or `authenticate`.
pub(crate) fn is_login(method: &str) -> bool
    ensures { result ≡ is_login method.now }
{
    method == "login" || method == "authenticate"
}

/// What these tell of their elements, this database, a login and a key: the id of the user with
/// this login and key, or false. Or the number of the first that is wrong, or that is missing.
pub(crate) fn login_of<K: Keeper>(
    alloc: Global,
    engine: &mut Engine<'_, K>,
    database: &str,
    elements: &[Json],
) -> Result<Json, ElementFault>
    requires rest { IsResting (standpoint K.Keeper engine.old) }
    ensures found { OfDirectory (standpoint K.Keeper engine.old) (λ directory. LoginIs result (login_of database.now directory (items_view elements.now))) }
    ensures asked { OnlyAsked K.Keeper engine.old engine.new }
    ensures causes { IfErr result (IsUnread (IsUnanswered K.Keeper engine.old engine.new)) }
    ensures plain { IfOk result (λ json. has_float (view json) ≡ false) }
{
    let [db, login, key, ..] = elements else {
        return Err(ElementFault::Wrong(elements.len() as u64));
    };
    if !is_text(db, database) {
        return Err(ElementFault::Wrong(0));
    }
    let Some(login) = login.as_str() else {
        return Err(ElementFault::Wrong(1));
    };
    let Some(key) = key.as_str() else {
        return Err(ElementFault::Wrong(2));
    };
    match user_with(alloc, engine, login, key) {
        Ok(user) => Ok(user_json(user)),
        Err(fault) => Err(ElementFault::Keeper(fault)),
    }
}

/// The id of a user, or false.
fn user_json(user: Option<RecId>) -> Json
    ensures told { view result ≡ user_json user }
    ensures plain { has_float (view result) ≡ false }
{
    match user {
        Some(id) => Json::from(id.0),
        None => Json::Bool(false),
    }
}

/// The elements of `execute` as those of `execute_kw`.
pub(crate) fn listed(elements: Sequence<Json>) -> Result<Sequence<Json>, NoMemory>
    ensures { IfOk result (λ made. items_view made ≡ listed (items_view elements)) }
{
    let mut first = elements.into_vec();
    if first.len() < 5 {
        return Ok(Sequence::from_vec(first));
    }
    let arguments = first.split_off(5)?;
    first.push(Json::Array(arguments))?;
    Ok(Sequence::from_vec(first))
}
