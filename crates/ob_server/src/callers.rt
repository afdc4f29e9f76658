//! Who calls and who logs in, by the rows of the model of users: whether a key opens a call for an
//! id, and whom a login and a key name. By which fields users are known, and what is asked of a
//! row, is settled in `ob_access`; a question of all users is added here.

ghost use Rattle.std.specs.Prelude.{◌≡◌, IfErr, IfOk};
ghost use Rattle.ob_access.specs.Users.{AreUsers, has_login, may_call};
ghost use Rattle.ob_cache.specs.Calls.{HasTables, IsResting, models_at, standpoint};
ghost use Rattle.ob_query.specs.SearchQuestions.{IsUnanswered, OnlyAsked, TellsOf};
ghost use Rattle.ob_schema.specs.Facts.{OfAllTold};
ghost use Rattle.ob_schema.specs.Tables.{Tables};
ghost use Rattle.serde_json.specs.View.{view};
ghost use Rattle.ob_server.specs.Directory.{OfDirectory, first_with, logs_in};
ghost use Rattle.ob_server.specs.Request.{caller_of};

use ob_access::Users;
use ob_base::RecId;
use ob_cache::{Engine, ReadFault};
use ob_io::{KeepFault, Keeper};
use ob_query::Walk;
use ob_rpc::Json;
use std::alloc::Global;

/// The caller that an id and a key name: an integer from 0 on, and a text that opens a call for it.
pub(crate) fn caller_of<K: Keeper>(
    engine: &mut Engine<'_, K>,
    user: &Json,
    key: &Json,
) -> Result<Option<RecId>, KeepFault>
    requires rest { IsResting (standpoint K.Keeper engine.old) }
    ensures found { IfOk result (λ caller. OfDirectory (standpoint K.Keeper engine.old) (λ directory. caller ≡ caller_of directory (view user.now) (view key.now))) }
    ensures asked { OnlyAsked K.Keeper engine.old engine.new }
    ensures causes { IfErr result (IsUnanswered K.Keeper engine.old engine.new) }
{
    let Some(id) = user.as_u64() else {
        return Ok(None);
    };
    let Some(key) = key.as_str() else {
        return Ok(None);
    };
    if may_call(engine, RecId(id), key)? {
        return Ok(Some(RecId(id)));
    }
    Ok(None)
}

/// Whether a key opens a call for an id.
fn may_call<K: Keeper>(engine: &mut Engine<'_, K>, id: RecId, key: &str) -> Result<bool, KeepFault>
    requires rest { IsResting (standpoint K.Keeper engine.old) }
    ensures found { IfOk result (λ may. OfDirectory (standpoint K.Keeper engine.old) (λ directory. may ≡ directory.may_call id key.now)) }
    ensures asked { OnlyAsked K.Keeper engine.old engine.new }
    ensures causes { IfErr result (IsUnanswered K.Keeper engine.old engine.new) }
{
    match Users::of(engine.schema()) {
        Some(users) => opens(engine, &users, id, key),
        None => Ok(false),
    }
}

/// The first user with a login and a key, where there is one.
pub(crate) fn user_with<K: Keeper>(
    alloc: Global,
    engine: &mut Engine<'_, K>,
    login: &str,
    key: &str,
) -> Result<Option<RecId>, KeepFault>
    requires rest { IsResting (standpoint K.Keeper engine.old) }
    ensures found { IfOk result (λ user. OfDirectory (standpoint K.Keeper engine.old) (λ directory. user ≡ directory.user_with login.now key.now)) }
    ensures asked { OnlyAsked K.Keeper engine.old engine.new }
    ensures causes { IfErr result (IsUnanswered K.Keeper engine.old engine.new) }
{
    match Users::of(engine.schema()) {
        Some(users) => first_with(alloc, engine, &users, login, key),
        None => Ok(None),
    }
}

/// The first of these users with a login and a key.
fn first_with<K: Keeper>(
    alloc: Global,
    engine: &mut Engine<'_, K>,
    users: &Users,
    login: &str,
    key: &str,
) -> Result<Option<RecId>, KeepFault>
    requires users { AreUsers (models_at (standpoint K.Keeper engine.old)) users.now }
    requires rest { IsResting (standpoint K.Keeper engine.old) }
    ensures told { IfOk result (λ user. (tables : Tables) → HasTables (standpoint K.Keeper engine.old) tables
        → user ≡ first_with (models_at (standpoint K.Keeper engine.old)) tables users.now login.now key.now) }
    ensures asked { OnlyAsked K.Keeper engine.old engine.new }
    ensures causes { IfErr result (IsUnanswered K.Keeper engine.old engine.new) }
{
    // The law of the registry.
    engine.schema().parts_fit_together();
    let mut walk = Walk::new(alloc);
    while let Some(id) = walk.next(engine, users.model)? {
        if logs_in(engine, users, id, login, key)? {
            return Ok(Some(id));
        }
    }
    Ok(None)
}

/// Whether a user logs in with a login and a key.
fn logs_in<K: Keeper>(
    engine: &mut Engine<'_, K>,
    users: &Users,
    id: RecId,
    login: &str,
    key: &str,
) -> Result<bool, KeepFault>
    requires { AreUsers (models_at (standpoint K.Keeper engine.old)) users.now }
    ensures told { IfOk result (λ does. OfAllTold (TellsOf K.Keeper engine.old) (λ told. does ≡ logs_in told users.now login.now key.now id)) }
    ensures asked { OnlyAsked K.Keeper engine.old engine.new }
    ensures causes { IfErr result (IsUnanswered K.Keeper engine.old engine.new) }
{
    if !opens(engine, users, id, key)? {
        return Ok(false);
    }
    is_login(engine, users, id, login)
}

/// Whether a key opens a call for one of these users.
fn opens<K: Keeper>(
    engine: &mut Engine<'_, K>,
    users: &Users,
    id: RecId,
    key: &str,
) -> Result<bool, KeepFault>
    requires { AreUsers (models_at (standpoint K.Keeper engine.old)) users.now }
    ensures told { IfOk result (λ may. OfAllTold (TellsOf K.Keeper engine.old) (λ told. may ≡ may_call told users.now id key.now)) }
    ensures asked { OnlyAsked K.Keeper engine.old engine.new }
    ensures causes { IfErr result (IsUnanswered K.Keeper engine.old engine.new) }
{
    // The law that questions behind one another are one question.
    engine.questions_are_questions();
    match users.may_call(engine, id, key) {
        Ok(may) => Ok(may),
        Err(ReadFault::Missing) => Ok(false),
        Err(ReadFault::Keeper) => Err(KeepFault::Failed),
        Err(ReadFault::NoMemory) => Err(KeepFault::NoMemory),
    }
}

/// Whether a login is that of one of these users.
fn is_login<K: Keeper>(
    engine: &mut Engine<'_, K>,
    users: &Users,
    id: RecId,
    login: &str,
) -> Result<bool, KeepFault>
    requires { AreUsers (models_at (standpoint K.Keeper engine.old)) users.now }
    ensures told { IfOk result (λ is. OfAllTold (TellsOf K.Keeper engine.old) (λ told. is ≡ has_login told users.now id login.now)) }
    ensures asked { OnlyAsked K.Keeper engine.old engine.new }
    ensures causes { IfErr result (IsUnanswered K.Keeper engine.old engine.new) }
{
    // The law that questions behind one another are one question.
    engine.questions_are_questions();
    match users.has_login(engine, id, login) {
        Ok(is) => Ok(is),
        Err(ReadFault::Missing) => Ok(false),
        Err(ReadFault::Keeper) => Err(KeepFault::Failed),
        Err(ReadFault::NoMemory) => Err(KeepFault::NoMemory),
    }
}
