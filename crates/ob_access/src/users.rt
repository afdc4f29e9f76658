//! Users as rows: which model and fields they are known by, who may call with which key, and in
//! which groups a caller is. What is asked of a user's row is added here.

ghost use Rattle.std.specs.Option.{option_map_or};
ghost use Rattle.std.specs.Prelude.{◌≡◌, ◌↔◌, Contains, IfErr, IfOk, IfSome, [], false};
ghost use Rattle.ob_access.specs.Groups.{IsMember};
ghost use Rattle.ob_access.specs.Users.{AreUsers, IsInGroup, has_login, ids_of, is_active, is_word, may_call, user_value, users_of};
ghost use Rattle.ob_base.specs.declared.id.RecId.{RecId};
ghost use Rattle.ob_base.specs.Rising.{IsRising};
ghost use Rattle.ob_domain.specs.Holding.{IsHoldFault};
ghost use Rattle.ob_schema.specs.Facts.{Asked, FailedBehind, OfAllTold};
ghost use Rattle.ob_schema.specs.Models.{HasField};

use crate::groups::GroupSet;
use crate::policy::Policy;
use ob_base::{Cell, FieldNo, ModelNo, NoMemory, RecId, RefList, Value};
use ob_domain::HoldFault;
use ob_schema::{Facts, Schema};
use std::alloc::Global;

/// The model whose rows are users, and its fields by which they are known.
#[derive(Clone, Copy, Debug, PartialEq, Eq)]
pub struct Users {
    pub model: ModelNo,
    pub active: FieldNo,
    pub groups: FieldNo,
    pub key: FieldNo,
    pub login: FieldNo,
}

impl Users {
    /// Those of a registry: the model `res.users` with its fields `active`, `groups_id`, `key` and
    /// `login`; none where it has no such model or field.
    pub fn of(schema: &Schema) -> Option<Users>
        ensures found { result ≡ users_of schema.now }
        ensures there { IfSome result (AreUsers schema.now) }
    {
        let model = schema.model("res.users")?;
        Some(Users {
            model,
            active: schema.field(model, "active")?,
            groups: schema.field(model, "groups_id")?,
            key: schema.field(model, "key")?,
            login: schema.field(model, "login")?,
        })
    }

    /// Whether a user may call with a key: he is active, and the key is his, byte for byte.
    pub fn may_call<F: Facts>(&self, facts: &mut F, id: RecId, key: &str) -> Result<bool, F::Fault>
        requires { AreUsers (F.registry facts.old) self.now }
        ensures may { IfOk result (λ may. OfAllTold (F.tells facts.old) (λ told. may ≡ may_call told self.now id key.now)) }
        ensures failed { IfErr result (FailedBehind F.asks F.has_failed facts.old facts.new) }
        ensures asked { Asked F.asks facts.old facts.new }
        ensures same { F.registry facts.new ≡ F.registry facts.old }
        ensures kept { OfAllTold (F.tells facts.old) (F.tells facts.new) }
        ensures only { OfAllTold (F.tells facts.new) (F.tells facts.old) }
    {
        if !self.is_active(facts, id)? {
            return Ok(false);
        }
        self.has_word(facts, id, self.key, key)
    }

    /// Whether a user is there and active.
    pub fn is_active<F: Facts>(&self, facts: &mut F, id: RecId) -> Result<bool, F::Fault>
        requires { AreUsers (F.registry facts.old) self.now }
        ensures active { IfOk result (λ active. OfAllTold (F.tells facts.old) (λ told. active ≡ is_active told self.now id)) }
        ensures failed { IfErr result (FailedBehind F.asks F.has_failed facts.old facts.new) }
        ensures asked { Asked F.asks facts.old facts.new }
        ensures same { F.registry facts.new ≡ F.registry facts.old }
        ensures kept { OfAllTold (F.tells facts.old) (F.tells facts.new) }
        ensures only { OfAllTold (F.tells facts.new) (F.tells facts.old) }
    {
        let value = self.value(facts, id, self.active)?;
        Ok(matches!(value, Some(Value::Bool(true))))
    }

    /// Whether a user logs in with a name, byte for byte.
    pub fn has_login<F: Facts>(
        &self,
        facts: &mut F,
        id: RecId,
        login: &str,
    ) -> Result<bool, F::Fault>
        requires { AreUsers (F.registry facts.old) self.now }
        ensures has { IfOk result (λ has. OfAllTold (F.tells facts.old) (λ told. has ≡ has_login told self.now id login.now)) }
        ensures failed { IfErr result (FailedBehind F.asks F.has_failed facts.old facts.new) }
        ensures asked { Asked F.asks facts.old facts.new }
        ensures same { F.registry facts.new ≡ F.registry facts.old }
        ensures kept { OfAllTold (F.tells facts.old) (F.tells facts.new) }
        ensures only { OfAllTold (F.tells facts.new) (F.tells facts.old) }
    {
        self.has_word(facts, id, self.login, login)
    }

    /// Whether a user holds a text.
    fn has_word<F: Facts>(
        &self,
        facts: &mut F,
        id: RecId,
        field: FieldNo,
        text: &str,
    ) -> Result<bool, F::Fault>
        requires { HasField (F.registry facts.old) self.now.model field }
        ensures has { IfOk result (λ has. OfAllTold (F.tells facts.old) (λ told. has ≡ option_map_or (is_word text.now) (user_value told self.now id field) false)) }
        ensures failed { IfErr result (FailedBehind F.asks F.has_failed facts.old facts.new) }
        ensures asked { Asked F.asks facts.old facts.new }
        ensures same { F.registry facts.new ≡ F.registry facts.old }
        ensures kept { OfAllTold (F.tells facts.old) (F.tells facts.new) }
        ensures only { OfAllTold (F.tells facts.new) (F.tells facts.old) }
    {
        match self.value(facts, id, field)? {
            Some(Value::Word(own)) => Ok(own.as_str() == text),
            _ => Ok(false),
        }
    }

    /// What a user holds for a field; nothing where there is no such user.
    fn value<F: Facts>(
        &self,
        facts: &mut F,
        id: RecId,
        field: FieldNo,
    ) -> Result<Option<Value>, F::Fault>
        requires { HasField (F.registry facts.old) self.now.model field }
        ensures value { IfOk result (λ value. OfAllTold (F.tells facts.old) (λ told. value ≡ user_value told self.now id field)) }
        ensures failed { IfErr result (FailedBehind F.asks F.has_failed facts.old facts.new) }
        ensures asked { Asked F.asks facts.old facts.new }
        ensures same { F.registry facts.new ≡ F.registry facts.old }
        ensures kept { OfAllTold (F.tells facts.old) (F.tells facts.new) }
        ensures only { OfAllTold (F.tells facts.new) (F.tells facts.old) }
    {
        if !facts.known(self.model, id)? {
            return Ok(None);
        }
        let value = facts.value(Cell {
            model: self.model,
            id,
            field,
        })?;
        Ok(Some(value))
    }
}

impl Policy {
    /// The groups of a user: exactly those that his row names, and with each group the ones that
    /// it implies; none where there is no such user.
    pub fn groups_of_user<F: Facts>(
        &self,
        alloc: Global,
        users: &Users,
        facts: &mut F,
        id: RecId,
    ) -> Result<GroupSet, HoldFault<F::Fault>>
        requires { AreUsers (F.registry facts.old) users.now }
        ensures members { IfOk result (λ groups. OfAllTold (F.tells facts.old) (λ told. (group : RecId) → Contains groups group ↔ IsInGroup self.now told users.now id group)) }
        ensures rising { IfOk result IsRising }
        ensures fault { IfErr result (IsHoldFault (FailedBehind F.asks F.has_failed facts.old facts.new)) }
        ensures asked { Asked F.asks facts.old facts.new }
        ensures same { F.registry facts.new ≡ F.registry facts.old }
        ensures kept { OfAllTold (F.tells facts.old) (F.tells facts.new) }
        ensures only { OfAllTold (F.tells facts.new) (F.tells facts.old) }
    {
        match users.value(facts, id, users.groups) {
            Ok(stated) => Ok(self.groups_stated(alloc, stated)?),
            Err(fault) => Err(HoldFault::Fact(fault)),
        }
    }

    /// The groups of a user whose row holds this for them.
    fn groups_stated(&self, alloc: Global, stated: Option<Value>) -> Result<GroupSet, NoMemory>
        ensures members { IfOk result (λ groups. (id : RecId) → Contains groups id ↔ IsMember self.now.groups (option_map_or ids_of stated []) id) }
        ensures rising { IfOk result IsRising }
    {
        match stated {
            Some(Value::Refs(ids)) => self.groups_of(alloc, &ids),
            _ => self.groups_of(alloc, &RefList::new(alloc)),
        }
    }
}
