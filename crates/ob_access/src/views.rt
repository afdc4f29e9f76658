//! Facts as a caller sees them: the rows of models that he may read which rules admit to him, and
//! lists of rows cut to such. What is answered over them depends on no other row. Rules are asked
//! over the facts below, which tell all: a row may be admitted for what its caller doesn't see.

ghost use Rattle.std.specs.Prelude.{◌≡◌, Option, IfErr, IfOk, IfSome, true};
ghost use Rattle.ob_base.specs.Rising.{IsRising};
ghost use Rattle.ob_domain.specs.Aims.{target_at};
ghost use Rattle.ob_domain.specs.Holding.{IsHoldFault, holds};
ghost use Rattle.ob_domain.specs.Over.{IsOver};
ghost use Rattle.ob_domain.specs.Trees.{tree_of_domain};
ghost use Rattle.ob_expr.specs.Meaning.{row_at};
ghost use Rattle.ob_schema.specs.Facts.{Asked, FailedBehind, OfAllTold};
ghost use Rattle.ob_schema.specs.Fields.{HasFieldType};
ghost use Rattle.ob_schema.specs.Models.{HasField, HasModel, field_at};
ghost use Rattle.ob_schema.specs.Paths.{step_at};
ghost use Rattle.ob_schema.specs.declared.info.FieldInfo.{FieldInfo};
ghost use Rattle.ob_access.specs.Policies.{IsPolicyOver};
ghost use Rattle.ob_access.specs.Views.{AreQuestions, AreSeenBy, AsksThrough, FailAsOne, TellsSeen, cut_value, fault_below, seen, seen_ids, seen_value, sees, viewer_of};

use crate::groups::GroupSet;
use crate::policy::Policy;
use ob_base::{Cell, ModelNo, Op, RecId, RefList, Value};
use ob_domain::{Domain, HoldFault, holds};
use ob_schema::{Facts, Schema};
use std::alloc::Global;

impl Policy {
    /// Whether a caller sees a row: it is known, he may read its model, and rules admit it to
    /// him. The only fault beside want of memory is one that the facts answered.
    pub fn sees<F: Facts>(
        &self,
        alloc: Global,
        groups: &GroupSet,
        user: RecId,
        model: ModelNo,
        id: RecId,
        facts: &mut F,
    ) -> Result<bool, HoldFault<F::Fault>>
        requires over { IsPolicyOver (F.registry facts.old) self.now }
        requires model { HasModel (F.registry facts.old) model }
        ensures sees { IfOk result (λ b. OfAllTold (F.tells facts.old) (λ told. b ≡ sees self.now told groups.now user model id)) }
        ensures fault { IfErr result (IsHoldFault (FailedBehind F.asks F.has_failed facts.old facts.new)) }
        ensures asked { Asked F.asks facts.old facts.new }
        ensures same { F.registry facts.new ≡ F.registry facts.old }
        ensures kept { OfAllTold (F.tells facts.old) (F.tells facts.new) }
        ensures only { OfAllTold (F.tells facts.new) (F.tells facts.old) }
    {
        if !self.right(groups, user, model, Op::Read) {
            return Ok(false);
        }
        match facts.known(model, id) {
            Ok(true) => self.admits(alloc, groups, user, Op::Read, model, id, facts),
            Ok(false) => Ok(false),
            Err(fault) => Err(HoldFault::Fact(fault)),
        }
    }

    /// What a caller sees of a cell of a known row: a list of rows is cut to those that he sees.
    /// The only fault beside want of memory is one that the facts answered.
    pub fn seen_value<F: Facts>(
        &self,
        alloc: Global,
        groups: &GroupSet,
        user: RecId,
        schema: &Schema,
        cell: Cell,
        facts: &mut F,
    ) -> Result<Value, HoldFault<F::Fault>>
        requires over { IsPolicyOver (F.registry facts.old) self.now }
        requires schema { schema.now ≡ F.registry facts.old }
        requires field { HasField (F.registry facts.old) cell.model cell.field }
        requires row { OfAllTold (F.tells facts.old) (λ told. told.knows cell.model cell.id ≡ true) }
        ensures value { IfOk result (λ v. OfAllTold (F.tells facts.old) (λ told. v ≡ seen_value schema.now self.now told groups.now user cell)) }
        ensures typed { IfOk result (HasFieldType (field_at (F.registry facts.old) cell.model cell.field)) }
        ensures fault { IfErr result (IsHoldFault (FailedBehind F.asks F.has_failed facts.old facts.new)) }
        ensures asked { Asked F.asks facts.old facts.new }
        ensures same { F.registry facts.new ≡ F.registry facts.old }
        ensures kept { OfAllTold (F.tells facts.old) (F.tells facts.new) }
        ensures only { OfAllTold (F.tells facts.new) (F.tells facts.old) }
    {
        let target = target_of(schema, cell);
        let value = match facts.value(cell) {
            Ok(value) => value,
            Err(fault) => return Err(HoldFault::Fact(fault)),
        };
        match target {
            Some(model) => self.cut(alloc, groups, user, model, value, facts),
            None => Ok(value),
        }
    }

    /// Whether a row that a caller sees meets a domain, which passes only through rows that he
    /// sees. The only fault beside want of memory is one that the facts answered.
    pub fn meets_seen<F: Facts>(
        &self,
        alloc: Global,
        groups: &GroupSet,
        user: RecId,
        schema: &Schema,
        domain: &Domain,
        model: ModelNo,
        id: RecId,
        facts: &mut F,
    ) -> Result<bool, HoldFault<F::Fault>>
        requires over { IsPolicyOver (F.registry facts.old) self.now }
        requires schema { schema.now ≡ F.registry facts.old }
        requires domain { IsOver (F.registry facts.old) model (tree_of_domain domain.now) }
        requires row { OfAllTold (F.tells facts.old) (λ told. sees self.now told groups.now user model id ≡ true) }
        ensures holds { IfOk result (λ b. OfAllTold (F.tells facts.old)
            (λ told. b ≡ holds (seen schema.now self.now groups.now user told) user (tree_of_domain domain.now) (row_at model id))) }
        ensures fault { IfErr result (IsHoldFault (FailedBehind F.asks F.has_failed facts.old facts.new)) }
        ensures asked { Asked F.asks facts.old facts.new }
        ensures same { F.registry facts.new ≡ F.registry facts.old }
        ensures kept { OfAllTold (F.tells facts.old) (F.tells facts.new) }
        ensures only { OfAllTold (F.tells facts.new) (F.tells facts.old) }
    {
        Seen::new(alloc, self, groups, user, schema, facts).meets(domain, model, id)
    }

    /// What a caller sees of a value that names rows of a model.
    fn cut<F: Facts>(
        &self,
        alloc: Global,
        groups: &GroupSet,
        user: RecId,
        model: ModelNo,
        value: Value,
        facts: &mut F,
    ) -> Result<Value, HoldFault<F::Fault>>
        requires over { IsPolicyOver (F.registry facts.old) self.now }
        requires model { HasModel (F.registry facts.old) model }
        ensures cut { IfOk result (λ cut. OfAllTold (F.tells facts.old) (λ told. cut ≡ cut_value self.now told groups.now user model value)) }
        ensures typed { IfOk result (λ cut. (field : Option FieldInfo) → HasFieldType field value → HasFieldType field cut) }
        ensures fault { IfErr result (IsHoldFault (FailedBehind F.asks F.has_failed facts.old facts.new)) }
        ensures asked { Asked F.asks facts.old facts.new }
        ensures same { F.registry facts.new ≡ F.registry facts.old }
        ensures kept { OfAllTold (F.tells facts.old) (F.tells facts.new) }
        ensures only { OfAllTold (F.tells facts.new) (F.tells facts.old) }
    {
        match value {
            Value::Refs(ids) => {
                let seen = self.seen_ids(alloc, groups, user, model, ids.as_slice(), facts)?;
                Ok(Value::Refs(seen))
            }
            other => Ok(other),
        }
    }

    /// Of rising rows of a model those that a caller sees.
    fn seen_ids<F: Facts>(
        &self,
        alloc: Global,
        groups: &GroupSet,
        user: RecId,
        model: ModelNo,
        ids: &[RecId],
        facts: &mut F,
    ) -> Result<RefList, HoldFault<F::Fault>>
        requires over { IsPolicyOver (F.registry facts.old) self.now }
        requires model { HasModel (F.registry facts.old) model }
        requires rising { IsRising ids.now }
        ensures seen { IfOk result (λ seen. OfAllTold (F.tells facts.old) (λ told. seen ≡ seen_ids self.now told groups.now user model ids.now)) }
        ensures rising { IfOk result IsRising }
        ensures fault { IfErr result (IsHoldFault (FailedBehind F.asks F.has_failed facts.old facts.new)) }
        ensures asked { Asked F.asks facts.old facts.new }
        ensures same { F.registry facts.new ≡ F.registry facts.old }
        ensures kept { OfAllTold (F.tells facts.old) (F.tells facts.new) }
        ensures only { OfAllTold (F.tells facts.new) (F.tells facts.old) }
    {
        let mut seen = RefList::new(alloc);
        for id in ids {
            if self.sees(alloc, groups, user, model, *id, facts)? {
                seen.push(*id)?;
            }
        }
        // What it is known for: its ids rise.
        let _ = seen.as_slice();
        Ok(seen)
    }
}

/// The model whose rows a field names, if it names some. The registry has each such model.
fn target_of(schema: &Schema, cell: Cell) -> Option<ModelNo>
    requires { HasField schema.now cell.model cell.field }
    ensures target { result ≡ target_at schema.now (step_at cell.model cell.field) }
    ensures there { IfSome result (HasModel schema.now) }
{
    // What is known of a model says that its relations lead to models.
    let _model = schema.model_info(cell.model);
    schema.info(cell.model, cell.field).relation
}

/// Facts as a caller sees them. Whatever asks facts may ask these, and is answered from the rows
/// that he sees alone.
#[derive(Drop)]
pub struct Seen<'a, F: Facts> {
    alloc: Global,
    policy: &'a Policy,
    groups: &'a GroupSet,
    user: RecId,
    schema: &'a Schema,
    facts: &'a mut F,
    ghost fit: { ∥ AreSeenBy (F.registry facts.now) policy.now schema.now ∥₁ },
}

impl<'a, F: Facts> Seen<'a, F> {
    /// What a caller with these groups sees of facts, by a policy over their registry.
    pub fn new(
        alloc: Global,
        policy: &'a Policy,
        groups: &'a GroupSet,
        user: RecId,
        schema: &'a Schema,
        facts: &'a mut F,
    ) -> Seen<'a, F>
        requires over { IsPolicyOver (F.registry facts.old) policy.now }
        requires schema { schema.now ≡ F.registry facts.old }
        ensures policy { result.policy.now ≡ policy.now }
        ensures groups { result.groups.now ≡ groups.now }
        ensures user { result.user ≡ user }
        ensures schema { result.schema.now ≡ schema.now }
        ensures facts { result.facts.now ≡ facts.old }
        ensures lender { result.facts.ghost_name ≡ facts.entry.ghost_name }
    {
        Seen {
            alloc,
            policy,
            groups,
            user,
            schema,
            facts,
        }
    }

    /// Gives the facts back.
    pub fn close(self) -> &'a mut F
        ensures same { result.now ≡ self.entry.facts.now }
        ensures lender { result.ghost_name ≡ self.entry.facts.ghost_name }
    {
        self.facts
    }

    /// The laws of questions to what is seen: several are questions to the facts below as one is,
    /// and the last of them fails as one fails.
    pub fn questions_are_questions(&self)
        ensures asked { AreQuestions self.now
            (λ old new. AsksThrough F.registry F.tells F.asks old.facts.now new.facts.now × (new.facts.ghost_name ≡ old.facts.ghost_name)
            × (viewer_of new.schema.now new.policy.now new.groups.now new.user ≡ viewer_of old.schema.now old.policy.now old.groups.now old.user)) }
        ensures failed { FailAsOne self.now
            (λ old new. AsksThrough F.registry F.tells F.asks old.facts.now new.facts.now × (new.facts.ghost_name ≡ old.facts.ghost_name)
            × (viewer_of new.schema.now new.policy.now new.groups.now new.user ≡ viewer_of old.schema.now old.policy.now old.groups.now old.user))
            (λ old new. IsHoldFault (FailedBehind F.asks F.has_failed old.facts.now new.facts.now)) }
    {}

    /// Whether a row that is seen meets a domain, over what is seen.
    pub fn meets(
        &mut self,
        domain: &Domain,
        model: ModelNo,
        id: RecId,
    ) -> Result<bool, HoldFault<F::Fault>>
        requires domain { IsOver (F.registry self.old.facts.now) model (tree_of_domain domain.now) }
        requires row { OfAllTold (F.tells self.old.facts.now) (λ told. sees self.old.policy.now told self.old.groups.now self.old.user model id ≡ true) }
        ensures holds { IfOk result (λ b. OfAllTold (F.tells self.old.facts.now)
            (λ told. b ≡ holds (seen self.old.schema.now self.old.policy.now self.old.groups.now self.old.user told) self.old.user (tree_of_domain domain.now) (row_at model id))) }
        ensures fault { IfErr result (IsHoldFault (FailedBehind F.asks F.has_failed self.old.facts.now self.new.facts.now)) }
        ensures asked { AsksThrough F.registry F.tells F.asks self.old.facts.now self.new.facts.now }
        ensures lender { self.new.facts.ghost_name ≡ self.old.facts.ghost_name }
        ensures viewer { viewer_of self.new.schema.now self.new.policy.now self.new.groups.now self.new.user
            ≡ viewer_of self.old.schema.now self.old.policy.now self.old.groups.now self.old.user }
    {
        match holds(self.alloc, domain, self.user, model, id, self) {
            Ok(answer) => Ok(answer),
            Err(fault) => Err(fault_below(fault)),
        }
    }
}

impl<'a, F: Facts> Facts for Seen<'a, F> {
    type Fault = HoldFault<F::Fault>;

    ghost registry = { λ it. F.registry it.facts.now };

    ghost tells = { λ it. TellsSeen (F.tells it.facts.now) it.schema.now it.policy.now it.groups.now it.user };

    ghost asks = { λ old new. AsksThrough F.registry F.tells F.asks old.facts.now new.facts.now × (new.facts.ghost_name ≡ old.facts.ghost_name)
        × (viewer_of new.schema.now new.policy.now new.groups.now new.user ≡ viewer_of old.schema.now old.policy.now old.groups.now old.user) };

    ghost has_failed = { λ old new. IsHoldFault (FailedBehind F.asks F.has_failed old.facts.now new.facts.now) };

    fn known(&mut self, model: ModelNo, id: RecId) -> Result<bool, HoldFault<F::Fault>> {
        self.policy.sees(
            self.alloc,
            self.groups,
            self.user,
            model,
            id,
            &mut *self.facts,
        )
    }

    fn value(&mut self, cell: Cell) -> Result<Value, HoldFault<F::Fault>> {
        self.policy.seen_value(
            self.alloc,
            self.groups,
            self.user,
            self.schema,
            cell,
            &mut *self.facts,
        )
    }
}

/// A fault of what is seen, as one of the facts below it.
fn fault_below<F>(fault: HoldFault<HoldFault<F>>) -> HoldFault<F>
    ensures { result ≡ fault_below fault }
{
    match fault {
        HoldFault::Fact(why) => why,
        HoldFault::NoMemory => HoldFault::NoMemory,
    }
}
