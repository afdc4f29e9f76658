//! Which rows rules admit, and which rule denies one. Each rule's domain is asked at most once
//! a row; once a global rule fails, or a group rule holds, no more of its kind are asked.

ghost use Rattle.std.specs.Prelude.{◌≡◌, ◌&&◌, All, IfErr, IfOk, find, not, option_map, true, Some};
ghost use Rattle.std.specs.Option.{option_or};
ghost use Rattle.ob_domain.specs.Holding.{IsHoldFault};
ghost use Rattle.ob_domain.specs.Over.{IsOver};
ghost use Rattle.ob_expr.specs.Meaning.{row_at};
ghost use Rattle.ob_schema.specs.Facts.{Asked, FailedBehind, OfAllTold};
ghost use Rattle.ob_access.specs.Admission.{admits, applies_to, denier, denying, is_global, is_met};
ghost use Rattle.ob_access.specs.Asked.{first_unmet};
ghost use Rattle.ob_access.specs.Index.{ArePlaces, rules_at};
ghost use Rattle.ob_access.specs.Policies.{IsPolicyOver, rule_data};

use crate::groups::GroupSet;
use crate::index::listed;
use crate::policy::{Policy, Rule};
use crate::rights::is_superuser;
use ob_base::{ModelNo, Op, RecId, Word};
use ob_domain::{HoldFault, holds};
use ob_schema::Facts;
use std::alloc::Global;

/// A row of a model, and who asks for it.
#[derive(Clone, Copy)]
struct Case {
    user: RecId,
    model: ModelNo,
    id: RecId,
}

impl Policy {
    /// Whether rules admit a row to an operation of a caller. The row is one that the facts
    /// know. The only fault beside want of memory is one that the facts answered.
    pub fn admits<F: Facts>(
        &self,
        alloc: Global,
        groups: &GroupSet,
        user: RecId,
        op: Op,
        model: ModelNo,
        id: RecId,
        facts: &mut F,
    ) -> Result<bool, HoldFault<F::Fault>>
        requires over { IsPolicyOver (F.registry facts.old) self.now }
        requires known { OfAllTold (F.tells facts.old) (λ told. told.knows model id ≡ true) }
        ensures admits { IfOk result
            (λ b. OfAllTold (F.tells facts.old) (λ told. b ≡ admits self.now told groups.now user op (row_at model id))) }
        ensures fault { IfErr result (IsHoldFault (FailedBehind F.asks F.has_failed facts.old facts.new)) }
        ensures asked { Asked F.asks facts.old facts.new }
        ensures same { F.registry facts.new ≡ F.registry facts.old }
        ensures kept { OfAllTold (F.tells facts.old) (F.tells facts.new) }
        ensures only { OfAllTold (F.tells facts.new) (F.tells facts.old) }
    {
        let case = Case { user, model, id };
        let denying = self.denying(alloc, groups, case, op, facts)?;
        Ok(denying.is_none())
    }

    /// The full name of the rule that denies a row to an operation of a caller, if any does:
    /// the first global rule that the row doesn't meet, else the first group rule that applies
    /// to the caller. The row is one that the facts know, and the only fault beside want of
    /// memory is one that the facts answered.
    pub fn denier<F: Facts>(
        &self,
        alloc: Global,
        groups: &GroupSet,
        user: RecId,
        op: Op,
        model: ModelNo,
        id: RecId,
        facts: &mut F,
    ) -> Result<Option<Word>, HoldFault<F::Fault>>
        requires over { IsPolicyOver (F.registry facts.old) self.now }
        requires known { OfAllTold (F.tells facts.old) (λ told. told.knows model id ≡ true) }
        ensures denier { IfOk result
            (λ name. OfAllTold (F.tells facts.old) (λ told. name ≡ denier self.now told groups.now user op (row_at model id))) }
        ensures fault { IfErr result (IsHoldFault (FailedBehind F.asks F.has_failed facts.old facts.new)) }
        ensures asked { Asked F.asks facts.old facts.new }
        ensures same { F.registry facts.new ≡ F.registry facts.old }
        ensures kept { OfAllTold (F.tells facts.old) (F.tells facts.new) }
        ensures only { OfAllTold (F.tells facts.new) (F.tells facts.old) }
    {
        let case = Case { user, model, id };
        match self.denying(alloc, groups, case, op, facts)? {
            Some(rule) => Ok(Some(rule.name.try_clone(alloc)?)),
            None => Ok(None),
        }
    }

    /// The rule that denies a row to a caller, if any does.
    fn denying<F: Facts>(
        &self,
        alloc: Global,
        groups: &GroupSet,
        case: Case,
        op: Op,
        facts: &mut F,
    ) -> Result<Option<&Rule>, HoldFault<F::Fault>>
        requires over { IsPolicyOver (F.registry facts.old) self.now }
        requires known { OfAllTold (F.tells facts.old) (λ told. told.knows case.model case.id ≡ true) }
        ensures told { IfOk result (λ rule. OfAllTold (F.tells facts.old) (λ told. option_map (λ r. rule_data r.now) rule
            ≡ denying self.now told groups.now case.user op (row_at case.model case.id))) }
        ensures fault { IfErr result (IsHoldFault (FailedBehind F.asks F.has_failed facts.old facts.new)) }
        ensures asked { Asked F.asks facts.old facts.new }
        ensures same { F.registry facts.new ≡ F.registry facts.old }
        ensures kept { OfAllTold (F.tells facts.old) (F.tells facts.new) }
        ensures only { OfAllTold (F.tells facts.new) (F.tells facts.old) }
    {
        if is_superuser(case.user) {
            return Ok(None);
        }
        let places = listed(&self.places, case.model, op);
        let rules = self.rules.as_slice();
        let failing = failing_global(alloc, rules, places, case, facts)?;
        if failing.is_some() {
            return Ok(failing);
        }
        unmet_group(alloc, rules, places, groups, case, facts)
    }
}

/// The first global rule of those at some places that the row doesn't meet.
fn failing_global<'r, F: Facts>(
    alloc: Global,
    rules: &'r [Rule],
    places: &[usize],
    case: Case,
    facts: &mut F,
) -> Result<Option<&'r Rule>, HoldFault<F::Fault>>
    requires places { ArePlaces rules.now places.now }
    requires over { All (λ rule. IsOver (F.registry facts.old) case.model rule.asks) (rules_at rules.now places.now) }
    requires known { OfAllTold (F.tells facts.old) (λ told. told.knows case.model case.id ≡ true) }
    ensures told { IfOk result (λ rule. OfAllTold (F.tells facts.old) (λ told. option_map (λ r. rule_data r.now) rule
        ≡ find (λ rule. is_global rule && not (is_met told case.user (row_at case.model case.id) rule)) (rules_at rules.now places.now))) }
    ensures fault { IfErr result (IsHoldFault (FailedBehind F.asks F.has_failed facts.old facts.new)) }
    ensures asked { Asked F.asks facts.old facts.new }
    ensures same { F.registry facts.new ≡ F.registry facts.old }
    ensures kept { OfAllTold (F.tells facts.old) (F.tells facts.new) }
    ensures only { OfAllTold (F.tells facts.new) (F.tells facts.old) }
{
    for place in places {
        let rule = &rules[*place];
        if fails(alloc, rule, case, facts)? {
            return Ok(Some(rule));
        }
    }
    Ok(None)
}

/// Whether a rule is a global one that a row doesn't meet.
fn fails<F: Facts>(
    alloc: Global,
    rule: &Rule,
    case: Case,
    facts: &mut F,
) -> Result<bool, HoldFault<F::Fault>>
    requires over { IsOver (F.registry facts.old) case.model (rule_data rule.now).asks }
    requires known { OfAllTold (F.tells facts.old) (λ told. told.knows case.model case.id ≡ true) }
    ensures told { IfOk result (λ b. OfAllTold (F.tells facts.old) (λ told. b ≡ (is_global (rule_data rule.now)
        && not (is_met told case.user (row_at case.model case.id) (rule_data rule.now))))) }
    ensures fault { IfErr result (IsHoldFault (FailedBehind F.asks F.has_failed facts.old facts.new)) }
    ensures asked { Asked F.asks facts.old facts.new }
    ensures same { F.registry facts.new ≡ F.registry facts.old }
    ensures kept { OfAllTold (F.tells facts.old) (F.tells facts.new) }
    ensures only { OfAllTold (F.tells facts.new) (F.tells facts.old) }
{
    if rule.groups.is_some() {
        return Ok(false);
    }
    Ok(!is_met(alloc, rule, case, facts)?)
}

/// The first group rule of those at some places that applies to the caller, where some does
/// and the row meets none of these.
fn unmet_group<'r, F: Facts>(
    alloc: Global,
    rules: &'r [Rule],
    places: &[usize],
    groups: &GroupSet,
    case: Case,
    facts: &mut F,
) -> Result<Option<&'r Rule>, HoldFault<F::Fault>>
    requires places { ArePlaces rules.now places.now }
    requires over { All (λ rule. IsOver (F.registry facts.old) case.model rule.asks) (rules_at rules.now places.now) }
    requires known { OfAllTold (F.tells facts.old) (λ told. told.knows case.model case.id ≡ true) }
    ensures told { IfOk result (λ rule. OfAllTold (F.tells facts.old) (λ told. option_map (λ r. rule_data r.now) rule
        ≡ first_unmet (is_met told case.user (row_at case.model case.id)) groups.now (rules_at rules.now places.now))) }
    ensures fault { IfErr result (IsHoldFault (FailedBehind F.asks F.has_failed facts.old facts.new)) }
    ensures asked { Asked F.asks facts.old facts.new }
    ensures same { F.registry facts.new ≡ F.registry facts.old }
    ensures kept { OfAllTold (F.tells facts.old) (F.tells facts.new) }
    ensures only { OfAllTold (F.tells facts.new) (F.tells facts.old) }
{
    let mut first = None;
    for place in places {
        let rule = &rules[*place];
        if applies_to(groups, rule) {
            if is_met(alloc, rule, case, facts)? {
                return Ok(None);
            }
            first = first_of(first, rule);
        }
    }
    Ok(first)
}

/// The first of a rule that came before, if any did, and another.
fn first_of<'r>(first: Option<&'r Rule>, rule: &'r Rule) -> Option<&'r Rule>
    ensures { option_map (λ r. rule_data r.now) result ≡ option_or (option_map (λ r. rule_data r.now) first.entry) (Some (rule_data rule.now)) }
{
    first.or(Some(rule))
}

/// Whether a rule is a group rule that applies to a caller.
fn applies_to(groups: &GroupSet, rule: &Rule) -> bool
    ensures { result ≡ applies_to groups.now (rule_data rule.now) }
{
    match &rule.groups {
        Some(ids) => groups.has_some(ids.as_slice()),
        None => false,
    }
}

/// Whether a row meets a rule's domain.
fn is_met<F: Facts>(
    alloc: Global,
    rule: &Rule,
    case: Case,
    facts: &mut F,
) -> Result<bool, HoldFault<F::Fault>>
    requires over { IsOver (F.registry facts.old) case.model (rule_data rule.now).asks }
    requires known { OfAllTold (F.tells facts.old) (λ told. told.knows case.model case.id ≡ true) }
    ensures told { IfOk result (λ b. OfAllTold (F.tells facts.old)
        (λ told. b ≡ is_met told case.user (row_at case.model case.id) (rule_data rule.now))) }
    ensures fault { IfErr result (IsHoldFault (FailedBehind F.asks F.has_failed facts.old facts.new)) }
    ensures asked { Asked F.asks facts.old facts.new }
    ensures same { F.registry facts.new ≡ F.registry facts.old }
    ensures kept { OfAllTold (F.tells facts.old) (F.tells facts.new) }
    ensures only { OfAllTold (F.tells facts.new) (F.tells facts.old) }
{
    holds(alloc, &rule.domain, case.user, case.model, case.id, facts)
}
