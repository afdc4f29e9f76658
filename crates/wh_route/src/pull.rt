//! The chain of pull rules that brings goods to a place. Each member costs one walk
//! over the rules, and there are at most eight.

ghost use Rattle.std.specs.Prelude.{◌≡◌, ◌⊎◌, List, IfOk, IfSome, IfNone};
ghost use Rattle.ob_base.specs.declared.id.RecId.{RecId};
ghost use Rattle.wh_route.specs.Routes.{IsPullRule, NonePulls, IsChain, IsShort, IsTooDeep, IsNoLater};

use crate::rule::{RouteFault, RouteRule};
use ob_base::limits::MAX_CHAIN_RULES;
use ob_base::{RecId, Sequence};
use std::alloc::Global;

/// The ids of the pull rules that bring goods to the place: the rule of least id that
/// ends there, then that of its source, and so on until no rule follows. `Depth` where
/// a ninth would follow, also where rules lead round in a circle.
pub fn pull_chain(
    alloc: Global,
    rules: &[RouteRule],
    place: RecId,
) -> Result<Sequence<RecId>, RouteFault>
    ensures chain { IfOk result (IsChain rules.now place) }
    ensures short { IfOk result IsShort }
    ensures depth { result ≡ Err RouteFault.Depth → IsTooDeep rules.now place }

    // No other list is a chain.
    ensures only { (a b : List RecId) → IsChain rules.now place a → IsChain rules.now place b → a ≡ b }
{
    let mut chain = Sequence::new(alloc);
    let mut at = place;
    while let Some(rule) = pull_rule(rules, at) {
        if chain.len() >= MAX_CHAIN_RULES {
            return Err(RouteFault::Depth);
        }
        chain.push(rule.id)?;
        at = rule.src;
    }
    Ok(chain)
}

/// The pull rule of the place, where there is one.
fn pull_rule(rules: &[RouteRule], place: RecId) -> Option<RouteRule>
    ensures some { IfSome result (IsPullRule rules.now place) }
    ensures none { IfNone result (NonePulls rules.now place) }
{
    let mut found = None;
    for rule in rules {
        if rule.pulls_to(place) {
            found = Some(earlier(found, *rule));
        }
    }
    found
}

/// The earlier one of the two, where there are two.
fn earlier(found: Option<RouteRule>, rule: RouteRule) -> RouteRule
    ensures both { IfSome found (λ first. ((result ≡ first) ⊎ (result ≡ rule)) × IsNoLater result first) }
    ensures one { IfNone found (result ≡ rule) }
    ensures no_later { IsNoLater result rule }
{
    match found {
        Some(first) if (first.id, first.src) <= (rule.id, rule.src) => first,
        _ => rule,
    }
}
