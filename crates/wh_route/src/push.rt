//! The rule that takes goods on from a place where they came in.

ghost use Rattle.std.specs.Prelude.{◌≡◌, ◌≤◌, ◌⊎◌, IfSome, IfNone};
ghost use Rattle.wh_route.specs.Routes.{IsPushRule, NonePushes};

use crate::rule::RouteRule;
use ob_base::RecId;

/// The push rule of least id that starts at the place, where there is one.
pub fn push_next(rules: &[RouteRule], place: RecId) -> Option<RecId>
    ensures some { IfSome result (IsPushRule rules.now place) }
    ensures none { IfNone result (NonePushes rules.now place) }
{
    let mut found: Option<RecId> = None;
    for rule in rules {
        if rule.pushes_from(place) {
            found = Some(lesser(found, rule.id));
        }
    }
    found
}

/// The lesser one of the two, where there are two.
fn lesser(found: Option<RecId>, id: RecId) -> RecId
    ensures both { IfSome found (λ first. ((result ≡ first) ⊎ (result ≡ id)) × (result.0 ≤ first.0)) }
    ensures one { IfNone found (result ≡ id) }
    ensures no_more { result.0 ≤ id.0 }
{
    match found {
        Some(first) if first <= id => first,
        _ => id,
    }
}
