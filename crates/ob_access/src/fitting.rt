//! Whether groups, access lines and rules fit a registry and one another. What a policy asks of
//! them comes to be tested here, for whoever doesn't know it from how they were made.

ghost use Rattle.std.specs.Prelude.{◌≡◌, ◌↔◌, All, Any, IsTrue, map};
ghost use Rattle.ob_domain.specs.Over.{IsOver};
ghost use Rattle.ob_domain.specs.Trees.{tree_of_domain};
ghost use Rattle.ob_access.specs.Policies.{AreNamedApart, IsGroup, IsLineOver, IsPolicyOver, IsRuleOver, policy_of, rule_data};

use crate::groups::group_at;
use crate::policy::{AccessLine, Group, Rule};
use ob_base::RecId;
use ob_schema::Schema;

/// Whether these are a policy over the registry. Each rule's domain is one of its model, as it
/// was read.
pub fn fits(schema: &Schema, groups: &[Group], accesses: &[AccessLine], rules: &[Rule]) -> bool
    requires { All (λ rule. IsOver schema.now rule.model (tree_of_domain rule.domain)) rules.now }
    ensures { IsTrue result ↔ IsPolicyOver schema.now (policy_of schema.now groups.now accesses.now rules.now) }
{
    are_named_apart(groups)
        && imply_groups(groups)
        && are_lines(schema, groups, accesses)
        && are_rules(schema, groups, rules)
}

/// Whether no two groups have one name.
fn are_named_apart(groups: &[Group]) -> bool
    ensures { IsTrue result ↔ AreNamedApart groups.now }
{
    for (place, group) in groups.iter().enumerate() {
        if is_named(&groups[..place], group.name.as_str()) {
            return false;
        }
    }
    true
}

/// Whether some group has a name.
fn is_named(groups: &[Group], name: &str) -> bool
    ensures { IsTrue result ↔ Any (λ group. group.name ≡ name.now) groups.now }
{
    groups.iter().any(|group| group.name.as_str() == name)
}

/// Whether each group implies groups that there are.
fn imply_groups(groups: &[Group]) -> bool
    ensures { IsTrue result ↔ All (λ group. All (IsGroup groups.now) group.implies) groups.now }
{
    groups
        .iter()
        .all(|group| are_groups(groups, group.implies.as_slice()))
}

/// Whether there are groups of these ids.
fn are_groups(groups: &[Group], ids: &[RecId]) -> bool
    ensures { IsTrue result ↔ All (IsGroup groups.now) ids.now }
{
    ids.iter().all(|id| group_at(groups, *id).is_some())
}

/// Whether each line is of a model that there is, for every user or a group that there is.
fn are_lines(schema: &Schema, groups: &[Group], accesses: &[AccessLine]) -> bool
    ensures { IsTrue result ↔ All (IsLineOver schema.now groups.now) accesses.now }
{
    accesses.iter().all(|line| is_line(schema, groups, line))
}

/// Whether a line is of a model that there is, for every user or a group that there is.
fn is_line(schema: &Schema, groups: &[Group], line: &AccessLine) -> bool
    ensures { IsTrue result ↔ IsLineOver schema.now groups.now line.now }
{
    let has_group = match line.group {
        Some(id) => group_at(groups, id).is_some(),
        None => true,
    };
    has_group && schema.find_model(line.model).is_some()
}

/// Whether each rule is of a model that there is, and names groups that there are.
fn are_rules(schema: &Schema, groups: &[Group], rules: &[Rule]) -> bool
    requires { All (λ rule. IsOver schema.now rule.model (tree_of_domain rule.domain)) rules.now }
    ensures { IsTrue result ↔ All (IsRuleOver schema.now groups.now) (map rule_data rules.now) }
{
    for rule in rules {
        if !is_rule(schema, groups, rule) {
            return false;
        }
    }
    true
}

/// Whether a rule is of a model that there is, and names groups that there are.
fn is_rule(schema: &Schema, groups: &[Group], rule: &Rule) -> bool
    requires { IsOver schema.now rule.now.model (tree_of_domain rule.now.domain) }
    ensures { IsTrue result ↔ IsRuleOver schema.now groups.now (rule_data rule.now) }
{
    let has_groups = match &rule.groups {
        Some(ids) => are_groups(groups, ids.as_slice()),
        None => true,
    };
    has_groups && schema.find_model(rule.model).is_some()
}
