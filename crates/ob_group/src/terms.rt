//! The order of groups: terms by groupings that are used, and then by all of these.

ghost use Rattle.std.specs.Prelude.{◌≡◌, map, option_map, IfOk};
ghost use Rattle.serde_json.specs.View.{view};
ghost use Rattle.ob_call.specs.Places.{below_steps};
ghost use Rattle.ob_definition.specs.Orders.{all_some, term_of_entry, terms_of};
ghost use Rattle.ob_group.specs.GroupForms.{group_order_fault, group_term, group_terms};
ghost use Rattle.ob_group.specs.GroupParts.{grouping_view, term_view, terms_view};

use crate::groupings::Grouping;
use ob_base::NoMemory;
use ob_call::{Below, Json};
use ob_definition::{OrderEntry, order_entries};
use std::alloc::Global;

/// A grouping that is used, by its number from 0, and whether groups fall by it.
#[derive(Clone, Copy)]
pub(crate) struct GroupTerm {
    pub(crate) number: usize,
    pub(crate) descending: bool,
}

/// Whether a value is no order of groups.
pub(crate) fn group_order_fault<'j>(
    alloc: Global,
    used: &[Grouping<'_>],
    json: &'j Json,
) -> Result<Option<Below<'j>>, NoMemory>
    ensures { IfOk result (λ told. option_map below_steps told ≡ group_order_fault (map grouping_view used.now) (view json.now)) }
{
    match group_terms(alloc, used, json)? {
        Some(_) => Ok(None),
        None => Ok(Some(Below::Whole)),
    }
}

/// The terms of an order of groups, none where it has another form or names no grouping that is
/// used.
pub(crate) fn group_terms(
    alloc: Global,
    used: &[Grouping<'_>],
    json: &Json,
) -> Result<Option<Vec<GroupTerm>>, NoMemory>
    ensures { IfOk result (λ terms. option_map terms_view terms ≡ group_terms (map grouping_view used.now) (view json.now)) }
{
    let Some(text) = json.as_str() else {
        return Ok(None);
    };
    match order_entries(alloc, text)? {
        Some(entries) => terms_of(alloc, used, entries.as_slice()),
        None => Ok(None),
    }
}

/// The terms for which entries stand, none where one stands for none.
fn terms_of(
    alloc: Global,
    used: &[Grouping<'_>],
    entries: &[OrderEntry<'_>],
) -> Result<Option<Vec<GroupTerm>>, NoMemory>
    ensures { IfOk result (λ terms. option_map terms_view terms ≡ all_some (map (group_term (map grouping_view used.now)) (terms_of entries.now))) }
{
    let mut terms = Vec::new(alloc);
    for entry in entries {
        match group_term(used, entry) {
            Some(term) => terms.push(term)?,
            None => return Ok(None),
        }
    }
    Ok(Some(terms))
}

/// The term for which an entry stands.
fn group_term(used: &[Grouping<'_>], entry: &OrderEntry<'_>) -> Option<GroupTerm>
    ensures { option_map term_view result ≡ group_term (map grouping_view used.now) (term_of_entry entry.now) }
{
    let number = used
        .iter()
        .position(|grouping| grouping.text == entry.name)?;
    Some(GroupTerm {
        number,
        descending: entry.descending,
    })
}
