//! Fields that no entry declares: those that each model has, the links to parents, the path
//! of a row in its tree, and the hidden ones that stand for checks and `locked`.

ghost use Rattle.std.specs.Cmp.Lexicographic.{slice_cmp};
ghost use Rattle.std.specs.List.{AllZip};
ghost use Rattle.std.specs.List.Sorted.{IsPermutation, IsSortedByKey};
ghost use Rattle.std.specs.Ordering.{nat_cmp};
ghost use Rattle.std.specs.Prelude.{◌≡◌, ◌||◌, IfOk, map};
ghost use Rattle.ob_definition.specs.ByName.{declared_checks};
ghost use Rattle.ob_definition.specs.Definitions.{is_automatic, is_one_of};
ghost use Rattle.ob_definition.specs.Findings.{Adds};
ghost use Rattle.ob_definition.specs.Gathered.{is_declared};
ghost use Rattle.ob_definition.specs.Making.{AreHidden, AreLinks, AreMadeFaults, IsLinkFault, IsMade, IsPathFault, TakesPath, conditions_of, path_made, wrong_parent};
ghost use Rattle.ob_definition.specs.Members.{automatic_defs, check_member, condition_def, given_members, link_def, links_of, moment_def, names_of, user_def};

use crate::by_name::CheckEntry;
use crate::definition::{FieldDef, Inherits};
use crate::field_type::{FieldType, OnDelete};
use crate::first::First;
use crate::gathering::{GatheredModel, Gathering, check_spot};
use crate::wrong::Wrong;
use ob_base::{NoMemory, Sequence, Word};
use std::alloc::Global;
use std::collections::BTreeSet;

/// The model of the users.
const USERS_NAME: &str = "res.users";

/// The stored path of a row in its tree.
pub(crate) const PATH_NAME: &str = "parent_path";

/// Whether each model has a field of this name beside the declared ones.
pub fn is_automatic(name: &str) -> bool
    ensures { result ≡ is_automatic name.now }
{
    matches!(
        name,
        "create_date" | "create_uid" | "id" | "write_date" | "write_uid"
    )
}

/// The fields that each model has beside the declared ones.
pub fn automatic_fields(alloc: Global) -> Result<Vec<FieldDef>, NoMemory>
    ensures { IfOk result (λ fields. fields.items ≡ automatic_defs) }
{
    let mut fields = Vec::new(alloc);
    fields.push(moment_field(alloc, "create_date")?)?;
    fields.push(user_field(alloc, "create_uid")?)?;
    fields.push(FieldDef::plain(alloc, "id", FieldType::Integer)?)?;
    fields.push(moment_field(alloc, "write_date")?)?;
    fields.push(user_field(alloc, "write_uid")?)?;
    Ok(fields)
}

/// The moment at which a row was made, or last changed.
fn moment_field(alloc: Global, name: &str) -> Result<FieldDef, NoMemory>
    ensures { IfOk result (λ field. field ≡ moment_def name.now) }
{
    Ok(FieldDef {
        managed: Some(true),
        ..FieldDef::plain(alloc, name, FieldType::Datetime)?
    })
}

/// The user who made a row, or last changed it.
fn user_field(alloc: Global, name: &str) -> Result<FieldDef, NoMemory>
    ensures { IfOk result (λ field. field ≡ user_def name.now) }
{
    Ok(FieldDef {
        relation: Some(Word::from_text(alloc, USERS_NAME)?),
        managed: Some(true),
        ..FieldDef::plain(alloc, name, FieldType::Many2one)?
    })
}

/// A link to a parent, and its field.
#[derive(Drop)]
pub struct ParentLink<'a> {
    pub parent: &'a Inherits,
    pub field: FieldDef,
}

/// The field that stands for a condition, and the entry that gives it.
#[derive(Drop)]
pub struct Condition {
    pub entry: u32,
    pub field: FieldDef,
}

/// The fields that one model has by its keys.
#[derive(Drop)]
pub struct Made<'a> {
    /// The path in the tree, where the model has one and declares no field of that name.
    pub path: Option<FieldDef>,
    pub links: Vec<ParentLink<'a>>,
    /// Checks by name, then `locked`.
    pub hidden: Vec<Condition>,
}

/// The fields that the models have by their keys, and what is wrong with these.
pub fn made_fields<'a>(
    alloc: Global,
    gathering: &Gathering<'a>,
    first: &mut First,
) -> Result<Vec<Made<'a>>, NoMemory>
    ensures made { IfOk result (λ made. AllZip (IsMade gathering.now) gathering.now made.items) }
    ensures faults { IfOk result
        (λ _. Adds (AreMadeFaults gathering.now gathering.now) first.old first.new) }
{
    let mut made = Vec::new(alloc);
    for model in gathering.models() {
        made.push(Made {
            path: path_field(alloc, model, first)?,
            links: link_fields(alloc, gathering, model, first)?,
            hidden: hidden_fields(alloc, model)?,
        })?;
    }
    Ok(made)
}

/// The path of a row of a tree: that of its parent, and its id.
fn path_field(
    alloc: Global,
    model: &GatheredModel<'_>,
    first: &mut First,
) -> Result<Option<FieldDef>, NoMemory>
    ensures path { IfOk result (λ path. path ≡ path_made model.now) }
    ensures faults { IfOk result (λ _. Adds (IsPathFault model.now) first.old first.new) }
{
    let Some(parent) = model.parent else {
        return Ok(None);
    };
    if model.fields.has(PATH_NAME) {
        taken_path(model, first)?;
        return Ok(None);
    }
    let compute = format!(in alloc; "cat({parent}.{PATH_NAME}, text(id), \"/\")")?;
    let mut depends = Sequence::new(alloc);
    depends.push(Word::new(format!(in alloc; "{parent}.{PATH_NAME}")?))?;
    depends.push(Word::from_text(alloc, "id")?)?;
    Ok(Some(FieldDef {
        compute: Some(Word::new(compute)),
        depends: Some(depends),
        store: Some(true),
        recursive: Some(true),
        ..FieldDef::plain(alloc, PATH_NAME, FieldType::Char)?
    }))
}

/// Finds the declared field that takes the name of a tree's path.
fn taken_path(model: &GatheredModel<'_>, first: &mut First) -> Result<(), NoMemory>
    ensures { IfOk result (λ _. Adds (TakesPath model.now.fields) first.old first.new) }
{
    for field in model.fields.as_slice() {
        let is_path = field.def.name.as_str() == PATH_NAME;
        first.at_field(field.entry, PATH_NAME, is_path.then_some(Wrong::Twice))?;
    }
    Ok(())
}

/// The links to the parents that a model may have.
fn link_fields<'a>(
    alloc: Global,
    gathering: &Gathering<'a>,
    model: &GatheredModel<'a>,
    first: &mut First,
) -> Result<Vec<ParentLink<'a>>, NoMemory>
    ensures links { IfOk result (λ links. AreLinks (links_of gathering.now model.now) links.items) }
    ensures faults { IfOk result
        (λ _. Adds (IsLinkFault gathering.now model.now) first.old first.new) }
{
    let mut links = Vec::new(alloc);
    let mut names = BTreeSet::new(alloc);
    for parent in model.inherits {
        let link = parent.link.as_str();
        let wrong = wrong_parent(gathering, model, parent);
        let is_parent = wrong.is_none();
        first.at_entry(model.entry, wrong)?;
        let is_taken = has_own_name(model, link) || names.contains(link);
        let is_twice = is_parent && is_taken;
        first.at_entry(model.entry, is_twice.then_some(Wrong::Twice))?;
        if is_parent && !is_taken {
            names.insert(String::from_str(alloc, link)?)?;
            let field = link_field(alloc, parent)?;
            links.push(ParentLink { parent, field })?;
        }
    }
    Ok(links)
}

/// Why a model may not have a parent: there is no such model, it is the model itself, or it has
/// parents.
fn wrong_parent(
    gathering: &Gathering<'_>,
    model: &GatheredModel<'_>,
    parent: &Inherits,
) -> Option<Wrong>
    ensures { result ≡ wrong_parent gathering.now model.now parent.now }
{
    let Some(place) = gathering.place(parent.model.as_str()) else {
        return Some(Wrong::Model);
    };
    let target = &gathering.models()[place];
    let is_other = target.name != model.name;
    if is_other && target.inherits.is_empty() {
        None
    } else {
        Some(Wrong::Inherits)
    }
}

/// Whether a model has a field of this name, its links to parents aside.
fn has_own_name(model: &GatheredModel<'_>, name: &str) -> bool
    ensures { result ≡ is_one_of (names_of (given_members model.now)) name.now }
{
    is_given_name(model, name) || (model.parent.is_some() && name == PATH_NAME)
}

/// Whether a name is automatic, or that of a declared field.
fn is_given_name(model: &GatheredModel<'_>, name: &str) -> bool
    ensures { result ≡ (is_automatic name.now || is_declared model.now.fields name.now) }
{
    is_automatic(name) || model.fields.has(name)
}

/// The required many2one to a parent's row, with which the row goes.
fn link_field(alloc: Global, parent: &Inherits) -> Result<FieldDef, NoMemory>
    ensures { IfOk result (λ field. field ≡ link_def parent.now) }
{
    Ok(FieldDef {
        relation: Some(parent.model.try_clone(alloc)?),
        required: Some(true),
        ondelete: Some(OnDelete::Cascade),
        ..FieldDef::plain(alloc, parent.link.as_str(), FieldType::Many2one)?
    })
}

/// The fields that stand for the checks of a model, by name, and for `locked`.
fn hidden_fields(alloc: Global, model: &GatheredModel<'_>) -> Result<Vec<Condition>, NoMemory>
    ensures { IfOk result (λ hidden. AreHidden model.now (conditions_of hidden.items)) }
{
    let fields = check_fields(alloc, model.checks.as_slice())?;
    let mut hidden = by_name(fields)?;
    if let Some(locked) = model.locked {
        let entry = model.entry;
        let field = condition_field(alloc, "locked", locked)?;
        hidden.push(Condition { entry, field })?;
    }
    Ok(hidden)
}

/// Conditions in byte order of their names.
fn by_name(conditions: Vec<Condition>) -> Result<Vec<Condition>, NoMemory>
    ensures permutation { IfOk result (λ sorted. IsPermutation conditions.items sorted.items) }
    ensures sorted { IfOk result
        (λ sorted. IsSortedByKey (λ hidden. hidden.field.name) (slice_cmp nat_cmp) sorted.items) }
{
    let mut sorted = conditions;
    sorted.sort_by(|a, b| a.field.name.as_str().cmp(b.field.name.as_str()))?;
    Ok(sorted)
}

/// The fields that stand for checks, in their order.
fn check_fields(alloc: Global, checks: &[CheckEntry<'_>]) -> Result<Vec<Condition>, NoMemory>
    ensures { IfOk result (λ fields. conditions_of fields.items
        ≡ map check_member (declared_checks checks.now)) }
{
    let mut fields = Vec::new(alloc);
    for declared in checks {
        let entry = declared.entry;
        let check = declared.check;
        let name = check_spot(alloc, check.name.as_str())?;
        let field = condition_field(alloc, name.as_str(), check.expression.as_str())?;
        fields.push(Condition { entry, field })?;
    }
    Ok(fields)
}

/// A computed Boolean that isn't kept.
fn condition_field(alloc: Global, name: &str, text: &str) -> Result<FieldDef, NoMemory>
    ensures { IfOk result (λ field. field ≡ condition_def name.now text.now) }
{
    Ok(FieldDef {
        compute: Some(Word::from_text(alloc, text)?),
        ..FieldDef::plain(alloc, name, FieldType::Boolean)?
    })
}
