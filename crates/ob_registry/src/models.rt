//! Models with all their fields, by name and by number: their own ones, those that are
//! delegated to a parent's row, and the hidden ones behind them. What expressions and paths
//! may name is looked up here.

ghost use Rattle.std.specs.List.{AllPairs, AllZip};
ghost use Rattle.std.specs.Prelude.{◌≡◌, ◌≢◌, ◌<◌, ◌≤◌, ◌+◌, ◌++◌, ◌-◌, ◌↔◌, IfOk, IfSome, IsNone, IsSome, IsPermutation, IsSomeAnd, None, Some, length, map, option_map, slice_get};
ghost use Rattle.ob_schema.specs.Finds.{is_usable, kind_of_field, kind_of_type, relation_of};
ghost use Rattle.ob_definition.specs.Gathered.{AreWellNamed, Gathered};
ghost use Rattle.ob_definition.specs.Making.{IsMade, conditions_of, path_made};
ghost use Rattle.ob_definition.specs.Members.{automatic_defs, given_members, is_own_computed, links_of, members_of, model_at, model_number, own_member, own_members, AreInNameOrder};
ghost use Rattle.ob_schema.specs.Strata.{IsMember};
ghost use Rattle.ob_registry.specs.Modelling.{AreMemberNames, IsModelled, delegated_beside, delegation_of, own_in};
ghost use Rattle.ob_registry.specs.ModelFields.{max_numbers, member_of, members_in, named_in, number_in};

use crate::model::{Member, Model, Role};
use ob_base::{ModelNo, NoMemory};
use ob_definition::{
    FieldDef, FieldType, GatheredModel, Gathering, Inherits, Made, ParentLink, is_automatic,
    is_computed, is_set,
};
use ob_expr::{Found, Kind, Scope};
use ob_schema::{Delegation, Step};
use std::alloc::Global;
use std::collections::BTreeSet;

/// How many models, or fields of one, two bytes number.
pub(crate) const MAX_NUMBERS: usize = 65_535;

/// The models of definitions by number, from 1.
#[derive(Drop)]
pub(crate) struct Models<'a> {
    pub(crate) list: Vec<Model<'a>>,
    gathering: &'a Gathering<'a>,
}

impl<'a> std::marker::Model for Models<'a> {
    ghost use Rattle.std.specs.Prelude.{List};
    ghost use Rattle.ob_definition.specs.Gathered.{Gathered};

    ghost Value = { List Gathered };

    ghost use Rattle.ob_registry.specs.Modelling.{AreModelled};

    ghost view = { λ models. models.gathering.now };

    ghost invariant = { λ models. AreModelled models.gathering.now models.list.items };
}

/// The models of what was gathered.
pub(crate) fn models_of<'a>(
    alloc: Global,
    gathering: &'a Gathering<'a>,
    automatic: &'a [FieldDef],
    made: &'a [Made<'a>],
) -> Result<Models<'a>, NoMemory>
    requires few { length gathering.now ≤ max_numbers }
    requires named { AreWellNamed gathering.now }
    requires automatic { automatic.now ≡ automatic_defs }
    requires made { AllZip (IsMade gathering.now) gathering.now made.now }
    ensures { IfOk result (λ models. models ≡ gathering.now) }
{
    let own = own_lists(alloc, gathering, automatic, made)?;
    let mut list = Vec::new(alloc);
    for place in 0..gathering.models().len() {
        list.push(model_of(alloc, gathering, &made[place], own.as_slice(), place)?)?;
    }
    Ok(Models { list, gathering })
}

/// The fields of each model that aren't delegated.
fn own_lists<'a>(
    alloc: Global,
    gathering: &'a Gathering<'a>,
    automatic: &'a [FieldDef],
    made: &'a [Made<'a>],
) -> Result<Vec<Vec<Member<'a>>>, NoMemory>
    requires automatic { automatic.now ≡ automatic_defs }
    requires made { AllZip (IsMade gathering.now) gathering.now made.now }
    ensures { IfOk result (λ own. own_in own.items ≡ map (own_members gathering.now) gathering.now) }
{
    let mut own = Vec::new(alloc);
    for place in 0..gathering.models().len() {
        let gathered = &gathering.models()[place];
        own.push(own_members(alloc, gathered, automatic, &made[place])?)?;
    }
    Ok(own)
}

/// The fields of a model that aren't delegated.
fn own_members<'a>(
    alloc: Global,
    gathered: &'a GatheredModel<'a>,
    automatic: &'a [FieldDef],
    made: &'a Made<'a>,
) -> Result<Vec<Member<'a>>, NoMemory>
    requires automatic { automatic.now ≡ automatic_defs }
    requires path { made.now.path ≡ path_made gathered.now }
    ensures { IfOk result (λ members. members_in members.items
        ≡ given_members gathered.now ++ map (λ l. own_member gathered.now.entry l.field) made.now.links.items) }
{
    let entry = gathered.entry;
    let mut members = Vec::new(alloc);
    for def in automatic {
        members.push(Member::own(entry, def))?;
    }
    add_declared(&mut members, gathered)?;
    if let Some(def) = &made.path {
        members.push(Member::own(entry, def))?;
    }
    add_links(&mut members, entry, made)?;
    Ok(members)
}

/// Adds the declared fields.
fn add_declared<'a>(
    members: &mut Vec<Member<'a>>,
    gathered: &'a GatheredModel<'a>,
) -> Result<(), NoMemory>
    ensures { IfOk result (λ _. members_in members.new.items
        ≡ members_in members.old.items ++ map (λ f. own_member f.entry f.def) gathered.now.fields) }
{
    for field in gathered.fields.as_slice() {
        members.push(Member::own(field.entry, field.def))?;
    }
    Ok(())
}

/// Adds the links to parents.
fn add_links<'a>(
    members: &mut Vec<Member<'a>>,
    entry: u32,
    made: &'a Made<'a>,
) -> Result<(), NoMemory>
    ensures { IfOk result (λ _. members_in members.new.items
        ≡ members_in members.old.items ++ map (λ l. own_member entry l.field) made.now.links.items) }
{
    for link in made.links.iter() {
        members.push(Member::own(entry, &link.field))?;
    }
    Ok(())
}

/// Adds the conditions.
fn add_hidden<'a>(members: &mut Vec<Member<'a>>, made: &'a Made<'a>) -> Result<(), NoMemory>
    ensures { IfOk result (λ _. members_in members.new.items
        ≡ members_in members.old.items ++ conditions_of made.now.hidden.items) }
{
    for condition in made.hidden.iter() {
        members.push(Member {
            entry: condition.entry,
            def: &condition.field,
            role: Role::Hidden,
        })?;
    }
    Ok(())
}

/// A model, whose fields and those of the others that aren't delegated are known.
fn model_of<'a>(
    alloc: Global,
    gathering: &'a Gathering<'a>,
    made: &'a Made<'a>,
    own: &[Vec<Member<'a>>],
    place: usize,
) -> Result<Model<'a>, NoMemory>
    requires place { place < length gathering.now }
    requires named { AreWellNamed gathering.now }
    requires made { IsSomeAnd (slice_get gathering.now place) (λ g. IsMade gathering.now g made.now) }
    requires own { own_in own.now ≡ map (own_members gathering.now) gathering.now }
    ensures { IfOk result
        (λ model. IsSomeAnd (slice_get gathering.now place) (λ g. IsModelled gathering.now g model)) }
{
    let gathered = &gathering.models()[place];
    let links = made.links.as_slice();
    let mut members = own[place].as_slice().to_vec(alloc)?;
    add_delegated(alloc, &mut members, gathering, gathered, links, own)?;
    sort(&mut members)?;
    let named = members.len();
    add_hidden(&mut members, made)?;
    if members.len() > MAX_NUMBERS {
        return Err(NoMemory);
    }
    Ok(Model {
        gathered,
        links,
        members,
        named,
    })
}

/// Adds the fields that are delegated to parents, the last parent's first.
fn add_delegated<'a>(
    alloc: Global,
    members: &mut Vec<Member<'a>>,
    gathering: &'a Gathering<'a>,
    gathered: &'a GatheredModel<'a>,
    links: &'a [ParentLink<'a>],
    own: &[Vec<Member<'a>>],
) -> Result<(), NoMemory>
    requires named { AreWellNamed gathering.now }
    requires own { own_in own.now ≡ map (own_members gathering.now) gathering.now }
    requires links { map (λ l. l.parent.now) links.now ≡ links_of gathering.now gathered.now }
    requires members { members_in members.old.items ≡ own_members gathering.now gathered.now }
    ensures { IfOk result
        (λ _. IsPermutation (members_of gathering.now gathered.now) (members_in members.new.items)) }
{
    let mut names = names_of(alloc, members.as_slice())?;
    for left in (0..links.len()).rev() {
        let link = links[left].parent;
        if let Some(target) = gathering.place(link.model.as_str()) {
            let parent = own[target].as_slice();
            delegate(alloc, members, &mut names, gathered.entry, link, parent)?;
        }
    }
    Ok(())
}

/// Sorts fields by name, where each has a name of its own.
fn sort(members: &mut Vec<Member<'_>>) -> Result<(), NoMemory>
    requires { AllPairs (λ a b. a.def.name ≢ b.def.name) (members_in members.old.items) }
    ensures permutation { IfOk result
        (λ _. IsPermutation (members_in members.old.items) (members_in members.new.items)) }
    ensures ordered { IfOk result (λ _. AreInNameOrder (members_in members.new.items)) }
{
    members.sort_by(|a, b| a.def.name.as_str().cmp(b.def.name.as_str()))?;
    Ok(())
}

/// The names of fields.
fn names_of(alloc: Global, members: &[Member<'_>]) -> Result<BTreeSet<String>, NoMemory>
    ensures { IfOk result (λ names. AreMemberNames names (members_in members.now)) }
{
    let mut names = BTreeSet::new(alloc);
    for member in members {
        names.insert(String::from_str(alloc, member.def.name.as_str())?)?;
    }
    Ok(names)
}

/// Delegates the fields of a parent that aren't automatic, where no own field and none of a
/// later parent has their name.
fn delegate<'a>(
    alloc: Global,
    members: &mut Vec<Member<'a>>,
    names: &mut BTreeSet<String>,
    entry: u32,
    link: &'a Inherits,
    parent: &[Member<'a>],
) -> Result<(), NoMemory>
    requires names { AreMemberNames names.old (members_in members.old.items) }
    requires distinct { AllPairs (λ a b. a.def.name ≢ b.def.name) (members_in parent.now) }
    ensures names { IfOk result (λ _. AreMemberNames names.new (members_in members.new.items)) }
    ensures members { IfOk result (λ _. members_in members.new.items
        ≡ members_in members.old.items
        ++ delegated_beside entry link.now (members_in parent.now) (members_in members.old.items)) }
{
    for member in parent {
        let name = member.def.name.as_str();
        if !is_automatic(name) && !names.contains(name) {
            names.insert(String::from_str(alloc, name)?)?;
            members.push(Member {
                entry,
                def: member.def,
                role: Role::Delegated(link),
            })?;
        }
    }
    Ok(())
}

/// The number of what stands at a place: one more.
pub(crate) fn number_of_place(place: usize) -> u16
    requires { place < max_numbers }
    ensures { result ≡ place + 1 }
{
    place as u16 + 1
}

/// The kind of a field's values, where its relation, if it has one, is a model.
pub(crate) fn kind_of_type(field_type: FieldType, relation: Option<ModelNo>) -> Option<Kind>
    ensures { result ≡ kind_of_type field_type relation }
{
    match field_type {
        FieldType::Boolean => Some(Kind::Bool),
        FieldType::Integer => Some(Kind::Int),
        FieldType::Char | FieldType::Text | FieldType::Selection => Some(Kind::Word),
        FieldType::Date => Some(Kind::Day),
        FieldType::Datetime => Some(Kind::Moment),
        FieldType::Many2one => relation.map(Kind::Ref),
        FieldType::One2many | FieldType::Many2many => relation.map(Kind::Refs),
    }
}

/// Whether expressions may read a field.
fn is_usable(def: &FieldDef) -> bool
    ensures { result ≡ is_usable def.now }
{
    !is_set(def.secret) && (!is_computed(def) || is_set(def.store))
}

impl<'a> Models<'a> {
    /// The number of the model of a name, if there is one.
    pub(crate) fn number(&self, name: &str) -> Option<ModelNo>
        ensures { result ≡ model_number self.now name.now }
    {
        let place = self.gathering.place(name)?;
        Some(ModelNo(place as u16 + 1))
    }

    /// The model of a number.
    pub(crate) fn model(&self, number: ModelNo) -> &Model<'a>
        requires { IsSome (model_at self.now number.0) }
        ensures { IsSomeAnd (model_at self.now number.0) (λ g. IsModelled self.now g result.now) }
    {
        &self.list[number.0 as usize - 1]
    }

    /// The model of a number, if there is one.
    fn at(&self, number: ModelNo) -> Option<&Model<'a>>
        ensures there { IfSome result
            (λ model. IsSomeAnd (model_at self.now number.0) (λ g. IsModelled self.now g model.now)) }
        ensures none { IsNone result → model_at self.now number.0 ≡ None }
    {
        self.list.get((number.0 as usize).checked_sub(1)?)
    }

    /// The field of a step, if there is one.
    pub(crate) fn find(&self, step: Step) -> Option<&Member<'a>>
        ensures is { (g : Gathered) (m : Rattle.ob_definition.specs.Members.Member)
            → IsMember self.now step g m ↔ ((model_at self.now step.model.0 ≡ Some g)
            × (option_map (λ member. member_of member.now) result ≡ Some m)) }
        ensures there { IfSome result (λ _. IsSome (model_at self.now step.model.0)) }
    {
        let model = self.at(step.model)?;
        model.members.get((step.field.0 as usize).checked_sub(1)?)
    }

    /// The model whose rows a field names, where its type is a relation and there is such a
    /// model.
    pub(crate) fn relation(&self, def: &FieldDef) -> Option<ModelNo>
        ensures { result ≡ relation_of self.now def.now }
    {
        if !def.field_type.is_relation() {
            return None;
        }
        self.number(def.relation.as_ref()?.as_str())
    }

    /// Where a delegated field's value stands: behind a link, as the parent's field of the
    /// name.
    pub(crate) fn delegation(
        &self,
        model: &Model<'_>,
        through: &Inherits,
        def: &FieldDef,
    ) -> Option<Delegation>
        ensures { (g : Gathered) → IsModelled self.now g model.now
            → result ≡ delegation_of self.now g through.now def.now.name }
    {
        let target = self.number(through.model.as_str())?;
        Some(Delegation {
            link: model.number(through.link.as_str())?,
            model: target,
            field: self.model(target).number(def.name.as_str())?,
        })
    }

    /// The kind of a field's values.
    pub(crate) fn kind(&self, def: &FieldDef) -> Option<Kind>
        ensures { result ≡ kind_of_field self.now def.now }
    {
        kind_of_type(def.field_type, self.relation(def))
    }
}

impl Scope for Models<'_> {
    ghost use Rattle.ob_schema.specs.Finds.{found_at};

    ghost finds = { λ models model name. found_at models model name };

    fn field(&self, model: ModelNo, name: &str) -> Option<Found> {
        let model = self.at(model)?;
        let number = model.number(name)?;
        let member = model.member(number);
        let kind = self.kind(member.def)?;
        let (via, field) = match member.role {
            Role::Delegated(through) => {
                let delegation = self.delegation(model, through, member.def)?;
                (Some((delegation.link, delegation.model)), delegation.field)
            }
            _ => (None, number),
        };
        let usable = is_usable(member.def);
        Some(Found {
            via,
            field,
            kind,
            usable,
        })
    }
}
