//! What the entries declare, gathered model by model in their order: a new model, a copy of
//! another, or what is added to one in place. Of two fields, or checks, of one name in a model
//! the first stays.

ghost use Rattle.std.specs.Prelude.{◌≡◌, ◌++◌, ◌∷◌, [], ◌<◌, ◌≤◌, IfOk, IfSome, None, is_some, length, map, option_map, slice_get};
ghost use Rattle.ob_definition.specs.EntryFaults.{IsEntryFault, IsGatheringFault, has_key_of_new, is_wrong_entry};
ghost use Rattle.ob_definition.specs.Findings.{Adds};
ghost use Rattle.ob_definition.specs.ByName.{place_of, sets_of};
ghost use Rattle.ob_definition.specs.Definitions.{first_of};
ghost use Rattle.ob_definition.specs.Gathered.{AreWellNamed, added, begun, begun_new, blank, copied, gathered, model_of, set_at, with_checks, with_entry, with_fields, with_opened};
ghost use Rattle.ob_definition.specs.Members.{check_name};
ghost use Rattle.ob_definition.specs.Rooms.{IsAdditionFault, IsBeginningFault, IsCheckTwiceFault, IsExtensionFault, IsFieldTwiceFault};

use crate::by_name::{Checks, Fields};
use crate::definition::{Check, FieldDef, Inherits, ModelDef};
use crate::first::First;
use crate::keys::is_set;
use crate::made::is_automatic;
use crate::names::is_model_name;
use crate::wrong::Wrong;
use ob_base::limits::{MAX_CHECKS, MAX_MODELS};
use ob_base::{NoMemory, Sequence, Word};
use std::alloc::Global;
use std::collections::BTreeMap;
use std::marker::Model;

/// The text of an order as an entry declares or copies it.
#[derive(Clone, Copy, Debug)]
pub struct GivenOrder<'a> {
    pub entry: u32,
    pub text: &'a str,
}

/// A set of fields that no two rows share, as an entry declares or copies it.
#[derive(Clone, Copy, Debug)]
pub struct UniqueSet<'a> {
    pub entry: u32,
    pub names: &'a [Word],
}

/// A model as its entries declare it.
#[derive(Debug, Drop)]
pub struct GatheredModel<'a> {
    pub name: &'a str,
    /// The entry that makes it.
    pub entry: u32,
    pub inherits: &'a [Inherits],
    pub parent: Option<&'a str>,
    pub locked: Option<&'a str>,
    pub managed: bool,
    pub order: Option<GivenOrder<'a>>,
    pub unique: Vec<UniqueSet<'a>>,
    pub checks: Checks<'a>,
    pub fields: Fields<'a>,
}

impl<'a> Model for GatheredModel<'a> {
    ghost use Rattle.std.specs.Prelude.{map, option_map};
    ghost use Rattle.ob_definition.specs.Gathered.{Gathered, order_at, set_at};

    ghost Value = { Gathered };

    ghost view = { λ m. record {
      name = m.name.now;
      entry = m.entry;
      inherits = m.inherits.now;
      parent = option_map (λ text. text.now) m.parent;
      locked = option_map (λ text. text.now) m.locked;
      managed = m.managed;
      order = option_map (λ o. order_at o.entry o.text.now) m.order;
      unique = map (λ u. set_at u.entry u.names.now) m.unique.items;
      checks = m.checks;
      fields = m.fields;
    } };
}

/// The models of the entries so far, in the order in which they are made.
#[derive(Drop)]
pub struct Gathering<'a> {
    models: Vec<GatheredModel<'a>>,
    /// The place of each model, by its name.
    places: BTreeMap<String, usize>,
}

impl<'a> Model for Gathering<'a> {
    ghost use Rattle.std.specs.Prelude.{List};
    ghost use Rattle.ob_definition.specs.ByName.{ArePlaces};
    ghost use Rattle.ob_definition.specs.Gathered.{Gathered};

    ghost Value = { List Gathered };

    ghost view = { λ g. g.models.items };

    ghost invariant = { λ g. ArePlaces g.places g.models.items };
}

/// The models of definitions, and what is wrong with entries as they are gathered.
pub fn gather<'a>(
    alloc: Global,
    defs: &'a [ModelDef],
    first: &mut First,
) -> Result<Gathering<'a>, NoMemory>
    ensures models { IfOk result (λ models. models ≡ gathered defs.now) }
    ensures few { IfOk result (λ models. length models ≤ length defs.now) }
    ensures named { IfOk result AreWellNamed }
    ensures faults { IfOk result (λ _. Adds (IsGatheringFault defs.now) first.old first.new) }
{
    let mut gathering = Gathering::new(alloc);
    for (place, def) in defs.iter().enumerate() {
        let entry = u32::try_from(place).map_err(|_| NoMemory)?;
        gathering.take(alloc, entry, def, first)?;
    }
    Ok(gathering)
}

impl<'a> Gathering<'a> {
    /// No models.
    fn new(alloc: Global) -> Gathering<'a>
        ensures { result ≡ [] }
    {
        Gathering {
            models: Vec::new(alloc),
            places: BTreeMap::new(alloc),
        }
    }

    /// The models in the order in which they are made.
    pub fn models(&self) -> &[GatheredModel<'a>]
        ensures { result.now ≡ self.now }
    {
        self.models.as_slice()
    }

    /// The place of the model of a name, if there is one so far.
    pub fn place(&self, name: &str) -> Option<usize>
        ensures at { result ≡ place_of self.now name.now }
        ensures within { IfSome result (λ place. place < length self.now) }
    {
        self.places.get(name).copied()
    }

    /// The model of a name, if there is one so far.
    fn find(&self, name: &str) -> Option<&GatheredModel<'a>>
        ensures { option_map (λ model. model.now) result ≡ model_of self.now name.now }
    {
        match self.place(name) {
            Some(place) => Some(&self.models[place]),
            None => None,
        }
    }

    /// Takes one entry more.
    fn take(
        &mut self,
        alloc: Global,
        entry: u32,
        def: &'a ModelDef,
        first: &mut First,
    ) -> Result<(), NoMemory>
        ensures models { IfOk result (λ _. self.new ≡ with_entry entry self.old def.now) }
        ensures faults { IfOk result
            (λ _. Adds (IsEntryFault self.old entry def.now) first.old first.new) }
    {
        first.at_entry(entry, is_wrong_entry(def).then_some(Wrong::Kind))?;
        match (&def.name, &def.inherit) {
            (None, None) => first.at_entry(entry, Some(Wrong::Model)),
            (None, Some(base)) => self.extend(alloc, entry, def, base.as_str(), first),
            (Some(name), None) => {
                let model = GatheredModel::new(alloc, entry, name.as_str());
                self.begin(alloc, def, model, first)
            }
            (Some(name), Some(base)) => match self.find(base.as_str()) {
                Some(base) => {
                    let model = base.copy(alloc, entry, name.as_str())?;
                    self.begin(alloc, def, model, first)
                }
                None => first.at_entry(entry, Some(Wrong::Model)),
            },
        }
    }

    /// Adds what an entry declares to a model that is there.
    fn extend(
        &mut self,
        alloc: Global,
        entry: u32,
        def: &'a ModelDef,
        base: &str,
        first: &mut First,
    ) -> Result<(), NoMemory>
        ensures models { IfOk result (λ _. self.new ≡ with_opened entry def.now (model_of self.old base.now) self.old) }
        ensures faults { IfOk result
            (λ _. Adds (IsExtensionFault self.old entry def.now base.now) first.old first.new) }
    {
        match self.place(base) {
            Some(place) => {
                let model = &mut self.models[place];
                model.add(alloc, entry, def, first)
            }
            None => first.at_entry(entry, Some(Wrong::Model)),
        }
    }

    /// Begins a new model with what an entry declares.
    fn begin(
        &mut self,
        alloc: Global,
        def: &'a ModelDef,
        model: GatheredModel<'a>,
        first: &mut First,
    ) -> Result<(), NoMemory>
        ensures models { IfOk result (λ _. self.new ≡ with_opened model.entry.entry def.now (begun_new self.old def.now model.entry) self.old) }
        ensures faults { IfOk result
            (λ _. Adds (IsBeginningFault self.old def.now model.entry) first.old first.new) }
    {
        let mut model = model;
        let entry = model.entry;
        if self.place(model.name).is_some() {
            return first.at_entry(entry, Some(Wrong::Twice));
        }
        let is_full = self.models.len() >= MAX_MODELS;
        first.at_entry(entry, is_full.then_some(Wrong::Limit))?;
        model.declare(def);
        model.add(alloc, entry, def, first)?;
        self.push(alloc, model)
    }

    /// Adds a model whose name is free.
    fn push(&mut self, alloc: Global, model: GatheredModel<'a>) -> Result<(), NoMemory>
        requires { model_of self.old model.name ≡ None }
        ensures { IfOk result (λ _. self.new ≡ self.old ++ model.entry ∷ []) }
    {
        let name = String::from_str(alloc, model.name)?;
        self.models.reserve(1)?;
        self.places.insert(name, self.models.len())?;
        self.models.push(model)?;
        Ok(())
    }
}

/// Whether an entry's name is of another form, or an entry that extends a model has a key that
/// only a new model may have.
fn is_wrong_entry(def: &ModelDef) -> bool
    ensures { result ≡ is_wrong_entry def.now }
{
    match &def.name {
        Some(name) => !is_model_name(name.as_str()),
        None => def.inherit.is_some() && has_key_of_new(def),
    }
}

/// Whether an entry has a key that only a new model may have.
fn has_key_of_new(def: &ModelDef) -> bool
    ensures { result ≡ has_key_of_new def.now }
{
    def.parent.is_some() || has_parents(def) || def.locked.is_some() || def.managed.is_some()
}

/// Whether an entry names parents.
fn has_parents(def: &ModelDef) -> bool
    ensures { result ≡ is_some (slice_get def.now.inherits 0) }
{
    !def.inherits.is_empty()
}

impl<'a> GatheredModel<'a> {
    /// A new model without keys.
    fn new(alloc: Global, entry: u32, name: &'a str) -> GatheredModel<'a>
        ensures { result ≡ blank entry name.now }
    {
        GatheredModel {
            name,
            entry,
            inherits: &[],
            parent: None,
            locked: None,
            managed: false,
            order: None,
            unique: Vec::new(alloc),
            checks: Checks::new(alloc),
            fields: Fields::new(alloc),
        }
    }

    /// A new model with a copy of what this one has so far, as the new entry declares it.
    fn copy(&self, alloc: Global, entry: u32, name: &'a str) -> Result<GatheredModel<'a>, NoMemory>
        ensures { IfOk result (λ model. model ≡ copied entry name.now self.now) }
    {
        Ok(GatheredModel {
            name,
            entry,
            inherits: &[],
            parent: self.parent,
            locked: self.locked,
            managed: false,
            order: self.order.map(|order| GivenOrder { entry, ..order }),
            unique: copied_sets(alloc, entry, self.unique.as_slice())?,
            checks: self.checks.copy(alloc, entry)?,
            fields: self.fields.copy(alloc, entry)?,
        })
    }

    /// Takes the keys that only a new model may have.
    fn declare(&mut self, def: &'a ModelDef)
        ensures { self.new ≡ begun def.now self.old }
    {
        self.inherits = def.inherits.as_slice();
        self.managed = is_set(def.managed);
        self.parent = given_text(&def.parent, self.parent);
        self.locked = given_text(&def.locked, self.locked);
    }

    /// Adds the fields, checks and unique sets of an entry; its order replaces.
    fn add(
        &mut self,
        alloc: Global,
        entry: u32,
        def: &'a ModelDef,
        first: &mut First,
    ) -> Result<(), NoMemory>
        ensures model { IfOk result (λ _. self.new ≡ added entry def.now self.old) }
        ensures named { self.new.name ≡ self.old.name }
        ensures faults { IfOk result
            (λ _. Adds (IsAdditionFault entry def.now self.old) first.old first.new) }
    {
        add_fields(alloc, &mut self.fields, entry, def.fields.as_slice(), first)?;
        add_checks(alloc, &mut self.checks, entry, def.checks.as_slice(), first)?;
        let has_many = self.checks.len() > MAX_CHECKS;
        first.at_entry(entry, has_many.then_some(Wrong::Limit))?;
        add_sets(&mut self.unique, entry, def.unique.as_slice())?;
        if let Some(order) = &def.order {
            let text = order.as_str();
            self.order = Some(GivenOrder { entry, text });
        }
        Ok(())
    }
}

/// The text that is given, or else the one that was there.
fn given_text<'a>(given: &'a Option<Word>, own: Option<&'a str>) -> Option<&'a str>
    ensures { option_map (λ text. text.now) result
        ≡ first_of given.now (option_map (λ text. text.now) own.entry) }
{
    match given {
        Some(text) => Some(text.as_str()),
        None => own,
    }
}

/// Adds the fields of an entry.
fn add_fields<'a>(
    alloc: Global,
    fields: &mut Fields<'a>,
    entry: u32,
    defs: &'a [FieldDef],
    first: &mut First,
) -> Result<(), NoMemory>
    ensures fields { IfOk result (λ _. fields.new ≡ with_fields entry fields.old defs.now) }
    ensures faults { IfOk result
        (λ _. Adds (IsFieldTwiceFault entry fields.old defs.now) first.old first.new) }
{
    for def in defs {
        let name = def.name.as_str();
        let is_taken = is_automatic(name) || fields.has(name);
        first.at_field(entry, name, is_taken.then_some(Wrong::Twice))?;
        if !is_taken {
            fields.push(alloc, entry, def)?;
        }
    }
    Ok(())
}

/// Adds the checks of an entry.
fn add_checks<'a>(
    alloc: Global,
    checks: &mut Checks<'a>,
    entry: u32,
    given: &'a [Check],
    first: &mut First,
) -> Result<(), NoMemory>
    ensures checks { IfOk result (λ _. checks.new ≡ with_checks entry checks.old given.now) }
    ensures faults { IfOk result
        (λ _. Adds (IsCheckTwiceFault entry checks.old given.now) first.old first.new) }
{
    for check in given {
        let is_taken = checks.has(check.name.as_str());
        let spot = check_spot(alloc, check.name.as_str())?;
        first.at_field(entry, spot.as_str(), is_taken.then_some(Wrong::Twice))?;
        if !is_taken {
            checks.push(alloc, entry, check)?;
        }
    }
    Ok(())
}

/// Adds the unique sets of an entry.
fn add_sets<'a>(
    sets: &mut Vec<UniqueSet<'a>>,
    entry: u32,
    given: &'a [Sequence<Word>],
) -> Result<(), NoMemory>
    ensures { IfOk result (λ _. sets_of sets.new.items
        ≡ sets_of sets.old.items ++ map (set_at entry) given.now) }
{
    for names in given {
        let names = names.as_slice();
        sets.push(UniqueSet { entry, names })?;
    }
    Ok(())
}

/// Copies of unique sets, as a new entry declares them.
fn copied_sets<'a>(
    alloc: Global,
    entry: u32,
    sets: &[UniqueSet<'a>],
) -> Result<Vec<UniqueSet<'a>>, NoMemory>
    ensures { IfOk result (λ copies. sets_of copies.items
        ≡ map (λ set. set_at entry set.names) (sets_of sets.now)) }
{
    let mut copies = Vec::new(alloc);
    for set in sets {
        copies.push(UniqueSet { entry, ..*set })?;
    }
    Ok(copies)
}

/// The field that stands for a check.
pub(crate) fn check_spot(alloc: Global, name: &str) -> Result<Word, NoMemory>
    ensures { IfOk result (λ spot. spot ≡ check_name name.now) }
{
    let mut spot = String::from_str(alloc, "check:")?;
    spot.push_str(name)?;
    Ok(Word::new(spot))
}
