//! What the names of a module are looked up in: the groups and models that there are, and the
//! full names that are taken. How a name is resolved is changed here.

ghost use Rattle.std.specs.Prelude.{◌≡◌, ◌<◌, IfOk, IfSome, is_some, length, map};
ghost use Rattle.toml.specs.View.{view};
ghost use Rattle.ob_load.specs.Access as spec;
ghost use Rattle.ob_module.specs.Forms as forms;

use ob_base::{NoMemory, RecId, RefList, Sequence, Word};
use ob_module::{Form, Wrong, str_at, unless, word_at};
use ob_schema::Schema;
use std::alloc::Global;
use toml::Value;

/// Where a module stands: the registry, its name, and the groups that it may name.
#[derive(Clone, Copy)]
pub(crate) struct Scope<'s> {
    pub(crate) alloc: Global,
    pub(crate) schema: &'s Schema,
    pub(crate) owner: &'s str,
    /// The full names of the groups of the modules before it, and of its own.
    pub(crate) groups: &'s [Word],
}

impl Scope<'_> {
    /// The full name of an entry.
    pub(crate) fn name_of(&self, entry: &Value) -> Result<Word, NoMemory>
        ensures { IfOk result (λ name. name ≡ spec.name_of self.now.owner.now (view entry.now)) }
    {
        full_name(self.alloc, self.owner, word_at(entry, "name"))
    }

    /// The ids of the groups of some names.
    pub(crate) fn group_ids(&self, names: &[Word]) -> Result<RefList, NoMemory>
        ensures { IfOk result (λ ids. ids ≡ spec.group_ids self.now.groups.now names.now) }
    {
        let mut ids = RefList::new(self.alloc);
        for (place, group) in self.groups.iter().enumerate() {
            if is_among(names, group.as_str()) {
                ids.push(RecId(place as u64 + 1))?;
            }
        }
        Ok(ids)
    }
}

/// The full name of what a module declares.
pub(crate) fn full_name(alloc: Global, owner: &str, name: &str) -> Result<Word, NoMemory>
    ensures { IfOk result (λ full. full ≡ spec.full_name owner.now name.now) }
{
    Ok(Word::new(format!(in alloc; "{owner}.{name}")?))
}

/// Whether a name is one of these.
pub(crate) fn is_among(names: &[Word], name: &str) -> bool
    ensures { result ≡ spec.is_among names.now name.now }
{
    names.iter().any(|own| own.as_str() == name)
}

/// The id of the group of a name, among the groups of these names.
pub(crate) fn group_id(groups: &[Word], name: &str) -> Option<RecId>
    ensures { result ≡ spec.group_id groups.now name.now }
{
    let place = groups.iter().position(|own| own.as_str() == name)?;
    Some(RecId(place as u64 + 1))
}

/// The name of one of these groups.
#[derive(Clone, Copy)]
pub(crate) struct GroupName<'n> {
    pub(crate) groups: &'n [Word],
}

impl Form for GroupName<'_> {
    ghost wrong = { λ n. forms.text_where (spec.is_group n.groups.now) };

    fn wrong(&self, alloc: Global, value: &Value) -> Result<Option<Wrong>, NoMemory> {
        let fits = match value {
            Value::String(name) => group_id(self.groups, name.as_str()).is_some(),
            _ => false,
        };
        Ok(unless(alloc, fits))
    }
}
