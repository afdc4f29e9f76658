//! A model with all its fields, by name and by number. What it has of them is found in
//! `models`.

ghost use Rattle.std.specs.Prelude.{◌≡◌, ◌<◌, ◌≤◌, ◌-◌, IfSome, Some, length, option_map, slice_get};
ghost use Rattle.ob_definition.specs.Members.{AreInNameOrder, is_own_computed, own_member};
ghost use Rattle.ob_registry.specs.ModelFields.{max_numbers, member_of, members_in, named_in, number_in};

use ob_base::FieldNo;
use ob_definition::{FieldDef, GatheredModel, Inherits, ParentLink, is_computed};

/// How a model has a field.
#[derive(Clone, Copy, Debug)]
pub(crate) enum Role<'a> {
    /// In its own rows.
    Own,
    /// In the row to which a link leads.
    Delegated(&'a Inherits),
    /// As a condition without a name of its own.
    Hidden,
}

/// A field of a model, and the entry that declares or copies it.
#[derive(Clone, Copy, Debug)]
pub(crate) struct Member<'a> {
    pub(crate) entry: u32,
    pub(crate) def: &'a FieldDef,
    pub(crate) role: Role<'a>,
}

impl<'a> Member<'a> {
    /// A field that a model has in its own rows.
    pub(crate) fn own(entry: u32, def: &'a FieldDef) -> Member<'a>
        ensures { member_of result ≡ own_member entry def.now }
    {
        let role = Role::Own;
        Member { entry, def, role }
    }

    /// Whether an expression of the model itself gives its value.
    pub(crate) fn is_computed(&self) -> bool
        ensures { result ≡ is_own_computed (member_of self.now) }
    {
        !matches!(self.role, Role::Delegated(..)) && is_computed(self.def)
    }
}

/// A model with all its fields.
#[derive(Drop)]
pub(crate) struct Model<'a> {
    pub(crate) gathered: &'a GatheredModel<'a>,
    pub(crate) links: &'a [ParentLink<'a>],
    /// The named ones in byte order, then the hidden ones.
    pub(crate) members: Vec<Member<'a>>,
    /// How many are named.
    pub(crate) named: usize,
    ghost within: { named ≤ length members.items },
    ghost small: { length members.items ≤ max_numbers },
    ghost ordered: { AreInNameOrder (named_in named members.items) },
}

impl<'a> Model<'a> {
    /// The number of the field of a name, if there is one.
    pub(crate) fn number(&self, name: &str) -> Option<FieldNo>
        ensures at { result ≡ number_in (named_in self.now.named self.now.members.items) name.now }
        ensures low { IfSome result (λ number. 0 < number.0) }
        ensures within { IfSome result (λ number. number.0 ≤ self.now.named) }
    {
        let place = self.members[..self.named]
            .binary_search_by(|member| member.def.name.as_str().cmp(name))
            .ok()?;
        Some(FieldNo(place as u16 + 1))
    }

    /// The field of a name, if there is one.
    pub(crate) fn find(&self, name: &str) -> Option<&Member<'a>>
        ensures { option_map (λ member. member_of member.now) result
            ≡ Rattle.ob_definition.specs.Members.named (named_in self.now.named self.now.members.items) name.now }
    {
        let number = self.number(name)?;
        Some(self.member(number))
    }

    /// The field of a number.
    pub(crate) fn member(&self, number: FieldNo) -> &Member<'a>
        requires low { 0 < number.0 }
        requires within { number.0 ≤ length self.now.members.items }
        ensures { slice_get (members_in self.now.members.items) (number.0 - 1)
            ≡ Some (member_of result.now) }
    {
        &self.members[number.0 as usize - 1]
    }
}
