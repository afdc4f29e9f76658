//! The fields and checks that the entries of one model declare, each name once: a list in the
//! order of declaration, with the names beside it for look-ups.

ghost use Rattle.std.specs.Prelude.{◌≡◌, ◌++◌, ◌∷◌, [], IfOk, false, length, map};
ghost use Rattle.ob_definition.specs.ByName.{AreApart, declared_checks, declared_fields};
ghost use Rattle.ob_definition.specs.Gathered.{check_at, field_at, is_check, is_declared};

use crate::definition::{Check, FieldDef};
use ob_base::NoMemory;
use std::alloc::Global;
use std::collections::BTreeSet;
use std::marker::Model;

/// A field as an entry declares or copies it.
#[derive(Clone, Copy, Debug)]
pub struct FieldEntry<'a> {
    pub entry: u32,
    pub def: &'a FieldDef,
}

/// A check as an entry declares or copies it.
#[derive(Clone, Copy, Debug)]
pub struct CheckEntry<'a> {
    pub entry: u32,
    pub check: &'a Check,
}

/// The declared fields of a model.
#[derive(Debug, Drop)]
pub struct Fields<'a> {
    list: Vec<FieldEntry<'a>>,
    names: BTreeSet<String>,
}

/// The declared checks of a model.
#[derive(Debug, Drop)]
pub struct Checks<'a> {
    list: Vec<CheckEntry<'a>>,
    names: BTreeSet<String>,
}

impl<'a> Model for Fields<'a> {
    ghost use Rattle.std.specs.Prelude.{List};
    ghost use Rattle.ob_definition.specs.Gathered.{Declared};

    ghost Value = { List Declared };

    ghost use Rattle.ob_definition.specs.ByName.{AreFieldNames, declared_fields};

    ghost view = { λ fields. declared_fields fields.list.items };

    ghost invariant = { λ fields. AreFieldNames fields.names (declared_fields fields.list.items) };
}

impl<'a> Model for Checks<'a> {
    ghost use Rattle.std.specs.Prelude.{List};
    ghost use Rattle.ob_definition.specs.Gathered.{DeclaredCheck};

    ghost Value = { List DeclaredCheck };

    ghost use Rattle.ob_definition.specs.ByName.{AreApart, AreCheckNames, declared_checks};

    ghost view = { λ checks. declared_checks checks.list.items };

    ghost invariant = { λ checks. AreCheckNames checks.names (declared_checks checks.list.items)
        × AreApart (declared_checks checks.list.items) };
}

impl<'a> Fields<'a> {
    /// No fields.
    pub(crate) fn new(alloc: Global) -> Fields<'a>
        ensures { result ≡ [] }
    {
        Fields {
            list: Vec::new(alloc),
            names: BTreeSet::new(alloc),
        }
    }

    /// The fields in the order of declaration.
    pub fn as_slice(&self) -> &[FieldEntry<'a>]
        ensures { declared_fields result.now ≡ self.now }
    {
        self.list.as_slice()
    }

    /// Whether a field of this name is declared.
    pub fn has(&self, name: &str) -> bool
        ensures { result ≡ is_declared self.now name.now }
    {
        self.names.contains(name)
    }

    /// Adds a field.
    pub(crate) fn push(
        &mut self,
        alloc: Global,
        entry: u32,
        def: &'a FieldDef,
    ) -> Result<(), NoMemory>
        ensures { IfOk result (λ _. self.new ≡ self.old ++ field_at entry def.now ∷ []) }
    {
        let name = String::from_str(alloc, def.name.as_str())?;
        self.list.reserve(1)?;
        self.names.insert(name)?;
        self.list.push(FieldEntry { entry, def })?;
        Ok(())
    }
}

impl<'a> Fields<'a> {
    /// The same fields, as a new entry declares them.
    pub(crate) fn copy(&self, alloc: Global, entry: u32) -> Result<Fields<'a>, NoMemory>
        ensures { IfOk result (λ copy. copy ≡ map (λ field. field_at entry field.def) self.now) }
    {
        let mut copy = Fields::new(alloc);
        for field in self.as_slice() {
            copy.push(alloc, entry, field.def)?;
        }
        Ok(copy)
    }
}

impl<'a> Checks<'a> {
    /// No checks.
    pub(crate) fn new(alloc: Global) -> Checks<'a>
        ensures { result ≡ [] }
    {
        Checks {
            list: Vec::new(alloc),
            names: BTreeSet::new(alloc),
        }
    }

    /// The checks in the order of declaration, no two of one name.
    pub fn as_slice(&self) -> &[CheckEntry<'a>]
        ensures same { declared_checks result.now ≡ self.now }
        ensures apart { AreApart self.now }
    {
        self.list.as_slice()
    }

    /// How many checks there are.
    pub fn len(&self) -> usize
        ensures { result ≡ length self.now }
    {
        self.list.len()
    }

    /// Whether a check of this name is declared.
    pub fn has(&self, name: &str) -> bool
        ensures { result ≡ is_check self.now name.now }
    {
        self.names.contains(name)
    }

    /// Adds a check of a name that is free.
    pub(crate) fn push(
        &mut self,
        alloc: Global,
        entry: u32,
        check: &'a Check,
    ) -> Result<(), NoMemory>
        requires { is_check self.old check.now.name ≡ false }
        ensures { IfOk result (λ _. self.new ≡ self.old ++ check_at entry check.now ∷ []) }
    {
        let name = String::from_str(alloc, check.name.as_str())?;
        self.list.reserve(1)?;
        self.names.insert(name)?;
        self.list.push(CheckEntry { entry, check })?;
        Ok(())
    }
}

impl<'a> Checks<'a> {
    /// The same checks, as a new entry declares them.
    pub(crate) fn copy(&self, alloc: Global, entry: u32) -> Result<Checks<'a>, NoMemory>
        ensures { IfOk result (λ copy. copy ≡ map (λ check. check_at entry check.check) self.now) }
    {
        let mut copy = Checks::new(alloc);
        for check in self.as_slice() {
            copy.push(alloc, entry, check.check)?;
        }
        Ok(copy)
    }
}
