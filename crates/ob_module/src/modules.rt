//! Modules that were read, in the order of reading, with look-ups by name.

ghost use Rattle.std.specs.Prelude.{◌≡◌, ◌++◌, ◌∷◌, [], ◌<◌, IfOk, IfSome, Some, false, is_some, length, option_map, slice_get};
ghost use Rattle.toml.specs.View.{table_view};
ghost use Rattle.ob_module.specs.Modules.{Module, has_module};

use indexmap::IndexMap;
use ob_base::{NoMemory, Word};
use std::alloc::Global;
use toml::Table;

/// Modules that were read, with their documents.
#[derive(Drop)]
pub struct Modules {
    documents: IndexMap<String, Table>,
}

impl Modules {
    ghost use Rattle.ob_module.specs.Modules.{AreApart};
    ghost use Rattle.ob_module.specs.Rooms.{modules_in};

    /// No modules.
    pub fn new(alloc: Global) -> Modules
        ensures { modules_in result ≡ [] }
    {
        Modules {
            documents: IndexMap::new(alloc),
        }
    }

    /// How many there are.
    pub fn len(&self) -> usize
        ensures len { result ≡ length (modules_in self.now) }
        ensures apart { AreApart (modules_in self.now) }
    {
        self.documents.len()
    }

    /// Whether a module of this name was read.
    pub fn has(&self, name: &str) -> bool
        ensures { result ≡ has_module (modules_in self.now) name.now }
    {
        self.documents.contains_key(name)
    }

    /// The number of the module of this name, where it was read.
    pub fn number_of(&self, name: &str) -> Option<usize>
        ensures at { IfSome result (λ n. (m : Module) × (slice_get (modules_in self.now) n ≡ Some m) × (m.name ≡ name.now)) }
        ensures found { has_module (modules_in self.now) name.now ≡ is_some result }
        ensures apart { AreApart (modules_in self.now) }
    {
        self.documents.get_index_of(name)
    }

    /// Adds a module behind the others.
    pub fn push(&mut self, name: Word, document: Table) -> Result<(), NoMemory>
        requires { has_module (modules_in self.old) name ≡ false }
        ensures { IfOk result (λ _. modules_in self.new
            ≡ modules_in self.old ++ record { name = name; document = table_view document } ∷ []) }
    {
        self.documents.insert(name.into_string(), document)?;
        Ok(())
    }

    /// The name of the module of a number.
    pub fn name(&self, number: usize) -> &str
        requires { number < length (modules_in self.now) }
        ensures { option_map (λ m. m.name) (slice_get (modules_in self.now) number) ≡ Some result.now }
    {
        match self.documents.get_index(number) {
            Some((name, _)) => name.as_str(),
            None => unreachable!(),
        }
    }

    /// The document of the module of a number.
    pub fn document(&self, number: usize) -> &Table
        requires { number < length (modules_in self.now) }
        ensures { option_map (λ m. m.document) (slice_get (modules_in self.now) number)
            ≡ Some (table_view result.now) }
    {
        match self.documents.get_index(number) {
            Some((_, document)) => document,
            None => unreachable!(),
        }
    }
}
