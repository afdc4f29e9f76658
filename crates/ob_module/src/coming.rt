//! The names of modules that are still to be read, the next one first.

ghost use Rattle.std.specs.Prelude.{◌≡◌, ◌++◌, ◌∷◌, [], IfNone, IfOk, IfSome, OnOk, map};
ghost use Rattle.toml.specs.Data.{Members};
ghost use Rattle.toml.specs.View.{table_view, view};
ghost use Rattle.ob_module.specs.Modules.{wanted};
ghost use Rattle.ob_module.specs.Meaning.{depends_of, text_of};

use crate::tables::{depends_of, text_of};
use ob_base::{NoMemory, Word};
use std::alloc::Global;
use std::marker::Model;
use toml::Table;

/// Names to come. They are taken from the end of the list.
#[derive(Drop)]
pub struct Coming {
    names: Vec<Word>,
}

impl Model for Coming {
    ghost use Rattle.std.specs.Prelude.{List, ℕ, reverse};

    ghost Value = { List (List ℕ) };

    ghost view = { λ c. reverse c.names.items };
}

impl Coming {
    /// The modules that are loaded in any case, and then these.
    pub fn wanted(alloc: Global, names: &[Word]) -> Result<Coming, NoMemory>
        ensures { IfOk result (λ coming. coming ≡ wanted names.now) }
    {
        let mut coming = Vec::new(alloc);
        for place in (0..names.len()).rev() {
            coming.push(names[place].try_clone(alloc)?)?;
        }
        coming.push(Word::from_text(alloc, "stock")?)?;
        coming.push(Word::from_text(alloc, "base")?)?;
        Ok(Coming { names: coming })
    }

    /// Takes the next name, where there is one.
    pub fn next(&mut self) -> Option<Word>
        ensures some { IfSome result (λ name. self.old ≡ name ∷ self.new) }
        ensures none { IfNone result ((self.old ≡ []) × (self.new ≡ [])) }
    {
        self.names.pop()
    }

    /// Puts the names on which a document depends before the others.
    pub fn put_depends(&mut self, alloc: Global, document: &Table) -> Result<(), NoMemory>
        ensures { OnOk result (self.new ≡ depends_of (table_view document.now) ++ self.old) }
    {
        let names = depends_of(document);
        for place in (0..names.len()).rev() {
            self.names
                .push(Word::from_text(alloc, text_of(&names[place]))?)?;
        }
        Ok(())
    }
}
