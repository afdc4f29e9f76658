//! The targets of a many2many cell, and the ids that a search gives in order.

ghost use Rattle.std.specs.Prelude.{◌≡◌, ◌↔◌, ◌<◌, ◌++◌, ◌∷◌, [], length, All, IsTrue, IfOk, OnOk, OnErr};
ghost use Rattle.ob_base.specs.Rising.{IsRising};

use crate::id::RecId;
use crate::memory::NoMemory;
use std::alloc::Global;
use std::marker::Model;

/// A list of ids, each above the one before it: so no id stands twice.
#[derive(Debug, Drop)]
pub struct RefList {
    ids: Vec<RecId>,
}

impl Model for RefList {
    ghost use Rattle.std.specs.Prelude.{List};
    ghost use Rattle.ob_base.specs.declared.id.RecId.{RecId};
    ghost use Rattle.ob_base.specs.Rising.{IsRising};

    ghost Value = { List RecId };

    ghost view = { λ l. l.ids.items };

    ghost invariant = { λ l. IsRising l.ids.items };
}

impl RefList {
    /// The list without ids.
    pub fn new(alloc: Global) -> RefList
        ensures { result ≡ [] }
    {
        RefList {
            ids: Vec::new(alloc),
        }
    }

    /// Adds an id above all that stand in the list, or leaves the list as it was.
    pub fn push(&mut self, id: RecId) -> Result<(), NoMemory>
        requires { All (λ before. before.0 < id.0) self.old }
        ensures ok { OnOk result (self.new ≡ self.old ++ id ∷ []) }
        ensures err { OnErr result (self.new ≡ self.old) }
    {
        self.ids.push(id)?;
        Ok(())
    }

    /// The ids, which rise.
    pub fn as_slice(&self) -> &[RecId]
        ensures same { result.now ≡ self.now }
        ensures rising { IsRising result.now }
    {
        self.ids.as_slice()
    }

    /// How many ids there are.
    pub fn len(&self) -> usize
        ensures { result ≡ length self.now }
    {
        self.ids.len()
    }

    /// Whether there is no id.
    pub fn is_empty(&self) -> bool
        ensures { IsTrue result ↔ (self.now ≡ []) }
    {
        self.ids.is_empty()
    }

    /// The same ids again.
    pub fn try_clone(&self, alloc: Global) -> Result<RefList, NoMemory>
        ensures { IfOk result (λ l. l ≡ self.now) }
    {
        Ok(RefList {
            ids: self.ids.as_slice().to_vec(alloc)?,
        })
    }
}
