//! Edits that are carried out only where what they make is sound.

ghost use Rattle.std.specs.Prelude.{◌≡◌, All, IfErr, IfOk};
ghost use Rattle.ob_tables.specs.After.{after};
ghost use Rattle.ob_tables.specs.Applying.{FirstBroken, IsFirstOrSound};
ghost use Rattle.ob_schema.specs.Broken.{Sound};
ghost use Rattle.ob_tables.specs.Fitting.{IsFitEdit};

use crate::edit::Edit;
use crate::soundness::first_broken;
use crate::tables::Tables;
use ob_base::{Broken, NoMemory};
use thiserror::Error;

/// Why edits are not carried out.
#[derive(Debug, Drop, Error)]
pub enum ApplyFault {
    /// The tables after them would be broken, first in this way.
    #[error("a constraint is broken")]
    Broken(Broken),
    #[error("no memory")]
    NoMemory,
}

impl From<NoMemory> for ApplyFault {
    ghost use Rattle.std.specs.Prelude.{◌≡◌};
    ghost use Rattle.ob_tables.specs.declared.applying.ApplyFault.TheVariants.{NoMemory as no_memory};

    ghost from_gives = { λ _ fault. fault ≡ no_memory };

    fn from(_error: NoMemory) -> ApplyFault {
        ApplyFault::NoMemory
    }
}

impl<'a> Tables<'a> {
    /// What edits make of these tables in their order, if that is sound; else the first that it
    /// breaks, by cell, then kind.
    pub fn apply(&self, edits: &[Edit]) -> Result<Tables<'a>, ApplyFault>
        requires { All (IsFitEdit self.now.models) edits.now }
        ensures after { IfOk result (λ tables. tables ≡ record { models = self.now.models; tables = after self.now.models self.now.tables edits.now }) }
        ensures sound { IfOk result (λ tables. Sound tables.models tables.tables) }
        ensures broken { IfErr result (FirstBroken self.now.models (after self.now.models self.now.tables edits.now)) }
    {
        let tables = self.after(edits)?;
        match tables.broken()? {
            None => Ok(tables),
            Some(broken) => Err(ApplyFault::Broken(broken)),
        }
    }

    /// The first that is broken in these tables, by cell, then kind; none where they are sound.
    pub fn broken(&self) -> Result<Option<Broken>, NoMemory>
        ensures { IfOk result (IsFirstOrSound self.now.models self.now.tables) }
    {
        first_broken(self)
    }
}
