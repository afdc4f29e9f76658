//! A domain, as it was read. Contracts see the tree for which its list stands by
//! `tree_of_domain`, so that its representation may change with `reading` and `holding`.

ghost use Rattle.std.specs.Prelude.{◌≡◌, IfOk};
ghost use Rattle.ob_domain.specs.Naming.{asks_field, named_fields};
ghost use Rattle.ob_domain.specs.Trees.{tree_of, tree_of_domain};

use crate::naming::{add_fields, is_asked};
use crate::term::Term;
use ob_base::{FieldNo, ModelNo, NoMemory};
use ob_schema::Step;
use std::alloc::Global;

/// What a row is asked to meet.
#[derive(Debug, Drop)]
pub struct Domain {
    terms: Vec<Term>,
}

impl Domain {
    /// The domain of these terms.
    pub(crate) fn new(terms: Vec<Term>) -> Domain
        ensures { tree_of_domain result ≡ tree_of terms.items }
    {
        Domain { terms }
    }

    /// The fields that it names, as a domain of this model: in written order, as often as it
    /// does, each step of a dotted field and those of inner domains among them.
    pub fn fields(&self, alloc: Global, model: ModelNo) -> Result<Vec<Step>, NoMemory>
        ensures { IfOk result
            (λ fields. fields.items ≡ named_fields model (tree_of_domain self.now)) }
    {
        let mut fields = Vec::new(alloc);
        add_fields(self.terms(), model, &mut fields)?;
        Ok(fields)
    }

    /// Whether a criterion on this field of its own model stands outside `any`, whatever it
    /// asks. A field through which a dot or `any` leads has none there.
    pub fn asks(&self, field: FieldNo) -> bool
        ensures { result ≡ asks_field field (tree_of_domain self.now) }
    {
        is_asked(self.terms(), field)
    }

    /// Its terms.
    pub(crate) fn terms(&self) -> &[Term]
        ensures { tree_of_domain self.now ≡ tree_of result.now }
    {
        self.terms.as_slice()
    }
}
