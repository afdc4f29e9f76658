//! Why modules are not loaded. What a fault is called where it is printed stands here; add
//! a variant of `ModuleFault` at its place in the order in which faults are told.

ghost use Rattle.std.specs.Prelude.{◌≡◌};
ghost use Rattle.ob_load.specs.FaultText as spec;
ghost use Rattle.ob_load.specs.declared.fault.LoadFault.TheVariants as load;

use ob_base::{NoMemory, Place, Word};
use ob_definition::SchemaFault;
use ob_domain::DomainFault;
use std::fmt;
use thiserror::Error;

/// Why modules are not loaded.
#[derive(Debug, Drop, Error)]
pub enum LoadFault {
    /// The files failed.
    #[error("the files could not be read")]
    File,
    /// Something stands against a module.
    #[error("{0}")]
    Module(FaultyModule),
    /// An allocation failed.
    #[error("no memory")]
    NoMemory,
}

impl From<NoMemory> for LoadFault {
    ghost from_gives = { λ _ fault. fault ≡ load.NoMemory };

    fn from(_error: NoMemory) -> LoadFault {
        LoadFault::NoMemory
    }
}

/// What stands against a module, and where: a path of keys and items of its text; `text`
/// where it is the text as a whole. Its text is the line `module NAME: KIND PLACE`.
#[derive(Debug, Drop)]
pub struct FaultyModule {
    pub name: Word,
    pub place: Place,
    pub fault: ModuleFault,
}

/// What stands against a module.
#[derive(Debug, Drop)]
pub enum ModuleFault {
    /// It would be the 65th that is read.
    Limit,
    /// There is no text of this name.
    Absent,
    /// The text is longer than a module's may be.
    TooLong,
    /// The text is no TOML.
    Toml,
    /// A key that may not be there or is missing, a value of another form, or a name that
    /// names nothing or that another has.
    Form,
    /// It depends on itself, directly or through others.
    Cycle,
    /// The first thing that stands against the models of all modules. Its entry counts
    /// over all models; the place has its number in the module.
    Schema(SchemaFault),
    /// The text of a rule's domain is none; the place is that of the rule.
    Domain(DomainFault),
}

/// A fault of models, as its variant is spelled.
fn schema_name(fault: &SchemaFault) -> &'static str
    ensures { result.now ≡ spec.schema_name fault.now }
{
    match fault {
        SchemaFault::Model(_) => "Model",
        SchemaFault::Field(_) => "Field",
        SchemaFault::Kind(_) => "Kind",
        SchemaFault::Twice(_) => "Twice",
        SchemaFault::Cycle(_) => "Cycle",
        SchemaFault::Recursion(_) => "Recursion",
        SchemaFault::Path(_) => "Path",
        SchemaFault::Inverse(_) => "Inverse",
        SchemaFault::Inherits(_) => "Inherits",
        SchemaFault::Limit(_) => "Limit",
        SchemaFault::Text(..) => "Text",
        SchemaFault::NoMemory => "NoMemory",
    }
}

/// A fault of a module, as its variant is spelled; of its models, as that fault is.
fn kind_text(fault: &ModuleFault) -> &'static str
    ensures { result.now ≡ spec.kind_text fault.now }
{
    match fault {
        ModuleFault::Limit => "Limit",
        ModuleFault::Absent => "Absent",
        ModuleFault::TooLong => "TooLong",
        ModuleFault::Toml => "Toml",
        ModuleFault::Form => "Form",
        ModuleFault::Cycle => "Cycle",
        ModuleFault::Schema(fault) => schema_name(fault),
        ModuleFault::Domain(_) => "Domain",
    }
}

impl fmt::Display for FaultyModule {
    ghost use Rattle.std.specs.Prelude.{Some};
    ghost use Rattle.ob_load.specs.FaultText.{fault_text};

    ghost output = { λ faulty. Some (fault_text faulty) };

    fn fmt<W: fmt::Write>(&self, f: &mut fmt::Formatter<W>) -> fmt::Result {
        write!(
            f,
            "module {}: {} {}",
            self.name,
            kind_text(&self.fault),
            self.place
        )
    }
}
