//! The first fault of definitions, among those that were found so far: by entry, then by the
//! bytes of the field, then by variant as listed.

ghost use Rattle.std.specs.Prelude.{◌≡◌, IfErr, IfOk, []};
ghost use Rattle.ob_definition.specs.Ranking.{rank};
ghost use Rattle.ob_definition.specs.Findings.{Adds, IsAt, fault_at, is_lesser, lesser_of};

use crate::fault::{SchemaFault, Spot};
use crate::wrong::Wrong;
use ob_base::{NoMemory, Word};
use std::alloc::Global;
use std::marker::Model;

/// The first of the faults that were found.
#[derive(Drop)]
pub struct First {
    alloc: Global,
    least: Option<SchemaFault>,
}

impl Model for First {
    ghost use Rattle.std.specs.Prelude.{Option};
    ghost use Rattle.ob_definition.specs.declared.fault.SchemaFault.{SchemaFault};

    ghost Value = { Option SchemaFault };

    ghost view = { λ first. first.least };
}

impl First {
    /// Nothing is found.
    pub fn new(alloc: Global) -> First
        ensures { result ≡ None }
    {
        First { alloc, least: None }
    }

    /// Finds what is wrong with an entry as a whole, if anything is.
    pub fn at_entry(&mut self, entry: u32, wrong: Option<Wrong>) -> Result<(), NoMemory>
        ensures found { IfOk result (λ _. Adds (IsAt wrong (record { entry = entry; field = [] })) self.old self.new) }
        ensures kept { IfErr result (λ _. self.new ≡ self.old) }
    {
        self.at_field(entry, "", wrong)
    }

    /// Finds what is wrong with a field, if anything is.
    pub fn at_field(
        &mut self,
        entry: u32,
        field: &str,
        wrong: Option<Wrong>,
    ) -> Result<(), NoMemory>
        ensures found { IfOk result (λ _. Adds (IsAt wrong (record { entry = entry; field = field.now })) self.old self.new) }
        ensures kept { IfErr result (λ _. self.new ≡ self.old) }
    {
        match wrong {
            Some(wrong) => self.add(entry, field, wrong),
            None => Ok(()),
        }
    }

    /// Finds one fault more.
    fn add(&mut self, entry: u32, field: &str, wrong: Wrong) -> Result<(), NoMemory>
        ensures found { IfOk result (λ _. self.new
            ≡ lesser_of self.old (fault_at wrong (record { entry = entry; field = field.now }))) }
        ensures kept { IfErr result (λ _. self.new ≡ self.old) }
    {
        if self.is_later_than(entry, field, &wrong) {
            let field = Word::from_text(self.alloc, field)?;
            self.least = Some(wrong.at(Spot { entry, field }));
        }
        Ok(())
    }

    /// The first fault, if one was found.
    pub fn into_fault(self) -> Option<SchemaFault>
        ensures { result ≡ self }
    {
        self.least
    }

    /// Whether this comes before what was found.
    fn is_later_than(&self, entry: u32, field: &str, wrong: &Wrong) -> bool
        ensures { result
            ≡ is_lesser (fault_at wrong.now (record { entry = entry; field = field.now })) self.now }
    {
        match &self.least {
            None => true,
            Some(fault) => {
                let (own_entry, own_field, own_variant) = rank_of(fault);
                let by_variant = wrong.variant().cmp(&own_variant);
                entry
                    .cmp(&own_entry)
                    .then(field.cmp(own_field).then(by_variant))
                    .is_lt()
            }
        }
    }
}

/// Where a fault is, and its place among the variants. Want of memory is never found.
fn rank_of(fault: &SchemaFault) -> (u32, &str, u8)
    ensures { rank fault.now
        ≡ record { entry = result.0; field = result.1.now; variant = result.2 } }
{
    let (spot, variant) = match fault {
        SchemaFault::Model(spot) => (spot, 0),
        SchemaFault::Field(spot) => (spot, 1),
        SchemaFault::Kind(spot) => (spot, 2),
        SchemaFault::Twice(spot) => (spot, 3),
        SchemaFault::Cycle(spot) => (spot, 4),
        SchemaFault::Recursion(spot) => (spot, 5),
        SchemaFault::Path(spot) => (spot, 6),
        SchemaFault::Inverse(spot) => (spot, 7),
        SchemaFault::Inherits(spot) => (spot, 8),
        SchemaFault::Limit(spot) => (spot, 9),
        SchemaFault::Text(spot, _) => (spot, 10),
        SchemaFault::NoMemory => return (0, "", 11),
    };
    (spot.entry, spot.field.as_str(), variant)
}
