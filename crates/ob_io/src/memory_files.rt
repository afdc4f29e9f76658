//! Files that hold their texts in memory: those that never fail, and those whose chosen
//! reads fail. The ones with failures are the others and a `FailPlan`, so that nothing but
//! the failures can differ.

ghost use Rattle.std.specs.Prelude.{◌≡◌, ◌↔◌, ◌<◌, ◌≤◌, IfOk, IsErrOf, IsSomeAnd, None, Ok, Some, length, option_map};
ghost use Rattle.ob_io.specs.Cause.{HasCause};
ghost use Rattle.ob_io.specs.MemoryFiles.{has_failed, text_at, texts_in};
ghost use Rattle.ob_io.specs.Plan.{FailsNext, after_call};

use crate::files::{FileFault, Files};
use crate::plan::FailPlan;
use ob_base::limits::MAX_MODULE_BYTES;
use ob_base::{NoMemory, Sequence, Word};
use std::alloc::Global;
use std::marker::Model;

/// Files in memory that never fail, but for want of memory.
#[derive(Debug, Drop)]
pub struct SureFiles {
    alloc: Global,
    pairs: Vec<(Word, Vec<u8>)>,
}

impl Model for SureFiles {
    ghost use Rattle.std.specs.Prelude.{ℕ, List};
    ghost use Rattle.ob_io.specs.MemoryFiles.{texts_in};

    ghost Value = { List (List ℕ × List ℕ) };

    ghost view = { λ f. texts_in f.pairs.items };
}

impl SureFiles {
    /// Holds these texts, each under its name. Of two of one name the first counts.
    pub fn new(alloc: Global, pairs: Vec<(Word, Vec<u8>)>) -> Result<SureFiles, NoMemory>
        ensures { result ≡ Ok (texts_in pairs.items) }
    {
        Ok(SureFiles { alloc, pairs })
    }

    /// The text of this name, where there is one.
    fn text(&self, name: &str) -> Option<&[u8]>
        ensures { option_map (λ text. text.now) result ≡ text_at self.now name.now }
    {
        for (own, text) in &self.pairs {
            if name == own.as_str() {
                return Some(text.as_slice());
            }
        }
        None
    }
}

/// A copy of a text.
fn copy_of(alloc: Global, text: &[u8]) -> Result<Sequence<u8>, NoMemory>
    ensures { IfOk result (λ copy. copy ≡ text.now) }
{
    let mut copy = Vec::new(alloc);
    copy.extend_from_slice(text)?;
    Ok(Sequence::from_vec(copy))
}

impl From<NoMemory> for FileFault {
    ghost use Rattle.ob_io.specs.declared.files.FileFault.{FileFault};

    ghost from_gives = { λ _ fault. fault ≡ FileFault.NoMemory };

    fn from(_error: NoMemory) -> FileFault {
        FileFault::NoMemory
    }
}

impl Files for SureFiles {
    ghost texts = { λ files. Some (text_at files) };

    ghost faults = { λ _. 0 };

    fn read_file(&mut self, name: &str) -> Result<Sequence<u8>, FileFault>
        ensures text { IfOk result (λ bytes. (length bytes ≤ 1048576) × (text_at self.old name.now ≡ Some bytes)) }
        ensures absent { IsErrOf result FileFault.Absent ↔ (text_at self.old name.now ≡ None) }
        ensures too_long { IsErrOf result FileFault.TooLong
            ↔ IsSomeAnd (text_at self.old name.now) (λ bytes. 1048576 < length bytes) }
        ensures same { self.new ≡ self.old }
        ensures cause { HasCause 0 0 (IsErrOf result FileFault.Failed) }
        ensures sure { ¬ IsErrOf result FileFault.Failed }
    {
        match self.text(name) {
            None => Err(FileFault::Absent),
            Some(text) if text.len() > MAX_MODULE_BYTES => Err(FileFault::TooLong),
            Some(text) => Ok(copy_of(self.alloc, text)?),
        }
    }
}

/// Files in memory whose chosen reads fail.
#[derive(Debug, Drop)]
pub struct MemFiles {
    files: SureFiles,
    plan: FailPlan,
}

impl Model for MemFiles {
    ghost use Rattle.ob_io.specs.MemoryFiles.{PlannedFiles};

    ghost Value = { PlannedFiles };

    ghost view = { λ f. record { files = f.files; plan = f.plan } };
}

impl MemFiles {
    /// Holds these texts, each under its name. Of two of one name the first counts. The
    /// reads that `fail` numbers, counted from 1, fail.
    pub fn new(
        alloc: Global,
        pairs: Vec<(Word, Vec<u8>)>,
        fail: Vec<u64>,
    ) -> Result<MemFiles, NoMemory>
        ensures { result ≡ Ok (record {
          files = texts_in pairs.items;
          plan = record { fail = fail.items; made = 0; faults = 0 };
        }) }
    {
        Ok(MemFiles {
            files: SureFiles::new(alloc, pairs)?,
            plan: FailPlan::new(fail),
        })
    }
}

impl Files for MemFiles {
    ghost texts = { λ files. Some (text_at files.files) };

    ghost faults = { λ files. files.plan.faults };

    fn read_file(&mut self, name: &str) -> Result<Sequence<u8>, FileFault>
        ensures fails { IsErrOf result FileFault.Failed ↔ FailsNext self.old.plan }
        ensures text { IfOk result (λ bytes. (length bytes ≤ 1048576) × (text_at self.old.files name.now ≡ Some bytes)) }
        ensures absent { IsErrOf result FileFault.Absent → text_at self.old.files name.now ≡ None }
        ensures too_long { IsErrOf result FileFault.TooLong
            → IsSomeAnd (text_at self.old.files name.now) (λ bytes. 1048576 < length bytes) }
        ensures same { self.new.files ≡ self.old.files }
        ensures counted { self.new.plan ≡ after_call (has_failed result) self.old.plan }
        ensures cause { HasCause self.old.plan.faults self.new.plan.faults
            (IsErrOf result FileFault.Failed) }
    {
        if self.plan.next_fails() {
            return Err(FileFault::Failed);
        }
        self.files.read_file(name)
    }
}
