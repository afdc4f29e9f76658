//! The files of the real thing: those of the host, by their paths.

ghost use Rattle.std.specs.Prelude.{◌≡◌, ◌≤◌, ◌⊎◌, ℕ, IfOk, IsErr, IsErrOf, None, Ok, false, is_err, length};
ghost use Rattle.std.specs.IoError.{error_kind};
ghost use Rattle.ob_io.specs.Cause.{HasCause, Rose};
ghost use Rattle.ob_io.specs.Faults.{count_after};
ghost use Rattle.ob_io.specs.Plan.{one_more};

use crate::fault::counted;
use crate::files::{FileFault, Files};
use ob_base::limits::MAX_MODULE_BYTES;
use ob_base::{NoMemory, Sequence};
use std::alloc::Global;
use std::io::{ErrorKind, Read};
use std::marker::Model;
use std::{fs, io, rt};

/// How many bytes one read asks of the host at most.
const READ_SIZE: usize = 8192;

/// The files of the host. Each error of the host is counted, that there is no such file too.
#[derive(Drop)]
pub struct DiskFiles<R: rt::Files> {
    alloc: Global,
    rt: R,
    faults: u64,
}

impl<R: rt::Files> Model for DiskFiles<R> {
    ghost use Rattle.std.specs.Prelude.{ℕ};

    ghost Value = { ℕ };

    ghost view = { λ f. f.faults };
}

impl<R: rt::Files> DiskFiles<R> {
    /// Reads the files of this runtime.
    pub fn new(alloc: Global, rt: R) -> Result<DiskFiles<R>, NoMemory>
        ensures { result ≡ Ok 0 }
    {
        Ok(DiskFiles {
            alloc,
            rt,
            faults: 0,
        })
    }

    /// Opens a file to read it. An error is counted.
    fn open(&mut self, name: &str) -> Result<R::File, FileFault>
        ensures counted { self.new ≡ count_after (is_err result) self.old }
        ensures cause { HasCause self.old self.new (IsErr result) }
    {
        match fs::open(&self.rt, name) {
            Ok(file) => Ok(file),
            Err(error) => {
                self.faults = self.faults.saturating_add(1);
                Err(fault_of(&error))
            }
        }
    }

    /// Reads the next bytes of a file behind those that were read, none at its end.
    fn read_on(&mut self, file: &mut R::File, bytes: &mut Vec<u8>) -> Result<bool, FileFault>
        ensures at_end { result ≡ Ok false → bytes.new.items ≡ bytes.old.items }
        ensures cause { HasCause self.old self.new (IsErrOf result FileFault.Failed) }
        ensures faults { IsErr result → IsErrOf result FileFault.Failed ⊎ IsErrOf result FileFault.NoMemory }
    {
        let mut room = [0u8; READ_SIZE];
        let Ok(count) = counted(file.read(&mut room), &mut self.faults) else {
            return Err(FileFault::Failed);
        };
        match bytes.extend_from_slice(&room[..count]) {
            Ok(()) => Ok(count > 0),
            Err(_) => Err(FileFault::NoMemory),
        }
    }
}

/// Why a file that the host doesn't open isn't read.
fn fault_of(error: &io::Error) -> FileFault
    ensures { result ≡ FileFault.Absent ⊎ result ≡ FileFault.Failed }
{
    if error.kind() == ErrorKind::NotFound {
        FileFault::Absent
    } else {
        FileFault::Failed
    }
}

impl<R: rt::Files> Files for DiskFiles<R> {
    ghost texts = { λ _. None };

    ghost faults = { λ files. files };

    fn read_file(&mut self, name: &str) -> Result<Sequence<u8>, FileFault>
        ensures few { IfOk result (λ bytes. length bytes ≤ 1048576) }
        ensures absent { IsErrOf result FileFault.Absent → Rose self.old self.new }
        ensures cause { HasCause self.old self.new (IsErrOf result FileFault.Failed) }
    {
        let mut file = self.open(name)?;
        let mut bytes = Vec::new(self.alloc);
        // Each read but the last gives a byte, so one more of them than a module may have
        // bytes are enough.
        for _ in 0..=MAX_MODULE_BYTES {
            if !self.read_on(&mut file, &mut bytes)? {
                return Ok(Sequence::from_vec(bytes));
            }
            if bytes.len() > MAX_MODULE_BYTES {
                return Err(FileFault::TooLong);
            }
        }
        Err(FileFault::TooLong)
    }
}
