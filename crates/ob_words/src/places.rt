//! Where words have rows kept and where they have connections come, which is asked before a run.

ghost use Rattle.std.specs.Prelude.{◌≡◌};
ghost use Rattle.ob_words.specs.declared.places.Usage.TheVariants as spec;
ghost use Rattle.ob_words.specs.Views.{IsAddressOf, IsPlaceOf};

use crate::command::Asked;
use crate::reading::asked_of;
use ob_base::{NoMemory, Word};
use std::alloc::Global;

/// Any port, where no connection comes.
const NO_PORT: u16 = 0;

/// Where words have rows kept.
#[derive(Debug, Drop)]
pub enum Store {
    /// For the length of the run.
    Memory,
    /// In the file of this path.
    File(Word),
}

/// Why words don't say where rows are kept, or where connections come.
#[derive(Clone, Copy, Debug, PartialEq, Eq)]
pub enum Usage {
    /// They ask for nothing that is served.
    Words,
    NoMemory,
}

impl From<NoMemory> for Usage {
    ghost from_gives = { λ fault usage. usage ≡ spec.NoMemory };

    fn from(_: NoMemory) -> Usage {
        Usage::NoMemory
    }
}

/// Where the words have rows kept: in memory, where they ask for help or the version.
pub fn store_of(alloc: Global, words: &[String]) -> Result<Store, Usage>
    ensures { IsPlaceOf words.now result }
{
    let Some(asked) = asked_of(alloc, words)? else {
        return Err(Usage::Words);
    };
    let Asked::Command(command) = asked else {
        return Ok(Store::Memory);
    };
    match command.file {
        Some(path) => Ok(Store::File(Word::from_text(alloc, path)?)),
        None => Ok(Store::Memory),
    }
}

/// The port of 127.0.0.1 at which the words have connections come: any, where they ask for help
/// or the version.
pub fn address_of(alloc: Global, words: &[String]) -> Result<u16, Usage>
    ensures { IsAddressOf words.now result }
{
    match asked_of(alloc, words)? {
        Some(Asked::Command(command)) => Ok(command.port),
        Some(_) => Ok(NO_PORT),
        None => Err(Usage::Words),
    }
}
