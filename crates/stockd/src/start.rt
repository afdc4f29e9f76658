//! The start of the program: the words of the command line, and a run over the host's files,
//! input, output and clock, with rows kept where the words say. `main` hands its runtime to
//! `started` and ends with the status that it answers. Which objects a run is handed may be
//! changed here; what it does with them is settled in `run`.

ghost use Rattle.std.specs.Prelude.{◌≡◌, ◌⊎◌, [], drop, IfOk, IsErr, IsOkAnd, MatchResult};
ghost use Rattle.std.specs.IoError.{error_kind};
ghost use Rattle.std.specs.Vec.Iter.{into_iter_items};
ghost use Rattle.ob_words.specs.Words.{IsUsage};
ghost use Rattle.ob_server.specs.declared.ending.Ending.{Ending};
ghost use Rattle.ob_server.specs.Ending.{status_of};

use crate::run::run;
use ob_base::NoMemory;
use ob_io::{DiskFiles, HostClock, Keeper, StdSink, StdSource, SureKeeper, TcpDoor};
use ob_server::Ending;
use ob_sqlite::keeper_at;
use ob_words::{Store, Usage, address_of, store_of};
use std::alloc::Global;
use std::io::{ErrorKind, Input};
use std::rt::{Clock, Env, Files};
use std::{env, io};

/// Any port, where no connection comes.
const NO_PORT: u16 = 0;

/// Runs the program over this runtime and this disk, with the host for the file of a store and for
/// connections, and answers the status that it ends with. Where memory is wanting before the run, its last line
/// and status are those of a run for which it is wanting.
pub(crate) fn started<R: AllocGlobal + Env + Input + Print + Clock, D: Files + Drop>(
    rt: &R,
    disk: D,
    host: &HostRuntime,
) -> u8
    ensures { (why : Ending) × (result ≡ status_of why) }
{
    match run_given(rt, disk, host) {
        Ok(status) => status,
        Err(NoMemory) => no_memory(rt),
    }
}

/// Runs over the words that this runtime gives.
fn run_given<R: AllocGlobal + Env + Input + Print + Clock, D: Files + Drop>(
    rt: &R,
    disk: D,
    host: &HostRuntime,
) -> Result<u8, NoMemory>
    ensures { IfOk result (λ status. (why : Ending) × (status ≡ status_of why)) }
{
    let words = words_after_name(rt.alloc(), env::args(rt))?;
    run_words(rt, disk, host, &words)
}

/// Runs over these words, with rows kept where they say: in a file, or else in an empty keeper
/// in memory, also where they ask for help, the version or nothing that is served.
fn run_words<R: AllocGlobal + Input + Print + Clock, D: Files + Drop>(
    rt: &R,
    disk: D,
    host: &HostRuntime,
    words: &[String],
) -> Result<u8, NoMemory>
    ensures status { IfOk result (λ status. (why : Ending) × (status ≡ status_of why)) }
    ensures other_words { IfOk result (λ status. IsUsage words.now → (status ≡ 2) ⊎ (status ≡ 7)) }
    ensures usage { IfOk result (λ status. status ≡ 2 → IsUsage words.now) }
{
    let alloc = rt.alloc();
    match store_of(alloc, words) {
        Ok(Store::File(path)) => {
            let mut keeper = keeper_at(host, path.as_str());
            let status = run_over(rt, disk, host, words, &mut keeper);
            keeper.close();
            status
        }
        Ok(Store::Memory) | Err(Usage::Words) => {
            let mut keeper = SureKeeper::new(alloc, Vec::new(alloc), Vec::new(alloc))?;
            run_over(rt, disk, host, words, &mut keeper)
        }
        Err(Usage::NoMemory) => Err(NoMemory),
    }
}

/// Runs over these words, the host's things and this keeper. The port is bound only where
/// connections are served.
fn run_over<R: AllocGlobal + Input + Print + Clock, D: Files + Drop, K: Keeper>(
    rt: &R,
    disk: D,
    host: &HostRuntime,
    words: &[String],
    keeper: &mut K,
) -> Result<u8, NoMemory>
    ensures status { IfOk result (λ status. (why : Ending) × (status ≡ status_of why)) }
    // Status 2 is that of words that ask for nothing that is served, where memory isn't wanting.
    ensures other_words { IfOk result (λ status. IsUsage words.now → (status ≡ 2) ⊎ (status ≡ 7)) }
    ensures usage { IfOk result (λ status. status ≡ 2 → IsUsage words.now) }
{
    let alloc = rt.alloc();
    let port = port_of(alloc, words)?;
    let mut files = DiskFiles::new(alloc, disk)?;
    let mut input = StdSource::new(rt)?;
    let mut output = StdSink::new(rt)?;
    let mut door = TcpDoor::new(host, port);
    let mut clock = HostClock::new(rt)?;
    Ok(run(
        alloc,
        words,
        &mut files,
        keeper,
        &mut input,
        &mut output,
        &mut door,
        &mut clock,
    ))
}

/// The port at which the words have connections come; any, where they ask for nothing that is
/// served.
fn port_of(alloc: Global, words: &[String]) -> Result<u16, NoMemory> {
    match address_of(alloc, words) {
        Ok(port) => Ok(port),
        Err(Usage::Words) => Ok(NO_PORT),
        Err(Usage::NoMemory) => Err(NoMemory),
    }
}

/// The words after the program's name, which is the first of what is given. Where one isn't
/// UTF-8, which the runtime tells by an error, there are none, since no action is named so.
fn words_after_name(alloc: Global, given: io::Result<env::Args>) -> Result<Vec<String>, NoMemory>
    ensures { MatchResult given
        (λ args. IfOk result (λ words. words.items ≡ drop 1 (into_iter_items args)))
        (λ error. (error_kind error ≡ ErrorKind.OutOfMemory → IsErr result)
        × ((error_kind error ≡ ErrorKind.OutOfMemory → ⊥) → IsOkAnd result (λ words. words.items ≡ []))) }
{
    match given {
        Ok(args) => after_first(alloc, args),
        Err(error) if error.kind() == ErrorKind::OutOfMemory => Err(NoMemory),
        Err(_) => Ok(Vec::new(alloc)),
    }
}

/// The words after the first.
fn after_first(alloc: Global, words: env::Args) -> Result<Vec<String>, NoMemory>
    ensures { IfOk result (λ rest. rest.items ≡ drop 1 (into_iter_items words)) }
{
    Ok(words.skip(1).collect(alloc)?)
}

/// The last line and the status where memory is wanting.
fn no_memory<R: Print>(rt: &R) -> u8
    ensures { result ≡ status_of Ending.NoMemory }
{
    if let Ok(mut output) = StdSink::new(rt) {
        Ending::NoMemory.tell(&mut output);
    }
    Ending::NoMemory.status()
}
