//! The command line as a command of `clap`: its arguments, the defaults of these, and what help
//! says of each. How `clap` takes words for them is its own. An option more is a line in `stockd`,
//! and one in specs/Arguments.

ghost use Rattle.std.specs.Prelude.{◌≡◌, ◌∷◌, [], IfOk};
ghost use Rattle.clap.specs.Words.{app_of, with_rule};
ghost use Rattle.ob_words.specs.Arguments as spec;
ghost use Rattle.ob_words.specs.Arguments.{option, option_or, plain_word, repeated};

use clap::{Arg, ArgAction, Command};
use ob_base::NoMemory;
use std::alloc::{AllocError, Global};

/// The version of the program, as a line.
pub const VERSION: &str = "stockd 0.1.0\n";

/// What help says of each argument.
const ACTION: &str =
    "call: serves the lines of the input; serve: serves connections; audit: audits the store";

const MODULES: &str = "The folder of the module files";

const LOAD: &str = "A module to load beside base and stock, any number of times";

const DATABASE: &str = "The name of the database";

const STORE: &str = "The file that rows are kept in [default: memory]";

const CACHE: &str = "How many rows are held in memory, 16 to 1000000";

const LISTEN: &str = "Where serve takes connections, a port of 127.0.0.1";

const CONNECTIONS: &str = "How many connections serve takes, 1 to 4294967295";

/// What help says of the two words that are no arguments.
const FURTHER: &str = "--help among the words tells this, --version the version of the program.";

/// What words may be, for a person to read.
pub fn help_text(alloc: Global) -> Result<String, NoMemory> {
    Ok(stockd(alloc)?.render_help()?)
}

/// The command line: its arguments, without the program's name before them.
pub(crate) fn stockd<'a>(alloc: Global) -> Result<Command<'a>, AllocError>
    ensures { IfOk result (λ command. app_of command ≡ spec.stockd) }
{
    let command = bare(alloc);
    let command = with_action(alloc, command)?;
    let command = with_default(alloc, command, "modules", "DIR", "modules", MODULES)?;
    let command = with_repeated(alloc, command, "load", "NAME", LOAD)?;
    let command = with_default(alloc, command, "db", "NAME", "stock", DATABASE)?;
    let command = with_option(alloc, command, "store", "FILE", STORE)?;
    let command = with_default(alloc, command, "cache", "N", "4096", CACHE)?;
    let command = with_default(
        alloc,
        command,
        "listen",
        "ADDRESS",
        "127.0.0.1:8069",
        LISTEN,
    )?;
    with_default(alloc, command, "connections", "N", "1000000", CONNECTIONS)
}

/// The command line without arguments.
fn bare<'a>(alloc: Global) -> Command<'a>
    ensures { app_of result ≡ spec.bare }
{
    Command::new(alloc, "stockd")
        .about(
            "A business-object server: rows of declared models, by requests as lines or over HTTP",
        )
        .after_help(FURTHER)
        .no_binary_name(true)
        .disable_help_flag(true)
}

/// With the action, which must be there.
fn with_action<'a>(alloc: Global, command: Command<'a>) -> Result<Command<'a>, AllocError>
    ensures { IfOk result (λ more. app_of more ≡ with_rule (app_of command.entry) spec.action_word) }
{
    command.arg(Arg::new(alloc, "action").required(true).help(ACTION))
}

/// With an option that is named once at most.
fn with_option<'a>(
    alloc: Global,
    command: Command<'a>,
    name: &'a str,
    value: &'a str,
    help: &'a str,
) -> Result<Command<'a>, AllocError>
    ensures { IfOk result (λ more. app_of more ≡ with_rule (app_of command.entry) (option name.entry.now)) }
{
    command.arg(
        Arg::new(alloc, name)
            .long(name)
            .value_name(value)
            .help(help),
    )
}

/// With an option that has a value also where it isn't named.
fn with_default<'a>(
    alloc: Global,
    command: Command<'a>,
    name: &'a str,
    value: &'a str,
    default: &'a str,
    help: &'a str,
) -> Result<Command<'a>, AllocError>
    ensures { IfOk result (λ more. app_of more ≡ with_rule (app_of command.entry) (option_or name.entry.now default.entry.now)) }
{
    command.arg(
        Arg::new(alloc, name)
            .long(name)
            .value_name(value)
            .default_value(default)
            .help(help),
    )
}

/// With an option that may be named any number of times.
fn with_repeated<'a>(
    alloc: Global,
    command: Command<'a>,
    name: &'a str,
    value: &'a str,
    help: &'a str,
) -> Result<Command<'a>, AllocError>
    ensures { IfOk result (λ more. app_of more ≡ with_rule (app_of command.entry) (repeated name.entry.now)) }
{
    command.arg(
        Arg::new(alloc, name)
            .long(name)
            .value_name(value)
            .action(ArgAction::Append)
            .help(help),
    )
}
