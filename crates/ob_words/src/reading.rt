//! What words ask for: whether they ask for help or the version, else what `clap` reads of each
//! argument, each in its form.

ghost use Rattle.std.specs.Prelude.{◌≡◌, map, string_bytes, IfOk, option_and_then, option_map};
ghost use Rattle.std.specs.List.{list_any};
ghost use Rattle.std.specs.Str.{bytes_eq};
ghost use Rattle.clap.specs.Walk.{first_of, rows_of};
ghost use Rattle.clap.specs.Matches.{found_of};
ghost use Rattle.ob_words.specs.Arguments.{rows_said};
ghost use Rattle.ob_words.specs.Views.{IsAskedOf, action_view, command_view, said_view, texts};
ghost use Rattle.ob_words.specs.Words.{all_but_modules, command_from, file_said, modules_said};

use crate::arguments::stockd;
use crate::command::{Action, Asked, Command};
use crate::values::{action_of, are_modules, cache_of, limit_of, name_of, port_of};
use clap::ArgMatches;
use clap::error::ErrorKind;
use ob_base::{NoMemory, Sequence, Word};
use std::alloc::Global;

/// What words say of the arguments that need no memory to be told.
#[derive(Clone, Copy, Debug, PartialEq, Eq)]
struct Said<'a> {
    action: Action,
    folder: &'a str,
    database: &'a str,
    file: Option<&'a str>,
    cache: u32,
    port: u16,
    limit: u32,
}

/// What the words ask for; None where it is nothing that is served. Memory may be wanting
/// where they ask for neither help nor the version.
pub fn asked_of<'a>(alloc: Global, words: &'a [String]) -> Result<Option<Asked<'a>>, NoMemory>
    ensures { IsAskedOf words.now result }
{
    if has_word(words, "--help") {
        return Ok(Some(Asked::Help));
    }
    if has_word(words, "--version") {
        return Ok(Some(Asked::Version));
    }
    match command_of(alloc, words)? {
        Some(command) => Ok(Some(Asked::Command(command))),
        None => Ok(None),
    }
}

/// Whether this is among the words.
fn has_word(words: &[String], one: &str) -> bool
    ensures { result ≡ list_any (bytes_eq one.now) (map string_bytes words.now) }
{
    words.iter().any(|word| one == word.as_str())
}

/// The command of words that ask for neither help nor the version.
fn command_of<'a>(alloc: Global, words: &'a [String]) -> Result<Option<Command<'a>>, NoMemory>
    ensures { IfOk result (λ command. option_map command_view command
        ≡ option_and_then command_from (rows_said (map string_bytes words.now))) }
{
    match parsed(alloc, words)? {
        Some(matches) => command_in(alloc, &matches),
        None => Ok(None),
    }
}

/// What the parser makes of the words; None where it finds a fault with them, or one is `--`.
fn parsed<'a>(alloc: Global, words: &'a [String]) -> Result<Option<ArgMatches<'a>>, NoMemory>
    ensures { IfOk result (λ matches. option_map (λ m. rows_of (found_of m)) matches ≡ rows_said (map string_bytes words.now)) }
{
    if has_word(words, "--") {
        return Ok(None);
    }
    match stockd(alloc)?.try_get_matches_from(words) {
        Ok(matches) => Ok(Some(matches)),
        Err(error) if error.kind() == ErrorKind::OutOfMemory => Err(NoMemory),
        Err(_) => Ok(None),
    }
}

/// The command of what is said of each argument, where each has its form.
fn command_in<'a>(alloc: Global, matches: &ArgMatches<'a>) -> Result<Option<Command<'a>>, NoMemory>
    ensures { IfOk result (λ command. option_map command_view command ≡ command_from (rows_of (found_of matches.now))) }
{
    let Some(said) = said_in(matches) else {
        return Ok(None);
    };
    let Some(names) = modules_in(alloc, matches)? else {
        return Ok(None);
    };
    Ok(Some(command_with(said, names)))
}

/// The command of what is said and these modules.
fn command_with<'a>(said: Said<'a>, names: Sequence<Word>) -> Command<'a>
    ensures { command_view result ≡ said_view said.entry names }
{
    Command {
        action: said.action,
        folder: said.folder,
        names,
        database: said.database,
        file: said.file,
        cache: said.cache,
        port: said.port,
        limit: said.limit,
    }
}

/// The modules that are named, where each may be.
fn modules_in(alloc: Global, matches: &ArgMatches<'_>) -> Result<Option<Sequence<Word>>, NoMemory>
    ensures { IfOk result (λ names. names ≡ modules_said (rows_of (found_of matches.now))) }
{
    match matches.get_strs("load") {
        Some(names) if are_modules(names) => Ok(Some(words_of(alloc, names)?)),
        Some(_) => Ok(None),
        None => Ok(Some(Sequence::new(alloc))),
    }
}

/// Copies of texts.
fn words_of(alloc: Global, given: &[&str]) -> Result<Sequence<Word>, NoMemory>
    ensures { IfOk result (λ words. words ≡ texts given.now) }
{
    let mut words = Sequence::new(alloc);
    for text in given {
        words.push(Word::from_text(alloc, text)?)?;
    }
    Ok(words)
}

/// What is said of the arguments but the modules, where each has its form.
fn said_in<'a>(matches: &ArgMatches<'a>) -> Option<Said<'a>>
    ensures { option_map said_view result ≡ all_but_modules (rows_of (found_of matches.now)) }
{
    Some(Said {
        action: action_of(text_of(matches, "action")?)?,
        folder: name_of(text_of(matches, "modules")?)?,
        database: name_of(text_of(matches, "db")?)?,
        file: file_in(matches)?,
        cache: cache_of(text_of(matches, "cache")?)?,
        port: port_of(text_of(matches, "listen")?)?,
        limit: limit_of(text_of(matches, "connections")?)?,
    })
}

/// The file that is named, where one is; none where it has no name's form.
fn file_in<'a>(matches: &ArgMatches<'a>) -> Option<Option<&'a str>>
    ensures { option_map (option_map (λ text. text.now)) result ≡ file_said (rows_of (found_of matches.now)) }
{
    match text_of(matches, "store") {
        Some(text) => Some(Some(name_of(text)?)),
        None => Some(None),
    }
}

/// The first value of an argument, where it has one.
fn text_of<'a>(matches: &ArgMatches<'a>, name: &str) -> Option<&'a str>
    ensures { option_map (λ text. text.now) result ≡ first_of name.now (rows_of (found_of matches.now)) }
{
    matches.get_str(name)
}
