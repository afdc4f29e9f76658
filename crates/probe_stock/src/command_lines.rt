//! What the words of a command line ask for.

use ob_base::{NoMemory, Sequence, Word};
use ob_words::{Action, Asked, Command, Store, Usage, address_of, asked_of, store_of};
use probe_parts::told::Told;
use probe_parts::words::unescaped;
use std::alloc::Global;

/// Adds what the words of a line ask for, and where they have rows kept and connections come.
pub(crate) fn put_asked(alloc: Global, told: &mut Told, line: &str) {
    let words = words_of(alloc, told, line);
    put_reading(alloc, told, words.as_slice());
    told.put(" | ");
    put_store(alloc, told, words.as_slice());
    told.put(" ");
    put_port(alloc, told, words.as_slice());
}

/// The words of a line, with one space between two; of an empty line none.
fn words_of(alloc: Global, told: &mut Told, line: &str) -> Sequence<String> {
    let mut words = Sequence::new(alloc);
    if line.is_empty() {
        return words;
    }
    for word in line.split(' ') {
        let word = unescaped(alloc, told, word);
        told.add(&mut words, word);
    }
    words
}

/// Adds what the words ask for.
fn put_reading(alloc: Global, told: &mut Told, words: &[String]) {
    match asked_of(alloc, words) {
        Ok(Some(Asked::Help)) => told.put("help"),
        Ok(Some(Asked::Version)) => told.put("version"),
        Ok(Some(Asked::Command(command))) => put_command(told, &command),
        Ok(None) => told.put("none"),
        Err(NoMemory) => told.lack(),
    }
}

/// Adds a command.
fn put_command(told: &mut Told, command: &Command<'_>) {
    told.put(name_of(command.action));
    told.put(" modules=");
    told.put(command.folder);
    put_names(told, command.names.as_slice());
    told.put(" db=");
    told.put(command.database);
    if let Some(path) = command.file {
        told.put(" store=");
        told.put(path);
    }
    told.put(" cache=");
    told.put_count(u64::from(command.cache));
    told.put(" port=");
    told.put_count(u64::from(command.port));
    told.put(" connections=");
    told.put_count(u64::from(command.limit));
}

/// The name of an action.
fn name_of(action: Action) -> &'static str {
    match action {
        Action::Call => "call",
        Action::Serve => "serve",
        Action::Audit => "audit",
    }
}

/// Adds the modules that are named.
fn put_names(told: &mut Told, names: &[Word]) {
    for name in names {
        told.put(" load=");
        told.put(name.as_str());
    }
}

/// Adds where rows are kept.
fn put_store(alloc: Global, told: &mut Told, words: &[String]) {
    match store_of(alloc, words) {
        Ok(Store::Memory) => told.put("memory"),
        Ok(Store::File(path)) => told.put(path.as_str()),
        Err(Usage::Words) => told.put("none"),
        Err(Usage::NoMemory) => told.lack(),
    }
}

/// Adds where connections come.
fn put_port(alloc: Global, told: &mut Told, words: &[String]) {
    match address_of(alloc, words) {
        Ok(port) => told.put_count(u64::from(port)),
        Err(Usage::Words) => told.put("none"),
        Err(Usage::NoMemory) => told.lack(),
    }
}
