//! The registry that modules mean, or the first thing that stands against them. The first word
//! of a line has the names of the modules, with `:` between two; each further word is a file
//! of the folder `m`: its name, `=`, and its text. Words are written as in DEFINITIONS.

use crate::told_models::put_schema;
use ob_base::{NoMemory, Sequence, Word};
use ob_io::MemFiles;
use ob_load::{LoadFault, load};
use probe_parts::told::Told;
use probe_parts::words::{first_word, unescaped, word_of};
use std::alloc::Global;

/// Adds the registry that the modules of a line mean, or their first fault.
pub(crate) fn put_loaded(alloc: Global, told: &mut Told, times: u32, line: &str) {
    let (names, texts) = first_word(line);
    let names = names_of(alloc, told, names);
    match files_of(alloc, told, texts, 0) {
        Ok(mut files) => put_load(alloc, told, times, &mut files, names.as_slice()),
        Err(_) => told.lack(),
    }
}

/// Adds the registry that modules mean, or their first fault.
fn put_load(alloc: Global, told: &mut Told, times: u32, files: &mut MemFiles, names: &[Word]) {
    for _ in 1..times {
        let _ = load(alloc, files, "m", names);
    }
    match load(alloc, files, "m", names) {
        Ok(loaded) => put_schema(alloc, told, &loaded.schema),
        Err(fault) => put_fault(told, &fault),
    }
}

/// Adds whether the modules of a line are loaded, or their first fault, where the read of the
/// number before them fails.
pub(crate) fn put_reading(alloc: Global, told: &mut Told, line: &str) {
    let (fails, line) = match line.split_once(' ') {
        Some(both) => both,
        None => ("", line),
    };
    let Ok(fails) = fails.parse() else {
        return told.put("no number");
    };
    let (names, texts) = first_word(line);
    let names = names_of(alloc, told, names);
    match files_of(alloc, told, texts, fails) {
        Ok(mut files) => put_read(alloc, told, &mut files, names.as_slice()),
        Err(_) => told.lack(),
    }
}

/// Adds whether modules are loaded, or their first fault.
fn put_read(alloc: Global, told: &mut Told, files: &mut MemFiles, names: &[Word]) {
    match load(alloc, files, "m", names) {
        Ok(_) => told.put("loaded"),
        Err(fault) => put_fault(told, &fault),
    }
}

/// Adds a fault, where memory isn't wanting.
fn put_fault(told: &mut Told, fault: &LoadFault) {
    match fault {
        LoadFault::NoMemory => told.lack(),
        fault => told.put_shown(fault),
    }
}

/// The names of modules, with `:` between two.
fn names_of(alloc: Global, told: &mut Told, names: &str) -> Sequence<Word> {
    let mut all = Sequence::new(alloc);
    for name in names.split(':') {
        if !name.is_empty() {
            let name = word_of(alloc, told, name);
            told.add(&mut all, name);
        }
    }
    all
}

/// The files of a line, of which the read of this number fails.
fn files_of(alloc: Global, told: &mut Told, line: &str, fails: u64) -> Result<MemFiles, NoMemory> {
    let mut files = Sequence::new(alloc);
    for word in line.split(' ') {
        if let Some((name, text)) = word.split_once('=') {
            add_file(alloc, told, &mut files, name, text);
        }
    }
    MemFiles::new(alloc, files.into_vec(), vec![in alloc; fails]?)
}

/// Adds a file of the folder `m`.
fn add_file(
    alloc: Global,
    told: &mut Told,
    files: &mut Sequence<(Word, Vec<u8>)>,
    name: &str,
    text: &str,
) {
    let mut path = Told::new(alloc);
    path.put("m/");
    path.put(unescaped(alloc, told, name).as_str());
    path.put(".toml");
    let path = told.take(path);
    let text = unescaped(alloc, told, text);
    told.add(files, (Word::new(path), text.into_bytes()));
}
