//! The registry and the policy of modules, from JSON: `modules` are their names, `files` the
//! texts that stand in the folder, each `[NAME, TEXT]`. What stands against them first is told
//! in place of answers.

ghost use Rattle.std.specs.Prelude.{IfSome};
ghost use Rattle.ob_access.specs.Policies.{IsPolicyOver};

use ob_base::{NoMemory, Sequence, Word};
use ob_domain::Json;
use ob_io::MemFiles;
use ob_load::{LoadFault, Loaded, load};
use probe_parts::parts::{items_of, list_part, text_of};
use probe_parts::told::Told;
use probe_parts::words::plain_word;
use std::alloc::Global;

/// What the modules of an object mean.
pub(crate) fn loaded(alloc: Global, told: &mut Told, json: &Json) -> Option<Loaded>
    ensures { IfSome result (λ loaded. IsPolicyOver loaded.schema loaded.policy) }
{
    let names = names_of(alloc, told, json);
    match files_of(alloc, told, json) {
        Ok(mut files) => loaded_from(alloc, told, &mut files, names.as_slice()),
        Err(_) => {
            told.lack();
            None
        }
    }
}

/// What modules mean; else the first thing that stands against them is told.
fn loaded_from(
    alloc: Global,
    told: &mut Told,
    files: &mut MemFiles,
    names: &[Word],
) -> Option<Loaded>
    ensures { IfSome result (λ loaded. IsPolicyOver loaded.schema loaded.policy) }
{
    match load(alloc, files, "m", names) {
        Ok(loaded) => Some(loaded),
        Err(LoadFault::NoMemory) => {
            told.lack();
            None
        }
        Err(fault) => {
            told.put_shown(&fault);
            None
        }
    }
}

/// The names of the modules.
fn names_of(alloc: Global, told: &mut Told, json: &Json) -> Sequence<Word> {
    let mut names = Sequence::new(alloc);
    for name in list_part(told, json, "modules") {
        let name = text_of(told, name);
        let name = plain_word(alloc, told, name);
        told.add(&mut names, name);
    }
    names
}

/// The files of the folder.
fn files_of(alloc: Global, told: &mut Told, json: &Json) -> Result<MemFiles, NoMemory> {
    let mut files = Sequence::new(alloc);
    for file in list_part(told, json, "files") {
        add_file(alloc, told, &mut files, file);
    }
    MemFiles::new(alloc, files.into_vec(), Vec::new(alloc))
}

/// Adds a file.
fn add_file(alloc: Global, told: &mut Told, files: &mut Sequence<(Word, Vec<u8>)>, json: &Json) {
    let [name, text] = items_of(told, json) else {
        return told.refuse();
    };
    let mut path = Told::new(alloc);
    path.put("m/");
    path.put(text_of(told, name));
    path.put(".toml");
    let path = told.take(path);
    let text = text_of(told, text);
    let text = plain_word(alloc, told, text);
    told.add(files, (Word::new(path), text.into_string().into_bytes()));
}
