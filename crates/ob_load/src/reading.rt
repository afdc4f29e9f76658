//! Module texts in the order of reading, each once.

ghost use Rattle.std.specs.Prelude.{◌≡◌, ◌≢◌, ◌≤◌, ℕ, List, Option, None, Some, Ok, Err, Result, IfOk, IfErr, IfSome, IsErrOf, [], false, length};
ghost use Rattle.ob_io.specs.Cause.{HasCause, Rose};
ghost use Rattle.toml.specs.View.{table_view};
ghost use Rattle.ob_module.specs.Modules.{Module, has_module, wanted};
ghost use Rattle.ob_load.specs.Reading.{ReadsTo, module_from, next_module, whole};
ghost use Rattle.ob_load.specs.Rooms.{AreReadWhole, Passes, Refuses, ToldAbsent};
ghost use Rattle.ob_module.specs.Rooms.{modules_in};
ghost use Rattle.ob_load.specs.Texts.{AgreesWith, FileTexts, file_name, text_in};
ghost use Rattle.ob_load.specs.declared.fault.FaultyModule.{FaultyModule};
ghost use Rattle.ob_load.specs.declared.fault.LoadFault.{LoadFault};

use crate::fault::{FaultyModule, LoadFault, ModuleFault};
use ob_base::limits::MAX_MODULES;
use ob_base::{NoMemory, Place, Sequence, Word};
use ob_io::{FileFault, Files};
use ob_module::inside::inside;
use ob_module::{Coming, Modules, wrong_document};
use std::alloc::Global;
use toml::Table;

/// Reads the modules that are loaded in any case, the named ones, and those on which they
/// depend.
pub(crate) fn read_modules<F: Files>(
    alloc: Global,
    files: &mut F,
    folder: &str,
    names: &[Word],
) -> Result<Modules, LoadFault>
    ensures read { IfOk result (λ modules. (texts : FileTexts) × AgreesWith (F.texts files.old) texts
        × ReadsTo (text_in texts folder.now) [] (wanted names.now) (Ok (modules_in modules))) }
    ensures fault { (faulty : FaultyModule) → IsErrOf result (LoadFault.Module faulty)
        → (texts : FileTexts) × AgreesWith (F.texts files.old) texts
        × ReadsTo (text_in texts folder.now) [] (wanted names.now) (Err faulty) }
    ensures whole { IfOk result (λ modules. AreReadWhole (modules_in modules) (wanted names.now)) }
    ensures few { IfOk result (λ modules. length (modules_in modules) ≤ 64) }
    ensures absent { IfErr result
        (ToldAbsent (F.texts files.old) (Rose (F.faults files.old) (F.faults files.new))) }
    ensures same { F.texts files.new ≡ F.texts files.old }
    ensures cause { HasCause (F.faults files.old) (F.faults files.new)
        (IsErrOf result LoadFault.File) }
{
    let mut modules = Modules::new(alloc);
    let mut coming = Coming::wanted(alloc, names)?;
    for _ in 0..MAX_MODULES {
        let Some(name) = next_unread(&modules, &mut coming) else {
            return Ok(modules);
        };
        let document = read_document(alloc, files, folder, name.as_str())?;
        coming.put_depends(alloc, &document)?;
        modules.push(name, document)?;
    }
    match next_unread(&modules, &mut coming) {
        None => Ok(modules),
        Some(name) => Err(refused(alloc, name.as_str(), ModuleFault::Limit)),
    }
}

/// The next name of a module that wasn't read, and the names behind it.
fn next_unread(modules: &Modules, coming: &mut Coming) -> Option<Word>
    ensures passes { Passes (modules_in modules.now) coming.old result coming.new }
    ensures unread { IfSome result (λ name. has_module (modules_in modules.now) name ≡ false) }
{
    while let Some(name) = coming.next() {
        if !modules.has(name.as_str()) {
            return Some(name);
        }
    }
    None
}

/// The document of a module, from its text.
fn read_document<F: Files>(
    alloc: Global,
    files: &mut F,
    folder: &str,
    name: &str,
) -> Result<Table, LoadFault>
    ensures read { IfOk result (λ table. (texts : FileTexts) × AgreesWith (F.texts files.old) texts
        × (next_module 0 name.now (text_in texts folder.now name.now)
        ≡ Ok (record { name = name.now; document = table_view table }))) }
    ensures fault { (faulty : FaultyModule) → IsErrOf result (LoadFault.Module faulty)
        → (texts : FileTexts) × AgreesWith (F.texts files.old) texts
        × (next_module 0 name.now (text_in texts folder.now name.now) ≡ Err faulty) }
    ensures absent { IfErr result
        (ToldAbsent (F.texts files.old) (Rose (F.faults files.old) (F.faults files.new))) }
    ensures same { F.texts files.new ≡ F.texts files.old }
    ensures cause { HasCause (F.faults files.old) (F.faults files.new)
        (IsErrOf result LoadFault.File) }
{
    match inside(name) {
        Some(text) => document_from(alloc, name, text.as_bytes()),
        None => {
            let bytes = read_file(alloc, files, folder, name)?;
            document_from(alloc, name, bytes.as_slice())
        }
    }
}

/// The bytes of the file of a module.
fn read_file<F: Files>(
    alloc: Global,
    files: &mut F,
    folder: &str,
    name: &str,
) -> Result<Sequence<u8>, LoadFault>
    ensures read { IfOk result (λ bytes. (length bytes ≤ 1048576)
        × IfSome (F.texts files.old) (λ texts. texts (file_name folder.now name.now) ≡ Some bytes)) }
    ensures fault { (faulty : FaultyModule) → IsErrOf result (LoadFault.Module faulty)
        → (texts : FileTexts) × AgreesWith (F.texts files.old) texts
        × (next_module 0 name.now (texts (file_name folder.now name.now)) ≡ Err faulty) }
    ensures absent { IfErr result
        (ToldAbsent (F.texts files.old) (Rose (F.faults files.old) (F.faults files.new))) }
    ensures same { F.texts files.new ≡ F.texts files.old }
    ensures cause { HasCause (F.faults files.old) (F.faults files.new)
        (IsErrOf result LoadFault.File) }
{
    let path = file_path(alloc, folder, name)?;
    match files.read_file(path.as_str()) {
        Ok(bytes) => Ok(bytes),
        Err(FileFault::Failed) => Err(LoadFault::File),
        Err(FileFault::Absent) => Err(refused(alloc, name, ModuleFault::Absent)),
        Err(FileFault::TooLong) => Err(refused(alloc, name, ModuleFault::TooLong)),
        Err(FileFault::NoMemory) => Err(LoadFault::NoMemory),
    }
}

/// The name of the file of a module.
fn file_path(alloc: Global, folder: &str, name: &str) -> Result<Word, NoMemory>
    ensures { IfOk result (λ path. path ≡ file_name folder.now name.now) }
{
    Ok(Word::new(format!(in alloc; "{folder}/{name}.toml")?))
}

/// The document of a module of this name, where the bytes are one.
fn document_from(alloc: Global, name: &str, bytes: &[u8]) -> Result<Table, LoadFault>
    requires { length bytes.now ≤ 1048576 }
    ensures read { IfOk result (λ table. module_from name.now bytes.now
        ≡ Ok (record { name = name.now; document = table_view table })) }
    ensures fault { (faulty : FaultyModule) → IsErrOf result (LoadFault.Module faulty) → module_from name.now bytes.now ≡ Err faulty }
    ensures not_absent { (faulty : FaultyModule) → IsErrOf result (LoadFault.Module faulty) → faulty.fault ≢ ModuleFault.Absent }
    ensures not_files { ¬ IsErrOf result LoadFault.File }
{
    let document = match toml::table_from_slice(alloc, bytes) {
        Ok(document) => document,
        Err(error) if error.is_memory() => return Err(LoadFault::NoMemory),
        Err(_) => return Err(refused(alloc, name, ModuleFault::Toml)),
    };
    match wrong_document(alloc, name, &document)? {
        None => Ok(document),
        Some(wrong) => Err(refused_at(alloc, name, wrong.into_place(alloc)?, ModuleFault::Form)),
    }
}

/// The refusal of a module's text as a whole.
pub(crate) fn refused(alloc: Global, name: &str, fault: ModuleFault) -> LoadFault
    ensures fault { Refuses (whole name.now fault) result }
    ensures not_files { result ≢ LoadFault.File }
{
    let mut place = Place::whole(alloc);
    match place.push_key(alloc, "text") {
        Ok(()) => refused_at(alloc, name, place, fault),
        Err(NoMemory) => LoadFault::NoMemory,
    }
}

/// The refusal of a module at a place of its text.
pub(crate) fn refused_at(alloc: Global, name: &str, place: Place, fault: ModuleFault) -> LoadFault
    ensures fault { Refuses (record { name = name.now; place = place; fault = fault }) result }
    ensures not_files { result ≢ LoadFault.File }
{
    match Word::from_text(alloc, name) {
        Ok(name) => LoadFault::Module(FaultyModule { name, place, fault }),
        Err(NoMemory) => LoadFault::NoMemory,
    }
}
