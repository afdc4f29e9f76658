//! Files in memory and of the host.

use crate::told::{agree, tell, tell_file};
use ob_base::limits::MAX_MODULE_BYTES;
use ob_base::{NoMemory, Word};
use ob_io::{DiskFiles, MemFiles, SureFiles};
use std::alloc::Global;
use std::fs;
use std::test::Fail;

/// So many bytes.
fn bytes_of(alloc: Global, len: usize) -> Result<Vec<u8>, NoMemory> {
    let mut bytes = Vec::new(alloc);
    for _ in 0..len {
        bytes.push(b'#')?;
    }
    Ok(bytes)
}

/// A text of this name with so many bytes.
fn text_of(alloc: Global, name: &str, len: usize) -> Result<(Word, Vec<u8>), NoMemory> {
    let bytes = bytes_of(alloc, len)?;
    Ok((Word::from_text(alloc, name)?, bytes))
}

/// Adds such a text.
fn add_text(alloc: Global, pairs: &mut Vec<(Word, Vec<u8>)>, name: &str, len: usize) {
    if let Ok(pair) = text_of(alloc, name, len) {
        let _ = pairs.push(pair);
    }
}

/// The texts `a` (the first of two counts), `most` and `more`.
fn texts(alloc: Global) -> Vec<(Word, Vec<u8>)> {
    let mut pairs = Vec::new(alloc);
    add_text(alloc, &mut pairs, "a", 3);
    add_text(alloc, &mut pairs, "a", 4);
    add_text(alloc, &mut pairs, "most", MAX_MODULE_BYTES);
    add_text(alloc, &mut pairs, "more", MAX_MODULE_BYTES + 1);
    pairs
}

/// Files in memory, of which the second and the ninth read fail, and none at all.
fn tell_memory(alloc: Global, text: &mut String) -> Result<(), NoMemory> {
    let mut files = MemFiles::new(alloc, texts(alloc), [2, 9].to_vec(alloc)?)?;
    tell_file(text, &mut files, "a");
    tell_file(text, &mut files, "a");
    tell_file(text, &mut files, "b");
    tell_file(text, &mut files, "most");
    tell_file(text, &mut files, "more");
    let mut files = SureFiles::new(alloc, Vec::new(alloc))?;
    tell_file(text, &mut files, "main");
    Ok(())
}

/// Writes a short file and one that is too long.
fn write_files(rt: &HostRuntime) -> Result<(), Fail> {
    fs::write(rt, "three", "abc")?;
    let long = bytes_of(rt.alloc(), MAX_MODULE_BYTES + 1)?;
    fs::write(rt, "long", long.as_slice())?;
    Ok(())
}

/// Files of the host, those that aren't there too.
fn tell_disk(rt: &HostRuntime, text: &mut String) -> Result<(), NoMemory> {
    let mut files = DiskFiles::new(rt.alloc(), rt)?;
    tell_file(text, &mut files, "three");
    tell_file(text, &mut files, "long");
    tell_file(text, &mut files, "four");
    tell_file(text, &mut files, "three/four");
    Ok(())
}

/// Those in memory, and behind them those of the host.
fn tell_all(rt: &HostRuntime, text: &mut String) -> Result<(), Fail> {
    tell_memory(rt.alloc(), text)?;
    tell(text, "of the host:");
    write_files(rt)?;
    tell_disk(rt, text)?;
    Ok(())
}

#[test]
fn files(rt: HostRuntime) -> Result<(), Fail> {
    let mut text = String::new(rt.alloc());
    tell_all(&rt, &mut text)?;
    agree(
        &rt,
        text.as_str(),
        "3 the file could not be read there is no such file \
         1048576 the file is too long there is no such file \
         of the host: \
         3 the file is too long there is no such file the file could not be read ",
    );
    Ok(())
}
