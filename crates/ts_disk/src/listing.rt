//! The names of what stands in a directory, as texts.
use std::alloc::Global;
use std::fs::Files;
use std::io;
use std::io::Read;
use ts_folder::Names;

/// The names in a directory, but for those that aren't text: none of the program's own is such a name.
pub(crate) fn text_names<R: Files + AllocGlobal>(
    files: &R,
    place: &str,
) -> io::Result<Vec<String>> {
    let alloc = files.alloc();
    let mut texts = Vec::new(alloc);
    let mut names = Names::open(alloc, files, place)?;
    add_texts(alloc, &mut texts, &mut names)?;
    Ok(texts)
}

/// Adds the names that are left.
fn add_texts<D: Read + Drop>(
    alloc: Global,
    texts: &mut Vec<String>,
    names: &mut Names<D>,
) -> io::Result<()> {
    for _ in 0..u64::MAX {
        match names.next_name()? {
            Some(name) => add_text(alloc, texts, name)?,
            None => break,
        }
    }
    Ok(())
}

/// Adds a name, if it is text.
fn add_text(alloc: Global, texts: &mut Vec<String>, name: &[u8]) -> io::Result<()> {
    if let Ok(text) = str::from_utf8(name) {
        texts.push(String::from_str(alloc, text)?)?;
    }
    Ok(())
}
