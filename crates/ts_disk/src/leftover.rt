//! What swaps leave in a replica that can't be removed, or has no place any more.
ghost use Rattle.std.specs.Prelude.{◌≡◌, IfOk};
ghost use Rattle.std.specs.String.{string_bytes};
ghost use Rattle.ts_disk.specs.Names.{IsNumbered};

use crate::known_file::NEW_NAME;
use crate::listing::text_names;
use crate::modes::PRIVATE_DIR;
use crate::names::{is_trash, stage_number};
use crate::place::{Standing, kind_at, own_place};
use std::alloc::Global;
use std::fs::{Files, Permissions};
use std::io::ErrorKind;
use std::os::unix::fs::PermissionsExt;
use std::{fs, io};

/// How many names are tried for what is put out of the way.
const NAMES_TRIED: u32 = 1_000_000;

/// What became of what a swap left aside.
#[derive(Debug, PartialEq, Eq, Drop)]
pub(crate) enum Aside {
    /// Nothing is left of it.
    Cleared,
    /// It can't be removed, so it was renamed. It holds nothing that is needed, and later runs try again to remove it.
    Discarded,
    /// It can't go back to where it was, and may be the only copy of something. It stays at this place for good.
    Kept { place: String },
}

/// Tries to remove what earlier runs couldn't remove: all that is called `trash-N` in the program's own directory of a
/// replica. What still can't be removed stays. The stage of each entry goes, too: no run is at work that could still commit it,
/// and what it holds was only copied there. So does what was to say which archives the replica knows.
pub(crate) fn remove_trash<R: Files + AllocGlobal + Clone + Drop>(
    files: &R,
    alloc: Global,
    root: &str,
) -> io::Result<()> {
    let own = own_place(alloc, root)?;
    if kind_at(files, own.as_str())? != Standing::Dir {
        return Ok(());
    }
    for name in &text_names(files, own.as_str())? {
        remove_left(files, alloc, own.as_str(), name.as_str())?;
    }
    Ok(())
}

/// Tries to remove what has this name in the program's own directory, if it is trash, a stage, or a text that was being written.
fn remove_left<R: Files + AllocGlobal + Clone + Drop>(
    files: &R,
    alloc: Global,
    own: &str,
    name: &str,
) -> io::Result<()> {
    let place = format!(in alloc; "{own}/{name}")?;
    if is_trash(name) || name == NEW_NAME {
        let _ = remove_at(files, place.as_str());
    } else if stage_number(name).is_some() {
        let _ = discard_at(files, own, place.as_str());
    }
    Ok(())
}

/// Removes what stands at a place in the program's own directory, or renames it to a free `trash-N` there where it can't be
/// removed.
pub(crate) fn discard_at<R: Files + AllocGlobal + Clone + Drop>(
    files: &R,
    own: &str,
    place: &str,
) -> io::Result<()> {
    if remove_at(files, place).is_ok() {
        return Ok(());
    }
    let _place = move_to_free(files, own, place, "trash")?;
    Ok(())
}

/// Moves what stands at a place in the program's own directory to the first name `STEM-N` there that is free. Nobody else
/// works there, so what is free stays free.
pub(crate) fn move_to_free<R: Files + AllocGlobal>(
    files: &R,
    own: &str,
    place: &str,
    stem: &str,
) -> io::Result<String>
    ensures { IfOk result (λ place. IsNumbered own.now stem.now (string_bytes place)) }
{
    let alloc = files.alloc();
    for number in 0..NAMES_TRIED {
        let free = format!(in alloc; "{own}/{stem}-{number}")?;
        if move_if_free(files, place, free.as_str())? {
            return Ok(free);
        }
    }
    Err(io::Error::from(ErrorKind::AlreadyExists))
}

/// Moves what stands at a place to another one, if nothing stands there. Answers whether it did.
fn move_if_free<R: Files>(files: &R, place: &str, free: &str) -> io::Result<bool> {
    if kind_at(files, free)? != Standing::Nothing {
        return Ok(false);
    }
    fs::rename(files, place, free)?;
    Ok(true)
}

/// Removes what stands at a place of the program's own, and all below it.
pub(crate) fn remove_at<R: Files + AllocGlobal + Clone + Drop>(
    files: &R,
    place: &str,
) -> io::Result<()> {
    match kind_at(files, place)? {
        Standing::Nothing | Standing::CutOff => Ok(()),
        Standing::File | Standing::Other => fs::remove_file(files, place),
        Standing::Dir => remove_tree(files, place),
    }
}

/// Removes a directory of the program's own, and all below it. It is tried once more only where permissions were in the way: what
/// came there meanwhile isn't removed.
fn remove_tree<R: Files + AllocGlobal + Clone + Drop>(files: &R, top: &str) -> io::Result<()> {
    match fs::remove_dir_all(files, top) {
        Err(e) if e.kind() == ErrorKind::PermissionDenied => {}
        removed => return removed,
    }
    let _ = open_up(files, top);
    fs::remove_dir_all(files, top)
}

/// Whether a directory couldn't be removed since others have something in it: another file system is mounted there, or something
/// came to it while all else was removed.
pub(crate) fn is_of_others(e: &io::Error) -> bool {
    match e.kind() {
        ErrorKind::ResourceBusy | ErrorKind::DirectoryNotEmpty => true,
        _ => false,
    }
}

/// Gives the owner every permission for the directories of a tree of the program's own, as it takes to remove what is in
/// them. Those of another owner stay as they are.
fn open_up<R: Files + AllocGlobal + Clone + Drop>(files: &R, top: &str) -> io::Result<()> {
    let alloc = files.alloc();
    let mut closed = Vec::new(alloc);
    closed.push(format!(in alloc; "{top}")?)?;
    for _ in 0..u64::MAX {
        let Some(dir) = closed.pop() else {
            break;
        };
        let _ = fs::set_permissions(files, dir.as_str(), Permissions::from_mode(PRIVATE_DIR));
        add_dirs(files, dir.as_str(), &mut closed)?;
    }
    Ok(())
}

/// Adds the directories in a directory, if it can be listed.
fn add_dirs<R: Files + AllocGlobal>(
    files: &R,
    dir: &str,
    found: &mut Vec<String>,
) -> io::Result<()> {
    let Ok(names) = text_names(files, dir) else {
        return Ok(());
    };
    for name in &names {
        add_dir(files, dir, name.as_str(), found)?;
    }
    Ok(())
}

/// Adds what has this name in a directory, if it is a directory.
fn add_dir<R: Files + AllocGlobal>(
    files: &R,
    dir: &str,
    name: &str,
    found: &mut Vec<String>,
) -> io::Result<()> {
    let place = format!(in files.alloc(); "{dir}/{name}")?;
    if kind_at(files, place.as_str())? == Standing::Dir {
        found.push(place)?;
    }
    Ok(())
}
