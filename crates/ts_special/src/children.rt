//! What stands in a directory, whatever it is.

use crate::looks::{Sort, fault_of, look_above, place_in, sort_at};
use crate::naming::stand_in;
use std::alloc::Global;
use std::fs::Files;
use std::io::Read;
use std::str;
use ts_folder::{FolderFault, Names};
use ts_name::{Name, Path};

/// The name of the program's own directory in a replica.
const OWN: &[u8] = b".twosync";

/// What stands in the directory at a path below a root, as `children` says. No link is followed on the way but the root.
pub(crate) fn children_at<R: Files>(
    alloc: Global,
    files: &R,
    root: &str,
    path: &Path,
) -> Result<Vec<(Name, Sort)>, FolderFault> {
    let place = path.place_below(alloc, root)?;
    look_above(files, place.as_str(), root.len())?;
    children(alloc, files, place.as_str(), path.is_root())
}

/// What stands in the directory at a place, by ascending names. A name that isn't lawful is special and has its stand-in;
/// where something else has that name, too, both are one. What vanishes meanwhile is left out.
///
/// `Unreadable` where the directory must not be listed, and where it is a replica below a replica: then it has the
/// program's own directory, which in the root is left out.
fn children<R: Files>(
    alloc: Global,
    files: &R,
    place: &str,
    is_root: bool,
) -> Result<Vec<(Name, Sort)>, FolderFault> {
    let mut found = Vec::new(alloc);
    for bytes in read_names(alloc, files, place, is_root)? {
        if bytes.as_slice() == OWN {
            if is_root {
                continue;
            }
            return Err(FolderFault::Unreadable);
        }
        if let Some(child) = child(alloc, files, place, &bytes)? {
            found.push(child)?;
        }
    }
    found.sort_unstable_by(|one, other| one.0.cmp(&other.0));
    merged(alloc, found)
}

/// What has this name in the directory at a place. None where it is gone.
fn child<R: Files>(
    alloc: Global,
    files: &R,
    place: &str,
    bytes: &[u8],
) -> Result<Option<(Name, Sort)>, FolderFault> {
    let name = stand_in(alloc, bytes)?;
    if name.as_bytes() != bytes {
        return Ok(Some((name, Sort::Special)));
    }
    let Ok(text) = str::from_utf8(bytes) else {
        return Ok(Some((name, Sort::Special)));
    };
    let place = place_in(alloc, place, text)?;
    match sort_at(files, place.as_str()) {
        Ok(sort) => Ok(Some((name, sort))),
        Err(FolderFault::NotThere) => Ok(None),
        Err(fault) => Err(fault),
    }
}

/// The same where each name comes once. What has the name of another stands for both, and is special.
fn merged(alloc: Global, found: Vec<(Name, Sort)>) -> Result<Vec<(Name, Sort)>, FolderFault> {
    let mut names: Vec<(Name, Sort)> = Vec::new(alloc);
    for (name, sort) in found {
        match names.last_mut() {
            Some(last) if last.0 == name => last.1 = Sort::Special,
            _ => names.push((name, sort))?,
        }
    }
    Ok(names)
}

/// The names in the directory at a place, as the system gives them. Of directories none but the root may be a link.
fn read_names<R: Files>(
    alloc: Global,
    files: &R,
    place: &str,
    is_root: bool,
) -> Result<Vec<Vec<u8>>, FolderFault> {
    if is_root {
        // by the slash a link is followed
        let place = place_in(alloc, place, "")?;
        names_at(alloc, files, place.as_str())
    } else {
        names_at(alloc, files, place)
    }
}

/// The names in the directory at a place. A link is followed only where the place ends in `/`.
fn names_at<R: Files>(alloc: Global, files: &R, place: &str) -> Result<Vec<Vec<u8>>, FolderFault> {
    match Names::open(alloc, files, place) {
        Ok(mut found) => names_left(alloc, &mut found),
        Err(e) => Err(fault_of(&e)),
    }
}

/// The names that are left.
fn names_left<D: Read + Drop>(
    alloc: Global,
    found: &mut Names<D>,
) -> Result<Vec<Vec<u8>>, FolderFault> {
    let mut names = Vec::new(alloc);
    for _ in 0..u64::MAX {
        match found.next_name() {
            Ok(Some(name)) => names.push(Vec::from_slice(alloc, name)?)?,
            Ok(None) => return Ok(names),
            Err(e) => return Err(fault_of(&e)),
        }
    }
    Err(FolderFault::Device)
}
