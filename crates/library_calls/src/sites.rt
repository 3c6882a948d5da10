//! Commits to sites over memory.
use fixtures::path;
use std::alloc::Global;
use ts_model::items::Items;
use ts_model::row::{Content, Row};
use ts_name::Path;
use ts_print::{Print, stamp_of};
use ts_site::{FaultySite, MemSite, Site, SiteFault};
use ts_stage::{Piece, Reading, Staged};
use ts_tree::SubTree;

/// The print of a replica whose one file `/a` has these bytes.
fn file_print(alloc: Global, bytes: &[u8]) -> Option<Print> {
    let mut print = Print::empty(alloc);
    let path = path(alloc, "/a")?;
    if !print.can_push(&path) {
        return None;
    }
    let content = Content::File(stamp_of(bytes));
    print.push(Row { path, content }).ok()?;
    Some(print)
}

fn file_of(alloc: Global, bytes: &[u8]) -> Option<SubTree> {
    SubTree::file(alloc, Vec::from_slice(alloc, bytes).ok()?).ok()
}

/// An assembly of a file that is to have the bytes `wanted`.
fn begun(alloc: Global, path: &Path, wanted: &[u8]) -> Option<Staged> {
    let print = file_print(alloc, wanted)?;
    Staged::begin(alloc, &print.sub_print(path)).ok()
}

/// The same, where it gets a piece.
fn staged(alloc: Global, wanted: &[u8], piece: Piece) -> Option<Staged> {
    let path = path(alloc, "/a")?;
    let mut staged = begun(alloc, &path, wanted)?;
    if staged.has_so_far(alloc, &path, 0) != Ok(true) {
        return None;
    }
    let piece = Box::new(alloc, piece).ok()?;
    if staged.put(alloc, &path, 0, piece).is_err() {
        return None;
    }
    Some(staged)
}

/// The number of the fault of a commit of a piece, or 0, where the print before it is to be that of `before`.
fn commit_piece<S: Site>(
    alloc: Global,
    site: &mut S,
    before: &[u8],
    wanted: &[u8],
    piece: Piece,
) -> Option<u8> {
    let print = file_print(alloc, before)?;
    let path = path(alloc, "/a")?;
    let staged = staged(alloc, wanted, piece)?;
    match site.commit(alloc, &print.sub_print(&path), staged) {
        Ok(_put) => Some(0),
        Err(fault) => Some(fault.number()),
    }
}

/// The same, of bytes in memory.
fn commit<S: Site>(
    alloc: Global,
    site: &mut S,
    before: &[u8],
    wanted: &[u8],
    bytes: &[u8],
) -> Option<u8> {
    let piece = Piece::held(Vec::from_slice(alloc, bytes).ok()?);
    commit_piece(alloc, site, before, wanted, piece)
}

/// Whether a content is a file of these bytes.
fn is_file(alloc: Global, content: &SubTree, bytes: &[u8]) -> bool {
    match content.get(&Path::root(alloc)) {
        Content::File(found) => found == bytes,
        Content::Absent | Content::Dir => false,
    }
}

/// A site whose file has the bytes `old` gets `new` and then none: the numbers of the faults, and whether the file is empty.
fn put_twice(alloc: Global) -> Option<(u8, u8, bool)> {
    let mut site = MemSite::new(file_of(alloc, b"old")?);
    let first = commit(alloc, &mut site, b"old", b"new", b"new")?;
    let second = commit(alloc, &mut site, b"new", b"", b"")?;
    let is_empty = is_file(alloc, &site.into_content(), b"");
    Some((first, second, is_empty))
}

#[test]
fn puts_staged_bytes_in_place(rt: HostRuntime) {
    assert!(rt; put_twice(rt.alloc()) == Some((0, 0, true)));
}

/// A commit of bytes for the file `new` to a site whose file has the bytes `old`: the fault's number, and whether the file
/// is as it was.
fn put_once(alloc: Global, before: &[u8], bytes: &[u8]) -> Option<(u8, bool)> {
    let mut site = MemSite::new(file_of(alloc, b"old")?);
    let number = commit(alloc, &mut site, before, b"new", bytes)?;
    let is_old = is_file(alloc, &site.into_content(), b"old");
    Some((number, is_old))
}

/// The number of the fault of a commit to a site where nothing is.
fn put_where_nothing_is(alloc: Global) -> Option<u8> {
    let mut none = MemSite::new(SubTree::absent(alloc));
    commit(alloc, &mut none, b"old", b"new", b"new")
}

#[test]
fn refuses_a_changed_target(rt: HostRuntime) {
    let alloc = rt.alloc();
    assert!(rt; put_once(alloc, b"odd", b"new") == Some((14, true)));
    assert!(rt; put_where_nothing_is(alloc) == Some(14));
}

#[test]
fn refuses_bytes_that_do_not_fit(rt: HostRuntime) {
    let alloc = rt.alloc();
    assert!(rt; put_once(alloc, b"old", b"nex") == Some((15, true)));
    assert!(rt; put_once(alloc, b"old", b"ne") == Some((15, true)));
    assert!(rt; put_once(alloc, b"odd", b"nex") == Some((15, true)));
}

/// A piece of these bytes that is stored elsewhere, and fits as it was read back.
fn stored(alloc: Global, bytes: &[u8]) -> Option<Piece> {
    let bytes = Items::new(Vec::from_slice(alloc, bytes).ok()?);
    let mut reading = Reading::begin(alloc);
    reading.add(&bytes).ok()?;
    Some(Piece::stored(&bytes, Some(reading.end())))
}

/// A commit of what is stored elsewhere: the fault's number, and whether the file is as it was.
fn put_stored(alloc: Global, before: &[u8], bytes: &[u8]) -> Option<(u8, bool)> {
    let mut site = MemSite::new(file_of(alloc, b"old")?);
    let number = commit_piece(alloc, &mut site, before, b"new", stored(alloc, bytes)?)?;
    let is_old = is_file(alloc, &site.into_content(), b"old");
    Some((number, is_old))
}

/// The same where the device would fail; of a commit in memory that comes after it, the number too.
fn put_stored_where_it_fails(alloc: Global) -> Option<(u8, u8, bool)> {
    let fails = vec![in alloc; true].ok()?;
    let mut site = FaultySite::new(file_of(alloc, b"old")?, fails);
    let first = commit_piece(alloc, &mut site, b"old", b"new", stored(alloc, b"new")?)?;
    let second = commit(alloc, &mut site, b"old", b"new", b"new")?;
    let is_new = is_file(alloc, &site.into_content(), b"new");
    Some((first, second, is_new))
}

#[test]
fn takes_nothing_that_is_stored_elsewhere(rt: HostRuntime) {
    let alloc = rt.alloc();
    assert!(rt; put_stored(alloc, b"old", b"new") == Some((1, true)));
    assert!(rt; put_stored(alloc, b"old", b"nex") == Some((1, true)));
    assert!(rt; put_stored(alloc, b"odd", b"new") == Some((1, true)));
    assert!(rt; put_stored_where_it_fails(alloc) == Some((1, 0, true)));
}

/// The numbers of the faults of four commits, of which the device fails at two, and whether the last one's bytes are there.
fn put_four_times(alloc: Global) -> Option<([u8; 4], bool)> {
    let fails = vec![in alloc; false, true, true].ok()?;
    let mut site = FaultySite::new(file_of(alloc, b"old")?, fails);
    let numbers = [
        commit(alloc, &mut site, b"old", b"one", b"one")?,
        commit(alloc, &mut site, b"one", b"two", b"two")?,
        commit(alloc, &mut site, b"one", b"two", b"tw")?,
        commit(alloc, &mut site, b"one", b"two", b"two")?,
    ];
    Some((numbers, is_file(alloc, &site.into_content(), b"two")))
}

#[test]
fn fails_when_told(rt: HostRuntime) {
    assert!(rt; put_four_times(rt.alloc()) == Some(([0, 8, 15, 0], true)));
}

/// The numbers of the faults of two commits to a site in a box, at the first of which the device fails, and whether the last one's
/// bytes are there.
fn put_in_a_box(alloc: Global) -> Option<(u8, u8, bool)> {
    let fails = vec![in alloc; true].ok()?;
    let site = FaultySite::new(file_of(alloc, b"old")?, fails);
    let mut site = Box::new(alloc, site).ok()?;
    let first = commit(alloc, &mut site, b"old", b"new", b"new")?;
    let second = commit(alloc, &mut site, b"old", b"new", b"new")?;
    let is_new = is_file(alloc, &Box::into_inner(site).into_content(), b"new");
    Some((first, second, is_new))
}

#[test]
fn commits_to_a_site_in_a_box(rt: HostRuntime) {
    assert!(rt; put_in_a_box(rt.alloc()) == Some((8, 0, true)));
}

#[test]
fn numbers_faults(rt: HostRuntime) {
    assert!(rt; SiteFault::OutOfMemory.number() == 1);
    assert!(rt; SiteFault::Device.number() == 8);
    assert!(rt; SiteFault::Changed.number() == 14);
    assert!(rt; SiteFault::Misfit.number() == 15);
}
