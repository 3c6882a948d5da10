//! Which archives a replica belongs to, in folders of each test's own.
use crate::disks::{ground, has, makes, writes};
use crate::shared::print_of;
use std::alloc::Global;
use std::{fs, process};
use ts_disk::{DiskFault, Lock, claim_archive, knows_archive, take_lock};
use ts_model::plan::Side;

/// The bodies of archives.
const OLD: &str = "d /a\n";

const NEW: &str = "d /a\nd /b\n";

const OTHER: &str = "d /c\n";

const LATER: &str = "d /a\nd /d\n";

/// How many pairs a replica remembers.
const MOST: u32 = 1_024;

/// Digests of no archive that is here.
const NONE: &str = "ca978112ca1bbdcafac231b39a23dc4da786eff8147c4e72b9807785afee48bb";

/// Files `.twosync/archives` that this program doesn't write.
const MALFORMED: [&str; 12] = [
    "",
    "\n",
    "not a digest\n",
    "Older\n",
    "older",
    "older\nolder\n",
    "older \n",
    "pair:\n",
    "pair:ca978112ca1bbdcafac231b39a23dc4da786eff8147c4e72b9807785afee48bb\n",
    "pair:ca97 ca978112ca1bbdcafac231b39a23dc4da786eff8147c4e72b9807785afee48bb\n",
    "Pair:ca978112ca1bbdcafac231b39a23dc4da786eff8147c4e72b9807785afee48bb ca978112ca1bbdcafac231b39a23dc4da786eff8147c4e72b9807785afee48bb\n",
    "ca978112ca1bbdcafac231b39a23dc4da786eff8147c4e72b9807785afee48bb\n\n",
];

/// Files that are of the form that it wrote once, or that say nothing.
const OTHERS: [&str; 3] = [
    "older\n",
    "ca978112ca1bbdcafac231b39a23dc4da786eff8147c4e72b9807785afee48bb\n",
    "older\nca978112ca1bbdcafac231b39a23dc4da786eff8147c4e72b9807785afee48bb ca978112ca1bbdcafac231b39a23dc4da786eff8147c4e72b9807785afee48bb\n",
];

/// The place of what has a name in a test's own folder.
fn place(alloc: Global, top: &str, name: &str) -> Option<String> {
    format!(in alloc; "{top}/{name}").ok()
}

/// The lock of a replica, which takes part in a run.
fn lock_of(files: &HostRuntime, root: &str) -> Option<Lock> {
    let lock = take_lock(files, files.alloc(), root).ok()??;
    lock.take_part(files).ok()?;
    Some(lock)
}

/// Writes an archive with this body for a pair of replicas that are locked. Answers whether they forgot another pair for it.
fn writes_archive(
    files: &HostRuntime,
    archive: &str,
    body: &str,
    first: &Option<Lock>,
    second: &Option<Lock>,
) -> Option<(bool, bool)> {
    let alloc = files.alloc();
    let print = print_of(alloc, body)?;
    let mut claimed = claim_archive(files, alloc, archive).ok()?;
    let is_written = claimed.write(files, alloc, &print, first, second).is_ok();
    let forgot = (
        claimed.forgot_pair(Side::First),
        claimed.forgot_pair(Side::Second),
    );
    claimed.release(files);
    is_written.then_some(forgot)
}

/// Runs a replica alone with the archive of this name, which gets this body. Answers whether another pair was forgotten for it.
fn runs(files: &HostRuntime, top: &str, name: &str, body: &str) -> Option<bool> {
    let alloc = files.alloc();
    let root = place(alloc, top, "replica")?;
    let archive = place(alloc, top, name)?;
    let lock = Some(lock_of(files, root.as_str())?);
    let forgot = writes_archive(files, archive.as_str(), body, &lock, &None)?;
    release(files, lock);
    (!forgot.1).then_some(forgot.0)
}

/// The same where nothing is forgotten.
fn ran(files: &HostRuntime, top: &str, name: &str, body: &str) -> bool {
    runs(files, top, name, body) == Some(false)
}

/// Runs a pair of replicas, whose archive gets this body. Both have names of one letter, and the archive has both.
fn pair_ran(files: &HostRuntime, top: &str, first: &str, second: &str, body: &str) -> Option<bool> {
    let alloc = files.alloc();
    let root = place(alloc, top, first)?;
    let other = place(alloc, top, second)?;
    let archive = format!(in alloc; "{top}/{first}{second}").ok()?;
    let lock = Some(lock_of(files, root.as_str())?);
    let other = Some(lock_of(files, other.as_str())?);
    let forgot = writes_archive(files, archive.as_str(), body, &lock, &other)?;
    release(files, lock);
    release(files, other);
    Some(forgot == (false, false))
}

/// Gives a lock up, if there is one.
fn release(files: &HostRuntime, lock: Option<Lock>) {
    if let Some(lock) = lock {
        lock.release(files);
    }
}

/// Whether a replica knows the archive of this name. Its lock says so, and so does who takes none.
fn knows_in(files: &HostRuntime, top: &str, replica: &str, name: &str) -> Option<bool> {
    let alloc = files.alloc();
    let root = place(alloc, top, replica)?;
    let at = place(alloc, top, name)?;
    let unlocked = knows_archive(files, alloc, root.as_str(), at.as_str()).ok()?;
    let lock = lock_of(files, root.as_str())?;
    let archive = claim_archive(files, alloc, at.as_str()).ok()?;
    let locked = lock.knows(&archive);
    archive.release(files);
    lock.release(files);
    (locked == unlocked).then_some(locked)
}

/// The same of the one replica of a test.
fn knows(files: &HostRuntime, top: &str, name: &str) -> Option<bool> {
    knows_in(files, top, "replica", name)
}

/// Copies what has one name to another one.
fn copies(files: &HostRuntime, top: &str, from: &str, to: &str) -> bool {
    let alloc = files.alloc();
    match (place(alloc, top, from), place(alloc, top, to)) {
        (Some(from), Some(to)) => fs::copy(files, from.as_str(), to.as_str()).is_ok(),
        _ => false,
    }
}

/// Makes a test's own folder, and one replica in it.
fn begins(files: &HostRuntime, top: &str) -> bool {
    makes(files, top, "") && makes(files, top, "replica")
}

/// Writes the file that says what the replica belongs to.
fn says(files: &HostRuntime, top: &str, text: &str) -> bool {
    writes(files, top, "replica/.twosync/archives", text)
}

/// How many lines that file has.
fn count_of_lines(files: &HostRuntime, top: &str) -> Option<usize> {
    let file = place(files.alloc(), top, "replica/.twosync/archives")?;
    let text = fs::read(files, file.as_str()).ok()?;
    Some(
        text.as_slice()
            .iter()
            .filter(|byte| **byte == b'\n')
            .count(),
    )
}

/// Whether a replica belongs to the archive that was written last, and to the one before it, and to no others.
fn knows_its_own(files: &HostRuntime, top: &str) -> Option<bool> {
    let is_begun = begins(files, top) && knows(files, top, "one")?;
    let is_first = ran(files, top, "one", OLD) && copies(files, top, "one", "before");
    let knows_first = knows(files, top, "one")? && knows(files, top, "none")?;
    let has_run = ran(files, top, "one", NEW);
    let knows_both = knows(files, top, "one")? && knows(files, top, "before")?;
    let goes_on = ran(files, top, "one", OTHER) && ran(files, top, "one", LATER);
    let is_forgotten = !knows(files, top, "before")? && knows(files, top, "one")?;
    let is_one_line = count_of_lines(files, top)? == 1;
    Some(
        is_begun
            && is_first
            && knows_first
            && has_run
            && knows_both
            && goes_on
            && is_forgotten
            && is_one_line,
    )
}

/// Whether a run with the same archive once more leaves the file as it is.
fn notes_nothing_twice(files: &HostRuntime, top: &str) -> Option<bool> {
    let is_begun = begins(files, top) && ran(files, top, "one", OLD) && ran(files, top, "one", NEW);
    let file = place(files.alloc(), top, "replica/.twosync/archives")?;
    let text = fs::read_to_string(files, file.as_str()).ok()?;
    let goes_on = ran(files, top, "one", NEW);
    Some(is_begun && goes_on && has(files, top, "replica/.twosync/archives", Some(text.as_str())))
}

#[test]
fn a_replica_knows_its_archives(rt: HostRuntime) {
    let Some(top) = ground(&rt, process::id(rt.process()), "knows") else {
        panic!(rt; "no place");
    };
    assert!(rt; knows_its_own(&rt, top.as_str()) == Some(true));
    assert!(rt; fs::remove_dir_all(&rt, top.as_str()).is_ok());
}

#[test]
fn nothing_is_noted_twice(rt: HostRuntime) {
    let Some(top) = ground(&rt, process::id(rt.process()), "twice") else {
        panic!(rt; "no place");
    };
    assert!(rt; notes_nothing_twice(&rt, top.as_str()) == Some(true));
    assert!(rt; fs::remove_dir_all(&rt, top.as_str()).is_ok());
}

/// Leaves the archive of this name as a run does that is killed between the note of a new one and its writing.
fn is_killed(files: &HostRuntime, top: &str, name: &str, body: &str) -> bool {
    copies(files, top, name, "kept")
        && ran(files, top, name, body)
        && copies(files, top, "kept", name)
}

/// Whether no pair of three takes another one's line, which has the same archive or the one before.
fn keeps_lines_of_others(files: &HostRuntime, top: &str) -> Option<bool> {
    let is_begun = begins(files, top) && ran(files, top, "p", OLD) && ran(files, top, "q", OLD);
    let is_stopped = is_killed(files, top, "q", NEW) && ran(files, top, "r", NEW);
    let has_gone_on = ran(files, top, "q", OTHER)
        && ran(files, top, "q", LATER)
        && ran(files, top, "r", OTHER);
    let knows_all = knows(files, top, "p")? && knows(files, top, "q")? && knows(files, top, "r")?;
    Some(is_begun && is_stopped && has_gone_on && knows_all && count_of_lines(files, top)? == 3)
}

/// Whether three replicas, each of which makes a pair with each other, with equal archives, know those that a killed run has left.
fn knows_in_a_ring(files: &HostRuntime, top: &str) -> Option<bool> {
    let is_begun = makes(files, top, "")
        && makes(files, top, "a")
        && makes(files, top, "b")
        && makes(files, top, "c");
    let are_alike = pair_ran(files, top, "b", "c", OLD)?
        && pair_ran(files, top, "a", "b", OLD)?
        && pair_ran(files, top, "c", "a", OLD)?;
    let is_killed = copies(files, top, "ab", "kept")
        && pair_ran(files, top, "a", "b", NEW)?
        && copies(files, top, "kept", "ab");
    let go_on = pair_ran(files, top, "b", "c", OTHER)?
        && pair_ran(files, top, "c", "a", OTHER)?
        && pair_ran(files, top, "b", "c", LATER)?
        && pair_ran(files, top, "c", "a", LATER)?;
    let know = knows_in(files, top, "a", "ab")? && knows_in(files, top, "b", "ab")?;
    let know_others = knows_in(files, top, "b", "bc")? && knows_in(files, top, "c", "ca")?;
    Some(is_begun && are_alike && is_killed && go_on && know && know_others)
}

#[test]
fn no_pair_takes_the_line_of_another(rt: HostRuntime) {
    let Some(top) = ground(&rt, process::id(rt.process()), "others") else {
        panic!(rt; "no place");
    };
    assert!(rt; keeps_lines_of_others(&rt, top.as_str()) == Some(true));
    assert!(rt; fs::remove_dir_all(&rt, top.as_str()).is_ok());
}

#[test]
fn a_ring_of_pairs_knows_its_archives(rt: HostRuntime) {
    let Some(top) = ground(&rt, process::id(rt.process()), "ring") else {
        panic!(rt; "no place");
    };
    assert!(rt; knows_in_a_ring(&rt, top.as_str()) == Some(true));
    assert!(rt; fs::remove_dir_all(&rt, top.as_str()).is_ok());
}

/// Whether 70 other pairs make a replica forget none.
fn keeps_seventy(files: &HostRuntime, top: &str) -> Option<bool> {
    let is_begun = begins(files, top) && ran(files, top, "one", NEW);
    let mut have_run = true;
    for number in 0u32..70 {
        let name = format!(in files.alloc(); "other-{number}").ok()?;
        have_run &= ran(files, top, name.as_str(), OLD);
    }
    let knows_it = knows(files, top, "one")? && knows(files, top, "other-0")?;
    Some(is_begun && have_run && knows_it && count_of_lines(files, top)? == 71)
}

#[test]
fn seventy_pairs_are_remembered(rt: HostRuntime) {
    let Some(top) = ground(&rt, process::id(rt.process()), "seventy") else {
        panic!(rt; "no place");
    };
    assert!(rt; keeps_seventy(&rt, top.as_str()) == Some(true));
    assert!(rt; fs::remove_dir_all(&rt, top.as_str()).is_ok());
}

/// The lines of so many pairs from a number on. No archive has their digests.
fn lines_from(alloc: Global, first: u32, count: u32) -> Option<String> {
    let mut text = String::new(alloc);
    for number in first..first.saturating_add(count) {
        let pair = format!(in alloc; "pair:{number:064} {NONE}\n").ok()?;
        text.push_str(pair.as_str()).ok()?;
    }
    Some(text)
}

/// Whether the file begins with this text.
fn begins_with(files: &HostRuntime, top: &str, text: &str) -> Option<bool> {
    let file = place(files.alloc(), top, "replica/.twosync/archives")?;
    let found = fs::read(files, file.as_str()).ok()?;
    Some(found.as_slice().starts_with(text.as_bytes()))
}

/// Whether one more pair than a replica remembers makes it forget the oldest, and it says so. One less doesn't.
fn forgets_the_oldest(files: &HostRuntime, top: &str) -> Option<bool> {
    let alloc = files.alloc();
    let is_begun = begins(files, top) && ran(files, top, "one", OLD);
    let lines = lines_from(alloc, 0, MOST - 1)?;
    let is_full = says(files, top, lines.as_str()) && ran(files, top, "one", NEW);
    let is_whole = begins_with(files, top, lines.as_str())? && count_of_lines(files, top)? == 1_024;
    let goes_on = ran(files, top, "one", OTHER) && begins_with(files, top, lines.as_str())?;
    let forgot = runs(files, top, "two", OLD)?;
    let later = lines_from(alloc, 1, MOST - 2)?;
    let is_gone = begins_with(files, top, later.as_str())? && count_of_lines(files, top)? == 1_024;
    let knows_both = knows(files, top, "one")? && knows(files, top, "two")?;
    Some(is_begun && is_full && is_whole && goes_on && forgot && is_gone && knows_both)
}

#[test]
fn the_oldest_of_1024_pairs_is_forgotten(rt: HostRuntime) {
    let Some(top) = ground(&rt, process::id(rt.process()), "oldest") else {
        panic!(rt; "no place");
    };
    assert!(rt; forgets_the_oldest(&rt, top.as_str()) == Some(true));
    assert!(rt; fs::remove_dir_all(&rt, top.as_str()).is_ok());
}

/// Whether a replica whose file has this text is refused, and nothing is left of its lock.
fn is_refused(files: &HostRuntime, top: &str, text: &str) -> Option<bool> {
    let alloc = files.alloc();
    let root = place(alloc, top, "replica")?;
    let archive = place(alloc, top, "one")?;
    let is_written = says(files, top, text);
    let unlocked = knows_archive(files, alloc, root.as_str(), archive.as_str());
    let is_locked = match take_lock(files, alloc, root.as_str()) {
        Ok(lock) => {
            release(files, lock);
            true
        }
        Err(fault) => fault != DiskFault::Archives,
    };
    Some(
        is_written
            && unlocked == Err(DiskFault::Archives)
            && !is_locked
            && has(files, top, "replica/.twosync/lock", None)
            && has(files, top, "replica/.twosync/archives", Some(text)),
    )
}

/// Whether each malformed file is refused.
fn refuses_malformed(files: &HostRuntime, top: &str) -> Option<bool> {
    let mut are_refused = begins(files, top) && ran(files, top, "one", OLD);
    for text in MALFORMED {
        are_refused &= is_refused(files, top, text)?;
    }
    let many = lines_from(files.alloc(), 0, MOST + 1)?;
    Some(are_refused && is_refused(files, top, many.as_str())?)
}

#[test]
fn a_malformed_file_is_refused(rt: HostRuntime) {
    let Some(top) = ground(&rt, process::id(rt.process()), "malformed") else {
        panic!(rt; "no place");
    };
    assert!(rt; refuses_malformed(&rt, top.as_str()) == Some(true));
    assert!(rt; fs::remove_dir_all(&rt, top.as_str()).is_ok());
}

/// Whether files that say nothing of an archive leave it unknown, and the next run makes it known.
fn knows_no_others(files: &HostRuntime, top: &str) -> Option<bool> {
    let mut are_unknown = begins(files, top) && ran(files, top, "one", OLD);
    for text in OTHERS {
        are_unknown &= says(files, top, text) && !knows(files, top, "one")?;
    }
    let goes_on = ran(files, top, "one", NEW) && knows(files, top, "one")?;
    Some(are_unknown && goes_on && count_of_lines(files, top)? == 2)
}

/// The digest in the last line of an archive.
fn digest_of(files: &HostRuntime, top: &str, name: &str) -> Option<String> {
    let archive = place(files.alloc(), top, name)?;
    let text = fs::read_to_string(files, archive.as_str()).ok()?;
    let line = text.as_str().trim_end().rsplit_once(' ')?.1;
    String::from_str(files.alloc(), line).ok()
}

/// Whether a line of the old form is read, as that of any pair, and replaced by the pair that has its archive, but not by others.
fn reads_the_old_form(files: &HostRuntime, top: &str) -> Option<bool> {
    let alloc = files.alloc();
    let is_begun = begins(files, top) && ran(files, top, "one", OLD);
    let digest = digest_of(files, top, "one")?;
    let text = format!(in alloc; "older\n{NONE} {digest}\n{NONE}\n").ok()?;
    let is_known = says(files, top, text.as_str()) && knows(files, top, "one")?;
    let has_run = ran(files, top, "two", OTHER) && count_of_lines(files, top)? == 3;
    let goes_on = ran(files, top, "one", NEW) && count_of_lines(files, top)? == 3;
    let knows_all = knows(files, top, "one")? && knows(files, top, "two")?;
    let kept = format!(in alloc; "{NONE}\npair:").ok()?;
    Some(
        is_begun
            && is_known
            && has_run
            && goes_on
            && knows_all
            && begins_with(files, top, kept.as_str())?,
    )
}

#[test]
fn a_file_that_says_nothing_of_an_archive_leaves_it_unknown(rt: HostRuntime) {
    let Some(top) = ground(&rt, process::id(rt.process()), "unknown") else {
        panic!(rt; "no place");
    };
    assert!(rt; knows_no_others(&rt, top.as_str()) == Some(true));
    assert!(rt; fs::remove_dir_all(&rt, top.as_str()).is_ok());
}

#[test]
fn lines_of_the_old_form_are_read(rt: HostRuntime) {
    let Some(top) = ground(&rt, process::id(rt.process()), "form") else {
        panic!(rt; "no place");
    };
    assert!(rt; reads_the_old_form(&rt, top.as_str()) == Some(true));
    assert!(rt; fs::remove_dir_all(&rt, top.as_str()).is_ok());
}

/// Whether a replica without a `.twosync` knows no archive, and one where something else stands there is refused.
fn knows_nothing(files: &HostRuntime, top: &str) -> Option<bool> {
    let alloc = files.alloc();
    let is_begun = begins(files, top) && ran(files, top, "one", OLD);
    let other = place(alloc, top, "other")?;
    let archive = place(alloc, top, "one")?;
    let is_unknown = makes(files, top, "other")
        && knows_archive(files, alloc, other.as_str(), archive.as_str()) == Ok(false)
        && has(files, top, "other/.twosync", None);
    let is_in_the_way = writes(files, top, "other/.twosync", "")
        && knows_archive(files, alloc, other.as_str(), archive.as_str()).is_err()
        && take_lock(files, alloc, other.as_str()).is_err();
    Some(is_begun && is_unknown && is_in_the_way)
}

#[test]
fn a_replica_without_memory_knows_no_archive(rt: HostRuntime) {
    let Some(top) = ground(&rt, process::id(rt.process()), "nothing") else {
        panic!(rt; "no place");
    };
    assert!(rt; knows_nothing(&rt, top.as_str()) == Some(true));
    assert!(rt; fs::remove_dir_all(&rt, top.as_str()).is_ok());
}
