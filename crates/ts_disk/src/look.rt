//! What a look at a file tells without reading it.
ghost use Rattle.std.specs.Prelude.{◌≡◌, ◌<◌, ◌^◌, ◌+ℤ◌, ◌≤ℤ◌, IsTrue, false, pos};
ghost use Rattle.std.specs.Fs.{metadata_len};

use std::fs::Metadata;
use std::os::unix::fs::MetadataExt;
use std::time::Duration;

/// How many seconds a change may lie back and still share its time with a change to come: more than the coarsest clock of a
/// file system.
const COARSE: i64 = 4;

/// What a look at a file tells without reading it: which file it is, its size, when its bytes were changed last, and when the system
/// noted a change of it last. Anybody may set the former time; nobody can set the latter, which a rename changes, too.
#[derive(Clone, Copy, Debug, PartialEq, Eq, Drop)]
pub(crate) struct Look {
    device: u64,
    inode: u64,
    size: u64,
    seconds: i64,
    nanoseconds: i64,
    noted_seconds: i64,
    noted_nanoseconds: i64,
    is_recent: bool,
}

impl Look {
    /// The look, taken at a time since 1970.
    pub(crate) fn new(metadata: &Metadata, now: Duration) -> Look
        ensures size { result.size ≡ metadata_len metadata.now }
    {
        let seconds = metadata.mtime();
        let noted_seconds = metadata.ctime();
        Look {
            device: metadata.dev(),
            inode: metadata.ino(),
            size: metadata.len(),
            seconds,
            nanoseconds: metadata.mtime_nsec(),
            noted_seconds,
            noted_nanoseconds: metadata.ctime_nsec(),
            is_recent: is_recent_at(seconds.max(noted_seconds), now.as_secs()),
        }
    }

    /// Whether the file was changed so shortly before the look that one more change may not show in its times.
    pub(crate) fn is_recent(&self) -> bool
        ensures { result ≡ self.now.is_recent }
    {
        self.is_recent
    }

    /// Whether a later look shows that nothing of the file was changed since, so that its bytes needn't be read again. What keeps a
    /// file's size and sets its time back shows here, and so does a rename.
    pub(crate) fn is_settled(&self, metadata: &Metadata) -> bool
        ensures recent { IsTrue result → self.now.is_recent ≡ false }
    {
        !self.is_recent()
            && self.noted_seconds == metadata.ctime()
            && self.noted_nanoseconds == metadata.ctime_nsec()
    }

    /// Takes a later look in this one's place, whose bytes were read after it and are the same.
    pub(crate) fn renew(&mut self, metadata: &Metadata)
        ensures size { self.new.size ≡ self.old.size }
        ensures recent { self.new.is_recent ≡ self.old.is_recent }
    {
        self.noted_seconds = metadata.ctime();
        self.noted_nanoseconds = metadata.ctime_nsec();
    }

    /// Whether a later look finds the same file, unchanged as far as its size and the time of its bytes tell.
    pub(crate) fn is_same(&self, metadata: &Metadata) -> bool
        ensures size { IsTrue result → self.now.size ≡ metadata_len metadata.now }
    {
        self.device == metadata.dev()
            && self.inode == metadata.ino()
            && self.size == metadata.len()
            && self.seconds == metadata.mtime()
            && self.nanoseconds == metadata.mtime_nsec()
    }
}

/// Whether a file that was changed in one second may, as seen in another, be changed once more and keep its time.
fn is_recent_at(seconds: i64, now: u64) -> bool
    ensures recent { (pos now ≤ℤ (seconds +ℤ pos 4)) → IsTrue result }
    ensures old { now < 2 ^ 63 → IsTrue result → (pos now ≤ℤ (seconds +ℤ pos 4)) }
{
    let oldest = i64::try_from(now)
        .unwrap_or(i64::MAX)
        .saturating_sub(COARSE);
    seconds >= oldest
}
