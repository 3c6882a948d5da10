//! Why a call of the system failed, and the words for it.
ghost use Rattle.std.specs.Prelude.{◌≡◌};
ghost use Rattle.ts_cause.specs.Causes.{IsCauseOf, cause_text, is_known};

use std::io;
use std::io::ErrorKind;

/// The system's number of an error of the device, as Linux has it. It has no kind of its own.
const DEVICE: i32 = 5;

/// Why a call of the system failed.
#[derive(Clone, Copy, Debug, PartialEq, Eq, Drop)]
pub enum Cause {
    /// No call of the system failed, or it gives no reason that helps.
    Unknown,
    Denied,
    Full,
    QuotaUsed,
    ReadOnly,
    NotThere,
    NotFolder,
    IsFolder,
    Taken,
    Busy,
    OtherDevice,
    TooLarge,
    BadName,
    LinksInCircle,
    Unsupported,
    Stale,
    OutOfMemory,
    Device,
}

impl Cause {
    /// Whether something is said of it.
    pub fn is_known(self) -> bool
        ensures { result ≡ is_known self }
    {
        match self {
            Cause::Unknown => false,
            _ => true,
        }
    }

    /// What is said of it. It comes after what can't be done. Of an unknown cause nothing is said.
    pub fn text(self) -> &'static [u8]
        ensures { result.now ≡ cause_text self }
    {
        match self {
            Cause::Unknown => b"",
            Cause::Denied => b"permission denied",
            Cause::Full => b"no space left on the device",
            Cause::QuotaUsed => b"the disk quota is used up",
            Cause::ReadOnly => b"the file system is read-only",
            Cause::NotThere => b"no such file or folder",
            Cause::NotFolder => b"something above it isn't a folder",
            Cause::IsFolder => b"it is a folder",
            Cause::Taken => b"something is there already",
            Cause::Busy => b"it is busy",
            Cause::OtherDevice => b"it is on another file system",
            Cause::TooLarge => b"too large for the file system",
            Cause::BadName => b"the file system doesn't take the name",
            Cause::LinksInCircle => b"too many links",
            Cause::Unsupported => b"the file system can't do this",
            Cause::Stale => b"the file system is gone",
            Cause::OutOfMemory => b"out of memory",
            Cause::Device => b"input/output error",
        }
    }
}

/// Why a call failed with this error.
pub fn cause_of(e: &io::Error) -> Cause
    ensures { IsCauseOf e.now result }
{
    if e.raw_os_error() == Some(DEVICE) {
        return Cause::Device;
    }
    match e.kind() {
        ErrorKind::PermissionDenied => Cause::Denied,
        ErrorKind::StorageFull => Cause::Full,
        ErrorKind::QuotaExceeded => Cause::QuotaUsed,
        ErrorKind::ReadOnlyFilesystem => Cause::ReadOnly,
        ErrorKind::NotFound => Cause::NotThere,
        ErrorKind::NotADirectory => Cause::NotFolder,
        ErrorKind::IsADirectory => Cause::IsFolder,
        ErrorKind::AlreadyExists | ErrorKind::DirectoryNotEmpty => Cause::Taken,
        ErrorKind::ResourceBusy | ErrorKind::ExecutableFileBusy => Cause::Busy,
        ErrorKind::CrossesDevices => Cause::OtherDevice,
        ErrorKind::FileTooLarge => Cause::TooLarge,
        ErrorKind::InvalidFilename => Cause::BadName,
        ErrorKind::FilesystemLoop => Cause::LinksInCircle,
        ErrorKind::Unsupported => Cause::Unsupported,
        ErrorKind::StaleNetworkFileHandle => Cause::Stale,
        ErrorKind::OutOfMemory => Cause::OutOfMemory,
        _ => Cause::Unknown,
    }
}
