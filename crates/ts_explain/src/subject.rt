//! What a fault is about.
ghost use Rattle.std.specs.Prelude.{◌≡◌};
ghost use Rattle.ts_explain.specs.Subjects.{name_in, name_of, name_of_archive, name_of_folder, noun, why_cause, why_hint, why_text};

use ts_cause::Cause;
use ts_command::{Job, Pair};

/// A file or a folder that a command names, or what it reads or writes otherwise.
#[derive(Clone, Copy, Debug, PartialEq, Eq, Drop)]
pub enum Subject {
    /// The folder that is scanned.
    Folder,
    First,
    Second,
    Archive,
    Holds,
    Plan,
    /// Standard input, from which a bundle is read, or standard output, where nothing says which.
    Stream,
    Input,
    Output,
}

/// Why a file or a folder can't be read or written.
#[derive(Clone, Copy, Debug, PartialEq, Eq, Drop)]
pub enum Why {
    /// The system doesn't allow it.
    Denied,
    /// It is a directory, a device or a pipe.
    NotFile,
    /// It can't be read, for this reason of the system.
    Unread { cause: Cause },
    /// It can't be written, for this reason of the system.
    Unwritten { cause: Cause },
}

impl Subject {
    /// What stands before its name.
    pub(crate) fn noun(self) -> &'static [u8]
        ensures { result.now ≡ noun self }
    {
        match self {
            Subject::Folder | Subject::First | Subject::Second => b"",
            Subject::Archive => b"The archive ",
            Subject::Holds => b"The file of hold rules ",
            Subject::Plan => b"The plan ",
            Subject::Stream => b"Standard input or output",
            Subject::Input => b"Standard input",
            Subject::Output => b"Standard output",
        }
    }

    /// Its name in a command. What the command doesn't name has none.
    pub(crate) fn name_in<'a>(self, job: &Job<'a>) -> &'a str
        ensures { result.now ≡ name_in job.now self }
    {
        match job {
            Job::Scan { folder } => self.name_of_folder(folder),
            Job::Show { archive } => self.name_of_archive(archive),
            Job::Plan { pair } | Job::Preview { pair, .. } | Job::Sync { pair } => {
                self.name_of(pair, "")
            }
            Job::Check { pair, plan } | Job::Run { pair, plan } => self.name_of(pair, plan),
            Job::Tell { .. } | Job::Trial => "",
        }
    }

    /// Its name, where this folder is all that a command names.
    fn name_of_folder<'a>(self, folder: &'a str) -> &'a str
        ensures { result.now ≡ name_of_folder folder.now self }
    {
        match self {
            Subject::Folder => folder,
            _ => "",
        }
    }

    /// Its name, where this archive is all that a command names.
    fn name_of_archive<'a>(self, archive: &'a str) -> &'a str
        ensures { result.now ≡ name_of_archive archive.now self }
    {
        match self {
            Subject::Archive => archive,
            _ => "",
        }
    }

    /// Its name, where a command works on this pair, with this plan.
    fn name_of<'a>(self, pair: &Pair<'a>, plan: &'a str) -> &'a str
        ensures { result.now ≡ name_of pair.now plan.now self }
    {
        match self {
            Subject::First => pair.first,
            Subject::Second => pair.second,
            Subject::Archive => pair.archive,
            Subject::Holds => pair.holds.unwrap_or(""),
            Subject::Plan => plan,
            Subject::Folder | Subject::Stream | Subject::Input | Subject::Output => "",
        }
    }
}

impl Why {
    /// What is said of it after the name.
    pub(crate) fn text(self) -> &'static [u8]
        ensures { result.now ≡ why_text self }
    {
        match self {
            Why::Denied => b" can't be opened",
            Why::NotFile => b" isn't a file",
            Why::Unread { .. } => b" can't be read",
            Why::Unwritten { .. } => b" can't be written",
        }
    }

    /// How that ends where no cause is known.
    pub(crate) fn hint(self) -> &'static [u8]
        ensures { result.now ≡ why_hint self }
    {
        match self {
            Why::Denied => b": the system doesn't allow it.",
            Why::NotFile | Why::Unread { .. } => b".",
            Why::Unwritten { .. } => b": is its disk full or read-only, or its folder not there?",
        }
    }

    /// Why the system's call failed.
    pub(crate) fn cause(self) -> Cause
        ensures { result ≡ why_cause self }
    {
        match self {
            Why::Denied | Why::NotFile => Cause::Unknown,
            Why::Unread { cause } | Why::Unwritten { cause } => cause,
        }
    }
}
