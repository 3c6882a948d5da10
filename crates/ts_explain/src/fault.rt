//! Why a command ends without its answer.
ghost use Rattle.std.specs.Option.{option_copied};
ghost use Rattle.std.specs.Prelude.{◌≡◌};
ghost use Rattle.ts_explain.specs.Faults.{fault_number, place_of};
ghost use Rattle.ts_explain.specs.declared.fault.PerformFault.TheVariants as fault;

use crate::subject::{Subject, Why};
use std::alloc::{AllocError, AllocFailed};
use thiserror::Error;
use ts_cause::Cause;
use ts_model::plan::PlanRule;
use ts_name::Path;
use ts_scan::ScanFault;

/// Why a command ends without its answer, and what that is about.
#[derive(Debug, Drop, Error)]
pub enum PerformFault {
    /// Memory ran out.
    #[error("out of memory")]
    OutOfMemory,
    /// A file, a folder, standard input or standard output can't be read or written.
    #[error("can't be read or written")]
    Failed {
        what: Subject,
        why: Why,
    },
    /// The program's own directory in a replica can't be made or used, as where it belongs to another user.
    #[error("the replica's .twosync can't be made or used")]
    Own {
        what: Subject,
        cause: Cause,
    },
    /// The file in a replica that says which archives it belongs to, `.twosync/archives`, is empty or malformed.
    #[error("the replica's .twosync/archives is malformed")]
    Archives {
        what: Subject,
    },
    /// A plan or an archive isn't spelled as it has to be.
    #[error("not canonical")]
    NotCanonical {
        what: Subject,
    },
    /// The archive's end line tells another count or another digest than the text before it has.
    #[error("the end line is wrong")]
    WrongEnd,
    /// The device of a replica failed.
    #[error("device failed")]
    Device {
        what: Subject,
        cause: Cause,
    },
    /// Another run works on a replica or on the archive.
    #[error("in use by another run")]
    Locked {
        what: Subject,
    },
    /// The plan, the hold rules or the archive to be shown aren't there, or a replica isn't there any more.
    #[error("not there")]
    NotThere {
        what: Subject,
    },
    /// A replica took no part in the last run with the archive, which names so many paths.
    #[error("took no part in the last run")]
    New {
        what: Subject,
        paths: usize,
    },
    /// Neither replica took part in it.
    #[error("neither took part in the last run")]
    BothNew {
        paths: usize,
    },
    /// A replica would lose all its files, which are so many, while the other one has so many.
    #[error("would lose all its files")]
    Emptied {
        what: Subject,
        files: usize,
        others: usize,
    },
    /// The line spells no hold rule, isn't ended by a line feed, or comes after the 4,096th. Lines count from 1.
    #[error("bad hold rule on line {line}")]
    BadRule {
        line: u64,
    },
    /// The plan that was read has more entries, actions or predecessors than a plan may have.
    #[error("a plan past a limit")]
    PastLimit,
    /// So would the plan for what is there.
    #[error("too much for a plan")]
    TooMuch,
    /// The plan isn't valid for what is there: its first broken rule, with the least place.
    #[error("the plan breaks rule {rule:?} at {place}")]
    Broken {
        rule: PlanRule,
        place: u64,
    },
    /// A folder can't be scanned, for this reason of the system, or a path in it is too long for the system.
    #[error("{fault}")]
    Scan {
        what: Subject,
        fault: ScanFault,
        cause: Cause,
    },
}

impl PerformFault {
    /// The number by which the program tells the fault.
    pub fn number(&self) -> u8
        ensures { result ≡ fault_number self.now }
    {
        match self {
            PerformFault::OutOfMemory => 1,
            PerformFault::Failed { .. }
            | PerformFault::Own { .. }
            | PerformFault::Archives { .. } => 5,
            PerformFault::NotCanonical { .. } => 6,
            PerformFault::WrongEnd => 7,
            PerformFault::Device { .. } | PerformFault::Locked { .. } => 8,
            PerformFault::NotThere { .. }
            | PerformFault::New { .. }
            | PerformFault::BothNew { .. }
            | PerformFault::Emptied { .. } => 9,
            PerformFault::BadRule { .. } => 11,
            PerformFault::PastLimit | PerformFault::TooMuch => 12,
            PerformFault::Broken { .. } => 13,
            PerformFault::Scan { fault, .. } => fault.number(),
        }
    }

    /// Where the fault is, if it has a place in a replica.
    pub fn path(&self) -> Option<&Path>
        ensures { option_copied result ≡ place_of self.now }
    {
        match self {
            PerformFault::Scan { fault, .. } => fault.path(),
            _ => None,
        }
    }
}

impl From<AllocError> for PerformFault {
    ghost from_gives = { λ _ e. e ≡ fault.OutOfMemory };

    fn from(_fault: AllocError) -> PerformFault {
        PerformFault::OutOfMemory
    }
}

impl<T: Drop> From<AllocFailed<T>> for PerformFault {
    ghost from_gives = { λ _ e. e ≡ fault.OutOfMemory };

    fn from(_fault: AllocFailed<T>) -> PerformFault {
        PerformFault::OutOfMemory
    }
}
