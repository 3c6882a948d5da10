//! What the faults of the crates below are for a command, and what each is about.
ghost use Rattle.std.specs.Prelude.{◌≡◌};
ghost use Rattle.ts_perform.specs.Faults.{fault_of_archive, fault_of_build, fault_of_check, fault_of_disk, fault_of_hold, fault_of_open, fault_of_plan};
ghost use Rattle.ts_perform.specs.Faults.{fault_of_text, fault_of_trial, replica_on};

use ts_archive::ArchiveFault;
use ts_cause::Cause;
use ts_check::CheckFault;
use ts_disk::DiskFault;
pub use ts_explain::{PerformFault, Subject, Why};
use ts_hold::HoldFault;
use ts_model::plan::Side;
use ts_plan::PlanFault;
use ts_plan_build::BuildFault;
use ts_text::TextFault;
use ts_trial::TrialFault;

/// That something can't be read, where a reader doesn't keep why.
pub(crate) const UNREAD: Why = Why::Unread {
    cause: Cause::Unknown,
};

/// That something can't be written, where a writer doesn't keep why.
pub(crate) const UNWRITTEN: Why = Why::Unwritten {
    cause: Cause::Unknown,
};

/// Why a file can't be opened.
#[derive(Clone, Copy, Debug, PartialEq, Eq, Drop)]
pub enum OpenFault {
    /// Memory ran out.
    OutOfMemory,
    /// The system doesn't allow it.
    Denied,
    /// It is a directory, a device or a pipe.
    NotFile,
    /// It failed for this reason of the system.
    Failed { cause: Cause },
}

/// The fault of a file that is opened.
pub(crate) fn of_open(fault: OpenFault, what: Subject) -> PerformFault
    ensures { result ≡ fault_of_open what fault }
{
    let why = match fault {
        OpenFault::OutOfMemory => return PerformFault::OutOfMemory,
        OpenFault::Denied => Why::Denied,
        OpenFault::NotFile => Why::NotFile,
        OpenFault::Failed { cause } => Why::Unread { cause },
    };
    PerformFault::Failed { what, why }
}

/// The fault of a text that is read or written.
pub(crate) fn of_text(fault: TextFault, what: Subject, why: Why) -> PerformFault
    ensures { result ≡ fault_of_text what why fault }
{
    match fault {
        TextFault::OutOfMemory => PerformFault::OutOfMemory,
        TextFault::Failed => PerformFault::Failed { what, why },
        TextFault::NotCanonical => PerformFault::NotCanonical { what },
    }
}

/// The fault of an archive that is read or written.
pub(crate) fn of_archive(fault: ArchiveFault, what: Subject, why: Why) -> PerformFault
    ensures { result ≡ fault_of_archive what why fault }
{
    match fault {
        ArchiveFault::OutOfMemory => PerformFault::OutOfMemory,
        ArchiveFault::Failed => PerformFault::Failed { what, why },
        ArchiveFault::NotCanonical => PerformFault::NotCanonical { what },
        ArchiveFault::WrongEnd => PerformFault::WrongEnd,
    }
}

/// The fault of a line of hold rules.
pub(crate) fn of_hold(fault: HoldFault) -> PerformFault
    ensures { result ≡ fault_of_hold fault }
{
    match fault {
        HoldFault::OutOfMemory => PerformFault::OutOfMemory,
        HoldFault::BadRule { line } => PerformFault::BadRule { line },
    }
}

/// The fault of a plan that is read or written.
pub(crate) fn of_plan(fault: PlanFault, what: Subject, why: Why) -> PerformFault
    ensures { result ≡ fault_of_plan what why fault }
{
    match fault {
        PlanFault::OutOfMemory => PerformFault::OutOfMemory,
        PlanFault::Failed => PerformFault::Failed { what, why },
        PlanFault::NotCanonical => PerformFault::NotCanonical { what },
        PlanFault::PastLimit => PerformFault::PastLimit,
    }
}

/// Why there is no plan for what is there.
pub(crate) fn of_build(fault: BuildFault) -> PerformFault
    ensures { result ≡ fault_of_build fault }
{
    match fault {
        BuildFault::OutOfMemory => PerformFault::OutOfMemory,
        BuildFault::PastLimit => PerformFault::TooMuch,
    }
}

/// Why a plan isn't taken.
pub(crate) fn of_check(fault: CheckFault) -> PerformFault
    ensures { result ≡ fault_of_check fault }
{
    match fault {
        CheckFault::OutOfMemory => PerformFault::OutOfMemory,
        CheckFault::Broken { rule, place } => PerformFault::Broken { rule, place },
    }
}

/// The fault of a trial whose standard input gives this cause. Where that is unknown, nothing says which stream failed.
pub(crate) fn of_trial(fault: TrialFault, cause: Cause) -> PerformFault
    ensures { result ≡ fault_of_trial cause fault }
{
    let what = match cause {
        Cause::Unknown => Subject::Stream,
        _ => Subject::Input,
    };
    let why = Why::Unread { cause };
    match fault {
        TrialFault::OutOfMemory => PerformFault::OutOfMemory,
        TrialFault::Failed => PerformFault::Failed { what, why },
    }
}

/// The fault of a replica or of the archive: another run works on it, or it can't be read or written.
pub(crate) fn of_disk(fault: DiskFault, what: Subject) -> PerformFault
    ensures { result ≡ fault_of_disk what fault }
{
    match fault {
        DiskFault::OutOfMemory => PerformFault::OutOfMemory,
        DiskFault::Failed { cause } => {
            let why = Why::Unwritten { cause };
            PerformFault::Failed { what, why }
        }
        DiskFault::Unread { cause } => {
            let why = Why::Unread { cause };
            PerformFault::Failed { what, why }
        }
        DiskFault::Own { cause } => PerformFault::Own { what, cause },
        DiskFault::Archives => PerformFault::Archives { what },
        DiskFault::Device { cause } => PerformFault::Device { what, cause },
        DiskFault::Locked => PerformFault::Locked { what },
    }
}

/// The fault of what is written to standard output.
pub(crate) fn on_output(fault: TextFault) -> PerformFault
    ensures { result ≡ fault_of_text Subject.Output (Why.Unwritten Cause.Unknown) fault }
{
    of_text(fault, Subject::Output, UNWRITTEN)
}

/// The replica on a side.
pub(crate) fn replica_on(side: Side) -> Subject
    ensures { result ≡ replica_on side }
{
    match side {
        Side::First => Subject::First,
        Side::Second => Subject::Second,
    }
}
