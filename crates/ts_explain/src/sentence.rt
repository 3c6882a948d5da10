//! What a fault means, in a sentence that names what it is about.
ghost use Rattle.std.specs.Prelude.{◌≡◌, ◌++◌, OnOk};
ghost use Rattle.ts_explain.specs.Sentences.{about, bad_line_text, bad_rule_text, because, both_new_text, broken_text, can_be_held, emptied_text, other_than};
ghost use Rattle.ts_explain.specs.Sentences.{missing_text, new_text, offer_text, pending_text, refusal_text, scan_text, sentence_of, too_deep_text, unread_text, unreadable_text, unscanned_text};
ghost use Rattle.ts_explain.specs.Subjects.{why_cause, why_hint, why_text};

use crate::fault::PerformFault;
use crate::pieces::{Piece, push_pieces};
use crate::rules::rule_text;
use crate::subject::{Subject, Why};
use std::alloc::{AllocError, Global};
use ts_cause::Cause;
use ts_command::Job;
use ts_model::plan::PlanRule;
use ts_name::Path;
use ts_scan::{Refusal, ScanFault};

/// How many lines a file of hold rules has at most.
const MOST_RULES: u64 = 4096;

const MEMORY: &[u8] = b"Memory ran out.";

const OWN: &[u8] = b"/.twosync can't be made or used";

const OWN_HINT: &[u8] = b": who owns it?";

const MALFORMED: &[u8] = b" is malformed: was it cut short, or changed by hand?";

const WRONG_END: &[u8] =
    b" was cut short, or changed by hand: its last line doesn't fit those before it.";

const DEVICE: &[u8] = b": its device failed, or what a stopped run left can't be finished";

const STOP: &[u8] = b".";

const ARCHIVES: &[u8] =
    b"/.twosync/archives is malformed. Remove it, look at `preview`, and use `plan` and `run`.";

const UNKNOWN_HINT: &[u8] =
    b" See `preview`. If what it shows is right, use `plan` and `run`. If not, remove the archive: then nothing is deleted.";

const EMPTIED_HINT: &[u8] =
    b". Is its disk mounted? If this is right, add --allow-empty, or use `plan` and `run`.";

const PENDING: &[u8] =
    b": a run was stopped there, or still works. The next `run` or `sync` brings it to an end first.";

const LOCKED: &[u8] = b" is in use by another run.";

const PAST_LIMIT: &[u8] = b" has more entries, actions or predecessors than a plan may have.";

const TOO_MANY_LINES: &[u8] = b" has more than 4,096 lines.";

const TOO_MUCH: &[u8] = b"Too much differs for one plan, which has at most 1,048,576 entries.";

/// Appends the sentence of a fault of this job.
///
/// It fails where memory runs out.
pub fn push_sentence(
    alloc: Global,
    job: &Job<'_>,
    fault: &PerformFault,
    line: &mut Vec<u8>,
) -> Result<(), AllocError>
    ensures { OnOk result (line.new.items ≡ line.old.items ++ sentence_of job.now fault.now) }
{
    match fault {
        PerformFault::OutOfMemory => line.extend_from_slice(MEMORY),
        PerformFault::Failed { what, why } => push_failed(alloc, job, *what, *why, line),
        PerformFault::Own { what, cause } => push_because(
            alloc, job, *what, OWN, OWN_HINT, *cause, line,
        ),
        PerformFault::Archives { what } => push_about(alloc, job, *what, ARCHIVES, line),
        PerformFault::NotCanonical { what } => push_about(alloc, job, *what, MALFORMED, line),
        PerformFault::WrongEnd => push_about(alloc, job, Subject::Archive, WRONG_END, line),
        PerformFault::Device { what, cause } => push_because(
            alloc, job, *what, DEVICE, STOP, *cause, line,
        ),
        PerformFault::Locked { what } => push_about(alloc, job, *what, LOCKED, line),
        PerformFault::NotThere { what } => push_about(alloc, job, *what, missing_text(*what), line),
        PerformFault::New { what, paths } => push_new(alloc, job, *what, *paths, line),
        PerformFault::BothNew { paths } => push_both_new(alloc, job, *paths, line),
        PerformFault::Emptied {
            what,
            files,
            others,
        } => push_emptied(alloc, job, *what, *files, *others, line),
        PerformFault::BadRule { line: at } => push_bad_rule(alloc, job, *at, line),
        PerformFault::PastLimit => push_about(alloc, job, Subject::Plan, PAST_LIMIT, line),
        PerformFault::TooMuch => push_pieces(alloc, &[Piece::Words(TOO_MUCH)], line),
        PerformFault::Broken { rule, place } => push_broken(alloc, job, *rule, *place, line),
        PerformFault::Scan { what, fault, cause } => push_scan(
            alloc, job, *what, fault, *cause, line,
        ),
    }
}

/// Appends what is said of a replica in which a stopped run isn't brought to its end yet.
///
/// It fails where memory runs out.
pub fn push_pending(
    alloc: Global,
    job: &Job<'_>,
    what: Subject,
    line: &mut Vec<u8>,
) -> Result<(), AllocError>
    ensures { OnOk result (line.new.items ≡ line.old.items ++ pending_text job.now what) }
{
    push_about(alloc, job, what, PENDING, line)
}

/// Appends what is said of a file or a folder, after its name.
fn push_about(
    alloc: Global,
    job: &Job<'_>,
    what: Subject,
    end: &[u8],
    line: &mut Vec<u8>,
) -> Result<(), AllocError>
    ensures { OnOk result (line.new.items ≡ line.old.items ++ about job.now what end.now) }
{
    let pieces = [
        Piece::Words(what.noun()),
        Piece::Name(what.name_in(job)),
        Piece::Words(end),
    ];
    push_pieces(alloc, &pieces, line)
}

/// Appends what is said of a file or a folder that can't be read or written, and why.
fn push_failed(
    alloc: Global,
    job: &Job<'_>,
    what: Subject,
    why: Why,
    line: &mut Vec<u8>,
) -> Result<(), AllocError>
    ensures { OnOk result (line.new.items ≡ line.old.items ++ because job.now what (why_text why) (why_hint why) (why_cause why)) }
{
    push_because(alloc, job, what, why.text(), why.hint(), why.cause(), line)
}

/// Appends what is said of a file or a folder, after its name, and why; where that is unknown, the hint in its place.
fn push_because(
    alloc: Global,
    job: &Job<'_>,
    what: Subject,
    text: &[u8],
    hint: &[u8],
    cause: Cause,
    line: &mut Vec<u8>,
) -> Result<(), AllocError>
    ensures { OnOk result (line.new.items ≡ line.old.items ++ because job.now what text.now hint.now cause) }
{
    let pieces = [
        Piece::Words(what.noun()),
        Piece::Name(what.name_in(job)),
        Piece::Words(text),
        Piece::Reason { hint, cause },
    ];
    push_pieces(alloc, &pieces, line)
}

/// What is said of something that isn't there.
fn missing_text(what: Subject) -> &'static [u8]
    ensures { result.now ≡ missing_text what }
{
    match what {
        Subject::Archive => b" isn't there: `show` needs one that exists.",
        Subject::Holds | Subject::Plan => b" isn't there.",
        Subject::Folder
        | Subject::First
        | Subject::Second
        | Subject::Stream
        | Subject::Input
        | Subject::Output => b" isn't there any more: is its disk still mounted?",
    }
}

/// Appends what is said of a replica that took no part in the last run with the archive, which names so many paths.
fn push_new(
    alloc: Global,
    job: &Job<'_>,
    what: Subject,
    paths: usize,
    line: &mut Vec<u8>,
) -> Result<(), AllocError>
    ensures { OnOk result (line.new.items ≡ line.old.items ++ new_text job.now what paths) }
{
    let pieces = [
        Piece::Words(what.noun()),
        Piece::Name(what.name_in(job)),
        Piece::Words(b" took no part in the last run with the archive "),
        Piece::Name(Subject::Archive.name_in(job)),
        Piece::Words(b", which names "),
        Piece::Number(paths as u64),
        Piece::Words(b" paths: is its disk mounted, and is this the right archive?"),
        Piece::Words(UNKNOWN_HINT),
    ];
    push_pieces(alloc, &pieces, line)
}

/// Appends what is said where neither replica took part in the last run with the archive, which names so many paths.
fn push_both_new(
    alloc: Global,
    job: &Job<'_>,
    paths: usize,
    line: &mut Vec<u8>,
) -> Result<(), AllocError>
    ensures { OnOk result (line.new.items ≡ line.old.items ++ both_new_text job.now paths) }
{
    let pieces = [
        Piece::Words(b"Neither "),
        Piece::Name(Subject::First.name_in(job)),
        Piece::Words(b" nor "),
        Piece::Name(Subject::Second.name_in(job)),
        Piece::Words(b" took part in the last run with the archive "),
        Piece::Name(Subject::Archive.name_in(job)),
        Piece::Words(b", which names "),
        Piece::Number(paths as u64),
        Piece::Words(b" paths: are their disks mounted, and is this the right archive?"),
        Piece::Words(UNKNOWN_HINT),
    ];
    push_pieces(alloc, &pieces, line)
}

/// The other replica of a pair.
fn other_than(what: Subject) -> Subject
    ensures { result ≡ other_than what }
{
    match what {
        Subject::First => Subject::Second,
        _ => Subject::First,
    }
}

/// Appends what is said of a replica that would lose all its files, while the other one has so many.
fn push_emptied(
    alloc: Global,
    job: &Job<'_>,
    what: Subject,
    files: usize,
    others: usize,
    line: &mut Vec<u8>,
) -> Result<(), AllocError>
    ensures { OnOk result (line.new.items ≡ line.old.items ++ emptied_text job.now what files others) }
{
    let pieces = [
        Piece::Words(b"All "),
        Piece::Number(files as u64),
        Piece::Words(b" files in "),
        Piece::Name(what.name_in(job)),
        Piece::Words(b" would be deleted; "),
        Piece::Name(other_than(what).name_in(job)),
        Piece::Words(b" has "),
        Piece::Number(others as u64),
        Piece::Words(EMPTIED_HINT),
    ];
    push_pieces(alloc, &pieces, line)
}

/// Appends what is said of the line of this number in a file of hold rules.
fn push_bad_rule(
    alloc: Global,
    job: &Job<'_>,
    at: u64,
    line: &mut Vec<u8>,
) -> Result<(), AllocError>
    ensures { OnOk result (line.new.items ≡ line.old.items ++ bad_rule_text job.now at) }
{
    if at > MOST_RULES {
        push_about(alloc, job, Subject::Holds, TOO_MANY_LINES, line)
    } else {
        push_bad_line(alloc, job, at, line)
    }
}

/// Appends what is said of a line that is malformed.
fn push_bad_line(
    alloc: Global,
    job: &Job<'_>,
    at: u64,
    line: &mut Vec<u8>,
) -> Result<(), AllocError>
    ensures { OnOk result (line.new.items ≡ line.old.items ++ bad_line_text job.now at) }
{
    let pieces = [
        Piece::Words(b"Line "),
        Piece::Number(at),
        Piece::Words(b" of "),
        Piece::Name(Subject::Holds.name_in(job)),
        Piece::Words(b" is malformed: write `path /A/PATH` or `name PATTERN`, and a line feed."),
    ];
    push_pieces(alloc, &pieces, line)
}

/// Appends what is said of a plan that breaks this rule, and here.
fn push_broken(
    alloc: Global,
    job: &Job<'_>,
    rule: PlanRule,
    place: u64,
    line: &mut Vec<u8>,
) -> Result<(), AllocError>
    ensures { OnOk result (line.new.items ≡ line.old.items ++ broken_text job.now rule place) }
{
    let pieces = [
        Piece::Words(Subject::Plan.noun()),
        Piece::Name(Subject::Plan.name_in(job)),
        Piece::Words(b" isn't valid for what is there: "),
        Piece::Words(rule_text(rule)),
        Piece::Number(place),
        Piece::Words(b")."),
    ];
    push_pieces(alloc, &pieces, line)
}

/// Appends what is said of a path that can't be scanned.
fn push_scan(
    alloc: Global,
    job: &Job<'_>,
    what: Subject,
    fault: &ScanFault,
    cause: Cause,
    line: &mut Vec<u8>,
) -> Result<(), AllocError>
    ensures { OnOk result (line.new.items ≡ line.old.items ++ scan_text job.now what fault.now cause) }
{
    match fault {
        ScanFault::OutOfMemory => line.extend_from_slice(MEMORY),
        ScanFault::At { path, fault } => {
            if cause.is_known() {
                push_unread(alloc, job, what, path, *fault, cause, line)
            } else {
                push_refusal(alloc, job, what, path, *fault, line)
            }
        }
    }
}

/// Appends what is said of a path that can't be read, and why.
fn push_unread<'x>(
    alloc: Global,
    job: &Job<'x>,
    what: Subject,
    path: &'x Path,
    refusal: Refusal,
    cause: Cause,
    line: &mut Vec<u8>,
) -> Result<(), AllocError>
    ensures { OnOk result (line.new.items ≡ line.old.items ++ unread_text job.now what path.now refusal cause) }
{
    let pieces = [
        Piece::Words(what.noun()),
        Piece::Name(what.name_in(job)),
        Piece::Below(path),
        Piece::Words(b" can't be read"),
        Piece::Reason { hint: b"", cause },
        Piece::Words(offer_text(what, can_be_held(refusal, cause))),
    ];
    push_pieces(alloc, &pieces, line)
}

/// How a sentence ends about something that commands on a pair can leave alone.
fn offer_text(what: Subject, can_be_held: bool) -> &'static [u8]
    ensures { result.now ≡ offer_text what can_be_held }
{
    match what {
        Subject::Folder => b"",
        _ if can_be_held => b" It can be left alone with --hold-special.",
        _ => b"",
    }
}

/// Whether a path that is refused so can be held: what can't be synchronized, and what the system doesn't let be read.
fn can_be_held(refusal: Refusal, cause: Cause) -> bool
    ensures { result ≡ can_be_held refusal cause }
{
    match (refusal, cause) {
        (Refusal::Unreadable, _) | (Refusal::Device, Cause::Denied) => true,
        _ => false,
    }
}

/// Appends what is said of a path that can't be scanned, where the system doesn't say why.
fn push_refusal<'x>(
    alloc: Global,
    job: &Job<'x>,
    what: Subject,
    path: &'x Path,
    refusal: Refusal,
    line: &mut Vec<u8>,
) -> Result<(), AllocError>
    ensures { OnOk result (line.new.items ≡ line.old.items ++ unscanned_text job.now what path.now refusal) }
{
    let pieces = [
        Piece::Words(what.noun()),
        Piece::Name(what.name_in(job)),
        Piece::Below(path),
        Piece::Words(refusal_text(what, refusal, path.is_root())),
    ];
    push_pieces(alloc, &pieces, line)
}

/// What is said of something in a folder that can't be scanned, or of the folder itself.
fn refusal_text(what: Subject, refusal: Refusal, is_root: bool) -> &'static [u8]
    ensures { result.now ≡ refusal_text what refusal is_root }
{
    match refusal {
        Refusal::TooLong => too_deep_text(what),
        Refusal::Device => b": the device failed.",
        Refusal::NotThere if is_root => b" isn't there.",
        Refusal::NotThere => b" isn't there any more: it went away while it was read.",
        Refusal::Unreadable => unreadable_text(what),
    }
}

/// What is said of a path that is too long, or of a folder in which something is too deep. Commands on a pair can leave the latter
/// alone.
fn too_deep_text(what: Subject) -> &'static [u8]
    ensures { result.now ≡ too_deep_text what }
{
    match what {
        Subject::Folder => b" is too long or too deep, or something in it.",
        _ => {
            b" is too long or too deep, or something in it. What is too deep can be left alone with --hold-special."
        }
    }
}

/// What is said of a folder in which something is that can't be synchronized. Commands on a pair can leave it alone.
fn unreadable_text(what: Subject) -> &'static [u8]
    ensures { result.now ≡ unreadable_text what }
{
    match what {
        Subject::Folder => {
            b": something in it is neither a file nor a folder or has a name that isn't UTF-8, or it can't be read."
        }
        _ => {
            b": something in it is neither a file nor a folder or has a name that isn't UTF-8, or it can't be read. It can be left alone with --hold-special."
        }
    }
}
