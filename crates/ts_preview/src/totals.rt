//! The totals of a preview.
ghost use Rattle.std.specs.Prelude.{◌≡◌, ◌-◌, ◌^◌, count_by, length, min, sum_by};
ghost use Rattle.ts_model.specs.Sync.{is_skipped};
ghost use Rattle.ts_preview.specs.Totals.{best_totals, goes_to, is_agreed, is_conflict, is_held, lost_in, totals_of};
ghost use Rattle.ts_report.specs.Reports.{status_of};

use crate::outlook::Outlook;
use ts_model::plan::{Reason, Side, Treatment};

/// How many entries there are of each kind, and how many files each replica loses.
#[derive(Clone, Copy, Debug, PartialEq, Eq, Drop)]
pub struct Totals {
    pub entries: usize,
    pub to_first: usize,
    pub to_second: usize,
    /// Nothing is copied, since both replicas agree.
    pub agreed: usize,
    pub conflicts: usize,
    pub held: usize,
    pub lost_in_first: u64,
    pub lost_in_second: u64,
}

/// Counts entries by what would become of them. It takes no memory.
pub(crate) fn count(all: &[Outlook<'_>]) -> Totals
    ensures { result ≡ totals_of all.now }
{
    Totals {
        entries: all.len(),
        to_first: count_to(Side::First, all),
        to_second: count_to(Side::Second, all),
        agreed: count_agreed(all),
        conflicts: count_conflicts(all),
        held: count_held(all),
        lost_in_first: count_lost(Side::First, all),
        lost_in_second: count_lost(Side::Second, all),
    }
}

/// How many entries are copied to this replica.
fn count_to(side: Side, all: &[Outlook<'_>]) -> usize
    ensures { result ≡ count_by (goes_to side) all.now }
{
    all.iter().filter(|o| goes_to(side, o)).count()
}

/// How many entries there are on which both replicas agree.
fn count_agreed(all: &[Outlook<'_>]) -> usize
    ensures { result ≡ count_by is_agreed all.now }
{
    all.iter().filter(|o| is_agreed(o)).count()
}

fn count_conflicts(all: &[Outlook<'_>]) -> usize
    ensures { result ≡ count_by is_conflict all.now }
{
    all.iter().filter(|o| is_conflict(o)).count()
}

fn count_held(all: &[Outlook<'_>]) -> usize
    ensures { result ≡ count_by is_held all.now }
{
    all.iter().filter(|o| is_held(o)).count()
}

/// Whether an entry is copied to this replica.
fn goes_to(to: Side, outlook: &Outlook<'_>) -> bool
    ensures { result ≡ goes_to to outlook.now }
{
    outlook.reason.is_from(to.other())
}

/// Whether nothing is copied, since both replicas agree.
fn is_agreed(outlook: &Outlook<'_>) -> bool
    ensures { result ≡ is_agreed outlook.now }
{
    match outlook.reason.treatment() {
        Treatment::Agreed | Treatment::NewDirectory => true,
        Treatment::Copied(_) | Treatment::Skipped => false,
    }
}

fn is_conflict(outlook: &Outlook<'_>) -> bool
    ensures { result ≡ is_conflict outlook.now }
{
    matches!(outlook.reason, Reason::Conflict)
}

fn is_held(outlook: &Outlook<'_>) -> bool
    ensures { result ≡ is_held outlook.now }
{
    matches!(outlook.reason, Reason::Held)
}

/// How many files this replica loses, or 2^64 - 1 where that is less.
fn count_lost(side: Side, all: &[Outlook<'_>]) -> u64
    ensures { result ≡ min (sum_by (lost_in side) all.now) (2 ^ 64 - 1) }
{
    let mut lost: u64 = 0;
    for outlook in all {
        lost = lost.saturating_add(lost_in(side, outlook));
    }
    lost
}

/// How many files this replica loses by an entry.
fn lost_in(side: Side, outlook: &Outlook<'_>) -> u64
    ensures { result ≡ lost_in side outlook.now }
{
    if goes_to(side, outlook) {
        outlook.lost as u64
    } else {
        0
    }
}

/// The exit status of `sync` if nothing failed: that of a report in which all is done but what is skipped. It takes no memory.
pub fn best_status(all: &[Outlook<'_>]) -> u8
    ensures { result ≡ status_of (best_totals all.now) }
{
    let skipped = all.iter().filter(|o| o.reason.is_skipped()).count();
    let totals = ts_report::Totals {
        done: all.len().saturating_sub(skipped),
        skipped,
        failed: 0,
        blocked: 0,
    };
    totals.status()
}
