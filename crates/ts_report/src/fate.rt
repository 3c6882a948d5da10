//! What became of an entry.
ghost use Rattle.std.specs.Prelude.{◌≡◌};
ghost use Rattle.ts_model.specs.Sync.{is_skipped};
ghost use Rattle.ts_report.specs.Fates.{fate_word, first_fate, next_fate, same_fate};

use crate::results::Ending;
use ts_model::plan::Reason;

/// What became of an entry.
#[derive(Clone, Copy, Debug, PartialEq, Eq, Drop)]
pub enum Fate {
    /// Nothing was to be done about it: it is a conflict, or held.
    Skipped,
    /// It was carried out, and the archive tells so.
    Done,
    /// It wasn't carried out, as one of its own actions failed.
    Failed,
    /// It wasn't carried out, as actions of other entries didn't end well.
    Blocked,
}

impl Fate {
    /// What is known of an entry before any action is looked at.
    pub(crate) fn first(reason: Reason) -> Fate
        ensures { result ≡ first_fate reason }
    {
        if reason.is_skipped() {
            Fate::Skipped
        } else {
            Fate::Blocked
        }
    }

    /// What is known of an entry after one more of its actions is looked at.
    pub(crate) fn after(self, is_mark: bool, ending: Ending) -> Fate
        ensures { result ≡ next_fate self is_mark ending }
    {
        match (self, ending) {
            (Fate::Skipped, _) => Fate::Skipped,
            (Fate::Done, _) => Fate::Done,
            (Fate::Failed | Fate::Blocked, Ending::Done) if is_mark => Fate::Done,
            (Fate::Failed | Fate::Blocked, Ending::Failed) => Fate::Failed,
            (fate, Ending::Done | Ending::Left) => fate,
        }
    }

    /// The first word of the entry's line.
    pub(crate) fn word(self) -> &'static [u8]
        ensures { result.now ≡ fate_word self }
    {
        match self {
            Fate::Skipped => b"skip",
            Fate::Done => b"done",
            Fate::Failed => b"failed",
            Fate::Blocked => b"blocked",
        }
    }

    /// Whether it is this one.
    pub(crate) fn is(self, wanted: Fate) -> bool
        ensures { result ≡ same_fate wanted self }
    {
        match (wanted, self) {
            (Fate::Skipped, Fate::Skipped)
            | (Fate::Done, Fate::Done)
            | (Fate::Failed, Fate::Failed)
            | (Fate::Blocked, Fate::Blocked) => true,
            _ => false,
        }
    }
}
