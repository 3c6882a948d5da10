//! The rules of a valid plan, in words.
ghost use Rattle.std.specs.Prelude.{◌≡◌};
ghost use Rattle.ts_explain.specs.Sentences.{rule_text};

use ts_model::plan::PlanRule;

/// What is wrong with a plan that breaks a rule. The number of its place comes after that.
pub(crate) fn rule_text(rule: PlanRule) -> &'static [u8]
    ensures { result.now ≡ rule_text rule }
{
    match rule {
        PlanRule::Limits => {
            b"it has more entries, actions or predecessors than a plan may have (place "
        }
        PlanRule::EntriesAscend => b"its entries aren't in the order of their paths (entry ",
        PlanRule::ReasonsHold => b"nothing is to be done at a path, or something else (entry ",
        PlanRule::EntriesComplete => b"a path that differs is left out (before entry ",
        PlanRule::PredsAscend =>
            b"what an action waits for is out of order, or comes after it (action ",
        PlanRule::OneCommit => b"each copied entry needs one commit, and no other has one (place ",
        PlanRule::PiecesLawful => b"a piece isn't part of a file that its entry copies (action ",
        PlanRule::PiecesComplete => b"each piece of a copied file is needed once (place ",
        PlanRule::OneMark => {
            b"each entry that isn't skipped needs one mark, and no other has one (place "
        }
        PlanRule::PiecesFirst => b"a commit doesn't wait for the pieces of its entry (action ",
        PlanRule::CommitFirst => b"a mark doesn't wait for the commit of its entry (action ",
        PlanRule::DirFirst => b"a mark doesn't wait for that of the new folder above it (action ",
    }
}
