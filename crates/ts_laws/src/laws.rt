//! The laws. Each function has an empty body, and its contract is the law.

ghost use Rattle.std.specs.Prelude.{◌≡◌, ℕ, List, []};
ghost use Rattle.ts_laws.specs.Carried.{AreInPlace, IsCarriedOut, LeavesCarried};
ghost use Rattle.ts_laws.specs.Laws.{ArePrinted, CanFinish, CountsOpen, DirsAreParents, DirtIsDifference, EndsAlike, EntriesAreReasons};
ghost use Rattle.ts_laws.specs.Laws.{FindsPieces, IsDecided, IsReasonDecided, Keeps, OnePairOfListings, ValidExample};
ghost use Rattle.ts_model.specs.Headline.{ArchiveAgrees, Completes, FinalArchive, Meets, NotStuck, OnePair, OriginalOrFinal};
ghost use Rattle.ts_model.specs.Plans.{Valid};
ghost use Rattle.ts_model.specs.Resume.{ArchiveIsClosed, CanResume, CutsAreLegal};
ghost use Rattle.ts_model.specs.Sync.{AreReplicas, HasReason, IsSnapshot, Snapshot};
ghost use Rattle.ts_model.specs.Trees.{AreApart, IsListing, Listing, Print, Tree, at};
ghost use Rattle.ts_model.specs.declared.hold.Rule.{Rule};
ghost use Rattle.ts_model.specs.declared.plan.Plan.{Plan};
ghost use Rattle.ts_model.specs.declared.plan.PlanRule.TheVariants.{EntriesComplete, ReasonsHold};
ghost use Rattle.ts_model.specs.declared.plan.Reason.{Reason};
ghost use Rattle.ts_model.specs.declared.plan.Side.{Side};
ghost use Rattle.ts_model.specs.declared.row.Stamp.{Stamp};
ghost use Rattle.ts_name.specs.Paths.{Path};

// ---- What every run of a valid plan keeps, and where it ends.

/// Each path of each replica is original or final. Conflicts and held paths are as they were.
pub fn original_or_final()
    ensures { (s : Snapshot) (plan : Plan) → Valid s plan → OriginalOrFinal s plan }
{}

/// The archive changed only where both replicas agree.
pub fn archive_agrees()
    ensures { (s : Snapshot) (plan : Plan) → Valid s plan → ArchiveAgrees s plan }
{}

/// Once all actions are done, the replicas are the pair that is asked for, and the archive is the final one.
pub fn completes()
    ensures { (s : Snapshot) (plan : Plan) → Valid s plan → Completes s plan }
{}

/// While nothing failed and nothing that was claimed is open, all is done or something may be claimed.
pub fn not_stuck()
    ensures { (s : Snapshot) (plan : Plan) → Valid s plan → NotStuck s plan }
{}

/// A legal run without a failure, stopped anywhere, goes on without one until each action is done: no valid plan is a dead end.
pub fn can_finish()
    ensures { (s : Snapshot) (plan : Plan) → Valid s plan → CanFinish s plan }
{}

/// A commit that is claimed finds each of its pieces done.
pub fn claimed_commits_find_their_pieces()
    ensures { (s : Snapshot) (plan : Plan) → Valid s plan → FindsPieces s plan }
{}

/// The open predecessors of an action are those that were not released to it.
pub fn words_count_open()
    ensures { (s : Snapshot) (plan : Plan) → Valid s plan → CountsOpen s plan }
{}

// ---- What a plan leaves, without a run.

/// With each copied entry's subtree in the target, and each mark in the archive, entry by entry, the replicas are the pair that is asked for,
/// and the archive is the final one.
pub fn carried_out()
    ensures { (s : Snapshot) (plan : Plan) (a b : Tree) → Valid s plan → IsSnapshot s → AreReplicas s a b → AreApart (Meets a b [])
        → IsCarriedOut s plan a b }
{}

/// Whatever the order of its steps, a run in which all actions are done leaves just that.
pub fn complete_runs_leave_the_same()
    ensures { (s : Snapshot) (plan : Plan) → Valid s plan → LeavesCarried s plan }
{}

/// The entries of a valid plan stand below directories of both replicas, which stay directories until an entry's turn comes, and in path
/// order, each apart from what is below the one before it.
pub fn entries_in_place()
    ensures { (s : Snapshot) (plan : Plan) (a b : Tree) → Valid s plan → IsSnapshot s → AreReplicas s a b → AreInPlace s plan a b }
{}

// ---- Runs that were stopped.

/// What a stopped run leaves asks for the same pair, from the archive of any closed part of its marks.
pub fn can_resume()
    ensures { (s : Snapshot) (plan : Plan) → Valid s plan → CanResume s plan }
{}

/// Any valid plan for what a stopped run left, once it is done, ends with the same pair and the same final archive.
pub fn resumed_runs_end_alike()
    ensures { (s : Snapshot) (plan : Plan) → Valid s plan → EndsAlike s plan }
{}

/// Commits that were cut while they acted may be added to the run.
pub fn cuts_are_legal()
    ensures { (s : Snapshot) (plan : Plan) → Valid s plan → CutsAreLegal s plan }
{}

/// The archive after a run is that of a closed part of its marks.
pub fn archive_is_closed()
    ensures { (s : Snapshot) (plan : Plan) → Valid s plan → ArchiveIsClosed s plan }
{}

// ---- What a snapshot asks for.

/// A snapshot asks for one pair.
pub fn one_pair()
    ensures { (s : Snapshot) → OnePair s }
{}

/// Listed replicas and a listed archive ask for one pair.
pub fn one_pair_of_listings()
    ensures { (archive : Listing Stamp) (first second : Listing (List ℕ)) (rules : List Rule) → OnePairOfListings archive first second rules }
{}

/// One archive is final.
pub fn one_final_archive()
    ensures { (s : Snapshot) (c : Tree) (x y : Print) → FinalArchive s c x → FinalArchive s c y → x ≡ y }
{}

/// A tree has one listing.
pub fn one_listing()
    ensures { (xs ys : Listing (List ℕ)) → IsListing xs → IsListing ys → at xs ≡ at ys → xs ≡ ys }
{}

/// Where a tree has the archive as its print and contents are apart, a path away from all held paths is dirty in a replica exactly where
/// its subtrees in the replica and in that tree differ.
pub fn dirt_is_difference()
    ensures { (s : Snapshot) (on : Side) (t o : Tree) → IsSnapshot s → ArePrinted s on t o → DirtIsDifference s on t o }
{}

// ---- Reasons and rules.

/// A path has one reason at most.
pub fn one_reason()
    ensures { (s : Snapshot) (p : Path) (r q : Reason) → HasReason s p r → HasReason s p q → r ≡ q }
{}

/// Whether a path has a reason, and which, is decided.
pub fn decided_reasons()
    ensures { (s : Snapshot) (p : Path) → IsSnapshot s → IsReasonDecided s p }
{}

/// The entries of a valid plan are exactly the paths with a reason, each once and with that reason.
pub fn entries_are_reasons()
    ensures { (s : Snapshot) (plan : Plan) → IsSnapshot s → Valid s plan → EntriesAreReasons s plan }
{}

/// Where each entry has its path's reason and no path with a reason is missing, the nearest new directory above an entry is at its parent.
pub fn nearest_dirs_are_parents()
    ensures { (s : Snapshot) (plan : Plan) → IsSnapshot s → Keeps s plan ReasonsHold → Keeps s plan EntriesComplete → DirsAreParents plan }
{}

/// A plan is valid, or one rule is broken first, at one place.
pub fn decided_rules()
    ensures { (s : Snapshot) (plan : Plan) → IsSnapshot s → IsDecided s plan }
{}

/// The premises can be met, by a valid plan of a piece, a commit and a mark.
pub fn some_plan_is_valid()
    ensures { ValidExample }
{}
