//! What can't be synchronized, and the rules that hold it.
ghost use Rattle.std.specs.Prelude.{◌≡◌, ◌⊎◌, ◌++◌, ◌∷◌, [], IfErr, IfOk, OnOk};
ghost use Rattle.ts_model.specs.declared.hold.Rule.TheVariants.{OnePath};
ghost use Rattle.ts_perform.specs.Specials.{AreSpecials, IsCrowdedOut, IsWithoutRule, holder_of, rules_of};
ghost use Rattle.ts_special.specs.Specials.{joined};
ghost use Rattle.ts_perform.specs.Trials.{IsQuiet};

use crate::disk::Disk;
use crate::fault::{PerformFault, Subject};
use crate::lengths::fault_below;
use std::alloc::Global;
use ts_cause::Cause;
use ts_command::Pair;
use ts_hold::{HoldFault, RuleReader};
use ts_name::Path;
use ts_scan::{Refusal, ScanFault};
use ts_special::{Specials, union};

/// The paths of both replicas that can't be synchronized.
#[derive(Drop)]
pub(crate) struct SpecialPaths {
    pub first: Specials,
    pub second: Specials,
}

impl SpecialPaths {
    /// Searches both replicas where the pair asks for it. Else there are none.
    pub(crate) fn find<R: Disk + AllocGlobal>(
        rt: &R,
        pair: &Pair<'_>,
    ) -> Result<SpecialPaths, PerformFault>
        ensures found { IfOk result (AreSpecials R.finds_special pair.now) }
        ensures quiet { IfErr result IsQuiet }
    {
        let alloc = rt.alloc();
        if pair.hold_special {
            let first = rt.specials(alloc, pair.first);
            let first = first.map_err(|fault| fault_below(pair.first, Subject::First, fault))?;
            let second = rt.specials(alloc, pair.second);
            let second = second.map_err(|fault| fault_below(pair.second, Subject::Second, fault))?;
            Ok(SpecialPaths { first, second })
        } else {
            Ok(SpecialPaths {
                first: Specials::none(alloc),
                second: Specials::none(alloc),
            })
        }
    }

    /// Adds a rule for each path, each once. Where there are as many rules as there may be, the first path without one is
    /// refused.
    pub(crate) fn add_rules(
        &self,
        alloc: Global,
        rules: &mut RuleReader,
    ) -> Result<(), PerformFault>
        ensures added { OnOk result (rules.new ≡ rules.old ++ rules_of self.now) }
        ensures refused { IfErr result (IsCrowdedOut self.now.first rules.old (joined self.now.first self.now.second)) }
        ensures quiet { IfErr result IsQuiet }
    {
        let paths = union(alloc, &self.first, &self.second)?;
        for path in paths.as_slice() {
            add_rule(alloc, self.replica_of(path), path, rules)?;
        }
        Ok(())
    }

    /// The replica that has this path, the first one where both do.
    fn replica_of(&self, path: &Path) -> Subject
        ensures { result ≡ holder_of self.now.first path.now }
    {
        if self.first.contains(path) {
            Subject::First
        } else {
            Subject::Second
        }
    }
}

/// Adds the rule that names this path in a replica.
fn add_rule(
    alloc: Global,
    what: Subject,
    path: &Path,
    rules: &mut RuleReader,
) -> Result<(), PerformFault>
    ensures added { OnOk result (rules.new ≡ rules.old ++ OnePath path.now ∷ []) }
    ensures refused { IfErr result (IsWithoutRule what rules.old path.now) }
    ensures quiet { IfErr result IsQuiet }
{
    prove!(path.depth() <= 64);
    let mut line = Vec::from_slice(alloc, b"path ")?;
    path.write_text(&mut line)?;
    match rules.line(&line) {
        Ok(()) => Ok(()),
        Err(HoldFault::OutOfMemory) => Err(PerformFault::OutOfMemory),
        Err(HoldFault::BadRule { .. }) => Err(unreadable(alloc, what, path)),
    }
}

/// That what is at a path of a replica can't be synchronized.
fn unreadable(alloc: Global, what: Subject, path: &Path) -> PerformFault
    ensures fault { (result ≡ PerformFault.OutOfMemory) ⊎ (result ≡ PerformFault.Scan what (ScanFault.At path.now Refusal.Unreadable) Cause.Unknown) }
    ensures quiet { IsQuiet result }
{
    match path.copy(alloc) {
        Ok(path) => {
            let fault = Refusal::Unreadable;
            let fault = ScanFault::At { path, fault };
            let cause = Cause::Unknown;
            PerformFault::Scan { what, fault, cause }
        }
        Err(_) => PerformFault::OutOfMemory,
    }
}
