//! What commands read: archives, hold rules, plans and folders.
ghost use Rattle.std.specs.Prelude.{◌≡◌, ◌≤◌, [], Ok, length, option_map, IfErr, IfOk, IfSome, IsTrue, OnOk};
ghost use Rattle.ts_explain.specs.Faults.{IsAbout};
ghost use Rattle.ts_model.specs.Texts.{IsPlan, IsPlanText, IsRulesText};
ghost use Rattle.ts_perform.specs.Inputs.{AreRulesAt, IsArchiveAt, IsArchiveIn, IsArchiveOf, IsFoundOrEmpty, IsHeldFor, IsReadAt, scanned_of};
ghost use Rattle.ts_perform.specs.Snapshots.{IsSeenIn};
ghost use Rattle.ts_perform.specs.Specials.{AreSpecials};
ghost use Rattle.ts_perform.specs.Stands.{AreScans, IsScanOf};
ghost use Rattle.ts_perform.specs.Trials.{IsQuiet};
ghost use Rattle.ts_perform.specs.Worlds.{world};

use crate::counting::{Folders, scan_both_counted, scan_counted};
use crate::decoding::{Decoded, decoded};
use crate::disk::{Disk, Machine};
use crate::fault::{
    PerformFault, Subject, UNREAD, Why, of_archive, of_hold, of_open, of_plan, of_text,
};
use crate::lengths::fault_below;
use crate::snapshot::Snapshot;
use crate::special::SpecialPaths;
use crate::task::Task;
use std::alloc::Global;
use std::io::Read;
use ts_archive::ArchiveFault;
use ts_command::Pair;
use ts_hold::{Holds, RuleReader};
use ts_model::plan::Plan;
use ts_plan::PlanFault;
use ts_print::Print;
use ts_progress::Progress;
use ts_scan::ScanFault;
use ts_special::Specials;
use ts_text::{Counted, Lines, Source, TextFault};

/// What is in a file, to be read. None where nothing is there.
fn opened<R: Disk>(rt: &R, name: &str, what: Subject) -> Result<Option<R::Opened>, PerformFault>
    ensures found { IfOk result (λ found. R.finds name.now (option_map R.Opened.remaining found)) }
    ensures about { IfErr result (IsAbout what) }
    ensures quiet { IfErr result IsQuiet }
{
    rt.open(name).map_err(|fault| of_open(fault, what))
}

/// Its lines.
fn lines_of<S: Read + Drop>(alloc: Global, file: S) -> Result<Lines<Counted<S>>, PerformFault>
    ensures left { IfOk result (λ lines. lines.left ≡ S.remaining file) }
    ensures memory { IfErr result (λ e. e ≡ PerformFault.OutOfMemory) }
{
    Lines::new(alloc, Counted::new(file)).map_err(|_| PerformFault::OutOfMemory)
}

/// That a read of a file failed, with what the system says of that now.
fn unread<R: Disk>(rt: &R, name: &str, what: Subject) -> PerformFault
    ensures about { IsAbout what result }
    ensures quiet { IsQuiet result }
{
    let cause = rt.read_cause(name, 0);
    let why = Why::Unread { cause };
    PerformFault::Failed { what, why }
}

/// What was decoded of the file with this name, or why nothing was, with what the system says of that now.
fn archive_found<R: Disk>(
    rt: &R,
    name: &str,
    decoded: Decoded,
) -> Result<Option<Print>, PerformFault>
    ensures same { IfOk result (λ found. decoded ≡ Ok found) }
    ensures about { IfErr result (IsAbout Subject.Archive) }
    ensures quiet { IfErr result IsQuiet }
{
    match decoded {
        Ok(found) => Ok(found),
        Err(ArchiveFault::Failed) => Err(unread(rt, name, Subject::Archive)),
        Err(fault) => Err(of_archive(fault, Subject::Archive, UNREAD)),
    }
}

/// The archive in a file. None where nothing is there.
pub(crate) fn read_archive<R: Disk + AllocGlobal>(
    rt: &R,
    name: &str,
) -> Result<Option<Print>, PerformFault>
    ensures read { IfOk result (IsArchiveIn R.finds name.now) }
    ensures about { IfErr result (IsAbout Subject.Archive) }
    ensures quiet { IfErr result IsQuiet }
{
    let file = opened(rt, name, Subject::Archive)?;
    archive_found(rt, name, decoded(rt.alloc(), file))
}

/// The rules in a file, or none where no file is named. They are read line by line: the first bad line ends it.
fn read_holds<R: Disk + AllocGlobal>(rt: &R, name: Option<&str>) -> Result<RuleReader, PerformFault>
    ensures read { IfOk result (AreRulesAt R.finds name.entry) }
    ensures about { IfErr result (IsAbout Subject.Holds) }
    ensures quiet { IfErr result IsQuiet }
{
    let Some(name) = name else {
        return Ok(RuleReader::new(rt.alloc()));
    };
    let what = Subject::Holds;
    let Some(file) = opened(rt, name, what)? else {
        return Err(PerformFault::NotThere { what });
    };
    let mut lines = lines_of(rt.alloc(), file)?;
    match rules_in(rt.alloc(), &mut lines) {
        Err(PerformFault::Failed { .. }) => Err(unread(rt, name, what)),
        found => found,
    }
}

/// The rules that all lines spell.
fn rules_in<S: Source>(alloc: Global, lines: &mut Lines<S>) -> Result<RuleReader, PerformFault>
    ensures spelled { IfOk result (λ rules. IfSome lines.old.left (λ text. IsRulesText text rules)) }
    ensures about { IfErr result (IsAbout Subject.Holds) }
    ensures quiet { IfErr result IsQuiet }
{
    let mut reader = RuleReader::new(alloc);
    // a file without an end has lines past the limit, and is left there
    for line in 1..=u64::MAX {
        match lines.advance() {
            Ok(true) => reader.line(lines.line()).map_err(of_hold)?,
            Ok(false) => return Ok(reader),
            Err(TextFault::NotCanonical) => return Err(PerformFault::BadRule { line }),
            Err(fault) => return Err(of_text(fault, Subject::Holds, UNREAD)),
        }
    }
    unreachable!()
}

/// The plan in a file.
fn read_plan<R: Disk + AllocGlobal>(rt: &R, name: &str) -> Result<Plan, PerformFault>
    ensures read { IfOk result (IsReadAt R.finds IsPlanText name.now) }
    ensures fits { IfOk result (λ plan. IsPlan plan) }
    ensures about { IfErr result (IsAbout Subject.Plan) }
    ensures quiet { IfErr result IsQuiet }
{
    let what = Subject::Plan;
    let Some(file) = opened(rt, name, what)? else {
        return Err(PerformFault::NotThere { what });
    };
    let mut lines = lines_of(rt.alloc(), file)?;
    match ts_plan::decode(rt.alloc(), &mut lines) {
        Ok(plan) => Ok(plan),
        Err(PlanFault::Failed) => Err(unread(rt, name, what)),
        Err(fault) => Err(of_plan(fault, what, UNREAD)),
    }
}

/// The print of a folder.
pub(crate) fn scan_folder<R: Machine>(
    rt: &R,
    progress: &Progress<'_, R>,
    root: &str,
    workers: u32,
) -> Result<Print, PerformFault>
    requires some { 1 ≤ workers }
    requires few { workers ≤ 64 }
    ensures scan { IfOk result (IsScanOf R.is_at R.Folder.tells root.now []) }
    ensures quiet { IfErr result IsQuiet }
{
    let alloc = rt.alloc();
    let folder = rt.folder(alloc, root, Specials::none(alloc))?;
    match scan_counted(rt, progress, &folder, workers) {
        Ok(print) => Ok(print),
        Err(fault) => Err(fault_below(root, Subject::Folder, fault)),
    }
}

/// The archive of a pair that was decoded of its file. One that isn't there has no paths.
fn archive_of<R: Machine>(task: &Task<'_, R>, decoded: Decoded) -> Result<Print, PerformFault>
    ensures archive { IfOk result (IsFoundOrEmpty decoded) }
    ensures quiet { IfErr result IsQuiet }
{
    match archive_found(task.rt, task.pair.archive, decoded)? {
        Some(archive) => Ok(archive),
        None => Ok(Print::empty(task.rt.alloc())),
    }
}

/// The archive in the file of a pair.
fn archive_in<R: Machine>(
    task: &Task<'_, R>,
    file: Option<R::Opened>,
) -> Result<Print, PerformFault>
    requires { R.finds task.now.pair.now.archive.now (option_map R.Opened.remaining file) }
    ensures read { IfOk result (IsArchiveAt R.finds task.now.pair.now.archive.now) }
    ensures quiet { IfErr result IsQuiet }
{
    archive_of(task, decoded(task.rt.alloc(), file))
}

/// The fault of the archive in the file of a pair, which comes first, or else the one that came while it wasn't read yet.
fn first_fault<R: Machine>(
    task: &Task<'_, R>,
    file: Option<R::Opened>,
    later: PerformFault,
) -> PerformFault
    ensures quiet { IsQuiet later → IsQuiet result }
{
    match archive_of(task, decoded(task.rt.alloc(), file)) {
        Ok(_) => later,
        Err(fault) => fault,
    }
}

/// The hold rules, and the paths that can't be synchronized, which have rules, too.
#[derive(Drop)]
struct Held {
    holds: Holds,
    special: SpecialPaths,
}

impl Held {
    /// Reads the rules, and adds those for what is special.
    fn read<R: Machine>(task: &Task<'_, R>) -> Result<Held, PerformFault>
        ensures read { IfOk result (IsHeldFor R.finds R.finds_special task.now.pair.now) }
        ensures quiet { IfErr result IsQuiet }
    {
        let (rt, pair) = (task.rt, task.pair);
        let mut rules = read_holds(rt, pair.holds)?;
        let special = match SpecialPaths::find(rt, pair) {
            Ok(special) => special,
            Err(fault) => return Err(task.explained(fault)),
        };
        special.add_rules(rt.alloc(), &mut rules)?;
        let holds = rules.finish();
        Ok(Held { holds, special })
    }

    /// Reads them, and then a plan.
    fn read_with_plan<R: Machine>(
        task: &Task<'_, R>,
        plan: &str,
    ) -> Result<(Held, Plan), PerformFault>
        ensures fits { IfOk result (λ read. IsPlan read.1) }
        ensures plan { IfOk result (λ read. IsReadAt R.finds IsPlanText plan.now read.1) }
        ensures held { IfOk result (λ read. IsHeldFor R.finds R.finds_special task.now.pair.now read.0) }
        ensures quiet { IfErr result IsQuiet }
    {
        let held = Held::read(task)?;
        let plan = read_plan(task.rt, plan)?;
        Ok((held, plan))
    }
}

/// The prints of both replicas.
#[derive(Drop)]
struct Scanned {
    first: Print,
    second: Print,
}

impl Scanned {
    /// The folders of both replicas, with stand-ins at these paths. Nothing is looked at yet.
    fn folders<R: Machine>(
        task: &Task<'_, R>,
        special: SpecialPaths,
    ) -> Result<(R::Folder, R::Folder), PerformFault>
        ensures first { IfOk result (λ folders. R.is_at folders.0 task.now.pair.now.first.now special.first) }
        ensures second { IfOk result (λ folders. R.is_at folders.1 task.now.pair.now.second.now special.second) }
        ensures quiet { IfErr result IsQuiet }
    {
        let (rt, alloc, pair) = (task.rt, task.rt.alloc(), task.pair);
        let SpecialPaths { first, second } = special;
        let first = rt.folder(alloc, pair.first, first)?;
        let second = rt.folder(alloc, pair.second, second)?;
        Ok((first, second))
    }

    /// Scans both replicas, with stand-ins at these paths, at once where there are several workers: they often lie on two devices.
    /// Where neither can be scanned the fault is that of the first. The archive in a file is decoded meanwhile, where there is one.
    fn read<R: Machine>(
        task: &Task<'_, R>,
        special: SpecialPaths,
        file: Option<R::Opened>,
    ) -> (Decoded, Result<Scanned, PerformFault>)
        ensures archive { IfOk result.0 (IsArchiveOf (option_map R.Opened.remaining file)) }
        ensures scans { IfOk result.1 (λ s. AreScans R.is_at R.Folder.tells task.now.pair.now special s.first s.second) }
        ensures quiet { IfErr result.1 IsQuiet }
    {
        match Scanned::folders(task, special) {
            Ok((first, second)) => {
                let folders = Folders {
                    first: &first,
                    second: &second,
                };
                let (archive, (first, second)) = scan_both_counted(
                    task.rt,
                    &task.progress,
                    &folders,
                    task.workers,
                    file,
                );
                (archive, Scanned::of(task.pair, first, second))
            }
            Err(fault) => (decoded(task.rt.alloc(), file), Err(fault)),
        }
    }

    /// What two scans give. Where neither gives a print, the fault is that of the first.
    fn of(
        pair: &Pair<'_>,
        first: Result<Print, ScanFault>,
        second: Result<Print, ScanFault>,
    ) -> Result<Scanned, PerformFault>
        ensures scanned { result ≡ scanned_of pair.now first second }
        ensures quiet { IfErr result IsQuiet }
    {
        match (first, second) {
            (Ok(first), Ok(second)) => Ok(Scanned { first, second }),
            (Err(fault), _) => Err(fault_below(pair.first, Subject::First, fault)),
            (Ok(_), Err(fault)) => Err(fault_below(pair.second, Subject::Second, fault)),
        }
    }
}

impl Snapshot {
    /// A snapshot of these parts.
    fn of(archive: Print, holds: Holds, scanned: Scanned) -> Snapshot
        ensures archive { result.archive ≡ archive }
        ensures holds { result.holds ≡ holds }
        ensures first { result.first ≡ scanned.first }
        ensures second { result.second ≡ scanned.second }
    {
        let Scanned { first, second } = scanned;
        Snapshot {
            archive,
            holds,
            first,
            second,
        }
    }

    /// Scans both replicas, once all else is read.
    fn scan<R: Machine>(
        task: &Task<'_, R>,
        archive: Print,
        held: Held,
    ) -> Result<Snapshot, PerformFault>
        requires archive { IsArchiveAt R.finds task.now.pair.now.archive.now archive }
        requires held { IsHeldFor R.finds R.finds_special task.now.pair.now held }
        ensures seen { IfOk result (IsSeenIn (world R.Disk R.Site.Site R.Folder.Folder R.Stage.Stage) task.now.pair.now) }
        ensures archive { IfOk result (λ s. s.archive ≡ archive) }
        ensures quiet { IfErr result IsQuiet }
    {
        let Held { holds, special } = held;
        let (_, scanned) = Scanned::read(task, special, None);
        match scanned {
            Ok(scanned) => Ok(Snapshot::of(archive, holds, scanned)),
            Err(fault) => Err(task.explained(fault)),
        }
    }

    /// Scans both replicas, and decodes the archive in its file meanwhile, where there are several workers. Its fault comes before
    /// those of the scans.
    fn scan_beside<R: Machine>(
        task: &Task<'_, R>,
        file: Option<R::Opened>,
        held: Held,
    ) -> Result<Snapshot, PerformFault>
        requires found { R.finds task.now.pair.now.archive.now (option_map R.Opened.remaining file) }
        requires held { IsHeldFor R.finds R.finds_special task.now.pair.now held }
        ensures seen { IfOk result (IsSeenIn (world R.Disk R.Site.Site R.Folder.Folder R.Stage.Stage) task.now.pair.now) }
        ensures quiet { IfErr result IsQuiet }
    {
        if task.workers == 1 {
            let archive = archive_in(task, file)?;
            return Snapshot::scan(task, archive, held);
        }
        let Held { holds, special } = held;
        let (archive, scanned) = Scanned::read(task, special, file);
        let archive = archive_of(task, archive)?;
        match scanned {
            Ok(scanned) => Ok(Snapshot::of(archive, holds, scanned)),
            Err(fault) => Err(task.explained(fault)),
        }
    }

    /// Opens the archive and reads the rules, searches both replicas for what is special where the pair asks for it, and then scans
    /// them. The archive is decoded meanwhile.
    pub(crate) fn read<R: Machine>(task: &Task<'_, R>) -> Result<Snapshot, PerformFault>
        ensures seen { IfOk result (IsSeenIn (world R.Disk R.Site.Site R.Folder.Folder R.Stage.Stage) task.now.pair.now) }
        ensures quiet { IfErr result IsQuiet }
    {
        let file = opened(task.rt, task.pair.archive, Subject::Archive)?;
        match Held::read(task) {
            Ok(held) => Snapshot::scan_beside(task, file, held),
            Err(fault) => Err(first_fault(task, file, fault)),
        }
    }

    /// The same, with a plan that is read before both replicas are scanned.
    pub(crate) fn read_for<R: Machine>(
        task: &Task<'_, R>,
        plan: &str,
    ) -> Result<(Snapshot, Plan), PerformFault>
        ensures fits { IfOk result (λ read. IsPlan read.1) }
        ensures plan { IfOk result (λ read. IsReadAt R.finds IsPlanText plan.now read.1) }
        ensures seen { IfOk result (λ read. IsSeenIn (world R.Disk R.Site.Site R.Folder.Folder R.Stage.Stage) task.now.pair.now read.0) }
        ensures quiet { IfErr result IsQuiet }
    {
        let file = opened(task.rt, task.pair.archive, Subject::Archive)?;
        match Held::read_with_plan(task, plan) {
            Ok((held, plan)) => Ok((Snapshot::scan_beside(task, file, held)?, plan)),
            Err(fault) => Err(first_fault(task, file, fault)),
        }
    }
}
