//! Reading a bundle line by line.
ghost use Rattle.std.specs.Prelude.{◌≡◌, ◌++◌, ◌∷◌, [], map, codes, IfOk, IfErr};
ghost use Rattle.ts_model.specs.Texts.{IsPrintBody, IsRules, IsTreeBody, bundle_lines, rule_line};
ghost use Rattle.ts_plan.specs.Progress.{fed as plan_fed};
ghost use Rattle.ts_bundle.specs.Bundles.{BeginsNoBundle, SpellsBundle, SpellsNoBundle};
ghost use Rattle.ts_bundle.specs.Faults.{Refuses};
ghost use Rattle.ts_bundle.specs.Parts.{Without, archive_lines, first_lines, second_lines, holds_lines, plan_part_lines};

use crate::bundle::Bundle;
use crate::fault::BundleFault;
use std::alloc::Global;
use std::marker::Model;
use ts_hold::{Holds, RuleReader};
use ts_plan::PlanReader;
use ts_print::{Print, PrintReader};
use ts_tree::{Tree, TreeReader};

/// Takes the lines of a bundle one after another, and gives the bundle.
pub struct BundleReader {
    part: Part,
}

/// Written out: a proof of what drops a reader then leaves the reader's parts alone.
impl Drop for BundleReader {
    fn drop(self) {
        let BundleReader { part } = self;
        drop(part);
    }
}

/// The part that the next line belongs to, and the parts before it.
#[derive(Drop)]
enum Part {
    /// No line was taken yet.
    Start,
    /// The header was taken.
    Title,
    Archive(PrintReader),
    First(Print, TreeReader),
    Second(Print, Tree, TreeReader),
    Holds(Print, Tree, Tree, RuleReader),
    Plan(Print, Tree, Tree, Holds, PlanReader),
}

impl Model for BundleReader {
    ghost use Rattle.std.specs.Prelude.{List, ℕ};
    ghost use Rattle.ts_bundle.specs.Parts.{PartFits, fed};

    ghost Value = { List (List ℕ) };

    ghost view = { λ r. fed r.part };

    ghost invariant = { λ r. PartFits r.part };
}

impl BundleReader {
    /// No line was taken yet.
    pub fn new() -> Self
        ensures { result ≡ [] }
    {
        BundleReader { part: Part::Start }
    }

    /// Takes the next line, given without its line feed. After a fault there is no reader.
    pub fn line(self, alloc: Global, line: &[u8]) -> Result<Self, BundleFault>
        ensures taken { IfOk result (λ next. next ≡ self ++ line.now ∷ []) }
        ensures refused { IfErr result (Refuses (BeginsNoBundle (self ++ line.now ∷ []))) }
    {
        let BundleReader { part } = self;
        match part {
            Part::Start => begin(line),
            Part::Title => begin_archive(alloc, line),
            Part::Archive(reader) => archive_line(alloc, reader, line),
            Part::First(archive, reader) => first_line(alloc, archive, reader, line),
            Part::Second(archive, first, reader) => {
                second_line(alloc, archive, first, reader, line)
            }
            Part::Holds(archive, first, second, reader) => {
                holds_line(alloc, archive, first, second, reader, line)
            }
            Part::Plan(archive, first, second, holds, reader) => {
                plan_line(archive, first, second, holds, reader, line)
            }
        }
    }

    /// The bundle whose lines were taken.
    pub fn finish(self) -> Result<Bundle, BundleFault>
        ensures found { IfOk result (SpellsBundle self) }
        ensures refused { IfErr result (Refuses (SpellsNoBundle self)) }
    {
        let BundleReader { part } = self;
        match part {
            Part::Plan(archive, first, second, holds, reader) => {
                let plan = reader.finish()?;
                Ok(Bundle {
                    archive,
                    first,
                    second,
                    holds,
                    plan,
                })
            }
            _ => Err(BundleFault::Malformed),
        }
    }
}

/// Takes the header.
fn begin(line: &[u8]) -> Result<BundleReader, BundleFault>
    ensures taken { IfOk result (λ next. next ≡ line.now ∷ []) }
    ensures refused { IfErr result (Refuses (BeginsNoBundle (line.now ∷ []))) }
{
    if line != b"twosync-bundle 1".as_slice() {
        return Err(BundleFault::Malformed);
    }
    Ok(BundleReader { part: Part::Title })
}

/// Takes the archive's title.
fn begin_archive(alloc: Global, line: &[u8]) -> Result<BundleReader, BundleFault>
    ensures taken { IfOk result (λ next. next ≡ codes "twosync-bundle 1" ∷ line.now ∷ []) }
    ensures refused { IfErr result (Refuses (BeginsNoBundle (codes "twosync-bundle 1" ∷ line.now ∷ []))) }
{
    if line != b"archive".as_slice() {
        return Err(BundleFault::Malformed);
    }
    let part = Part::Archive(PrintReader::new(alloc));
    Ok(BundleReader { part })
}

/// Takes a line of the archive, or the first replica's title.
fn archive_line(
    alloc: Global,
    mut reader: PrintReader,
    line: &[u8],
) -> Result<BundleReader, BundleFault>
    requires { Without (codes "first") reader }
    ensures taken { IfOk result (λ next. next ≡ archive_lines reader ++ line.now ∷ []) }
    ensures refused { IfErr result (Refuses (BeginsNoBundle (archive_lines reader ++ line.now ∷ []))) }
{
    if line == b"first".as_slice() {
        let archive = reader.finish()?;
        let part = Part::First(archive, TreeReader::new(alloc));
        return Ok(BundleReader { part });
    }
    reader.line(alloc, line)?;
    let part = Part::Archive(reader);
    Ok(BundleReader { part })
}

/// Takes a line of the first replica, or the second one's title.
fn first_line(
    alloc: Global,
    archive: Print,
    mut reader: TreeReader,
    line: &[u8],
) -> Result<BundleReader, BundleFault>
    requires archive { IsPrintBody archive }
    requires apart { Without (codes "second") reader }
    ensures taken { IfOk result (λ next. next ≡ first_lines archive reader ++ line.now ∷ []) }
    ensures refused { IfErr result (Refuses (BeginsNoBundle (first_lines archive reader ++ line.now ∷ []))) }
{
    if line == b"second".as_slice() {
        let first = reader.finish()?;
        let part = Part::Second(archive, first, TreeReader::new(alloc));
        return Ok(BundleReader { part });
    }
    reader.line(alloc, line)?;
    let part = Part::First(archive, reader);
    Ok(BundleReader { part })
}

/// Takes a line of the second replica, or the hold rules' title.
fn second_line(
    alloc: Global,
    archive: Print,
    first: Tree,
    mut reader: TreeReader,
    line: &[u8],
) -> Result<BundleReader, BundleFault>
    requires archive { IsPrintBody archive }
    requires first { IsTreeBody first }
    requires apart { Without (codes "holds") reader }
    ensures taken { IfOk result (λ next. next ≡ second_lines archive first reader ++ line.now ∷ []) }
    ensures refused { IfErr result (Refuses (BeginsNoBundle (second_lines archive first reader ++ line.now ∷ []))) }
{
    if line == b"holds".as_slice() {
        let second = reader.finish()?;
        let part = Part::Holds(archive, first, second, RuleReader::new(alloc));
        return Ok(BundleReader { part });
    }
    reader.line(alloc, line)?;
    let part = Part::Second(archive, first, reader);
    Ok(BundleReader { part })
}

/// Takes a hold rule, or the plan's title.
fn holds_line(
    alloc: Global,
    archive: Print,
    first: Tree,
    second: Tree,
    mut reader: RuleReader,
    line: &[u8],
) -> Result<BundleReader, BundleFault>
    requires archive { IsPrintBody archive }
    requires first { IsTreeBody first }
    requires second { IsTreeBody second }
    requires rules { IsRules reader }
    ensures taken { IfOk result (λ next. next ≡ holds_lines archive first second (map rule_line reader) ++ line.now ∷ []) }
    ensures refused { IfErr result (Refuses (BeginsNoBundle (holds_lines archive first second (map rule_line reader) ++ line.now ∷ []))) }
{
    if line == b"plan".as_slice() {
        let holds = reader.finish();
        let part = Part::Plan(archive, first, second, holds, PlanReader::new(alloc));
        return Ok(BundleReader { part });
    }
    reader.line(line)?;
    let part = Part::Holds(archive, first, second, reader);
    Ok(BundleReader { part })
}

/// Takes a line of the plan.
fn plan_line(
    archive: Print,
    first: Tree,
    second: Tree,
    holds: Holds,
    mut reader: PlanReader,
    line: &[u8],
) -> Result<BundleReader, BundleFault>
    requires archive { IsPrintBody archive }
    requires first { IsTreeBody first }
    requires second { IsTreeBody second }
    requires rules { IsRules holds }
    ensures taken { IfOk result (λ next. next ≡ plan_part_lines archive first second holds (plan_fed reader) ++ line.now ∷ []) }
    ensures refused { IfErr result (Refuses (BeginsNoBundle (plan_part_lines archive first second holds (plan_fed reader) ++ line.now ∷ []))) }
{
    reader.line(line)?;
    let part = Part::Plan(archive, first, second, holds, reader);
    Ok(BundleReader { part })
}
