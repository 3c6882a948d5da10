//! The kind `marks` has five parts: what a plan is made for (`situation`), and paths, one a line. The answer is a line of six
//! digits for each path, and then the text of the plan that the planner builds. A digit is 1 where that is so: the first
//! replica changed there, the second one did, both agree, a held path is there, above it or below it, the first is dirty, the
//! second is dirty.

use crate::answers::parts::Parts;
use crate::answers::reading::write_plan;
use crate::answers::situation::Situation;
use anyhow::{Result, ensure};
use std::alloc::Global;
use ts_dirty::{Marked, Marks, Near, detect};
use ts_model::plan::{Entry, Plan, Side};
use ts_name::Path;
use ts_plan_build::resume;
use ts_recon::reasons;
use ts_text::{Counted, Lines};

/// The paths, one a line; the root's is empty.
fn paths_in(alloc: Global, text: &[u8]) -> Result<Vec<Path>> {
    let mut lines = Lines::new(alloc, Counted::new(text))?;
    let mut paths = Vec::new(alloc);
    for _ in 0..u64::MAX {
        if !lines.advance()? {
            break;
        }
        paths.push(Path::parse_text(alloc, lines.line())?)?;
    }
    Ok(paths)
}

/// Adds the digits of a path.
fn push_facts(out: &mut String, marks: &Marks, path: &Path) -> Result<()> {
    let facts = [
        marks.changed(Side::First, path),
        marks.changed(Side::Second, path),
        marks.agree(path),
        marks.touches_held(path),
        marks.dirty(Side::First, path),
        marks.dirty(Side::Second, path),
    ];
    for fact in facts {
        out.push(if fact { '1' } else { '0' })?;
    }
    out.push(' ')?;
    Ok(())
}

/// Whether looks at the paths one after another, in two rounds, say what the marks say of each path alone.
fn looks_agree(marks: &Marks, paths: &[Path]) -> bool {
    let mut near = Near::start();
    for path in paths.iter().chain(paths) {
        let alone = Marked {
            first: marks.changed(Side::First, path),
            second: marks.changed(Side::Second, path),
            agree: marks.agree(path),
            touches_held: marks.touches_held(path),
        };
        if marks.look(&mut near, path) != alone {
            return false;
        }
    }
    true
}

/// Whether two lists of entries have the same paths with the same reasons.
fn is_same(found: &[Entry], wanted: &[Entry]) -> bool {
    found.len() == wanted.len()
        && found.iter().zip(wanted).all(|(one, other)| one.path == other.path
            && one.reason == other.reason)
}

/// The digits of all paths.
fn facts_of(alloc: Global, marks: &Marks, text: &[u8]) -> Result<String> {
    let paths = paths_in(alloc, text)?;
    ensure!(
        looks_agree(marks, paths.as_slice()),
        "looks say something else than the marks"
    );
    let mut facts = String::new(alloc);
    for path in &paths {
        push_facts(&mut facts, marks, path)?;
    }
    Ok(facts)
}

/// The plan. Its entries are the paths that have a reason.
fn planned(alloc: Global, situation: &Situation, marks: &Marks) -> Result<Plan> {
    let Situation {
        archive,
        first,
        second,
        holds,
    } = situation;
    let found = reasons(alloc, archive, first, second, marks)?;
    let plan = resume(alloc, archive, first, second, holds)?;
    ensure!(
        is_same(found.as_slice(), plan.entries.as_slice()),
        "the plan has other entries than there are reasons"
    );
    Ok(plan)
}

fn text_of(alloc: Global, plan: &Plan) -> Result<String> {
    let mut written = Counted::new(Vec::new(alloc));
    write_plan(alloc, plan, &mut written)?;
    Ok(String::from_utf8_lossy(alloc, &written.into_inner())?)
}

pub fn mark_and_plan(alloc: Global, parts: &mut Parts<'_>) -> Result<String> {
    let situation = Situation::read(alloc, parts)?;
    let Situation {
        archive,
        first,
        second,
        holds,
    } = &situation;
    let marks = detect(alloc, archive, first, second, holds)?;
    let facts = facts_of(alloc, &marks, parts.next()?)?;
    let plan = planned(alloc, &situation, &marks)?;
    let text = text_of(alloc, &plan)?;
    Ok(format!(in alloc; "{facts}\n{text}")?)
}
