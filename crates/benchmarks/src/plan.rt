//! Plans for two replicas of many paths, of which one in a hundred changed in one of them, and checks the plan. Without words
//! it does a few and says what it found; with a number of paths, and perhaps one of hold rules that name none of them, it also
//! says how long each took. The rules are of all kinds in turn, or of the one that a third word names: `path`, `name`, or, for
//! patterns with a star, `front`, `end`, `middle` and `both`, by where their stars are.

use crate::paths::line_at;
use crate::words::number;
use anyhow::{Result, bail};
use std::alloc::Global;
use std::rt::Clock;
use std::thread::Threads;
use std::time::Instant;
use ts_check::check;
use ts_hold::Holds;
use ts_model::plan::Plan;
use ts_plan_build::resume;
use ts_print::PrintReader;

/// How many paths there are where no number is given.
const FEW: u32 = 2_000;

/// How many hold rules there are where no number is given.
const FEW_RULES: u32 = 2;

/// How many paths there are for one that changed.
const FOR_ONE_CHANGE: u32 = 100;

/// A print of so many paths. Where it is changed, one file in a hundred paths has another digest.
fn print_of(alloc: Global, paths: u32, is_changed: bool) -> Result<ts_print::Print> {
    let mut reader = PrintReader::new(alloc);
    for number in 0..paths {
        let digest = u32::from(is_changed && number % FOR_ONE_CHANGE == 1);
        let line = line_at(alloc, number, digest)?;
        reader.line(alloc, line.as_bytes())?;
    }
    Ok(reader.finish()?)
}

/// A kind of hold rule.
#[derive(Clone, Copy)]
enum RuleKind {
    /// One path.
    OnePath,
    /// A name without a star.
    WholeName,
    /// A star at the front.
    Front,
    /// A star at the end.
    End,
    /// A star in the middle.
    Middle,
    /// A star at both ends.
    Both,
}

/// All kinds, in the order in which a mix takes turns.
const KINDS: [RuleKind; 6] = [
    RuleKind::OnePath,
    RuleKind::WholeName,
    RuleKind::Front,
    RuleKind::End,
    RuleKind::Middle,
    RuleKind::Both,
];

/// The kind that a word names.
fn kind_of(word: &str) -> Result<RuleKind> {
    match word {
        "path" => Ok(RuleKind::OnePath),
        "name" => Ok(RuleKind::WholeName),
        "front" => Ok(RuleKind::Front),
        "end" => Ok(RuleKind::End),
        "middle" => Ok(RuleKind::Middle),
        "both" => Ok(RuleKind::Both),
        _ => bail!("none of path, name, front, end, middle and both"),
    }
}

/// The line of a rule of a kind that names nothing.
fn rule_line(alloc: Global, kind: RuleKind, number: u32) -> Result<String> {
    let line = match kind {
        RuleKind::OnePath => format!(in alloc; "path /none/{number}\n")?,
        RuleKind::WholeName => format!(in alloc; "name none{number}\n")?,
        RuleKind::Front => format!(in alloc; "name *.none{number}\n")?,
        RuleKind::End => format!(in alloc; "name none{number}.*\n")?,
        RuleKind::Middle => format!(in alloc; "name none*{number}\n")?,
        RuleKind::Both => format!(in alloc; "name *word{number}*\n")?,
    };
    Ok(line)
}

/// So many hold rules that name nothing, of one kind, or of all kinds in turn.
fn rules_of(alloc: Global, rules: u32, kind: Option<RuleKind>) -> Result<Holds> {
    let mut text = String::new(alloc);
    for number in 0..rules {
        let kind = kind.unwrap_or(KINDS[number as usize % KINDS.len()]);
        let line = rule_line(alloc, kind, number)?;
        text.push_str(line.as_str())?;
    }
    Ok(Holds::parse(alloc, text.as_bytes())?)
}

/// What a plan is made for.
struct Case {
    archive: ts_print::Print,
    first: ts_print::Print,
    second: ts_print::Print,
    holds: Holds,
}

/// Written out, so that a proof of what drops one stays short.
impl Drop for Case {
    fn drop(self) {
        let Case {
            archive,
            first,
            second,
            holds,
        } = self;
        drop(archive);
        drop(first);
        drop(second);
        drop(holds);
    }
}

fn case_of(alloc: Global, paths: u32, rules: u32, kind: Option<RuleKind>) -> Result<Case> {
    Ok(Case {
        archive: print_of(alloc, paths, false)?,
        first: print_of(alloc, paths, true)?,
        second: print_of(alloc, paths, false)?,
        holds: rules_of(alloc, rules, kind)?,
    })
}

/// The plan for a case, and how many milliseconds it took.
fn planned<R: Clock + AllocGlobal>(rt: &R, case: &Case) -> Result<(Plan, u128)> {
    let start = Instant::now(rt)?;
    let plan = resume(
        rt.alloc(),
        &case.archive,
        &case.first,
        &case.second,
        &case.holds,
    )?;
    Ok((plan, start.elapsed(rt)?.as_millis()))
}

/// How many milliseconds it takes to check a plan.
fn checked<R: Clock + Threads + AllocGlobal + Sync>(
    rt: &R,
    case: &Case,
    plan: &Plan,
) -> Result<u128> {
    let start = Instant::now(rt)?;
    let answer = check(
        rt,
        rt.alloc(),
        plan,
        &case.archive,
        &case.first,
        &case.second,
        &case.holds,
    );
    if let Err(fault) = answer {
        bail!("{fault}");
    }
    Ok(start.elapsed(rt)?.as_millis())
}

/// Plans for so many paths, or for a few, and checks the plan.
pub fn measure<R>(rt: &R, words: &[String]) -> Result<()>
where
    R: Clock + Threads + Print + AllocGlobal + Sync,
{
    let is_asked = !words.is_empty();
    let paths = if is_asked { number(words, 0)? } else { FEW };
    let rules = if words.len() > 1 {
        number(words, 1)?
    } else {
        FEW_RULES
    };
    let kind = match words.get(2) {
        Some(word) => Some(kind_of(word.as_str())?),
        None => None,
    };
    let case = case_of(rt.alloc(), paths, rules, kind)?;
    let (plan, planning) = planned(rt, &case)?;
    let checking = checked(rt, &case, &plan)?;
    let (entries, actions) = (plan.entries.as_slice().len(), plan.actions.as_slice().len());
    println!(rt; "{paths} paths, {rules} rules: {entries} entries, {actions} actions, valid")?;
    if is_asked {
        println!(rt; "planned in {planning} ms, checked in {checking} ms")?;
    }
    Ok(())
}
