//! The kind `check` has five parts: the text of a plan, and what it is made for (`situation`). The answer is `valid`, or the
//! first rule that the checker finds broken and the place where it is. The kind `beyond` has a sixth part, a number, and is
//! about a plan that no text has (`textless`).

use crate::answers::parts::Parts;
use crate::answers::situation::Situation;
use crate::answers::textless::beyond;
use anyhow::{Result, bail};
use std::alloc::Global;
use std::thread::Threads;
use ts_check::{CheckFault, check};
use ts_model::plan::Plan;
use ts_text::{Counted, Lines};

/// The plan that has this text.
fn plan_in(alloc: Global, text: &[u8]) -> Result<Plan> {
    let mut lines = Lines::new(alloc, Counted::new(text))?;
    Ok(ts_plan::decode(alloc, &mut lines)?)
}

/// What the checker says of a plan.
fn verdict<R: Threads + AllocGlobal + Sync>(
    rt: &R,
    plan: &Plan,
    situation: &Situation,
) -> Result<String> {
    let Situation {
        archive,
        first,
        second,
        holds,
    } = situation;
    let alloc = rt.alloc();
    match check(rt, alloc, plan, archive, first, second, holds) {
        Ok(_) => Ok(format!(in alloc; "valid")?),
        Err(CheckFault::Broken { rule, place }) => Ok(format!(in alloc; "{rule:?} {place}")?),
        Err(fault) => bail!("{fault}"),
    }
}

pub fn check_written<R: Threads + AllocGlobal + Sync>(
    rt: &R,
    parts: &mut Parts<'_>,
) -> Result<String> {
    let plan = plan_in(rt.alloc(), parts.next()?)?;
    let situation = Situation::read(rt.alloc(), parts)?;
    verdict(rt, &plan, &situation)
}

pub fn check_beyond<R: Threads + AllocGlobal + Sync>(
    rt: &R,
    parts: &mut Parts<'_>,
) -> Result<String> {
    let written = plan_in(rt.alloc(), parts.next()?)?;
    let situation = Situation::read(rt.alloc(), parts)?;
    let plan = beyond(rt.alloc(), &written, parts.number()?)?;
    verdict(rt, &plan, &situation)
}
