//! Runs whose archive is kept while they go on: from each of the archives the next run ends with the same pair.
ghost use Rattle.std.specs.Prelude.{◌≤◌};

use crate::board::plan::text_of;
use crate::stops::countdown::Countdown;
use crate::stops::pair::{NO_ACTION, Pair, bundle_of};
use crate::stops::stories::{FAILING_SITE, Story, TWO_DIRECTORIES};
use anyhow::{Result, ensure};
use std::thread::Threads;
use ts_exec::ActionResult;
use ts_print::Print;

const DIRECTORY: &str = "d /d\n";

const DIRECTORY_AND_X: &str =
    "d /d\nf /d/x 1 ca978112ca1bbdcafac231b39a23dc4da786eff8147c4e72b9807785afee48bb\n";

const BOTH_IN_DIRECTORY: &str =
    "d /d\nf /d/x 1 ca978112ca1bbdcafac231b39a23dc4da786eff8147c4e72b9807785afee48bb\nf /d/y 1 3e23e8160039594a33894f6564e1b1348bbd7a0088d42c4acb73eeaed59c009d\n";

const SECOND_FILE: &str =
    "f /b 1 3e23e8160039594a33894f6564e1b1348bbd7a0088d42c4acb73eeaed59c009d\n";

/// By how many workers a story is carried out, after how many actions an archive is kept each time, and the texts of those.
#[derive(Clone, Copy)]
struct Case {
    story: &'static Story,
    workers: u32,
    every: u32,
    archives: &'static [&'static str],
}

const AFTER_EACH: &[&str] = &[
    DIRECTORY,
    DIRECTORY,
    DIRECTORY,
    DIRECTORY_AND_X,
    DIRECTORY_AND_X,
    DIRECTORY_AND_X,
    BOTH_IN_DIRECTORY,
];

const CASES: &[Case] = &[
    // one worker goes through the actions in their order, and so does the sweep
    Case {
        story: &TWO_DIRECTORIES,
        workers: 1,
        every: 1,
        archives: AFTER_EACH,
    },
    Case {
        story: &TWO_DIRECTORIES,
        workers: 0,
        every: 1,
        archives: AFTER_EACH,
    },
    Case {
        story: &TWO_DIRECTORIES,
        workers: 1,
        every: 3,
        archives: &[DIRECTORY, DIRECTORY_AND_X],
    },
    Case {
        story: &TWO_DIRECTORIES,
        workers: 1,
        every: 8,
        archives: &[],
    },
    // the commit of the first file fails
    Case {
        story: &FAILING_SITE,
        workers: 1,
        every: 1,
        archives: &["", "", "", "", SECOND_FILE],
    },
];

/// Goes on with the replicas after a run, but with an archive that was kept meanwhile: all that is asked for then is done, and
/// the pair is the one that it should be.
fn go_on_from<R>(rt: &R, pair: &Pair, archive: &Print, wanted: &[&str]) -> Result<()>
where
    R: Threads + AllocGlobal + Sync,
{
    let alloc = rt.alloc();
    let mut pair = pair.with_archive(alloc, archive)?;
    let rest = pair.plan(alloc)?;
    let never = Countdown::new(u64::MAX);
    let came = pair.carry_out(rt, &rest, NO_ACTION, 1, &never)?;
    for result in &came.results {
        ensure!(*result == ActionResult::Done, "an action isn't done");
    }
    ensure!(pair.is(alloc, wanted)?, "another pair");
    Ok(())
}

/// Carries a story out, and answers its replicas and the archives that were kept.
fn carried_out<R>(rt: &R, story: &Story, workers: u32, every: u32) -> Result<(Pair, Vec<Print>)>
where
    R: Threads + AllocGlobal + Sync,
    requires few { workers ≤ 64 }
    requires every { (1 ≤ every) × (every ≤ 1048576) }
{
    let alloc = rt.alloc();
    let bundle = bundle_of(alloc, story.bundle)?;
    let mut pair = Pair::of_bundle(alloc, &bundle)?;
    let plan = &bundle.plan;
    let (_came, archives) = pair.carry_out_keeping(rt, plan, story.breaks, workers, every)?;
    Ok((pair, archives))
}

/// The archives that are kept have these texts, and each can be gone on from.
fn try_case<R>(rt: &R, case: &Case) -> Result<()>
where
    R: Threads + AllocGlobal + Sync,
{
    let Case {
        story,
        workers,
        every,
        archives: texts,
    } = *case;
    ensure!(workers <= 64 && 1 <= every && every <= 1_048_576, "limits");
    let (pair, archives) = carried_out(rt, story, workers, every)?;
    ensure!(archives.len() == texts.len(), "another number of archives");
    for (archive, text) in archives.iter().zip(texts) {
        let found = text_of(rt.alloc(), archive)?;
        ensure!(found.as_str() == *text, "another archive");
        go_on_from(rt, &pair, archive, story.wanted)?;
    }
    Ok(())
}

/// With several workers each archive has what the one before it had, and can be gone on from.
fn try_together<R>(rt: &R, story: &Story, workers: u32) -> Result<()>
where
    R: Threads + AllocGlobal + Sync,
    requires { workers ≤ 64 }
{
    let (pair, archives) = carried_out(rt, story, workers, 1)?;
    for (archive, next) in archives.iter().zip(archives.iter().skip(1)) {
        for row in archive.rows() {
            ensure!(next.get(&row.path) == row.content, "a mark went away");
        }
    }
    for archive in &archives {
        go_on_from(rt, &pair, archive, story.wanted)?;
    }
    Ok(())
}

/// Tries all cases, and says how many.
pub fn try_cases<R>(rt: &R) -> Result<usize>
where
    R: Threads + AllocGlobal + Sync,
{
    for case in CASES {
        try_case(rt, case)?;
    }
    let mut count = CASES.len();
    for workers in [2, 4] {
        for story in [&TWO_DIRECTORIES, &FAILING_SITE] {
            try_together(rt, story, workers)?;
            count = count.saturating_add(1);
        }
    }
    Ok(count)
}
