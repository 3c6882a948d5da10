//! The cases on a board, from its opening to its end.
ghost use Rattle.std.specs.Prelude.{◌≡◌, ◌<◌, length, IfOk};
ghost use Rattle.cases.specs.Worked.{IsWorked, removal};
ghost use Rattle.ts_board.specs.Calls.{IsPassOf, terms_of};
ghost use Rattle.ts_board.specs.Checks.{IsFromCheck};
ghost use Rattle.ts_board.specs.Terms.{commit_count};

use crate::board::desk::Desk;
use crate::board::task::{Seen, Task, Turn};
use anyhow::{Result, bail, ensure};
use std::alloc::Global;
use std::thread::Threads;
use ts_board::{Board, FirstWords, Opening, Pass};
use ts_check::Checked;
use ts_name::Path;
use ts_print::Print;
use ts_site::Site;

/// What was seen at the end.
#[derive(Drop)]
pub struct End<S: Drop> {
    /// The words of all actions.
    pub words: Vec<u64>,
    pub archive: Print,
    /// The site of one commit.
    pub site: Option<S>,
    /// Whether the site is there a second time.
    pub is_again: bool,
}

/// A board for a plan, and its one pass.
pub fn opened<S: Site>(
    alloc: Global,
    checked: &Checked<'_>,
    sites: Vec<S>,
) -> Result<(Board<S>, Pass<S>)>
    requires { length sites.items ≡ commit_count checked.now.plan.actions }
    ensures from { IfOk result (λ r. IsFromCheck (terms_of S.content r.0) checked.now) }
    ensures pass { IfOk result (λ r. IsPassOf S.content r.0 r.1) }
{
    let words = FirstWords::count(alloc, checked)?;
    let Ok(opening) = Opening::lay_out(alloc, checked, sites) else {
        bail!("no memory to lay a board out");
    };
    match opening.open(alloc, checked, words) {
        Ok(opened) => Ok(opened),
        Err(_) => bail!("no memory for a board"),
    }
}

/// Closes the board, and says what it leaves, at the site of commit `c` too.
pub fn ended<S: Site>(
    alloc: Global,
    checked: &Checked<'_>,
    board: Board<S>,
    pass: Pass<S>,
    c: u32,
) -> Result<End<S>>
    requires inside { c < length checked.now.plan.actions }
    requires from { IsFromCheck (terms_of S.content board) checked.now }
    requires pass { IsPassOf S.content board pass }
{
    let mut closed = board.close(pass);
    let archive = closed.archive(alloc, checked)?;
    let mut words = Vec::new(alloc);
    for i in 0..checked.action_count() {
        words.push(closed.word(i))?;
    }
    let site = closed.take_site(c);
    let is_again = closed.take_site(c).is_some();
    let at_last = closed.into_archive(alloc, checked)?;
    ensure!(
        at_last.sub_eq(&archive, &Path::root(alloc)),
        "another archive once the board is gone"
    );
    Ok(End {
        words,
        archive,
        site,
        is_again,
    })
}

/// Copies one new file with a byte that is staged, over its one site.
pub fn worked_case<R: Threads, S: Site>(
    rt: &R,
    alloc: Global,
    checked: &Checked<'_>,
    sites: Vec<S>,
    byte: u8,
) -> Result<([Option<Seen>; 3], End<S>)>
    requires actions { IsWorked checked.now.plan.actions }
    requires one { length sites.items ≡ 1 }
{
    let (board, pass) = opened(alloc, checked, sites)?;
    let desk = Desk {
        alloc,
        checked,
        board: &board,
        byte,
    };
    let (pass, seen) = desk.copied(rt, pass, 0);
    let end = ended(alloc, checked, board, pass, 1)?;
    Ok((seen, end))
}

/// Deletes a file, over its one site. After the race for the commit its mark is made by the joined pass.
pub fn removal_case<R: Threads, S: Site>(
    rt: &R,
    alloc: Global,
    checked: &Checked<'_>,
    sites: Vec<S>,
) -> Result<(Option<Seen>, Option<Turn>, End<S>)>
    requires actions { checked.now.plan.actions ≡ removal }
    requires one { length sites.items ≡ 1 }
{
    let (board, pass) = opened(alloc, checked, sites)?;
    let desk = Desk {
        alloc,
        checked,
        board: &board,
        byte: 0,
    };
    let (mut pass, commit) = desk.raced(rt, pass, Task::Removal);
    let made = desk.mark(&mut pass, 1);
    let end = ended(alloc, checked, board, pass, 0)?;
    Ok((commit, made, end))
}
