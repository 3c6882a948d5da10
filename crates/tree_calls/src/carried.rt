//! A plan carried through over trees.
ghost use Rattle.std.specs.Prelude.{◌≡◌, IfSome};
ghost use Rattle.ts_model.specs.Trees.{at, print_of};

use crate::shared::spelled;
use crate::{prints, shared, trees};
use fixtures::{source_of, tree_of};
use std::alloc::Global;
use std::thread::Threads;
use ts_check::{Checked, check};
use ts_hold::Holds;
use ts_model::plan::Plan;
use ts_plan::decode;
use ts_print::Print;
use ts_text::Lines;
use ts_through::{Carried, carry_through};
use ts_tree::Tree;

// The first replica has changed `/a`, the second one has deleted `/b`, and both have changed `/c`.

const ARCHIVE: &str = "f /a 1 A\nf /b 1 A\nf /c 1 A\n";

const FIRST: &[u8] = b"f /a 2\nx 6162\nf /b 1\nx 61\nf /c 0\n";

const SECOND: &[u8] = b"f /a 1\nx 61\nf /c 2\nx 6162\n";

const PLAN: &[u8] = b"twosync-plan 1\nentry first /a\nentry second /b\nentry conflict /c\n\
piece 0 0 2 /a\ncommit 0\np 0\nmark 0\np 1\ncommit 1\nmark 1\np 3\nend 3 5\n";

const FIRST_AFTER: &[u8] = b"f /a 2\nx 6162\nf /c 0\n";

const SECOND_AFTER: &[u8] = b"f /a 2\nx 6162\nf /c 2\nx 6162\n";

const ARCHIVE_AFTER: &str = "f /a 2 B\nf /c 1 A\n";

/// More than one, so that they meet.
const WORKERS: u32 = 2;

/// The print of a tree.
fn stamped(alloc: Global, tree: &Tree) -> Option<Print>
    ensures { IfSome result (λ print. at print ≡ print_of (at tree.now)) }
{
    match Print::of_tree(alloc, tree) {
        Ok(print) => Some(print),
        Err(_) => None,
    }
}

/// The plan, where it is valid for these.
fn accepted<'a, R: AllocGlobal + Threads + Sync>(
    rt: &R,
    plan: &'a Plan,
    archive: &'a Print,
    first: &'a Print,
    second: &'a Print,
    holds: &'a Holds,
) -> Option<Checked<'a>>
    ensures first { IfSome result (λ checked. checked.first ≡ first.entry.now) }
    ensures second { IfSome result (λ checked. checked.second ≡ second.entry.now) }
{
    check(rt, rt.alloc(), plan, archive, first, second, holds).ok()
}

/// What the plan leaves.
fn carried<R: AllocGlobal + Threads + Sync>(rt: &R) -> Option<Carried> {
    let alloc = rt.alloc();
    let archive = shared::print_of(alloc, ARCHIVE)?;
    let first = tree_of(alloc, FIRST)?;
    let second = tree_of(alloc, SECOND)?;
    let mut lines = Lines::new(alloc, source_of(PLAN, 1_000, None)).ok()?;
    let plan = decode(alloc, &mut lines).ok()?;
    let holds = Holds::none(alloc);
    let first_print = stamped(alloc, &first)?;
    let second_print = stamped(alloc, &second)?;
    let checked = accepted(rt, &plan, &archive, &first_print, &second_print, &holds)?;
    carry_through(rt, alloc, &checked, &first, &second, WORKERS).ok()
}

/// Whether both replicas have the change and the deletion, each its own conflict, and the archive the conflict as it was.
fn is_as_planned(alloc: Global, carried: &Carried) -> Option<[bool; 3]> {
    let archive = spelled(alloc, ARCHIVE_AFTER)?;
    Some([
        trees::has_text(alloc, &carried.first, FIRST_AFTER),
        trees::has_text(alloc, &carried.second, SECOND_AFTER),
        prints::has_text(alloc, &carried.archive, &archive),
    ])
}

#[test]
fn a_checked_plan_is_carried_through(rt: HostRuntime) {
    let Some(carried) = carried(&rt) else {
        panic!(rt; "the plan wasn't carried through");
    };
    assert!(rt; is_as_planned(rt.alloc(), &carried) == Some([true; 3]));
}
