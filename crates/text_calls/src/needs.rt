//! Whether entries are just the paths that need attention, each with its reason.
ghost use Rattle.std.specs.Prelude.{IfSome};
ghost use Rattle.ts_model.specs.Plans.{IsOutOfOrder};
ghost use Rattle.ts_need.specs.Needs.{Never};

use crate::shared::{Scene, World, path, scene_of};
use std::alloc::Global;
use ts_model::plan::{Entry, PlanRule, Reason};
use ts_need::first_wrong;

const OLD: &[u8] = b"f /a 1 aaaaaaaaaaaaaaaaaaaaaaaaaaaaaaaaaaaaaaaaaaaaaaaaaaaaaaaaaaaaaaaa";

const NEW: &[u8] = b"f /a 1 bbbbbbbbbbbbbbbbbbbbbbbbbbbbbbbbbbbbbbbbbbbbbbbbbbbbbbbbbbbbbbbb";

const OTHER: &[u8] = b"f /a 2 cccccccccccccccccccccccccccccccccccccccccccccccccccccccccccccccc";

/// An entry of a path for a reason, or none where there is no reason.
fn entries_of(alloc: Global, text: &[u8], reason: Option<Reason>) -> Option<Vec<Entry>>
    ensures { IfSome result (λ entries. Never (IsOutOfOrder entries.items)) }
{
    let mut entries = Vec::new(alloc);
    if let Some(reason) = reason {
        let path = path(alloc, text)?;
        entries.push(Entry { path, reason }).ok()?;
    }
    Some(entries)
}

/// What is found wrong with these entries.
fn verdict(alloc: Global, scene: &Scene, entries: Vec<Entry>) -> Option<Option<(PlanRule, u64)>>
    requires { Never (IsOutOfOrder entries.items) }
{
    match first_wrong(
        alloc,
        &entries,
        &scene.archive,
        &scene.first,
        &scene.second,
        &scene.holds,
    ) {
        Ok(Some(broken)) => Some(Some((broken.rule, broken.place))),
        Ok(None) => Some(None),
        Err(_) => None,
    }
}

/// What is found wrong with an entry of a path for a reason, or with none where there is no reason.
fn wrong_with(
    alloc: Global,
    scene: &Scene,
    text: &[u8],
    reason: Option<Reason>,
) -> Option<Option<(PlanRule, u64)>> {
    let entries = entries_of(alloc, text, reason)?;
    verdict(alloc, scene, entries)
}

/// The one reason with which `/a` is accepted as the only entry.
fn reason_of(alloc: Global, world: &World<'_>) -> Option<Reason> {
    let scene = scene_of(alloc, world)?;
    let mut accepted = None;
    for reason in [
        Reason::Same,
        Reason::First,
        Reason::Second,
        Reason::Conflict,
        Reason::Held,
        Reason::Dir,
    ] {
        if wrong_with(alloc, &scene, b"/a", Some(reason))?.is_none() {
            accepted = Some(reason);
        }
    }
    accepted
}

#[test]
fn each_path_has_one_reason(rt: HostRuntime) {
    // the archive, both replicas, the hold rules and the reason
    let cases: [(&[&[u8]], &[&[u8]], &[&[u8]], &[u8], Reason); 5] = [
        (&[OLD], &[NEW], &[OLD], b"path /a\n", Reason::Held),
        (&[OLD], &[NEW], &[OTHER], b"path /a\n", Reason::Conflict),
        (&[OLD], &[NEW], &[NEW], b"path /a\n", Reason::Same),
        (&[OLD], &[OLD], &[NEW], b"path /b\n", Reason::Second),
        (&[], &[b"d /a"], &[b"d /a"], b"name a\n", Reason::Dir),
    ];
    for (archive, first, second, rules, reason) in cases {
        let world = World {
            archive,
            first,
            second,
            rules,
        };
        assert!(rt; reason_of(rt.alloc(), &world) == Some(reason));
    }
}

/// What is found wrong where the first replica has this line, and both other sides have the old one.
fn wrong_at(
    alloc: Global,
    first: &[u8],
    text: &[u8],
    reason: Option<Reason>,
) -> Option<Option<(PlanRule, u64)>> {
    let world = World {
        archive: &[OLD],
        first: &[first],
        second: &[OLD],
        rules: b"",
    };
    wrong_with(alloc, &scene_of(alloc, &world)?, text, reason)
}

#[test]
fn a_path_with_a_reason_has_to_be_an_entry(rt: HostRuntime) {
    let alloc = rt.alloc();
    let wrong = wrong_at(alloc, NEW, b"/b", Some(Reason::First));
    assert!(rt; wrong == Some(Some((PlanRule::ReasonsHold, 0))));
    let wrong = wrong_at(alloc, NEW, b"", None);
    assert!(rt; wrong == Some(Some((PlanRule::EntriesComplete, 0))));
    assert!(rt; wrong_at(alloc, OLD, b"", None) == Some(None));
}
