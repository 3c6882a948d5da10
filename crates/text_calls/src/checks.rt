//! Whether a plan is valid, and what a checked plan tells.
use crate::plans::NEW_DIRECTORY;
use crate::shared::{Scene, World, plan_of, scene_of};
use std::alloc::Global;
use std::thread::Threads;
use ts_check::{CheckFault, Checked, check};
use ts_model::items::Items;
use ts_model::plan::{Entry, Plan, PlanRule, Reason};
use ts_name::Path;

/// What is found wrong with a plan.
fn verdict<R: Threads + AllocGlobal + Sync>(
    rt: &R,
    scene: &Scene,
    plan: &Plan,
) -> Option<Option<(PlanRule, u64)>> {
    match check(
        rt,
        rt.alloc(),
        plan,
        &scene.archive,
        &scene.first,
        &scene.second,
        &scene.holds,
    ) {
        Ok(_) => Some(None),
        Err(CheckFault::Broken { rule, place }) => Some(Some((rule, place))),
        Err(_) => None,
    }
}

/// Nothing anywhere.
const NOTHING: World<'static> = World {
    archive: &[],
    first: &[],
    second: &[],
    rules: b"",
};

/// What is found wrong with the plan of this text where nothing is anywhere.
fn verdict_of_text<R: Threads + AllocGlobal + Sync>(
    rt: &R,
    text: &[u8],
) -> Option<Option<(PlanRule, u64)>> {
    let alloc = rt.alloc();
    let plan = plan_of(alloc, text)?;
    verdict(rt, &scene_of(alloc, &NOTHING)?, &plan)
}

#[test]
fn a_plan_keeps_the_rules(rt: HostRuntime) {
    let cases: [(&[u8], Option<(PlanRule, u64)>); 4] = [
        (b"twosync-plan 1\nend 0 0\n", None),
        // an entry without a reason
        (
            b"twosync-plan 1\nentry first /a\nend 1 0\n",
            Some((PlanRule::ReasonsHold, 0)),
        ),
        // a commit of no entry
        (
            b"twosync-plan 1\ncommit 0\nend 0 1\n",
            Some((PlanRule::OneCommit, 0)),
        ),
        // an action that waits for itself
        (
            b"twosync-plan 1\nmark 0\np 0\nend 0 1\n",
            Some((PlanRule::PredsAscend, 0)),
        ),
    ];
    for (text, want) in cases {
        assert!(rt; verdict_of_text(&rt, text) == Some(want));
    }
}

/// One entry more than a plan may have.
fn too_many_entries(alloc: Global) -> Option<Vec<Entry>> {
    let mut entries = Vec::new(alloc);
    for _ in 0..1_048_577u32 {
        let path = Path::root(alloc);
        let reason = Reason::Same;
        entries.push(Entry { path, reason }).ok()?;
    }
    Some(entries)
}

/// What is found wrong with the plan of too many entries and no actions where nothing is anywhere.
fn verdict_of_too_many<R: Threads + AllocGlobal + Sync>(rt: &R) -> Option<Option<(PlanRule, u64)>> {
    let alloc = rt.alloc();
    let scene = scene_of(alloc, &NOTHING)?;
    let plan = Plan {
        entries: Items::new(too_many_entries(alloc)?),
        actions: Items::new(Vec::new(alloc)),
    };
    verdict(rt, &scene, &plan)
}

#[test]
fn too_many_entries_are_past_a_limit(rt: HostRuntime) {
    assert!(rt; verdict_of_too_many(&rt) == Some(Some((PlanRule::Limits, 0))));
}

/// A directory that both replicas have new, with one file in each.
const TWO_NEW_FILES: World<'static> = World {
    archive: &[],
    first: &[
        b"d /d",
        b"f /d/x 1 aaaaaaaaaaaaaaaaaaaaaaaaaaaaaaaaaaaaaaaaaaaaaaaaaaaaaaaaaaaaaaaa",
    ],
    second: &[
        b"d /d",
        b"f /d/y 1 bbbbbbbbbbbbbbbbbbbbbbbbbbbbbbbbbbbbbbbbbbbbbbbbbbbbbbbbbbbbbbbb",
    ],
    rules: b"",
};

/// The plan for them with another byte at a place, where that is a plan.
fn plan_with(alloc: Global, place: usize, byte: u8) -> Option<Plan> {
    let mut text = Vec::from_slice(alloc, NEW_DIRECTORY).ok()?;
    *text.get_mut(place)? = byte;
    plan_of(alloc, &text)
}

/// Whether each plan that differs in a byte is refused by a rule, and the plan itself is accepted.
fn judges<R: Threads + AllocGlobal + Sync>(rt: &R, scene: &Scene, place: usize, was: u8) -> bool {
    let alloc = rt.alloc();
    [b'0', b' ', b'\n'].into_iter().all(|byte| match plan_with(alloc, place, byte) {
        Some(plan) => match verdict(rt, scene, &plan) {
            Some(broken) => broken.is_none() == (byte == was),
            None => false,
        },
        None => byte != was,
    })
}

#[test]
fn a_plan_with_another_byte_is_refused_by_a_rule(rt: HostRuntime) {
    let Some(scene) = scene_of(rt.alloc(), &TWO_NEW_FILES) else {
        panic!(rt; "no scene");
    };
    for (place, was) in NEW_DIRECTORY.iter().enumerate() {
        assert!(rt; judges(&rt, &scene, place, *was), "{place}");
    }
}

/// What the actions wait for, and what waits for them.
fn tells_waits(checked: &Checked<'_>) -> bool {
    checked.action_count() == 3
        && checked.preds(1) == [0u32].as_slice()
        && checked.preds(3).is_empty()
        && checked.successors(1) == [2u32].as_slice()
        && checked.successors(2).is_empty()
}

/// The pieces of the commits.
fn tells_pieces(checked: &Checked<'_>) -> bool {
    !checked.is_commit(0)
        && checked.is_commit(1)
        && checked.pieces(1) == [0u32].as_slice()
        && checked.pieces(2).is_empty()
        && checked.commit_of(0) == Some(1)
        && checked.commit_of(2) == None
}

/// What the plan was checked against.
fn tells_given(checked: &Checked<'_>) -> bool {
    checked.plan().entries.as_slice().len() == 1
        && checked.archive().rows().is_empty()
        && checked.first().rows().len() == 1
        && checked.second().rows().is_empty()
}

/// Both sides of the commit.
fn tells_sides(alloc: Global, checked: &Checked<'_>) -> bool {
    if !checked.is_commit(1) {
        return false;
    }
    let Ok(staged) = checked.staged(alloc, 1) else {
        return false;
    };
    staged.rows().len() == 1
        && checked.before(1).rows().is_empty()
        && checked.after(1).rows().len() == 1
}

/// What is said of a plan that copies the one file of the first replica.
fn told<R: Threads + AllocGlobal + Sync>(rt: &R) -> Option<[bool; 4]> {
    let alloc = rt.alloc();
    let plan = plan_of(
        alloc,
        b"twosync-plan 1\nentry first /a\npiece 0 0 1 /a\ncommit 0\np 0\nmark 0\np 1\nend 1 3\n",
    )?;
    let world = World {
        archive: &[],
        first: &[b"f /a 1 aaaaaaaaaaaaaaaaaaaaaaaaaaaaaaaaaaaaaaaaaaaaaaaaaaaaaaaaaaaaaaaa"],
        second: &[],
        rules: b"",
    };
    let scene = scene_of(alloc, &world)?;
    let checked = accepted(rt, &scene, &plan)?;
    Some([
        tells_waits(&checked),
        tells_pieces(&checked),
        tells_given(&checked),
        tells_sides(alloc, &checked),
    ])
}

fn accepted<'a, R: Threads + AllocGlobal + Sync>(
    rt: &R,
    scene: &'a Scene,
    plan: &'a Plan,
) -> Option<Checked<'a>> {
    check(
        rt,
        rt.alloc(),
        plan,
        &scene.archive,
        &scene.first,
        &scene.second,
        &scene.holds,
    )
    .ok()
}

#[test]
fn a_checked_plan_tells_of_its_actions(rt: HostRuntime) {
    assert!(rt; told(&rt) == Some([true; 4]));
}
