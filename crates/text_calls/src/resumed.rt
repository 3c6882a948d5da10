//! Plans for what is there now.
use crate::shared::{World, scene_of};
use std::alloc::Global;
use ts_model::packed::KindRef;
use ts_model::plan::{Plan, Reason};
use ts_plan_build::{BuildFault, resume};
use ts_text::push_decimal;

// The digests are those of the bytes `a`, `b` and `c`.

const A: &[u8] = b"f /a 1 ca978112ca1bbdcafac231b39a23dc4da786eff8147c4e72b9807785afee48bb";

const A_CHANGED: &[u8] = b"f /a 1 3e23e8160039594a33894f6564e1b1348bbd7a0088d42c4acb73eeaed59c009d";

const A_CHANGED_TOO: &[u8] =
    b"f /a 1 2e7d2c03a9507ae265ecf5b5356885a53393a2029d241394997265a1a25aefc6";

const A_B: &[u8] = b"f /a/b 1 3e23e8160039594a33894f6564e1b1348bbd7a0088d42c4acb73eeaed59c009d";

const A_LONGER: &[u8] =
    b"f /a 1048577 3e23e8160039594a33894f6564e1b1348bbd7a0088d42c4acb73eeaed59c009d";

const D_X: &[u8] = b"f /d/x 1 ca978112ca1bbdcafac231b39a23dc4da786eff8147c4e72b9807785afee48bb";

const D_X_CHANGED: &[u8] =
    b"f /d/x 1 3e23e8160039594a33894f6564e1b1348bbd7a0088d42c4acb73eeaed59c009d";

const D_Y: &[u8] = b"f /d/y 1 3e23e8160039594a33894f6564e1b1348bbd7a0088d42c4acb73eeaed59c009d";

const N_X: &[u8] = b"f /n/x.o 1 ca978112ca1bbdcafac231b39a23dc4da786eff8147c4e72b9807785afee48bb";

const EMPTY: &[u8] = b"f /e 0 ca978112ca1bbdcafac231b39a23dc4da786eff8147c4e72b9807785afee48bb";

const WHOLE: &[u8] =
    b"f /f 1048576 3e23e8160039594a33894f6564e1b1348bbd7a0088d42c4acb73eeaed59c009d";

const LONGER: &[u8] =
    b"f /g 1048577 2e7d2c03a9507ae265ecf5b5356885a53393a2029d241394997265a1a25aefc6";

fn word_of(reason: Reason) -> &'static [u8] {
    match reason {
        Reason::Same => b"entry same ",
        Reason::First => b"entry first ",
        Reason::Second => b"entry second ",
        Reason::Conflict => b"entry conflict ",
        Reason::Held => b"entry held ",
        Reason::Dir => b"entry dir ",
    }
}

/// Puts a word and a number behind it.
fn push_number(out: &mut Vec<u8>, word: &[u8], number: u64) -> Option<()> {
    out.extend_from_slice(word).ok()?;
    push_decimal(out, number).ok()
}

fn push_kind(out: &mut Vec<u8>, kind: KindRef<'_>) -> Option<()> {
    match kind {
        KindRef::Piece {
            entry,
            offset,
            length,
            path,
        } => {
            push_number(out, b"piece ", u64::from(entry))?;
            push_number(out, b" ", offset)?;
            push_number(out, b" ", length)?;
            out.push(b' ').ok()?;
            path.write_text(out).ok()
        }
        KindRef::Commit { entry } => push_number(out, b"commit ", u64::from(entry)),
        KindRef::Mark { entry } => push_number(out, b"mark ", u64::from(entry)),
    }
}

fn push_preds(out: &mut Vec<u8>, preds: &[u32]) -> Option<()> {
    for number in preds {
        push_number(out, b"\np ", u64::from(*number))?;
    }
    out.push(b'\n').ok()
}

/// The lines of a plan, without its title and its end.
fn lines_of(alloc: Global, plan: &Plan) -> Option<Vec<u8>> {
    let mut out = Vec::new(alloc);
    for entry in plan.entries.as_slice() {
        out.extend_from_slice(word_of(entry.reason)).ok()?;
        entry.path.write_text(&mut out).ok()?;
        out.push(b'\n').ok()?;
    }
    for action in plan.actions.as_slice() {
        push_kind(&mut out, action.kind())?;
        push_preds(&mut out, action.preds())?;
    }
    Some(out)
}

/// The plan for what is there.
fn plan_for(alloc: Global, world: &World<'_>) -> Option<Result<Plan, BuildFault>> {
    let scene = scene_of(alloc, world)?;
    Some(resume(
        alloc,
        &scene.archive,
        &scene.first,
        &scene.second,
        &scene.holds,
    ))
}

/// Whether the plan has these lines.
fn has_lines(alloc: Global, plan: &Plan, want: &[u8]) -> bool {
    match lines_of(alloc, plan) {
        Some(lines) => lines.as_slice() == want,
        None => false,
    }
}

/// Whether the plan for what is there has these lines.
fn is_planned(alloc: Global, world: &World<'_>, want: &[u8]) -> bool {
    match plan_for(alloc, world) {
        Some(Ok(plan)) => has_lines(alloc, &plan, want),
        _ => false,
    }
}

/// The archive, both replicas, the hold rules, and the lines of the plan.
type Case = (
    &'static [&'static [u8]],
    &'static [&'static [u8]],
    &'static [&'static [u8]],
    &'static [u8],
    &'static [u8],
);

/// One file on either side.
const FILES: &[Case] = &[
    (&[], &[], &[], b"", b""),
    (
        &[],
        &[A],
        &[],
        b"",
        b"entry first /a\npiece 0 0 1 /a\ncommit 0\np 0\nmark 0\np 1\n",
    ),
    (
        &[A],
        &[],
        &[A],
        b"",
        b"entry first /a\ncommit 0\nmark 0\np 0\n",
    ),
    // a change on one side: the pieces are those of the changed file
    (
        &[A],
        &[A_LONGER],
        &[A],
        b"",
        b"entry first /a\npiece 0 0 1048576 /a\npiece 0 1048576 1 /a\ncommit 0\np 0\np 1\nmark 0\np 2\n",
    ),
    (
        &[A_LONGER],
        &[A_LONGER],
        &[A],
        b"",
        b"entry second /a\npiece 0 0 1 /a\ncommit 0\np 0\nmark 0\np 1\n",
    ),
    // different changes
    (
        &[A],
        &[A_CHANGED],
        &[A_CHANGED_TOO],
        b"",
        b"entry conflict /a\n",
    ),
    (
        &[A],
        &[A_CHANGED],
        &[A_CHANGED_TOO],
        b"path /a\n",
        b"entry conflict /a\n",
    ),
    // the same change
    (
        &[A],
        &[A_CHANGED],
        &[A_CHANGED],
        b"",
        b"entry same /a\nmark 0\n",
    ),
    (
        &[A],
        &[A_CHANGED],
        &[A_CHANGED],
        b"path /a\n",
        b"entry same /a\nmark 0\n",
    ),
    // a held change
    (&[A], &[A_CHANGED], &[A], b"path /a\n", b"entry held /a\n"),
    // files are cut into pieces
    (
        &[],
        &[EMPTY, WHOLE, LONGER],
        &[],
        b"",
        b"entry first /e\nentry first /f\nentry first /g\n\
commit 0\nmark 0\np 0\n\
piece 1 0 1048576 /f\ncommit 1\np 2\nmark 1\np 3\n\
piece 2 0 1048576 /g\npiece 2 1048576 1 /g\ncommit 2\np 5\np 6\nmark 2\np 7\n",
    ),
];

/// Directories on either side.
const DIRS: &[Case] = &[
    // a deletion against a change inside
    (
        &[b"d /d", D_X],
        &[],
        &[b"d /d", D_X_CHANGED],
        b"",
        b"entry conflict /d\n",
    ),
    // a new directory on both sides
    (
        &[],
        &[b"d /d", D_X],
        &[b"d /d", D_Y],
        b"",
        b"entry dir /d\nentry first /d/x\nentry second /d/y\n\
mark 0\n\
piece 1 0 1 /d/x\ncommit 1\np 1\nmark 1\np 0\np 2\n\
piece 2 0 1 /d/y\ncommit 2\np 4\nmark 2\np 0\np 5\n",
    ),
    // a file becomes a directory
    (
        &[A],
        &[b"d /a", A_B],
        &[A],
        b"",
        b"entry first /a\npiece 0 0 1 /a/b\ncommit 0\np 0\nmark 0\np 1\n",
    ),
    // the same run was stopped after its commit and before its mark
    (
        &[A],
        &[b"d /a", A_B],
        &[b"d /a", A_B],
        b"",
        b"entry dir /a\nentry same /a/b\nmark 0\nmark 1\np 0\n",
    ),
    // a new directory with a held file
    (&[], &[b"d /n", N_X], &[], b"name *.o\n", b"entry held /n\n"),
];

fn is_case(alloc: Global, case: &Case) -> bool {
    let (archive, first, second, rules, want) = *case;
    let world = World {
        archive,
        first,
        second,
        rules,
    };
    is_planned(alloc, &world, want)
}

#[test]
fn what_is_there_has_its_plan(rt: HostRuntime) {
    for case in FILES {
        assert!(rt; is_case(rt.alloc(), case));
    }
    for case in DIRS {
        assert!(rt; is_case(rt.alloc(), case));
    }
}

/// How many actions the plan has where the first replica has this one new file, None where it is past a limit.
fn actions_for(alloc: Global, line: &[u8]) -> Option<Option<usize>> {
    let world = World {
        archive: &[],
        first: &[line],
        second: &[],
        rules: b"",
    };
    match plan_for(alloc, &world)? {
        Ok(plan) => Some(Some(plan.actions.as_slice().len())),
        Err(BuildFault::PastLimit) => Some(None),
        Err(_) => None,
    }
}

/// As many pieces as leave room for a commit and a mark.
const MOST: &[u8] =
    b"f /a 1099509530624 ca978112ca1bbdcafac231b39a23dc4da786eff8147c4e72b9807785afee48bb";

const ONE_MORE: &[u8] =
    b"f /a 1099509530625 ca978112ca1bbdcafac231b39a23dc4da786eff8147c4e72b9807785afee48bb";

const GREATEST: &[u8] =
    b"f /a 18446744073709551615 ca978112ca1bbdcafac231b39a23dc4da786eff8147c4e72b9807785afee48bb";

#[test]
fn a_plan_is_refused_past_the_limit_alone(rt: HostRuntime) {
    assert!(rt; actions_for(rt.alloc(), MOST) == Some(Some(1_048_576)));
    assert!(rt; actions_for(rt.alloc(), ONE_MORE) == Some(None));
    assert!(rt; actions_for(rt.alloc(), GREATEST) == Some(None));
    assert!(rt; BuildFault::OutOfMemory.number() == 1);
    assert!(rt; BuildFault::PastLimit.number() == 12);
}
