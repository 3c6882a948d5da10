//! Actions that are kept in little room.
use fixtures::path;
use std::alloc::Global;
use ts_model::packed::{KindRef, PackedAction};
use ts_model::plan::{Kind, PIECE_SIZE};
use ts_model::predecessors::Predecessors;

/// Offsets and lengths of pieces: what plans have, and what takes a box, as no file has it or no number of 32 bits holds it.
const RANGES: [(u64, u64); 10] = [
    (0, 0),
    (0, 1),
    (PIECE_SIZE, PIECE_SIZE),
    (PIECE_SIZE * 4_294_967_295, 4_294_967_295),
    (1, 1),
    (PIECE_SIZE - 1, 1),
    (PIECE_SIZE + 1, 1),
    (PIECE_SIZE * 4_294_967_296, 1),
    (0, 4_294_967_296),
    (u64::MAX, u64::MAX),
];

/// A piece of `/a` that waits for nothing.
fn piece(alloc: Global, offset: u64, length: u64) -> Option<PackedAction> {
    let kind = Kind::Piece {
        entry: 7,
        offset,
        length,
        path: path(alloc, "/a")?,
    };
    PackedAction::new(alloc, kind, Predecessors::none()).ok()
}

/// Whether an action is a piece of this range of `/a`, and waits for these.
fn is_piece(alloc: Global, action: &PackedAction, range: (u64, u64), waits: &[u32]) -> bool {
    let KindRef::Piece {
        entry,
        offset,
        length,
        path: found,
    } = action.kind()
    else {
        return false;
    };
    match path(alloc, "/a") {
        Some(wanted) => {
            entry == 7 && (offset, length) == range && *found == wanted && action.preds() == waits
        }
        None => false,
    }
}

#[test]
fn pieces_of_all_ranges_are_kept(rt: HostRuntime) {
    for (offset, length) in RANGES {
        let Some(action) = piece(rt.alloc(), offset, length) else {
            panic!(rt; "no piece from {offset} on");
        };
        assert!(rt;
            is_piece(rt.alloc(), &action, (offset, length), &[]),
            "from {offset} on"
        );
    }
}

/// A piece of this range that waits for two others, which were added one after the other.
fn waiting_piece(alloc: Global, offset: u64, length: u64) -> Option<PackedAction> {
    let mut action = piece(alloc, offset, length)?;
    action.push_pred(alloc, 3).ok()?;
    action.push_pred(alloc, 5).ok()?;
    Some(action)
}

#[test]
fn a_piece_may_wait(rt: HostRuntime) {
    for (offset, length) in RANGES {
        let Some(action) = waiting_piece(rt.alloc(), offset, length) else {
            panic!(rt; "no piece from {offset} on");
        };
        assert!(rt;
            is_piece(rt.alloc(), &action, (offset, length), &[3, 5]),
            "from {offset} on"
        );
    }
}

/// An action that waits for 1, and for 2 and 4, which are added.
fn waiting(alloc: Global, kind: Kind) -> Option<PackedAction> {
    let mut preds = Predecessors::none();
    preds.push(alloc, 1).ok()?;
    let mut action = PackedAction::new(alloc, kind, preds).ok()?;
    action.push_pred(alloc, 2).ok()?;
    action.push_pred(alloc, 4).ok()?;
    Some(action)
}

#[test]
fn a_commit_and_a_mark_wait(rt: HostRuntime) {
    let Some(commit) = waiting(rt.alloc(), Kind::Commit { entry: 8 }) else {
        panic!(rt; "no commit");
    };
    let Some(mark) = waiting(rt.alloc(), Kind::Mark { entry: 9 }) else {
        panic!(rt; "no mark");
    };
    assert!(rt; matches!(commit.kind(), KindRef::Commit { entry: 8 }));
    assert!(rt; matches!(mark.kind(), KindRef::Mark { entry: 9 }));
    assert!(rt; commit.preds() == [1u32, 2, 4].as_slice());
    assert!(rt; mark.preds() == [1u32, 2, 4].as_slice());
}
