//! Replacing what lies at a place, and recovery.
ghost use Rattle.std.specs.Prelude.{◌≡◌, [], IfSome};
ghost use Rattle.ts_swap.specs.Memory.{spots_in};

use std::alloc::Global;
use ts_model::items::Items;
use ts_model::row::{Content, Row};
use ts_swap::{MemPlaces, Places, Spot, State, move_in, recover, recover_stopped, replace};
use ts_table::SubTable;

/// A file of one byte, or nothing for a dot.
fn tree(alloc: Global, byte: u8) -> Option<SubTable<Items<u8>>> {
    if byte == b'.' {
        return Some(SubTable::absent(alloc));
    }
    let bytes = Vec::from_slice(alloc, &[byte]).ok()?;
    SubTable::file(alloc, Items::new(bytes)).ok()
}

/// Which calls fail, the last first: that of number `failing` from 0 and, where `often` is set, each one after it.
fn failures(alloc: Global, failing: usize, often: bool) -> Option<Vec<bool>> {
    let mut fails = Vec::new(alloc);
    for place in 0..12_usize {
        let call = 11 - place;
        fails
            .push(call == failing || (often && call > failing))
            .ok()?;
    }
    Some(fails)
}

/// Places with this at the target, where these calls fail.
fn places(alloc: Global, original: u8, failing: usize, often: bool) -> Option<MemPlaces>
    ensures new { IfSome result (λ m. (spots_in m).new ≡ []) }
    ensures old { IfSome result (λ m. (spots_in m).old ≡ []) }
{
    let target = tree(alloc, original)?;
    let fails = failures(alloc, failing, often)?;
    Some(MemPlaces::new(alloc, target, fails, false))
}

/// The byte of the file at a spot, a dot for nothing, or a question mark.
fn shown(places: &MemPlaces, spot: Spot) -> u8 {
    byte_of(places.rows(spot))
}

fn byte_of(rows: &[Row<Items<u8>>]) -> u8 {
    match rows {
        [] => b'.',
        [row] => match &row.content {
            Content::File(bytes) => bytes.as_slice().first().copied().unwrap_or(b'?'),
            _ => b'?',
        },
        _ => b'?',
    }
}

/// What lies at the target, at the new and at the old spot.
fn all(places: &MemPlaces) -> [u8; 3] {
    [
        shown(places, Spot::Target),
        shown(places, Spot::New),
        shown(places, Spot::Old),
    ]
}

/// Whether a replacement ends, what lies there then, and how many calls failed.
fn replaced(
    alloc: Global,
    original: u8,
    wanted: u8,
    failing: usize,
) -> Option<(bool, [u8; 3], u64)> {
    let tree = tree(alloc, wanted)?;
    let mut places = places(alloc, original, failing, false)?;
    let ends = replace(&mut places, tree.rows()).is_ok();
    Some((ends, all(&places), places.failures()))
}

/// Whether what lies at the new spot moves in, what lies at the spots then, and how many calls failed.
fn moved_in(alloc: Global, original: u8, new: u8, failing: usize) -> Option<(bool, [u8; 3], u64)> {
    let state = State::new(
        tree(alloc, original)?,
        tree(alloc, new)?,
        SubTable::absent(alloc),
    );
    let fails = failures(alloc, failing, false)?;
    let mut places = MemPlaces::at(alloc, state, fails, false);
    let is_wanted = !places.rows(Spot::New).is_empty();
    let ends = move_in(&mut places, is_wanted).is_ok();
    Some((ends, all(&places), places.failures()))
}

#[test]
fn what_is_new_moves_in(rt: HostRuntime) {
    for original in [b'.', b'o'] {
        for new in [b'.', b'n'] {
            let found = moved_in(rt.alloc(), original, new, 99);
            assert!(rt; found == Some((true, [new, b'.', b'.'], 0)));
        }
    }
    // the first call moves the original aside, the second one puts the new tree in its place
    for failing in [0, 1] {
        let found = moved_in(rt.alloc(), b'o', b'n', failing);
        assert!(rt; found == Some((false, *b"o..", 1)), "{failing}");
    }
}

#[test]
fn replaces_each_kind_by_each(rt: HostRuntime) {
    for original in [b'.', b'o'] {
        for wanted in [b'.', b'n'] {
            let found = replaced(rt.alloc(), original, wanted, 99);
            assert!(rt; found == Some((true, [wanted, b'.', b'.'], 0)));
        }
    }
}

#[test]
fn one_failing_call_leaves_the_original(rt: HostRuntime) {
    // the calls of a whole replacement: write, rename, rename, remove
    for (failing, ends, want) in [
        (0, false, b"o.."),
        (1, false, b"o.."),
        (2, false, b"o.."),
        (3, true, b"n.o"),
    ] {
        let found = replaced(rt.alloc(), b'o', b'n', failing);
        assert!(rt; found == Some((ends, *want, 1)), "call {failing}");
    }
}

/// What a replacement leaves that fails from a call on, whether recovery fails at once, and what is there when it ends.
fn recovered(alloc: Global, failing: usize) -> Option<([u8; 3], bool, [u8; 3])> {
    let tree = tree(alloc, b'n')?;
    let mut places = places(alloc, b'o', failing, true)?;
    let _ = replace(&mut places, tree.rows());
    let left = all(&places);
    let fails = recover(&mut places).is_err();
    for _ in 0..12 {
        if recover(&mut places).is_ok() {
            break;
        }
    }
    Some((left, fails, all(&places)))
}

#[test]
fn recovery_ends_what_failed_for_good(rt: HostRuntime) {
    for (failing, left, ended) in [
        (0, b"on.", b"o.."),
        (1, b"on.", b"o.."),
        (2, b".no", b"o.."),
        (3, b"n.o", b"n.."),
    ] {
        let found = recovered(rt.alloc(), failing);
        assert!(rt;
            found == Some((*left, true, *ended)),
            "from call {failing} on"
        );
    }
}

/// The number of the fault of a replacement where nothing can be seen, what lies there then, and whether recovery and a look
/// fail.
fn replaced_blindly(alloc: Global) -> Option<(u8, [u8; 3], bool, bool)> {
    let tree_there = tree(alloc, b'n')?;
    let mut places = MemPlaces::new(alloc, tree(alloc, b'o')?, Vec::new(alloc), true);
    let number = match replace(&mut places, tree_there.rows()) {
        Ok(()) => 0,
        Err(fault) => fault.number(),
    };
    let there = all(&places);
    let fails = recover(&mut places).is_err();
    Some((number, there, fails, places.present(Spot::Old).is_err()))
}

#[test]
fn blind_places_fail_before_a_rename(rt: HostRuntime) {
    assert!(rt; replaced_blindly(rt.alloc()) == Some((8, *b"o..", true, true)));
}

/// Writes a tree to the new spot, if nothing is there. Whether that was done.
fn writes(places: &mut MemPlaces, tree: &SubTable<Items<u8>>) -> bool {
    match places.present(Spot::New) {
        Ok(false) => places.write(tree.rows()).is_ok(),
        _ => false,
    }
}

/// Moves what is at a spot to another one, if something is at the one and nothing at the other. Whether that was done.
fn moves(places: &mut MemPlaces, from: Spot, to: Spot) -> bool {
    match (places.present(from), places.present(to)) {
        (Ok(true), Ok(false)) => places.rename(from, to).is_ok(),
        _ => false,
    }
}

/// Writes, moves aside, moves in place and removes, and what lies at the spots after each.
fn swapped_by_hand(alloc: Global) -> Option<[[u8; 3]; 4]> {
    let tree = tree(alloc, b'n')?;
    let mut places = places(alloc, b'o', 99, false)?;
    if !writes(&mut places, &tree) {
        return None;
    }
    let written = all(&places);
    if !moves(&mut places, Spot::Target, Spot::Old) {
        return None;
    }
    let aside = all(&places);
    if !moves(&mut places, Spot::New, Spot::Target) {
        return None;
    }
    let placed = all(&places);
    places.remove(Spot::Old).ok()?;
    Some([written, aside, placed, all(&places)])
}

#[test]
fn each_call_does_its_part(rt: HostRuntime) {
    assert!(rt; swapped_by_hand(rt.alloc()) == Some([*b"on.", *b".no", *b"n.o", *b"n.."]));
}

/// What lay at the target, at the new and at the old spot.
fn stood(state: &State) -> [u8; 3] {
    [
        byte_of(state.rows(Spot::Target)),
        byte_of(state.rows(Spot::New)),
        byte_of(state.rows(Spot::Old)),
    ]
}

/// Places that stand as this, where a call fails.
fn standing(alloc: Global, state: &State, failing: usize) -> Option<MemPlaces> {
    let copy = state.copy(alloc).ok()?;
    Some(MemPlaces::at(alloc, copy, failures(alloc, failing, false)?, false))
}

/// The places of a whole replacement.
fn after_replacing(alloc: Global, original: u8, wanted: u8) -> Option<MemPlaces> {
    let tree = tree(alloc, wanted)?;
    let mut places = places(alloc, original, 99, false)?;
    replace(&mut places, tree.rows()).ok()?;
    Some(places)
}

/// The bytes of what lay at the spots at each moment of a whole replacement, one after another.
fn moments(alloc: Global, original: u8, wanted: u8) -> Option<Vec<u8>> {
    let places = after_replacing(alloc, original, wanted)?;
    let mut moments = Vec::new(alloc);
    for state in places.past() {
        moments.extend_from_slice(&stood(state)).ok()?;
    }
    moments.extend_from_slice(&all(&places)).ok()?;
    Some(moments)
}

#[test]
fn replacing_stands_so_between_its_calls(rt: HostRuntime) {
    for (original, wanted, want) in [
        (b'o', b'n', b"o..on..non.on..".as_slice()),
        (b'o', b'.', b"o....o...".as_slice()),
        (b'.', b'n', b"....n.n..".as_slice()),
        (b'.', b'.', b"...".as_slice()),
    ] {
        match moments(rt.alloc(), original, wanted) {
            Some(found) => assert!(rt; found.as_slice() == want),
            None => assert!(rt; false),
        }
    }
}

/// Whether recovery that isn't stopped leaves this at the target, and nothing at the other spots.
fn settles(alloc: Global, state: &State, want: u8) -> Option<bool> {
    let mut places = standing(alloc, state, 99)?;
    recover(&mut places).ok()?;
    Some(all(&places) == [want, b'.', b'.'])
}

/// Whether recovery leaves this at the target, and nothing at the other spots, where it was stopped before at whatever moment,
/// or where this call failed.
fn settles_at_last(alloc: Global, state: &State, failing: usize, want: u8) -> Option<bool> {
    let mut places = standing(alloc, state, failing)?;
    let _ = recover(&mut places);
    for stopped in places.past() {
        if !settles(alloc, stopped, want)? {
            return Some(false);
        }
    }
    recover(&mut places).ok()?;
    Some(all(&places) == [want, b'.', b'.'])
}

/// What recovery leaves at the target after a stop here: the new tree where it was there, or where nothing is to come in place
/// of the original, and else the original.
fn end_of(state: [u8; 3]) -> u8 {
    match state {
        [b'.', b'.', _] => b'.',
        [b'.', b'n', b'o'] => b'o',
        [b'.', b'n', _] => b'.',
        [target, _, _] => target,
    }
}

/// Whether each stop in a replacement in which this call fails, and in each recovery after it, ends settled.
fn all_settle(alloc: Global, original: u8, wanted: u8, failing: usize) -> Option<bool> {
    let tree = tree(alloc, wanted)?;
    let mut places = places(alloc, original, failing, failing == 2)?;
    let _ = replace(&mut places, tree.rows());
    for state in places.past() {
        let want = end_of(stood(state));
        for call in [0, 1, 99] {
            let is_either = want == original || want == wanted;
            if !is_either || !settles_at_last(alloc, state, call, want)? {
                return Some(false);
            }
        }
    }
    let last = all(&places);
    half_done_settles(alloc, last, end_of(last), 99)
}

#[test]
fn each_stop_is_recovered_from(rt: HostRuntime) {
    for original in [b'.', b'o'] {
        for wanted in [b'.', b'n'] {
            for failing in [0, 1, 2, 3, 4, 99] {
                let found = all_settle(rt.alloc(), original, wanted, failing);
                assert!(rt; found == Some(true), "call {failing}");
            }
        }
    }
}

/// What is there, by its bytes.
fn standing_so(alloc: Global, state: [u8; 3]) -> Option<State> {
    let [target, new, old] = state;
    Some(State::new(tree(alloc, target)?, tree(alloc, new)?, tree(alloc, old)?))
}

/// Whether recovery from here settles at last, as above.
fn half_done_settles(alloc: Global, state: [u8; 3], want: u8, failing: usize) -> Option<bool> {
    let state = standing_so(alloc, state)?;
    settles_at_last(alloc, &state, failing, want)
}

#[test]
fn what_a_stopped_call_left_half_done_is_removed(rt: HostRuntime) {
    // a stop in writing, with something at the target and with nothing there; and in removing the old one, twice
    for (state, want) in [
        (b"ox.", b'o'),
        (b".x.", b'.'),
        (b"n.x", b'n'),
        (b"..x", b'.'),
    ] {
        for failing in [0, 1, 99] {
            let found = half_done_settles(rt.alloc(), *state, want, failing);
            assert!(rt; found == Some(true));
        }
    }
}

/// What recovery leaves of each stop in a replacement, by the call that does both.
fn recovered_by_one_call(alloc: Global) -> Option<Vec<u8>> {
    let tree = tree(alloc, b'n')?;
    let mut targets = Vec::new(alloc);
    for state in after_replacing(alloc, b'o', b'n')?.past() {
        let mut places = places(alloc, b'o', 99, false)?;
        let mut stopped = standing(alloc, state, 99)?;
        recover_stopped(&mut places, tree.rows(), &mut stopped).ok()?;
        targets.push(shown(&stopped, Spot::Target)).ok()?;
    }
    Some(targets)
}

#[test]
fn one_call_replaces_and_recovers(rt: HostRuntime) {
    match recovered_by_one_call(rt.alloc()) {
        Some(targets) => assert!(rt; targets.as_slice() == b"ooon".as_slice()),
        None => assert!(rt; false),
    }
}
