//! Values that the tests begin with.
ghost use Rattle.std.specs.Prelude.{IfSome};
ghost use Rattle.ts_model.specs.Texts.{IsPlan};

use fixtures::print_of;
use std::alloc::Global;
use ts_hold::Holds;
use ts_model::plan::Plan;
use ts_name::Path;
use ts_plan::decode;
use ts_print::Print;
use ts_text::{Counted, Lines};

pub(crate) fn path(alloc: Global, text: &[u8]) -> Option<Path> {
    Path::parse_text(alloc, text).ok()
}

/// The plan of this text.
pub(crate) fn plan_of(alloc: Global, text: &[u8]) -> Option<Plan>
    ensures { IfSome result (λ plan. IsPlan plan) }
{
    let mut lines = Lines::new(alloc, Counted::new(text)).ok()?;
    decode(alloc, &mut lines).ok()
}

/// The lines of the archive and of both replicas, and the text of the hold rules.
#[derive(Drop)]
pub(crate) struct World<'a> {
    pub(crate) archive: &'a [&'a [u8]],
    pub(crate) first: &'a [&'a [u8]],
    pub(crate) second: &'a [&'a [u8]],
    pub(crate) rules: &'a [u8],
}

/// What these texts spell.
#[derive(Drop)]
pub(crate) struct Scene {
    pub(crate) archive: Print,
    pub(crate) first: Print,
    pub(crate) second: Print,
    pub(crate) holds: Holds,
}

pub(crate) fn scene_of(alloc: Global, world: &World<'_>) -> Option<Scene> {
    let archive = print_of(alloc, world.archive)?;
    let first = print_of(alloc, world.first)?;
    let second = print_of(alloc, world.second)?;
    let holds = Holds::parse(alloc, world.rules).ok()?;
    Some(Scene {
        archive,
        first,
        second,
        holds,
    })
}

/// So many times the text.
pub(crate) fn repeated(alloc: Global, text: &[u8], count: usize) -> Option<Vec<u8>> {
    let mut bytes = Vec::new(alloc);
    for _ in 0..count {
        bytes.extend_from_slice(text).ok()?;
    }
    Some(bytes)
}
