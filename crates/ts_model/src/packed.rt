//! The actions of a plan, each in little room.
ghost use Rattle.std.specs.Prelude.{◌≡◌, ◌++◌, ◌∷◌, [], IfOk, IfSome, OnErr, OnOk, ◌*◌, ◌<◌, ◌^◌};
ghost use Rattle.ts_model.specs.Packed.{kind_lent};
ghost use Rattle.ts_model.specs.Packing.{action_in};
ghost use Rattle.ts_model.specs.Plans.{piece_size};
ghost use Rattle.ts_model.specs.declared.plan.Kind.TheVariants as kind;

use crate::plan::{Action, Kind, PIECE_SIZE};
use crate::predecessors::Predecessors;
use std::alloc::{AllocError, Global};
use std::marker::Model;
use ts_name::Path;

/// What an action does, as a plan lends it.
#[derive(Clone, Copy)]
pub enum KindRef<'a> {
    /// Stages `length` bytes from `offset` on of the source's file at `path`.
    Piece {
        entry: u32,
        offset: u64,
        length: u64,
        path: &'a Path,
    },
    /// Replaces what the target has at the entry's path and below it by what the source has.
    Commit {
        entry: u32,
    },
    /// Brings the archive up to date at the entry's path.
    Mark {
        entry: u32,
    },
}

/// How an action is kept. A plan may have a million of them, so what nearly all are takes 32 bytes.
#[derive(Drop)]
pub(crate) enum Form {
    /// A piece that waits for nothing, and begins with the block of this number, each as long as a whole piece.
    Piece {
        entry: u32,
        block: u32,
        length: u32,
        path: Path,
    },
    Commit {
        entry: u32,
        preds: Predecessors,
    },
    Mark {
        entry: u32,
        preds: Predecessors,
    },
    /// Any other piece, elsewhere.
    Other(Box<Action>),
}

/// An action of a plan, which contracts see as what it does and what it waits for.
pub struct PackedAction {
    pub(crate) form: Form,
}

// Written out, so that a proof about what drops one calls a function.
impl Drop for PackedAction {
    fn drop(self) {
        let PackedAction { form } = self;
        drop(form);
    }
}

impl Model for PackedAction {
    ghost use Rattle.ts_model.specs.declared.plan.Action.{Action};

    ghost Value = { Action };

    ghost use Rattle.ts_model.specs.Packing.{action_in};

    ghost view = { λ s. action_in s.form };
}

/// The number of the block that begins at this offset, if one does and its number is short.
fn block_at(offset: u64) -> Option<u32>
    ensures { IfSome result (λ block. offset ≡ block * piece_size) }
{
    if offset % PIECE_SIZE != 0 {
        return None;
    }
    u32::try_from(offset / PIECE_SIZE).ok()
}

/// Where the block of this number begins.
fn start_of(block: u32) -> u64
    ensures { result ≡ block * piece_size }
{
    u64::from(block) * PIECE_SIZE
}

/// How a piece is kept.
fn piece_form(
    alloc: Global,
    entry: u32,
    offset: u64,
    length: u64,
    path: Path,
    preds: Predecessors,
) -> Result<Form, AllocError>
    ensures { IfOk result (λ form. action_in form ≡ record { kind = kind.Piece entry offset length path; preds = preds }) }
{
    if preds.as_slice().is_empty()
        && let Some(block) = block_at(offset)
        && let Ok(length) = u32::try_from(length)
    {
        return Ok(Form::Piece {
            entry,
            block,
            length,
            path,
        });
    }
    let kind = Kind::Piece {
        entry,
        offset,
        length,
        path,
    };
    Ok(Form::Other(Box::new(alloc, Action { kind, preds })?))
}

impl PackedAction {
    /// An action that does this and waits for these. A piece that waits for something, or that isn't a block's beginning, needs a
    /// box of its own: `AllocError` where memory runs out for it.
    pub fn new(alloc: Global, kind: Kind, preds: Predecessors) -> Result<PackedAction, AllocError>
        ensures { IfOk result (λ packed. packed ≡ record { kind = kind; preds = preds }) }
    {
        let form = match kind {
            Kind::Piece {
                entry,
                offset,
                length,
                path,
            } => piece_form(alloc, entry, offset, length, path, preds)?,
            Kind::Commit { entry } => Form::Commit { entry, preds },
            Kind::Mark { entry } => Form::Mark { entry, preds },
        };
        Ok(PackedAction { form })
    }

    /// What the action does. It takes no memory.
    pub fn kind(&self) -> KindRef<'_>
        ensures { kind_lent result ≡ self.entry.now.kind }
    {
        match &self.form {
            Form::Piece {
                entry,
                block,
                length,
                path,
            } => KindRef::Piece {
                entry: *entry,
                offset: start_of(*block),
                length: u64::from(*length),
                path,
            },
            Form::Commit { entry, .. } => KindRef::Commit { entry: *entry },
            Form::Mark { entry, .. } => KindRef::Mark { entry: *entry },
            Form::Other(other) => other.kind.lend(),
        }
    }

    /// The numbers of the actions that it waits for. It takes no memory.
    pub fn preds(&self) -> &[u32]
        ensures { result.now ≡ self.now.preds }
    {
        match &self.form {
            Form::Piece { .. } => &[],
            Form::Commit { preds, .. } | Form::Mark { preds, .. } => preds.as_slice(),
            Form::Other(other) => other.preds.as_slice(),
        }
    }

    /// Adds a number at the end of those that it waits for. Where memory runs out nothing changes.
    pub fn push_pred(&mut self, alloc: Global, number: u32) -> Result<(), AllocError>
        ensures ok { OnOk result (self.new ≡ record { kind = self.old.kind; preds = self.old.preds ++ number ∷ [] }) }
        ensures err { OnErr result (self.new ≡ self.old) }
    {
        match &mut self.form {
            Form::Commit { preds, .. } => preds.push(alloc, number),
            Form::Mark { preds, .. } => preds.push(alloc, number),
            Form::Other(other) => other.preds.push(alloc, number),
            Form::Piece {
                entry,
                block,
                length,
                path,
            } => {
                let kind = Kind::Piece {
                    entry: *entry,
                    offset: start_of(*block),
                    length: u64::from(*length),
                    path: path.copy(alloc)?,
                };
                let mut preds = Predecessors::none();
                preds.push(alloc, number)?;
                self.form = Form::Other(Box::new(alloc, Action { kind, preds })?);
                Ok(())
            }
        }
    }
}
