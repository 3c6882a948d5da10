//! The acts of pieces, commits and marks.
ghost use Rattle.std.specs.Prelude.{◌≡◌, ◌<◌, ◌++◌, length, IfErr, OnErr, OnOk};
ghost use Rattle.ts_board.specs.Calls.{HasActed, IsFresh, IsPassOf, IsSamePart, mine, seen, terms_of, work_of};
ghost use Rattle.ts_board.specs.Runs.{StartsWith};
ghost use Rattle.ts_board.specs.Terms.{IsSited};
ghost use Rattle.ts_check.specs.Checkup.{IsCommit};
ghost use Rattle.ts_exec.specs.Acts.{HasAll, HasNone, IsActed, IsAppended, IsMadeWhole, IsPut, MayGoOn};
ghost use Rattle.ts_exec.specs.Failures.{HasRead, IsTold, MayFail};
ghost use Rattle.ts_exec.specs.Tidy.{AreTakes};
ghost use Rattle.ts_exec.specs.Sharing.{setting_of};
ghost use Rattle.ts_exec.specs.declared.fault.ActFault.TheVariants as fault;
ghost use Rattle.ts_model.specs.Plans.{KindIs};
ghost use Rattle.ts_model.specs.Runs.{IsPending, Run};
ghost use Rattle.ts_model.specs.declared.plan.Kind.TheVariants as kinds;
ghost use Rattle.ts_stage.specs.Assemblies.{HasSoFar};

use crate::fault::ActFault;
use crate::gate::Gate;
use crate::shared::Shared;
use crate::stop::Stop;
use std::alloc::{AllocError, Global};
use ts_board::{Held, Pass};
use ts_folder::Folder;
use ts_model::packed::KindRef;
use ts_name::Path;
use ts_site::Site;
use ts_stage::{Piece, Stage, Staged};

impl<'a, 'b, S: Site, F, G, P> Shared<'a, 'b, S, F, G, P>
where
    F: Folder + Sync,
    G: Gate + Stop + Sync,
    P: Stage,
{
    /// Makes the act of a claimed action, of which nothing was taken yet. After a fault it has not acted.
    pub fn act(&self, pass: &mut Pass<S>, held: &mut Held<S>) -> Result<(), ActFault>
        requires pass { IsPassOf S.content self.now.board.now pass.old }
        requires action { held.old.action < length self.now.checked.now.plan.actions }
        requires held { IsPending (mine pass.old) held.old.action }
        requires fresh { IsFresh S.content (terms_of S.content self.now.board.now) held.old }
        requires site { IsSited self.now.checked.now.plan held.old.action held.old.slot }
        requires untaken { HasNone self.now.checked.now.plan held.old.action (mine pass.old) }
        ensures pass { IsPassOf S.content self.now.board.now pass.new × IsSamePart pass.old pass.new }
        ensures seen { StartsWith (seen pass.new) (seen pass.old) }
        ensures steps { (more : Run) × (mine pass.new ≡ mine pass.old ++ more) × AreTakes self.now.checked.now.plan held.old.action more }
        ensures action { held.new.action ≡ held.old.action }
        ensures ok { OnOk result (HasActed S.content (terms_of S.content self.now.board.now) (mine pass.new) held.new) }
        ensures told { OnOk result (IsTold (setting_of S.Site F.Folder G.Stop P.Stage self.now) (seen pass.new) held.old.action (work_of held.new)) }
        ensures err { OnErr result (MayGoOn S.content (terms_of S.content self.now.board.now) (mine pass.new) held.new) }
        ensures fault { IfErr result (MayFail (setting_of S.Site F.Folder G.Stop P.Stage self.now) (seen pass.new) held.old.action) }
    {
        match self.kind(held.action()) {
            KindRef::Piece {
                entry,
                offset,
                length,
                path,
            } => self.stage(held, entry, offset, length, path),
            KindRef::Commit { entry: _ } => self.commit(pass, held),
            KindRef::Mark { entry: _ } => {
                held.mark();
                Ok(())
            }
        }
    }

    /// Stages the bytes of a piece, read in one range, and keeps what stands for them in a box. Where the file ends before the
    /// piece does they don't fit.
    fn stage(
        &self,
        held: &mut Held<S>,
        entry: u32,
        offset: u64,
        length: u64,
        path: &Path,
    ) -> Result<(), ActFault>
        requires kind { KindIs self.now.checked.now.plan held.old.action (kinds.Piece entry offset length path.now) }
        requires fresh { IsFresh S.content (terms_of S.content self.now.board.now) held.old }
        requires site { IsSited self.now.checked.now.plan held.old.action held.old.slot }
        ensures action { held.new.action ≡ held.old.action }
        ensures ok { OnOk result (IsActed S.content (terms_of S.content self.now.board.now) held.new) }
        ensures read { OnOk result (HasRead (setting_of S.Site F.Folder G.Stop P.Stage self.now) (kinds.Piece entry offset length path.now) (work_of held.new)) }
        ensures err { OnErr result (held.new ≡ held.old) }
        ensures fault { IfErr result (λ f. (r : Run) → MayFail (setting_of S.Site F.Folder G.Stop P.Stage self.now) r held.old.action f) }
    {
        let bytes = self
            .source(entry)
            .read(self.alloc, path, offset, length as u32)?;
        if bytes.len() as u64 != length {
            return Err(ActFault::Misfit);
        }
        // before anything is stored, so that what is stored can be kept
        let Ok(mut room) = room_for_a_piece(self.alloc) else {
            return Err(ActFault::OutOfMemory);
        };
        let copied = self.entry(entry);
        let piece = self.stage.store(
            self.alloc,
            held.action(),
            entry,
            copied,
            path,
            offset,
            bytes,
        )?;
        let _no_bytes = Box::replace(&mut room, piece);
        held.stage(room);
        Ok(())
    }

    /// Takes the pieces of a commit, and puts what they staged in place.
    fn commit(&self, pass: &mut Pass<S>, held: &mut Held<S>) -> Result<(), ActFault>
        requires pass { IsPassOf S.content self.now.board.now pass.old }
        requires commit { IsCommit self.now.checked.now.plan held.old.action }
        requires held { IsPending (mine pass.old) held.old.action }
        requires fresh { IsFresh S.content (terms_of S.content self.now.board.now) held.old }
        requires site { IsSited self.now.checked.now.plan held.old.action held.old.slot }
        requires untaken { HasNone self.now.checked.now.plan held.old.action (mine pass.old) }
        ensures pass { IsPassOf S.content self.now.board.now pass.new × IsSamePart pass.old pass.new }
        ensures seen { StartsWith (seen pass.new) (seen pass.old) }
        ensures steps { (more : Run) × (mine pass.new ≡ mine pass.old ++ more) × AreTakes self.now.checked.now.plan held.old.action more }
        ensures action { held.new.action ≡ held.old.action }
        ensures ok { OnOk result (HasActed S.content (terms_of S.content self.now.board.now) (mine pass.new) held.new) }
        ensures told { OnOk result (IsTold (setting_of S.Site F.Folder G.Stop P.Stage self.now) (seen pass.new) held.old.action (work_of held.new)) }
        ensures err { OnErr result (MayGoOn S.content (terms_of S.content self.now.board.now) (mine pass.new) held.new) }
        ensures fault { IfErr result (MayFail (setting_of S.Site F.Folder G.Stop P.Stage self.now) (seen pass.new) held.old.action) }
    {
        let Ok(mut staged) = self.checked.staged(self.alloc, held.action()) else {
            return Err(ActFault::OutOfMemory);
        };
        self.take_all(pass, held, &mut staged)?;
        held.commit(self.alloc, self.checked, staged)?;
        Ok(())
    }

    /// Takes what the pieces of a commit have staged, by path and then by offset.
    fn take_all(
        &self,
        pass: &mut Pass<S>,
        held: &mut Held<S>,
        staged: &mut Staged,
    ) -> Result<(), ActFault>
        requires pass { IsPassOf S.content self.now.board.now pass.old }
        requires held { IsPending (mine pass.old) held.old.action }
        requires untaken { HasNone self.now.checked.now.plan held.old.action (mine pass.old) }
        ensures pass { IsPassOf S.content self.now.board.now pass.new × IsSamePart pass.old pass.new }
        ensures seen { StartsWith (seen pass.new) (seen pass.old) }
        ensures steps { (more : Run) × (mine pass.new ≡ mine pass.old ++ more) × AreTakes self.now.checked.now.plan held.old.action more }
        ensures held { held.new ≡ held.old }
        ensures wanted { staged.new.wanted ≡ staged.old.wanted }
        ensures all { OnOk result (HasAll self.now.checked.now.plan held.old.action (mine pass.new)) }
        ensures whole { OnOk result (IsMadeWhole (setting_of S.Site F.Folder G.Stop P.Stage self.now) (seen pass.new) held.old.action staged.old staged.new) }
        ensures fault { IfErr result (λ e. e ≡ ActFault.OutOfMemory) }
    {
        let pieces = self.checked.pieces(held.action());
        for k in pieces {
            let piece = self.board.take(pass, held, *k);
            self.add(staged, *k, piece)?;
        }
        // Its rows stand in order: whoever compares them with the source's may go by paths.
        let _rows = staged.rows();
        Ok(())
    }

    /// Puts what a piece staged at the end of its file, which has all bytes before it so far.
    fn add(&self, staged: &mut Staged, k: u32, piece: Box<Piece>) -> Result<(), ActFault>
        requires { k < length self.now.checked.now.plan.actions }
        ensures wanted { staged.new.wanted ≡ staged.old.wanted }
        ensures put { OnOk result (IsPut self.now.checked.now.plan k piece.value staged.old staged.new) }
        ensures fault { IfErr result (λ e. e ≡ ActFault.OutOfMemory) }
    {
        let KindRef::Piece { path, offset, .. } = self.kind(k) else {
            return Ok(());
        };
        append(self.alloc, staged, path, offset, piece)
    }
}

/// A box for what a piece stages, with no bytes yet.
fn room_for_a_piece(alloc: Global) -> Result<Box<Piece>, AllocError> {
    Ok(Box::new(alloc, Piece::held(Vec::new(alloc)))?)
}

/// Puts a piece at the end of a file that has `offset` bytes so far. Where it hasn't, the piece is left out, and the assembly
/// isn't complete.
fn append(
    alloc: Global,
    staged: &mut Staged,
    path: &Path,
    offset: u64,
    piece: Box<Piece>,
) -> Result<(), ActFault>
    ensures wanted { staged.new.wanted ≡ staged.old.wanted }
    ensures put { OnOk result (HasSoFar staged.old path.now offset → IsAppended path.now piece.value staged.old staged.new) }
    ensures left_out { OnOk result ((¬ HasSoFar staged.old path.now offset) → staged.new ≡ staged.old) }
    ensures fault { IfErr result (λ e. e ≡ ActFault.OutOfMemory) }
{
    match staged.has_so_far(alloc, path, offset) {
        Ok(true) => {}
        Ok(false) => return Ok(()),
        Err(_) => return Err(ActFault::OutOfMemory),
    }
    match staged.put(alloc, path, offset, piece) {
        Ok(()) => Ok(()),
        Err(_) => Err(ActFault::OutOfMemory),
    }
}
