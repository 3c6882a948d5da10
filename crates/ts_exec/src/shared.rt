//! What all workers share.
ghost use Rattle.std.specs.Prelude.{◌≡◌, ◌<◌, length};
ghost use Rattle.ts_exec.specs.Failures.{IsCopied, IsOfSource};
ghost use Rattle.ts_board.specs.Calls.{plan_of};
ghost use Rattle.ts_check.specs.Checkup.{snapshot_of};
ghost use Rattle.ts_model.specs.Packed.{kind_lent};
ghost use Rattle.ts_model.specs.Plans.{EntryIs, KindIs, Valid};

use std::alloc::Global;
use ts_board::Board;
use ts_check::Checked;
use ts_model::packed::KindRef;
use ts_model::plan::{Entry, Side};
use ts_site::Site;

/// What all workers share: the checked plan, its board, the folders that pieces are read from, the stage that keeps what they
/// read, and the gate, which may stop them.
#[derive(Drop)]
pub struct Shared<'a, 'b, S: Site, F, G, P> {
    pub alloc: Global,
    pub checked: &'a Checked<'a>,
    pub board: &'b Board<S>,
    pub first: &'a F,
    pub second: &'a F,
    pub gate: &'b G,
    pub stage: &'b P,
    pub ghost plan: { plan_of board.now ≡ checked.now.plan },
    pub ghost first_print: { board.now.table.shared.key.first.value ≡ checked.now.first },
    pub ghost valid: { Valid (snapshot_of checked.now) checked.now.plan },
    pub ghost second_print: { board.now.table.shared.key.second.value ≡ checked.now.second },
}

impl<'a, 'b, S: Site, F, G, P> Shared<'a, 'b, S, F, G, P> {
    /// What an action does.
    pub fn kind(&self, i: u32) -> KindRef<'a>
        requires { i < length self.now.checked.now.plan.actions }
        ensures { KindIs self.now.checked.now.plan i (kind_lent result) }
    {
        self.checked.plan().actions.as_slice()[i as usize].kind()
    }

    /// A copied entry.
    pub fn entry(&self, entry: u32) -> &'a Entry
        requires { IsCopied self.now.checked.now.plan entry }
        ensures { EntryIs self.now.checked.now.plan entry result.now }
    {
        &self.checked.plan().entries.as_slice()[entry as usize]
    }

    /// The folder that a copied entry is copied from.
    pub fn source(&self, entry: u32) -> &'a F
        requires { IsCopied self.now.checked.now.plan entry }
        ensures { IsOfSource self.now.checked.now.plan entry self.now.first.now self.now.second.now result.now }
    {
        match self.entry(entry).reason.source() {
            Some(Side::First) => self.first,
            Some(Side::Second) => self.second,
            None => unreachable!(),
        }
    }
}
