//! A site in a box.
use crate::fault::SiteFault;
use crate::site::Site;
use std::alloc::Global;
use std::snapshot::Snapshot;
use ts_print::SubPrint;
use ts_stage::Staged;

/// A box of a site is that site. A board has a slot for each action of its plan, and with sites in boxes each has room for no more
/// than a pointer.
impl<S: Site> Site for Box<S> {
    ghost content = { λ s. S.content s.value };

    ghost failures = { λ s. S.failures s.value };

    fn commit(
        &mut self,
        alloc: Global,
        before: &SubPrint<'_>,
        staged: Staged,
    ) -> Result<Snapshot<Staged>, SiteFault> {
        self.as_mut().commit(alloc, before, staged)
    }
}
