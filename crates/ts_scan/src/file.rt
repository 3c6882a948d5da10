//! The stamp of a file, read in pieces.
ghost use Rattle.std.specs.Prelude.{◌≡◌, ◌<◌, length, IfErr, IfOk, IfSome};
ghost use Rattle.ts_folder.specs.Folders.{IsFile};
ghost use Rattle.ts_model.specs.Texts.{IsTreeBody};
ghost use Rattle.ts_model.specs.Trees.{at};
ghost use Rattle.ts_scan.specs.Faults.{MayFail};
ghost use Rattle.ts_scan.specs.Files.{HasStamp};

use crate::fault::{Refusal, ScanFault, refused, told};
use sha2::{Digest, Sha256};
use std::alloc::Global;
use ts_folder::Folder;
use ts_model::row::Stamp;
use ts_name::Path;

/// The size and the SHA-256 of the file at a path, which is opened once and read through the buffer.
pub(crate) fn stamp_of_file<F: Folder>(
    folder: &F,
    alloc: Global,
    path: &Path,
    buffer: &mut [u8],
) -> Result<Stamp, ScanFault>
    requires { 0 < length buffer.old }
    ensures stamp { IfSome (F.tells folder.now) (λ tree. IfOk result (HasStamp (at tree path.now))) }
    ensures fault { IfSome (F.tells folder.now) (λ tree. IsFile (at tree path.now)) → IfErr result (MayFail (F.lets folder.now) (F.tells folder.now)) }
{
    let mut file = match folder.open_file(alloc, path) {
        Ok(file) => file,
        Err(fault) => return Err(told(alloc, path, fault)),
    };
    let mut hasher = Sha256::new();
    let mut offset = 0u64;
    loop {
        let count = match folder.fill(&mut file, offset, buffer) {
            Ok(count) => count,
            Err(fault) => return Err(told(alloc, path, fault)),
        };
        hasher.update(&buffer[..count]);
        let Some(end) = offset.checked_add(count as u64) else {
            return Err(refused(alloc, path, Refusal::Unreadable));
        };
        offset = end;
        if count < buffer.len() {
            break;
        }
    }
    Ok(Stamp {
        size: offset,
        digest: hasher.finalize(),
    })
}
