//! One name of a path.
ghost use Rattle.std.specs.Prelude.{◌≡◌, ◌≢◌, ◌⊎◌, ◌↔◌, All, IfOk, IsErrOf, IsTrue, IsUtf8, codes};
ghost use Rattle.ts_name.specs.Paths.{IsName};

use crate::bytes::Bytes;
use crate::faults::NameFault;
use std::alloc::Global;
use std::marker::Model;
use std::str;

/// The name of a file or a directory: UTF-8 of 1 to 255 bytes without `/` and the zero byte, and none of `.`, `..` and
/// `.twosync`.
#[derive(Debug)]
pub struct Name {
    pub(crate) bytes: Bytes,
}

impl Model for Name {
    ghost use Rattle.std.specs.Prelude.{List, ℕ};
    ghost use Rattle.std.specs.Coded.{coded_ℕ, coded_list};
    ghost use Rattle.ts_name.specs.Paths.{IsName};

    ghost Value = { List ℕ };

    ghost coded = { coded_list coded_ℕ };

    ghost view = { λ n. n.bytes };

    ghost invariant = { λ n. IsName n.bytes };
}

impl Drop for Name {
    fn drop(self) {
        let Name { bytes } = self;
        drop(bytes);
    }
}

impl Name {
    /// The name of these bytes, or `BadName` where they are none.
    pub fn parse(alloc: Global, bytes: &[u8]) -> Result<Name, NameFault>
        ensures ok { IfOk result (λ name. (name ≡ bytes.now) × IsName bytes.now) }
        ensures bad_name { IsErrOf result NameFault.BadName ↔ (¬ IsName bytes.now) }
    {
        if !is_name(bytes) {
            return Err(NameFault::BadName);
        }
        let shared = Bytes::share(alloc, Vec::from_slice(alloc, bytes)?)?;
        Ok(Name { bytes: shared })
    }

    /// The name's bytes.
    pub fn as_bytes(&self) -> &[u8]
        ensures value { result.now ≡ self.now }
        ensures lawful { IsName self.now }
    {
        self.bytes.as_slice()
    }
}

/// Whether the bytes are a name.
pub(crate) fn is_name(bytes: &[u8]) -> bool
    ensures { IsTrue result ↔ IsName bytes.now }
{
    if bytes.is_empty() || bytes.len() > 255 {
        return false;
    }
    if is_reserved(bytes) || !is_plain(bytes) {
        return false;
    }
    is_utf8(bytes)
}

/// Whether this is one of the three names that no file has.
fn is_reserved(bytes: &[u8]) -> bool
    ensures { IsTrue result ↔ ((bytes.now ≡ codes ".") ⊎ ((bytes.now ≡ codes "..") ⊎ (bytes.now ≡ codes ".twosync"))) }
{
    bytes == b".".as_slice() || bytes == b"..".as_slice() || bytes == b".twosync".as_slice()
}

/// Whether there is no `/` and no zero byte.
fn is_plain(bytes: &[u8]) -> bool
    ensures { IsTrue result ↔ All (λ b. (b ≢ 47) × (b ≢ 0)) bytes.now }
{
    bytes.iter().all(|b| *b != b'/' && *b != 0)
}

fn is_utf8(bytes: &[u8]) -> bool
    ensures { IsTrue result ↔ IsUtf8 bytes.now }
{
    str::from_utf8(bytes).is_ok()
}
