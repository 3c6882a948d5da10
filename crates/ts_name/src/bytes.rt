//! Bytes that several paths or names share.
ghost use Rattle.std.specs.Prelude.{◌≡◌, ◌<◌, ◌+◌, ◌^◌, ◌++◌, [], drop, length, take, IfOk, IfSome};

use std::alloc::{AllocError, Global};
use std::marker::Model;
use std::sync::Arc;

/// Which part of which buffer is read: how many bytes, and from where on. In this order they take 16 bytes.
#[derive(Debug, Drop)]
pub(crate) enum Share {
    Nothing,
    Part(u16, u32, Arc<Vec<u8>, Global>),
}

/// Bytes that are never changed, so that copies share them, and so do bytes that are cut from their front, and those that stand next
/// to them in one buffer. Where there are none, they take no memory.
#[derive(Debug, Drop)]
pub(crate) struct Bytes {
    share: Share,
}

impl Model for Bytes {
    ghost use Rattle.std.specs.Prelude.{List, ℕ};
    ghost use Rattle.std.specs.Coded.{coded_ℕ, coded_list};
    ghost use Rattle.ts_name.specs.Buffers.{shared_bytes};

    ghost Value = { List ℕ };

    ghost coded = { coded_list coded_ℕ };

    ghost view = { λ b. shared_bytes b.share };
}

impl Bytes {
    /// No bytes.
    pub fn none() -> Bytes
        ensures { result ≡ [] }
    {
        Bytes {
            share: Share::Nothing,
        }
    }

    /// These bytes.
    pub fn share(alloc: Global, bytes: Vec<u8>) -> Result<Bytes, AllocError>
        requires { length bytes.items < 2 ^ 16 }
        ensures { IfOk result (λ shared. shared ≡ bytes.items) }
    {
        if bytes.is_empty() {
            return Ok(Bytes::none());
        }
        let length = bytes.len() as u16;
        Ok(Bytes {
            share: Share::Part(length, 0, Arc::new(alloc, bytes)?),
        })
    }

    /// The same bytes, which aren't copied.
    pub fn copy(&self) -> Result<Bytes, AllocError>
        ensures { IfOk result (λ shared. shared ≡ self.now) }
    {
        match &self.share {
            Share::Part(length, start, buffer) => Ok(Bytes {
                share: Share::Part(*length, *start, Arc::try_clone(buffer)?),
            }),
            Share::Nothing => Ok(Bytes::none()),
        }
    }

    /// The bytes behind the first ones, which aren't copied.
    pub fn behind(&self, alloc: Global, count: usize) -> Result<Bytes, AllocError>
        ensures { IfOk result (λ rest. rest ≡ drop count self.now) }
    {
        if self.as_slice().len() <= count {
            return Ok(Bytes::none());
        }
        match &self.share {
            Share::Part(length, start, buffer) => {
                // they begin past the 32 bits of a start only in a buffer of more than 4 GiB
                let Some((length, start)) = moved(*length, *start, count) else {
                    let rest = rest_from(self.as_slice(), count);
                    return Bytes::share(alloc, Vec::from_slice(alloc, rest)?);
                };
                Ok(Bytes {
                    share: Share::Part(length, start, Arc::try_clone(buffer)?),
                })
            }
            Share::Nothing => Ok(Bytes::none()),
        }
    }

    /// These bytes with others in front, which aren't copied where both were cut apart before.
    pub fn after(&self, front: &[u8]) -> Result<Option<Bytes>, AllocError>
        ensures { IfOk result (λ found. IfSome found (λ all. all ≡ front.now ++ self.now)) }
    {
        match &self.share {
            Share::Part(length, start, buffer) => {
                match with_front(buffer.as_slice(), *length, *start, front) {
                    Some((length, start)) => Ok(Some(Bytes {
                        share: Share::Part(length, start, Arc::try_clone(buffer)?),
                    })),
                    None => Ok(None),
                }
            }
            Share::Nothing => Ok(None),
        }
    }

    /// The same bytes, where they stand in a buffer at this place; they aren't copied.
    pub fn found_in(&self, buffer: &Arc<Vec<u8>, Global>, start: usize) -> Option<Bytes>
        ensures { IfSome result (λ found. found ≡ self.now) }
    {
        let own = self.as_slice();
        let part = Share::Part(
            u16::try_from(own.len()).ok()?,
            u32::try_from(start).ok()?,
            Arc::try_clone(buffer).ok()?,
        );
        let found = Bytes { share: part };
        if found.as_slice() == own {
            Some(found)
        } else {
            None
        }
    }

    /// Whether they are a whole buffer, and not a part of one. It says nothing about the bytes.
    pub fn are_whole(&self) -> bool {
        match &self.share {
            Share::Part(length, start, buffer) => *start == 0 && *length as usize == buffer.len(),
            Share::Nothing => false,
        }
    }

    /// The bytes themselves. It takes no memory.
    pub fn as_slice(&self) -> &[u8]
        ensures { result.now ≡ self.now }
    {
        match &self.share {
            Share::Part(length, start, buffer) => {
                let rest = rest_from(buffer.as_slice(), *start as usize);
                first_of(rest, *length as usize)
            }
            Share::Nothing => &[],
        }
    }
}

/// The bytes behind the first ones.
fn rest_from(bytes: &[u8], count: usize) -> &[u8]
    ensures { result.now ≡ drop count bytes.now }
{
    match bytes.split_at_checked(count) {
        Some((_, rest)) => rest,
        None => &[],
    }
}

/// The first ones of some bytes, all where there are fewer.
fn first_of(bytes: &[u8], count: usize) -> &[u8]
    ensures { result.now ≡ take count bytes.now }
{
    match bytes.split_at_checked(count) {
        Some((first, _)) => first,
        None => bytes,
    }
}

/// How long a part is without its first bytes, and where it starts.
fn moved(count: u16, start: u32, less: usize) -> Option<(u16, u32)>
    ensures count { IfSome result (λ part. part.0 + less ≡ count) }
    ensures start { IfSome result (λ part. part.1 ≡ start + less) }
{
    let fewer = u16::try_from(less).ok()?;
    Some((
        count.checked_sub(fewer)?,
        start.checked_add(u32::from(fewer))?,
    ))
}

/// How long a part is with the bytes `front`, if they stand right before it, and where it starts.
fn with_front(bytes: &[u8], count: u16, start: u32, front: &[u8]) -> Option<(u16, u32)>
    ensures count { IfSome result (λ part. part.0 ≡ length front.now + count) }
    ensures start { IfSome result (λ part. drop part.1 bytes.now ≡ front.now ++ drop start bytes.now) }
{
    let (before, _) = bytes.split_at_checked(start as usize)?;
    let above = before.strip_suffix(front)?;
    let more = u16::try_from(front.len()).ok()?;
    Some((count.checked_add(more)?, above.len() as u32))
}
