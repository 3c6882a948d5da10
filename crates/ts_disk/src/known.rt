//! Which archives a replica belongs to.
//!
//! An archive is known by the digest in its own last line. A folder that isn't the one that an archive is about, as an older copy that
//! lies below a mount, doesn't know it as it is now, though it may have a `.twosync` of its own.
ghost use Rattle.std.specs.Prelude.{◌≡◌, ◌<◌, ◌↔◌, [], All, length, slice_get, IfNone, IfOk, IfSome, IsTrue};
ghost use Rattle.ts_disk.specs.Known.{Becomes, HasNoCounterpart, IsBest, IsCounterpartAt, IsLineFor, IsNamedOf, IsOf, KeepsOthers, Knows, RecentlySays, Says, Takes};

use std::alloc::{AllocError, Global};
use ts_text::{field_digest, push_digest, split_word};

/// How many pairs a replica remembers. Of more, it forgets the one that was used longest ago.
pub(crate) const MOST_PAIRS: usize = 1_024;

/// How many pairs count as used lately: a line among as many at the end stays where it is, as long as it says what it is to say.
const RECENT_PAIRS: usize = 512;

/// How a line begins that names its pair. The pair's name follows, and a space.
const NAMED: &[u8] = b"pair:";

/// The digest in an archive's last line.
pub(crate) type ArchiveDigest = [u8; 32];

/// The name of a pair: the digest of the place of its archive.
pub(crate) type PairName = [u8; 32];

/// The archive of one pair: the last one that was to be written, and the one that it was to take the place of. A run that was stopped
/// in between has left either.
#[derive(Clone, Copy, Drop)]
pub(crate) struct PairArchive {
    /// None in a line from before lines named their pair: it may be that of any.
    pair: Option<PairName>,
    before: Option<ArchiveDigest>,
    last: ArchiveDigest,
}

impl PairArchive {
    /// The pair of this name, whose archive with the digest `last` is to take the place of the one before.
    fn after(pair: PairName, before: Option<ArchiveDigest>, last: ArchiveDigest) -> PairArchive
        ensures line { IsLineFor result pair before last }
        ensures says { Says result pair before last }
    {
        let before = if before == Some(last) { None } else { before };
        PairArchive {
            pair: Some(pair),
            before,
            last,
        }
    }

    /// Whether the line names the pair so. One from before lines did has no name.
    fn is_named(&self, pair: &Option<PairName>) -> bool
        ensures { IsTrue result ↔ (self.now.pair ≡ pair.now) }
    {
        self.pair == *pair
    }

    /// Whether the last archive that was to be written is the one with this digest.
    fn is_last(&self, digest: &ArchiveDigest) -> bool
        ensures { IsTrue result ↔ (self.now.last ≡ digest.now) }
    {
        self.last == *digest
    }

    /// Whether the pair's archive may be the one with this digest.
    fn is_of(&self, digest: &ArchiveDigest) -> bool
        ensures { IsTrue result ↔ IsOf self.now digest.now }
    {
        match &self.before {
            Some(before) => self.is_last(digest) || *before == *digest,
            None => self.is_last(digest),
        }
    }

    /// Whether this is a line of the pair of this name, and its archive may be the last one, and the one before, if there is one.
    fn says(&self, pair: &PairName, before: &Option<ArchiveDigest>, last: &ArchiveDigest) -> bool
        ensures { IsTrue result ↔ Says self.now pair.now before.now last.now }
    {
        let is_of_before = match before {
            Some(before) => self.is_of(before),
            None => true,
        };
        self.is_named(&Some(*pair)) && self.is_of(last) && is_of_before
    }
}

/// What comes of noting an archive.
#[derive(Clone, Copy, Debug, PartialEq, Eq, Drop)]
pub(crate) enum Noted {
    /// A line of the pair says it already.
    Already,
    /// The line of the archive before is replaced.
    Replaced,
    /// A line is added.
    Added,
    /// A line is added, and the oldest one is forgotten.
    Forgot,
}

/// The archives that a replica belongs to.
#[derive(Drop)]
pub(crate) struct KnownArchives {
    // the one that was noted last comes last
    pairs: Vec<PairArchive>,
}

impl KnownArchives {
    /// What a replica knows that has no such file.
    pub(crate) fn none(alloc: Global) -> KnownArchives
        ensures { result.pairs.items ≡ [] }
    {
        KnownArchives {
            pairs: Vec::new(alloc),
        }
    }

    /// Whether the replica belongs to the archive with this digest, as far as that is known.
    pub(crate) fn knows(&self, digest: &ArchiveDigest) -> bool
        ensures { IsTrue result ↔ Knows self.now digest.now }
    {
        self.pairs.iter().any(|pair| pair.is_of(digest))
    }

    /// Whether a line that was noted lately says already what is to be noted.
    fn says(&self, pair: &PairName, before: &Option<ArchiveDigest>, last: &ArchiveDigest) -> bool
        ensures { IsTrue result ↔ RecentlySays self.now pair.now before.now last.now }
    {
        let oldest = self.pairs.len().saturating_sub(RECENT_PAIRS);
        let recent = &self.pairs[oldest..];
        recent.iter().any(|line| line.says(pair, before, last))
    }

    /// Notes that the archive with the digest `last` is to take the place of the one before. Whichever of the two is left by a run that
    /// is stopped then, the replica knows it. The line of the archive before is replaced, where it is this pair's, or, rather than to
    /// add one, where it names no pair. No line of another pair is. Where a line is added to 1,024 others, the oldest is forgotten: that
    /// is never one of a pair whose archive is written daily.
    pub(crate) fn note(
        &mut self,
        pair: PairName,
        before: Option<ArchiveDigest>,
        last: ArchiveDigest,
    ) -> Result<Noted, AllocError>
        ensures last { IfOk result (λ _. Knows self.new last) }
        ensures before { IfOk result (λ _. IfSome before (Knows self.new)) }
        ensures already { IfOk result (λ noted. (noted ≡ Noted.Already) ↔ RecentlySays self.old pair before last) }
        ensures others { IfOk result (λ noted. KeepsOthers self.old.pairs.items pair noted self.new.pairs.items) }
        ensures lines { IfOk result (λ noted. Becomes self.old.pairs.items pair before last noted self.new.pairs.items) }
    {
        if self.says(&pair, &before, &last) {
            return Ok(Noted::Already);
        }
        let noted = match self.counterpart(&pair, before) {
            Some(at) => {
                let _ = self.pairs.remove(at);
                Noted::Replaced
            }
            None if self.pairs.len() >= MOST_PAIRS => {
                let _ = self.pairs.remove(0);
                Noted::Forgot
            }
            None => Noted::Added,
        };
        self.pairs.push(PairArchive::after(pair, before, last))?;
        Ok(noted)
    }

    /// Which line is that of the archive before, if there is one: one of this pair, or else one that names none.
    fn counterpart(&self, pair: &PairName, before: Option<ArchiveDigest>) -> Option<usize>
        ensures there { IfSome result (λ at. at < length self.now.pairs.items) }
        ensures of { IfSome result (IsCounterpartAt self.now.pairs.items pair.now before) }
        ensures none { IfNone result (HasNoCounterpart self.now.pairs.items pair.now before) }
    {
        let before = before?;
        match self.line_of(&Some(*pair), &before) {
            Some(at) => Some(at),
            None => self.line_of(&None, &before),
        }
    }

    /// Which line that names a pair so has the archive with this digest: rather as the last one than as the one before, which is there
    /// only where a run was stopped.
    fn line_of(&self, pair: &Option<PairName>, digest: &ArchiveDigest) -> Option<usize>
        ensures there { IfSome result (λ at. at < length self.now.pairs.items) }
        ensures best { IfSome result (λ at. IfSome (slice_get self.now.pairs.items at) (IsBest self.now.pairs.items pair.now digest.now)) }
        ensures none { IfNone result (All (λ line. ¬ IsNamedOf pair.now digest.now line) self.now.pairs.items) }
    {
        let lines = self.pairs.as_slice();
        let as_last = lines
            .iter()
            .position(|line| line.is_named(pair) && line.is_last(digest));
        match as_last {
            Some(at) => Some(at),
            None => lines
                .iter()
                .position(|line| line.is_named(pair) && line.is_of(digest)),
        }
    }

    /// Takes over what a line of the file says, if it says something that may stand there.
    pub(crate) fn take(&mut self, line: &[u8]) -> Result<bool, AllocError>
        ensures { IfOk result (λ is_taken. Takes self.old.pairs.items is_taken self.new.pairs.items) }
    {
        match pair_in(line) {
            Some(pair) if self.pairs.len() < MOST_PAIRS => {
                self.pairs.push(pair)?;
                Ok(true)
            }
            _ => Ok(false),
        }
    }

    /// The text of the file.
    pub(crate) fn text(&self, alloc: Global) -> Result<Vec<u8>, AllocError> {
        let mut text = Vec::new(alloc);
        for pair in self.pairs.as_slice() {
            push_pair(&mut text, pair)?;
        }
        Ok(text)
    }
}

/// Adds the line of a pair.
fn push_pair(text: &mut Vec<u8>, line: &PairArchive) -> Result<(), AllocError> {
    if let Some(pair) = line.pair {
        text.extend_from_slice(NAMED)?;
        push_copy(text, pair)?;
        text.push(b' ')?;
    }
    if let Some(before) = line.before {
        push_copy(text, before)?;
        text.push(b' ')?;
    }
    push_copy(text, line.last)?;
    text.push(b'\n')?;
    Ok(())
}

/// Adds a digest.
fn push_copy(text: &mut Vec<u8>, digest: [u8; 32]) -> Result<(), AllocError> {
    push_digest(text, &digest)
}

/// The pair that a line is about, if it is about one.
fn pair_in(line: &[u8]) -> Option<PairArchive> {
    match line.strip_prefix(NAMED) {
        Some(named) => {
            let (pair, archives) = split_word(named);
            archives_in(Some(field_digest(pair)?), archives?)
        }
        None => archives_in(None, line),
    }
}

/// A pair of this name, whose archives are those that stand behind it in its line.
fn archives_in(pair: Option<PairName>, archives: &[u8]) -> Option<PairArchive>
    ensures pair { IfSome result (λ it. it.pair ≡ pair) }
{
    let (word, rest) = split_word(archives);
    let digest = field_digest(word)?;
    match rest {
        Some(rest) => Some(PairArchive {
            pair,
            before: Some(digest),
            last: field_digest(rest)?,
        }),
        None => Some(PairArchive {
            pair,
            before: None,
            last: digest,
        }),
    }
}
