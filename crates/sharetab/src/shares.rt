//! The table of shared frames.
ghost use Rattle.std.specs.Prelude.{◌≡◌, ℕ, ◌<◌, ◌↔◌, Option, Some, None, IfOk, IfErr, OnOk, OnErr, IfSome, IfNone, IsTrue, length, replicate, slice_set};
ghost use Rattle.sha2.specs.Sha256.{sha256};
ghost use Rattle.sharetab.specs.Maps.{at_page};
ghost use Rattle.sharetab.specs.Hints.{OnePageEach};
ghost use Rattle.sharetab.specs.Entries.{entry_at, count_at, entry_count, ticket_count, HasBytes, HasDigest, AllFit, OneEntryEach, freed_frame};
ghost use Rattle.sharetab.specs.Books.{Admits, Joins, Leaves};
ghost use Rattle.sharetab.specs.Shares.{SharesAre, Answers, HintsFollow};
ghost use Rattle.sharetab.specs.declared.guest_page.GuestPage.{GuestPage};

use crate::GuestPage;
use crate::digest_map::DigestMap;
use crate::entries::Entries;
use crate::entry::Entry;
use crate::hints::Hints;
use frames::{Frame, FrameNo, SharePage, ShareTicket};
use sha2::{Digest, Sha256};
use std::alloc::{AllocError, Global};
use std::marker::Model;

/// What an offered page is answered.
#[derive(Clone, Copy, Debug, PartialEq, Eq)]
pub enum Offer {
    /// The digest is noted as that of the page.
    Noted,
    /// This other page was last noted with the digest.
    Match(GuestPage),
    /// The bytes of an entry have the digest.
    Taken,
}

/// The shared frames, each at the place of its number, and the pages that were noted with their digests. In clauses it is a
/// record, `SharesAre`.
///
/// An entry is found by the SHA-256 of its bytes; no two have the same. No call but `new` and `close` goes through the
/// entries or the hints.
pub struct Shares {
    entries: Entries,
    index: DigestMap<u32>,
    hints: Hints,
    alloc: Global,
}

impl Model for Shares {
    ghost use Rattle.sharetab.specs.Shares.{SharesAre, Indexes};

    ghost Value = { SharesAre };

    ghost view = { λ s. record { entries = s.entries; hints = s.hints } };

    ghost invariant = { λ s. Indexes s.entries s.index };
}

impl Shares {
    /// A table with a place for each of the frames 0 to `frames - 1`, with no entry and no hint. `AllocError` where there is
    /// no memory for the places.
    #[tactic(auto, using(crate::proofs::Indexing::indexes_none))]
    pub fn new(alloc: Global, frames: u32) -> Result<Shares, AllocError>
        ensures entries { IfOk result (λ shares. shares.entries ≡ replicate frames None) }
        ensures hints { IfOk result (λ shares. (page : GuestPage) → at_page shares.hints page ≡ None) }
    {
        Ok(Shares {
            entries: Entries::new(alloc, frames)?,
            index: DigestMap::new(alloc),
            hints: Hints::new(alloc),
            alloc,
        })
    }

    /// A law of the type: an entry's place is its frame's number, and a ticket of it is out; no two entries have one digest,
    /// and no two pages were last noted with one.
    #[tactic(auto, using(crate::proofs::Indexing::one_entry_each))]
    pub fn each_has_its_place(&self)
        ensures fit { AllFit self.now.entries }
        ensures entries { OneEntryEach self.now.entries }
        ensures hints { OnePageEach self.now.hints }
    {
        self.entries.all_fit();
        self.hints.one_page_each();
    }

    /// Whether the frame of a number has a place, which is vacant.
    pub fn is_vacant(&self, number: u32) -> bool
        ensures { IsTrue result ↔ ((number < length self.now.entries) × (entry_at self.now.entries number ≡ None)) }
    {
        self.entries.is_vacant(number)
    }

    /// How many tickets of the frame of a number are out, 0 where it is not shared.
    pub fn tickets_of(&self, number: u32) -> u64
        ensures { result ≡ count_at self.now.entries number }
    {
        self.entries.tickets_of(number)
    }

    /// How many entries there are.
    pub fn shared(&self) -> u32
        ensures { result ≡ entry_count self.now.entries }
    {
        self.entries.shared()
    }

    /// How many tickets of all entries are out.
    pub fn tickets(&self) -> u64
        ensures { result ≡ ticket_count self.now.entries }
    {
        self.entries.tickets()
    }

    /// Offers a page whose bytes have a digest: `Taken` exactly where an entry has the digest; else `Match` exactly where
    /// another page was last noted with it; else `Noted`, and that page was last noted with this digest from then on.
    /// `AllocError` where there is no memory for the hint.
    pub fn offer(&mut self, digest: &[u8; 32], page: GuestPage) -> Result<Offer, AllocError>
        ensures answer { IfOk result (Answers self.old digest.now page) }
        ensures hints { IfOk result (λ offer. HintsFollow self.old.hints digest.now page offer self.new.hints) }
        ensures entries { self.new.entries ≡ self.old.entries }
        ensures err { OnErr result (self.new ≡ self.old) }
    {
        if let Some(_place) = self.index.find(digest) {
            return Ok(Offer::Taken);
        }
        match self.hints.note(digest, page)? {
            Some(other) => Ok(Offer::Match(other)),
            None => Ok(Offer::Noted),
        }
    }

    /// One more ticket of the entry that has just these bytes, with its page; None exactly where no entry has them.
    /// `AllocError` where no more owners of the page can be counted.
    pub fn join(&mut self, bytes: &[u8]) -> Result<Option<(SharePage, ShareTicket)>, AllocError>
        ensures equal { IfOk result (λ answer. IfSome answer (λ joined. HasBytes bytes.now (entry_at self.old.entries joined.1))) }
        ensures page { IfOk result (λ answer. IfSome answer (λ joined. joined.0 ≡ record { number = joined.1; bytes = bytes.now })) }
        ensures counted { IfOk result (λ answer. IfSome answer (λ joined. Joins self.old.entries joined.1 self.new.entries)) }
        ensures none { IfOk result (λ answer. IfNone answer ((k : ℕ) → HasBytes bytes.now (entry_at self.old.entries k) → ⊥)) }
        ensures stays { IfOk result (λ answer. IfNone answer (self.new ≡ self.old)) }
        ensures hints { self.new.hints ≡ self.old.hints }
        ensures err { OnErr result (self.new ≡ self.old) }
    {
        match self.index.find(&digest_of(bytes)) {
            Some(place) => self.entries.join(place, bytes),
            None => Ok(None),
        }
    }

    /// Makes an entry of a frame, and answers its page and its one ticket. Where memory is refused, or 2^64 - 1 tickets are out,
    /// the frame comes back, and nothing has changed.
    pub fn admit(&mut self, frame: Frame) -> Result<(SharePage, ShareTicket), Frame>
        requires there { frame.number < length self.old.entries }
        requires vacant { entry_at self.old.entries frame.number ≡ None }
        requires first { HasDigest self.old.entries (sha256 frame.bytes) → ⊥ }
        ensures page { IfOk result (λ admitted. admitted.0 ≡ frame) }
        ensures ticket { IfOk result (λ admitted. admitted.1 ≡ frame.number) }
        ensures entries { OnOk result (Admits self.old.entries frame self.new.entries) }
        ensures hints { self.new.hints ≡ self.old.hints }
        ensures back { IfErr result (λ back. back ≡ frame) }
        ensures err { OnErr result (self.new ≡ self.old) }
    {
        let digest = digest_of(frame.bytes());
        if self.entries.tickets() == u64::MAX {
            return Err(frame);
        }
        let Ok(()) = self.index.put(&digest, frame.number()) else {
            return Err(frame);
        };
        match frame.share(self.alloc) {
            Ok((shared, page, ticket)) => {
                self.entries.put(Entry::new(shared, digest));
                Ok((page, ticket))
            }
            Err(frame) => {
                self.index.remove(&digest);
                Err(frame)
            }
        }
    }

    /// Takes a ticket back. The frame, exactly where that was its entry's last ticket: the entry is gone then, and the frame
    /// holds no page any more.
    pub fn leave(&mut self, ticket: ShareTicket) -> Option<FrameNo>
        requires { 0 < count_at self.old.entries ticket }
        ensures entries { Leaves self.old.entries ticket self.new.entries }
        ensures frame { result ≡ freed_frame (entry_at self.old.entries ticket) }
        ensures hints { self.new.hints ≡ self.old.hints }
    {
        match self.entries.leave(ticket) {
            Some(last) => {
                let (no, digest) = last.strip();
                self.index.remove(&digest);
                Some(no)
            }
            None => None,
        }
    }

    /// Gives the table up, and with it all shared frames, whether or not tickets are out.
    pub fn close(self) {
        let Shares {
            entries,
            index: _,
            hints: _,
            alloc: _,
        } = self;
        entries.close();
    }
}

// The SHA-256 of bytes (FIPS 180-4).
fn digest_of(bytes: &[u8]) -> [u8; 32]
    ensures { result ≡ sha256 bytes.now }
{
    Sha256::digest(bytes)
}
