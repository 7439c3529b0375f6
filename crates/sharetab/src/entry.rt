//! An entry of a table of shared frames.
ghost use Rattle.std.specs.Prelude.{◌≡◌, ◌+◌, ◌<◌, IfOk, OnErr, IfSome, IfNone};
ghost use Rattle.sha2.specs.Sha256.{sha256};
ghost use Rattle.frames.specs.Frames.{FrameIs, SharedIs};

use frames::{FrameNo, SharePage, ShareTicket, SharedFrame};
use std::alloc::AllocError;
use std::marker::Model;

/// A shared frame with the digest of its bytes. In clauses it is the frame.
pub struct Entry {
    frame: SharedFrame,
    digest: [u8; 32],
}

impl Model for Entry {
    ghost use Rattle.std.specs.Prelude.{◌≡◌};
    ghost use Rattle.sha2.specs.Sha256.{sha256};
    ghost use Rattle.frames.specs.Frames.{SharedIs};

    ghost Value = { SharedIs };

    ghost view = { λ e. e.frame };

    ghost invariant = { λ e. e.digest ≡ sha256 e.frame.bytes };
}

impl Entry {
    /// The entry of a frame, of whose bytes the digest is.
    pub fn new(frame: SharedFrame, digest: [u8; 32]) -> Entry
        requires { digest ≡ sha256 frame.bytes }
        ensures { result ≡ frame }
    {
        Entry { frame, digest }
    }

    /// The number of the frame.
    pub fn number(&self) -> u32
        ensures { result ≡ self.now.number }
    {
        self.frame.number()
    }

    /// How many tickets are out.
    pub fn tickets(&self) -> u64
        ensures { result ≡ self.now.tickets }
    {
        self.frame.tickets()
    }

    /// One more ticket, with the page to read, exactly where the bytes are the entry's.
    pub fn join(&mut self, bytes: &[u8]) -> Result<Option<(SharePage, ShareTicket)>, AllocError>
        ensures equal { IfOk result (λ answer. IfSome answer (λ _. self.old.bytes ≡ bytes.now)) }
        ensures page { IfOk result (λ answer. IfSome answer (λ joined. joined.0 ≡ record { number = self.old.number; bytes = self.old.bytes })) }
        ensures ticket { IfOk result (λ answer. IfSome answer (λ joined. joined.1 ≡ self.old.number)) }
        ensures counted { IfOk result (λ answer. IfSome answer (λ _. self.new ≡ record self.old { tickets = self.old.tickets + 1 })) }
        ensures other { IfOk result (λ answer. IfNone answer (self.old.bytes ≡ bytes.now → ⊥)) }
        ensures stays { IfOk result (λ answer. IfNone answer (self.new ≡ self.old)) }
        ensures err { OnErr result (self.new ≡ self.old) }
    {
        if self.frame.bytes() != bytes {
            return Ok(None);
        }
        Ok(Some(self.frame.join()?))
    }

    /// Takes a ticket back.
    pub fn leave(&mut self, ticket: ShareTicket)
        requires own { ticket ≡ self.old.number }
        requires out { 0 < self.old.tickets }
        ensures number { self.new.number ≡ self.old.number }
        ensures bytes { self.new.bytes ≡ self.old.bytes }
        ensures tickets { self.new.tickets + 1 ≡ self.old.tickets }
    {
        self.frame.leave(ticket);
    }

    /// The number of the frame, which holds no page any more, and the digest that its bytes had, once no ticket is out.
    pub fn strip(self) -> (FrameNo, [u8; 32])
        requires { self.tickets ≡ 0 }
        ensures number { result.0 ≡ self.number }
        ensures digest { result.1 ≡ sha256 self.bytes }
    {
        let Entry { frame, digest } = self;
        (frame.strip(), digest)
    }

    /// Gives the frame up, whether or not tickets are out.
    pub fn close(self) {
        let Entry { frame, digest: _ } = self;
        let _number = frame.close();
    }
}
