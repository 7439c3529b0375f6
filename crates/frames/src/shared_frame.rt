//! Frames that several pages read (Waldspurger, OSDI 2002, section 4).
ghost use Rattle.std.specs.Prelude.{◌≡◌, ◌+◌, ◌<◌, IfOk, IfErr, OnErr, length};
ghost use Rattle.frames.specs.Frames.{FrameIs, SharedIs};

use crate::{FrameNo, SharePage, ShareTicket};
use std::alloc::{AllocError, Global};
use std::marker::Model;

/// A machine frame that several pages read, and how many tickets of it are out. In clauses it is a record, `SharedIs`.
pub struct SharedFrame {
    no: FrameNo,
    page: SharePage,
    tickets: u64,
}

impl Model for SharedFrame {
    ghost use Rattle.std.specs.Prelude.{◌≡◌};
    ghost use Rattle.frames.specs.Frames.{SharedIs};

    ghost Value = { SharedIs };

    ghost view = { λ f. record { number = f.no; bytes = f.page.bytes; tickets = f.tickets } };

    ghost invariant = { λ f. f.page.number ≡ f.no };
}

// A page with these bytes, of the frame of a number, for the frame and for its first reader.
fn two_pages(
    alloc: Global,
    number: u32,
    bytes: &[u8; 4096],
) -> Result<(SharePage, SharePage), AllocError>
    ensures one { IfOk result (λ pages. pages.0 ≡ record { number = number; bytes = bytes.now }) }
    ensures other { IfOk result (λ pages. pages.1 ≡ record { number = number; bytes = bytes.now }) }
{
    let page = SharePage::new(alloc, number, bytes)?;
    let first = page.clone()?;
    Ok((page, first))
}

impl SharedFrame {
    // A shared frame with the bytes of a page, and the page and the ticket of its first reader. Where memory is refused, the
    // number comes back.
    pub(crate) fn new(
        alloc: Global,
        no: FrameNo,
        bytes: &[u8; 4096],
    ) -> Result<(SharedFrame, SharePage, ShareTicket), FrameNo>
        ensures shared { IfOk result (λ made. made.0 ≡ record { number = no; bytes = bytes.now; tickets = 1 }) }
        ensures page { IfOk result (λ made. made.1 ≡ record { number = no; bytes = bytes.now }) }
        ensures ticket { IfOk result (λ made. made.2 ≡ no) }
        ensures back { IfErr result (λ back. back ≡ no) }
    {
        match two_pages(alloc, no.number(), bytes) {
            Ok((page, first)) => {
                let ticket = ShareTicket::of(no.number());
                let shared = SharedFrame {
                    no,
                    page,
                    tickets: 1,
                };
                Ok((shared, first, ticket))
            }
            Err(_) => Err(no),
        }
    }

    /// The number of the frame.
    pub fn number(&self) -> u32
        ensures { result ≡ self.now.number }
    {
        self.no.number()
    }

    /// The bytes of the page.
    pub fn bytes(&self) -> &[u8]
        ensures bytes { result.now ≡ self.now.bytes }
        ensures length { length self.now.bytes ≡ 4096 }
    {
        self.page.bytes()
    }

    /// How many tickets are out.
    pub fn tickets(&self) -> u64
        ensures { result ≡ self.now.tickets }
    {
        self.tickets
    }

    /// One more ticket, with the page to read. `AllocError` where no more owners of the page can be counted: then nothing
    /// has changed.
    pub fn join(&mut self) -> Result<(SharePage, ShareTicket), AllocError>
        ensures page { IfOk result (λ joined. joined.0 ≡ record { number = self.old.number; bytes = self.old.bytes }) }
        ensures ticket { IfOk result (λ joined. joined.1 ≡ self.old.number) }
        ensures counted { IfOk result (λ joined. self.new ≡ record self.old { tickets = self.old.tickets + 1 }) }
        ensures err { OnErr result (self.new ≡ self.old) }
    {
        let Some(tickets) = self.tickets.checked_add(1) else {
            return Err(AllocError);
        };
        let page = self.page.clone()?;
        self.tickets = tickets;
        Ok((page, ShareTicket::of(self.no.number())))
    }

    /// Takes a ticket of this frame back.
    pub fn leave(&mut self, ticket: ShareTicket)
        requires own { ticket ≡ self.old.number }
        requires out { 0 < self.old.tickets }
        ensures number { self.new.number ≡ self.old.number }
        ensures bytes { self.new.bytes ≡ self.old.bytes }
        ensures tickets { self.new.tickets + 1 ≡ self.old.tickets }
    {
        let _number = ticket.close();
        self.tickets -= 1;
    }

    // Its number; the page is given up.
    fn into_no(self) -> FrameNo
        ensures { result ≡ self.number }
    {
        let SharedFrame {
            no,
            page: _,
            tickets: _,
        } = self;
        no
    }

    /// The number of the frame, which holds no page any more, once no ticket is out.
    pub fn strip(self) -> FrameNo
        requires { self.tickets ≡ 0 }
        ensures { result ≡ self.number }
    {
        self.into_no()
    }

    /// Gives the frame up, its bytes and its number, which stands nowhere from then on, whether or not tickets are out.
    pub fn close(self) -> u32
        ensures { result ≡ self.number }
    {
        self.into_no().close()
    }
}
