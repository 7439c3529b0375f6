//! Frames.
ghost use Rattle.std.specs.Prelude.{◌≡◌, IfOk, IfErr, length};
ghost use Rattle.std.specs.Borrow.{sem, Lends, Array, u8 as byte};
ghost use Rattle.word32.specs.Zeros.{zeros};
ghost use Rattle.frames.specs.Frames.{FrameIs, SharedIs};
ghost use Rattle.frames.specs.contracts.frame.Frame.{the_row};

use crate::{FrameNo, SharePage, ShareTicket, SharedFrame};
use std::alloc::{AllocError, Global};
use std::marker::Model;

/// A machine frame with the 4,096 bytes of a page. In clauses it is a record, `FrameIs`.
pub struct Frame {
    no: FrameNo,
    bytes: Box<[u8; 4096]>,
}

impl Model for Frame {
    ghost use Rattle.frames.specs.Frames.{FrameIs};

    ghost Value = { FrameIs };

    ghost view = { λ f. record { number = f.no; bytes = f.bytes.value } };
}

// A page of zeros.
#[tactic(auto, unfolding(word32::specs::Zeros::zeros))]
fn zero_page(alloc: Global) -> Result<Box<[u8; 4096]>, AllocError>
    ensures { IfOk result (λ page. page.value ≡ zeros 4096) }
{
    Ok(Box::new(alloc, [0; 4096])?)
}

impl Frame {
    /// A frame of zeros. Where memory is refused, the number comes back.
    pub fn zeroed(alloc: Global, no: FrameNo) -> Result<Frame, FrameNo>
        ensures number { IfOk result (λ frame. frame.number ≡ no) }
        ensures bytes { IfOk result (λ frame. frame.bytes ≡ zeros 4096) }
        ensures back { IfErr result (λ back. back ≡ no) }
    {
        match zero_page(alloc) {
            Ok(bytes) => Ok(Frame { no, bytes }),
            Err(_) => Err(no),
        }
    }

    /// The number of the frame.
    pub fn number(&self) -> u32
        ensures { result ≡ self.now.number }
    {
        self.no.number()
    }

    /// The bytes of the page.
    pub fn bytes(&self) -> &[u8]
        ensures bytes { result.now ≡ self.now.bytes }
        ensures length { length self.now.bytes ≡ 4096 }
    {
        &self.bytes[..]
    }

    /// The bytes of the page, to be written.
    pub fn bytes_mut(&mut self) -> &mut [u8; 4096]
        ensures* writes { sem 𝓛 (Lends the_row (Array byte 4096) self.entry result (λ bytes. record self.old { bytes = bytes })) }
        ensures bytes { result.now ≡ self.old.bytes }
    {
        self.bytes.as_mut()
    }

    /// Replaces the bytes by those of another page.
    pub fn copy_from(&mut self, bytes: &[u8])
        requires { length bytes.now ≡ 4096 }
        ensures number { self.new.number ≡ self.old.number }
        ensures bytes { self.new.bytes ≡ bytes.now }
    {
        self.bytes[..].copy_from_slice(bytes);
    }

    /// The number of the frame, which holds no page any more.
    pub fn strip(self) -> FrameNo
        ensures { result ≡ self.number }
    {
        let Frame { no, bytes: _ } = self;
        no
    }

    /// Makes the frame one that several pages read, with the page and the ticket of its first reader. Where memory is refused,
    /// the frame comes back.
    pub fn share(self, alloc: Global) -> Result<(SharedFrame, SharePage, ShareTicket), Frame>
        ensures shared { IfOk result (λ made. made.0 ≡ record { number = self.number; bytes = self.bytes; tickets = 1 }) }
        ensures page { IfOk result (λ made. made.1 ≡ self) }
        ensures ticket { IfOk result (λ made. made.2 ≡ self.number) }
        ensures back { IfErr result (λ back. back ≡ self) }
    {
        let Frame { no, bytes } = self;
        match SharedFrame::new(alloc, no, &bytes) {
            Ok(made) => {
                drop(bytes);
                Ok(made)
            }
            Err(no) => Err(Frame { no, bytes }),
        }
    }

    /// Gives the frame up, its bytes and its number, which stands nowhere from then on.
    pub fn close(self) -> u32
        ensures { result ≡ self.number }
    {
        self.strip().close()
    }
}
