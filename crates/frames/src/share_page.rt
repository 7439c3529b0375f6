//! The page of a shared frame.
ghost use Rattle.std.specs.Prelude.{◌≡◌, IfOk, length};
ghost use Rattle.frames.specs.Frames.{FrameIs};

use std::alloc::{AllocError, Global};
use std::marker::Model;
use std::sync::Arc;

/// The bytes of a shared frame, with its number. It can be copied, and none can write them. In clauses it is a record,
/// `FrameIs`.
#[derive(Drop)]
pub struct SharePage {
    number: u32,
    bytes: Arc<[u8; 4096], Global>,
}

impl Model for SharePage {
    ghost use Rattle.frames.specs.Frames.{FrameIs};

    ghost Value = { FrameIs };

    ghost view = { λ p. record { number = p.number; bytes = p.bytes.value } };
}

impl SharePage {
    // A page with these bytes, of the frame of a number.
    pub(crate) fn new(
        alloc: Global,
        number: u32,
        bytes: &[u8; 4096],
    ) -> Result<SharePage, AllocError>
        ensures { IfOk result (λ page. page ≡ record { number = number; bytes = bytes.now }) }
    {
        Ok(SharePage {
            number,
            bytes: Arc::new(alloc, *bytes)?,
        })
    }

    /// The number of the frame.
    pub fn number(&self) -> u32
        ensures { result ≡ self.now.number }
    {
        self.number
    }

    /// The bytes of the page.
    pub fn bytes(&self) -> &[u8]
        ensures bytes { result.now ≡ self.now.bytes }
        ensures length { length self.now.bytes ≡ 4096 }
    {
        &self.bytes[..]
    }
}

impl Clone for SharePage {
    ghost is_clone = { λ page copy. copy ≡ page };

    fn clone(&self) -> Result<SharePage, AllocError> {
        Ok(SharePage {
            number: self.number,
            bytes: self.bytes.clone()?,
        })
    }
}
