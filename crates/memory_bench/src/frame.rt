//! Frames to do the rounds in.
ghost use Rattle.std.specs.Prelude.{◌≡◌, IfOk};
ghost use Rattle.word32.specs.Zeros.{zeros};

use framepool::Pool;
use frames::Frame;
use std::alloc::{AllocError, Global};

/// A frame of zeros. `AllocError` where the pool has no number left, or there is no memory for the bytes.
pub fn zero_frame(alloc: Global, pool: &mut Pool) -> Result<Frame, AllocError>
    ensures { IfOk result (λ frame. frame.bytes ≡ zeros 4096) }
{
    let Some(no) = pool.take() else {
        return Err(AllocError);
    };
    match Frame::zeroed(alloc, no) {
        Ok(frame) => Ok(frame),
        Err(no) => {
            let _number = no.close();
            Err(AllocError)
        }
    }
}
