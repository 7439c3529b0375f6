//! Bytes of pages on their way to a swap store and back.
ghost use Rattle.std.specs.Prelude.{◌≡◌, ℕ, ◌<◌, ◌↔◌, IfOk, IfErr, OnOk, IsTrue, is_ok, length};
ghost use Rattle.sha2.specs.Sha256.{sha256};
ghost use Rattle.swapstore.specs.Failures.{counted, one_more};
ghost use Rattle.swapstore.specs.Holding.{AreHeld, AreHeldByDigest, AllStay, OthersStay};
ghost use Rattle.guest_pages.specs.Pages.{page_at, kind_at, is_resident, shown};
ghost use Rattle.page_moves.specs.Supplies.{IsDamaged, WhyUnread};

use crate::{Pages, SupplyError};
use frames::Frame;
use swapstore::{Failed, SwapStore, digest};
use word32::Ppn;

// The bytes of a page that is in a frame.
pub(crate) fn bytes_of<P: Pages>(pages: &P, p: Ppn) -> &[u8]
    requires there { p < length (P.pages pages.now) }
    requires resident { IsTrue (is_resident (kind_at (P.pages pages.now) p)) }
    ensures bytes { result.now ≡ shown (page_at (P.pages pages.now) p) }
    ensures length { length (shown (page_at (P.pages pages.now) p)) ≡ 4096 }
{
    match pages.peek(p) {
        Some(bytes) => bytes,
        None => unreachable!(),
    }
}

// Writes the bytes of a page to a slot; their SHA-256.
pub(crate) fn write_page<P: Pages, S: SwapStore>(
    pages: &P,
    p: Ppn,
    slot: u32,
    store: &mut S,
) -> Result<[u8; 32], Failed>
    requires there { p < length (P.pages pages.now) }
    requires resident { IsTrue (is_resident (kind_at (P.pages pages.now) p)) }
    requires slot { slot < S.slots store.old }
    ensures digest { IfOk result (λ digest. digest ≡ sha256 (shown (page_at (P.pages pages.now) p))) }
    ensures written { OnOk result (AreHeld (S.held store.new slot) (shown (page_at (P.pages pages.now) p))) }
    ensures others { OthersStay slot (S.held store.old) (S.held store.new) }
    ensures counted { S.failed store.new ≡ counted (is_ok result) (S.failed store.old) }
    ensures slots { S.slots store.new ≡ S.slots store.old }
    ensures honest { S.honest store.new ↔ S.honest store.old }
    ensures true_to_digests { S.true_to_digests store.new ↔ S.true_to_digests store.old }
{
    let bytes = bytes_of(pages, p);
    match store.write(slot, bytes) {
        Ok(()) => Ok(digest(bytes)),
        Err(failed) => Err(failed),
    }
}

// Reads a slot into a frame.
fn read_frame<S: SwapStore>(mut frame: Frame, slot: u32, store: &mut S) -> Result<Frame, Frame>
    requires { slot < S.slots store.old }
    ensures number { IfOk result (λ read. read.number ≡ frame.number) }
    ensures gives { IfOk result (λ read. S.gives store.old slot read.bytes) }
    ensures honest_gives { IfOk result (λ read. S.honest store.old → AreHeld (S.held store.old slot) read.bytes) }
    ensures true_gives { IfOk result (λ read. S.true_to_digests store.old → AreHeldByDigest (S.held store.old slot) read.bytes) }
    ensures back { IfErr result (λ back. back.number ≡ frame.number) }
    ensures held { AllStay (S.held store.old) (S.held store.new) }
    ensures counted { S.failed store.new ≡ counted (is_ok result) (S.failed store.old) }
    ensures slots { S.slots store.new ≡ S.slots store.old }
    ensures honest { S.honest store.new ↔ S.honest store.old }
    ensures true_to_digests { S.true_to_digests store.new ↔ S.true_to_digests store.old }
{
    let mut bytes = [0; 4096];
    match store.read(slot, &mut bytes) {
        Ok(()) => {
            frame.copy_from(&bytes);
            Ok(frame)
        }
        Err(_) => Err(frame),
    }
}

// Reads a slot into a frame, where what is read has a SHA-256. Else the frame comes back.
pub(crate) fn read_page<S: SwapStore>(
    frame: Frame,
    slot: u32,
    wanted: &[u8; 32],
    store: &mut S,
) -> Result<Frame, (Frame, SupplyError)>
    requires { slot < S.slots store.old }
    ensures number { IfOk result (λ read. read.number ≡ frame.number) }
    ensures gives { IfOk result (λ read. S.gives store.old slot read.bytes) }
    ensures digest { IfOk result (λ read. sha256 read.bytes ≡ wanted.now) }
    ensures honest_gives { IfOk result (λ read. S.honest store.old → AreHeld (S.held store.old slot) read.bytes) }
    ensures true_gives { IfOk result (λ read. S.true_to_digests store.old → AreHeldByDigest (S.held store.old slot) read.bytes) }
    ensures back { IfErr result (λ back. back.0.number ≡ frame.number) }
    ensures err { IfErr result
        (λ back. WhyUnread (S.failed store.new ≡ one_more (S.failed store.old)) (IsDamaged (S.gives store.old slot) (S.honest store.old) (S.held store.old slot) wanted.now) back.1) }
    ensures counted { OnOk result (S.failed store.new ≡ S.failed store.old) }
    ensures held { AllStay (S.held store.old) (S.held store.new) }
    ensures slots { S.slots store.new ≡ S.slots store.old }
    ensures honest { S.honest store.new ↔ S.honest store.old }
    ensures true_to_digests { S.true_to_digests store.new ↔ S.true_to_digests store.old }
{
    match read_frame(frame, slot, store) {
        Ok(frame) => {
            if digest(frame.bytes()) == *wanted {
                Ok(frame)
            } else {
                Err((frame, SupplyError::SwapDamaged))
            }
        }
        Err(frame) => Err((frame, SupplyError::SwapRead)),
    }
}
