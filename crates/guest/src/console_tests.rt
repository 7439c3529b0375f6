//! Console input that can't be refused.
ghost use Rattle.std.specs.Prelude.{◌≡◌};

use crate::{Guest, Seat};
use elf32::Image;
use items::{Entry, What};
use mips_cp0::Profile;
use std::alloc::Global;
use std::process::Abort;
use std::sync::Arc;

/// An image of no bytes.
fn no_bytes(rt: &impl Abort, alloc: Global) -> Arc<Image, Global> {
    let image = Image {
        entry: 0x8000_0000,
        segments: Vec::new(alloc),
    };
    match Arc::new(alloc, image) {
        Ok(image) => image,
        Err(_) => panic!(rt; "no memory for the image"),
    }
}

/// A guest of one page.
fn booted(rt: &impl Abort, alloc: Global) -> Guest
    ensures { result.seats ≡ 0 }
{
    let image = no_bytes(rt, alloc);
    if !image.fits(1) {
        panic!(rt; "the image has no room");
    }
    match Guest::boot(alloc, Profile::One, image, 1, 8) {
        Ok(guest) => guest,
        Err(_) => panic!(rt; "no memory for the guest"),
    }
}

/// A byte of input, for which there is room in the log and in the console.
fn take_in(rt: &impl Abort, guest: &mut Guest, seat: &mut Seat, byte: u8)
    requires { seat.old.head ≡ guest.old.head }
    ensures { seat.new.head ≡ guest.new.head }
{
    if let Err(stop) = guest.item_room() {
        panic!(rt; "no room in the log: {stop:?}");
    }
    if !guest.view().devices.has_input_room() {
        panic!(rt; "no room in the console");
    }
    guest.take_in(byte, seat);
}

/// The seat and the byte of input that an entry is.
fn byte_of(entry: Option<&Entry>) -> Option<(u8, u8)> {
    match entry {
        Some(Entry::One(item)) => match item.what {
            What::In(byte) => Some((item.seat.number(), byte)),
            _ => None,
        },
        _ => None,
    }
}

#[test]
fn bytes_that_have_room_are_logged(rt: HostRuntime) {
    let mut guest = booted(&rt, rt.alloc());
    let mut seat = guest.seat();
    take_in(&rt, &mut guest, &mut seat, 0x41);
    take_in(&rt, &mut guest, &mut seat, 0x42);
    let entries = guest.log().entries();
    let logged = (
        byte_of(entries.get(0)),
        byte_of(entries.get(1)),
        entries.len(),
    );
    assert!(rt;
        logged == (Some((0, 0x41)), Some((0, 0x42)), 2),
        "{logged:?}"
    );
    let waits = guest.view().devices.lines();
    assert!(rt; waits == 4, "IP2 is not raised alone: {waits}");
    guest.close();
}
