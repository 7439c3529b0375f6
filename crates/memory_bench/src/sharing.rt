//! Rounds over a table of shared frames, and of the SHA-256 that each of them computes.

use crate::frame::zero_frame;
use framepool::Pool;
use frames::Frame;
use guest_number::GuestNo;
use sha2::{Digest, Sha256};
use sharetab::{GuestPage, Offer, Shares};
use std::alloc::{AllocError, Global};
use word32::{Ppn, put_word};

// The SHA-256 of a page with the number of the round in its first word.
fn digest_of(page: &mut [u8; 4096], round: u32) -> [u8; 32] {
    put_word(page, 0, round);
    Sha256::digest(&page[..])
}

/// Computes the SHA-256 of so many pages; the sum of their first bytes.
pub fn digests(count: u32) -> u64 {
    let mut page = [1; 4096];
    let mut sum: u64 = 0;
    for round in 0..count {
        sum = sum.wrapping_add(u64::from(digest_of(&mut page, round)[0]));
    }
    sum
}

fn guest_page(number: u32) -> GuestPage {
    GuestPage {
        guest: GuestNo::new(0),
        page: Ppn::new(number % 4096),
    }
}

// How many of so many pages were noted, each with new bytes.
fn offer(shares: &mut Shares, count: u32) -> Result<u64, AllocError> {
    let mut page = [1; 4096];
    let mut noted: u64 = 0;
    for round in 0..count {
        match shares.offer(&digest_of(&mut page, round), guest_page(round))? {
            Offer::Noted => noted = noted.wrapping_add(1),
            Offer::Match(_) => {}
            Offer::Taken => {}
        }
    }
    Ok(noted)
}

fn give_up(frame: Frame) -> AllocError {
    let _number = frame.close();
    AllocError
}

// Makes an entry of a frame, and gives its one ticket up.
fn admit(shares: &mut Shares, frame: Frame) -> Result<(), AllocError> {
    match shares.offer(&Sha256::digest(frame.bytes()), guest_page(0)) {
        Ok(Offer::Noted) if shares.is_vacant(frame.number()) => match shares.admit(frame) {
            Ok((_page, ticket)) => {
                let _number = ticket.close();
                Ok(())
            }
            Err(frame) => Err(give_up(frame)),
        },
        _ => Err(give_up(frame)),
    }
}

fn join(shares: &mut Shares, count: u32) -> Result<(), AllocError> {
    let page = [0; 4096];
    for _round in 0..count {
        if let Some((_page, ticket)) = shares.join(&page)? {
            let _number = ticket.close();
        }
    }
    Ok(())
}

fn over(shares: &mut Shares, frame: Frame, offers: u32, joins: u32) -> Result<u64, AllocError> {
    admit(shares, frame)?;
    let noted = offer(shares, offers)?;
    join(shares, joins)?;
    Ok(noted.wrapping_add(shares.tickets()))
}

/// Offers so many pages of a guest with 4,096 pages, each with new bytes, and then lets so many pages join a shared frame, which
/// has their bytes; how many were noted, and tickets are out.
pub fn shared(alloc: Global, offers: u32, joins: u32) -> Result<u64, AllocError> {
    let mut pool = Pool::new(alloc, 1)?;
    let made = zero_frame(alloc, &mut pool);
    pool.close();
    let frame = made?;
    match Shares::new(alloc, 1) {
        Ok(mut shares) => {
            let answer = over(&mut shares, frame, offers, joins);
            shares.close();
            answer
        }
        Err(_) => Err(give_up(frame)),
    }
}
