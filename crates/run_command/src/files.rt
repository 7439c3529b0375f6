//! The files that a run begins with.
ghost use Rattle.std.specs.Prelude.{◌≡◌, ◌⊎◌, IfErr, IfOk, length};
ghost use Rattle.commands.specs.Sims.{numbers_of};
ghost use Rattle.run_command.specs.Faults.{AreOrdered, IsGuestFault, IsGuestsFault, order_numbers};

use crate::order::{GuestOrder, RunOrder};
use booting::NewGuest;
use commands::Fault;
use commands::fault::of_file;
use commands::image_file::{Loaded, elf_image};
use commands::log_file::is_log;
use mips_cp0::Profile;
use output_file::is_one_file;
use std::fs::File;
use std::io;
use std::rt::Files;
use std::sync::Arc;
use taxpolicy::DEFAULT_MINIMUM;

/// The guests of an order, with the digest of each one's image.
#[derive(Drop)]
pub(crate) struct LoadedGuests {
    /// The guests.
    pub guests: Vec<NewGuest>,
    /// The digest of each image's file, by which a log names it.
    pub digests: Vec<[u8; 32]>,
}

/// Opens the swap file, which is made where it is not there. One that is an image of a guest too is refused.
pub(crate) fn open_swap<'a, R: Files<File = File> + AllocGlobal>(
    rt: &R,
    order: &RunOrder<'a>,
) -> Result<File, Fault<'a>>
    ensures faults { IfErr result (λ fault. (fault ≡ Fault.Memory) ⊎ (fault ≡ Fault.File order.now.swap)) }
{
    for guest in &order.guests {
        if is_one_file(rt, order.swap, guest.image) {
            return Err(Fault::File { name: order.swap });
        }
    }
    of_file(order.swap, swap_file(rt, order.swap))
}

fn swap_file<R: Files<File = File>>(rt: &R, name: &str) -> io::Result<File> {
    File::options()
        .read(true)
        .write(true)
        .create(true)
        .open(rt, name)
}

/// Whether no log in this directory is to be written over the image of a guest.
#[tactic(auto, using(crate::proofs::Faults::of_place))]
pub(crate) fn logs_are_apart<'a, R: Files + AllocGlobal>(
    rt: &R,
    directory: &str,
    orders: &[GuestOrder<'a>],
) -> Result<(), Fault<'a>>
    ensures faults { IfErr result (λ fault. IsGuestsFault orders.now fault) }
{
    for order in orders {
        is_apart(rt, directory, orders.len(), *order)?;
    }
    Ok(())
}

fn is_apart<'a, R: Files + AllocGlobal>(
    rt: &R,
    directory: &str,
    guests: usize,
    order: GuestOrder<'a>,
) -> Result<(), Fault<'a>>
    ensures faults { IfErr result (λ fault. IsGuestFault order.entry fault) }
{
    if is_log(rt, directory, guests, order.image)? {
        return Err(Fault::File { name: order.image });
    }
    Ok(())
}

/// The guests of an order, of this profile, with the images of their files, guest after guest.
#[tactic(auto, using(crate::proofs::Faults::of_place))]
pub(crate) fn load_guests<'a, R: Files + AllocGlobal>(
    rt: &R,
    profile: Profile,
    orders: &[GuestOrder<'a>],
) -> Result<LoadedGuests, Fault<'a>>
    ensures guests { IfOk result (λ loaded. AreOrdered profile orders.now loaded.guests.items) }
    ensures digests { IfOk result (λ loaded. length loaded.digests.items ≡ length orders.now) }
    ensures faults { IfErr result (λ fault. IsGuestsFault orders.now fault) }
{
    let mut guests = Vec::with_capacity(rt.alloc(), orders.len())?;
    let mut digests = Vec::with_capacity(rt.alloc(), orders.len())?;
    for order in orders {
        let (guest, digest) = load_guest(rt, profile, *order)?;
        guests.push_reserved(guest);
        digests.push_reserved(digest);
    }
    Ok(LoadedGuests { guests, digests })
}

fn load_guest<'a, R: Files + AllocGlobal>(
    rt: &R,
    profile: Profile,
    order: GuestOrder<'a>,
) -> Result<(NewGuest, [u8; 32]), Fault<'a>>
    ensures profile { IfOk result (λ loaded. loaded.0.profile ≡ profile) }
    ensures numbers { IfOk result (λ loaded. numbers_of loaded.0 ≡ order_numbers order.entry) }
    ensures faults { IfErr result (λ fault. IsGuestFault order.entry fault) }
{
    let file = of_file(order.image, File::open(rt, order.image))?;
    let Loaded { image, digest } = elf_image(rt.alloc(), file, order.image, order.pages)?;
    match Arc::new(rt.alloc(), image) {
        Ok(image) => Ok((
            NewGuest {
                profile,
                image,
                pages: order.pages,
                shares: order.shares,
                minimum: order.minimum.unwrap_or(DEFAULT_MINIMUM),
            },
            digest,
        )),
        Err(_) => Err(Fault::Memory),
    }
}
