//! Booting the program of a text.
ghost use Rattle.std.specs.Prelude.{◌≡◌, ◌≤◌, ◌↔◌, ◌^◌, [], ◌∷◌, None, IfOk, IfErr, slice_index_or};
ghost use Rattle.elf32.specs.declared.image.Image as elf;
ghost use Rattle.elf32.specs.Images.{FitsPages};
ghost use Rattle.masm.specs.Listings.{Listing};
ghost use Rattle.masm.specs.Assembly.{Means};
ghost use Rattle.mips_cp0.specs.declared.profile.Profile.{Profile};
ghost use Rattle.machine.specs.Boot.{boot_machine};
ghost use Rattle.sharetab.specs.Maps.{at_page};
ghost use Rattle.sharetab.specs.declared.guest_page.GuestPage.{GuestPage};
ghost use Rattle.guest.specs.Guests.{view_of};
ghost use Rattle.world.specs.Boots.{AreWithinLimits, HoldsImage, AreBooted};
ghost use Rattle.tenant.specs.Tenants.{TenantIs};
ghost use Rattle.booting.specs.declared.asked.NewGuest as boot;
ghost use Rattle.load_and_go.specs.Executables.{IsReadFrom};
ghost use Rattle.load_and_go.specs.Errors.{IsErrorOf};
ghost use Rattle.load_and_go.specs.Guests.{IsGuestOf, WhyNotBooted};
ghost use Rattle.load_and_go.specs.declared.error.TextError as text_error;
ghost use Rattle.load_and_go.specs.Holds.{Holds};

use crate::laws::booted_machine_holds_its_listing;
use crate::{BootError, TextError};
use elf32::{Image, read};
use flatvm::Flat;
use masm::assemble;
use mips_cp0::Profile;
use std::alloc::{AllocError, Global};
use std::sync::Arc;
use swapstore::SwapStore;
use taxpolicy::DEFAULT_MINIMUM;
use world::{Config, NewGuest, World};

/// A world whose one guest, of a profile, has booted the program of a text in assembly language: the guest of `guest_of_text`, booted as
/// `World::boot` has it. Its view holds the listing that the text means: memory at each listed address holds the listing's instruction
/// or data, and PC is its entry; the rest is as a machine boots. Its log, of at most as many runs as the world's limit, is empty.
///
/// While the store is true to digests the guest is its view, whether its pages are in frames or in slots (`World::is_sound`). So what
/// `World::debug_read` gives for the bytes of a listed item stands for that item, since it gives the bytes of the view, and none of
/// them is without a place.
///
/// The error is `Text` with what refuses the text (`guest_of_text`): then the store comes back as it was. Else it is `World` with why
/// the world is not booted (`World::boot`), which is never that the pages don't hold the image; and the store comes back.
pub fn boot_text<S: SwapStore>(
    alloc: Global,
    profile: Profile,
    text: &str,
    config: Config,
    pages: u32,
    shares: u32,
    store: S,
) -> Result<World<S>, (BootError, S)>
    // The view of the guest holds the listing that the text means.
    ensures view { IfOk result (λ w. (listing : Listing) × Means text.now listing
        × ((t : TenantIs) → Holds (view_of (slice_index_or w.tenants 0 t).guest) listing)) }
    // It is the one guest, of this profile, at the boot of an image that the text's executable stands for.
    ensures booted { IfOk result (λ w. (guest : boot.NewGuest) × IsGuestOf profile text.now pages shares guest
        × AreBooted config.log_runs (guest ∷ []) w.tenants × AreWithinLimits config (S.slots store) (guest ∷ [])) }
    ensures hints { IfOk result (λ w. (page : GuestPage) → at_page w.shares.hints page ≡ None) }
    ensures frames { IfOk result (λ w. w.frames ≡ config.frames) }
    ensures slots { IfOk result (λ w. S.slots w.store ≡ S.slots store) }
    ensures honest { IfOk result (λ w. S.honest w.store ↔ S.honest store) }
    ensures true_to_digests { IfOk result (λ w. S.true_to_digests w.store ↔ S.true_to_digests store) }
    ensures refused { IfErr result (λ refused. WhyNotBooted profile text.now pages shares config (S.slots store) refused.0) }
    ensures back { IfErr result (λ refused. (S.slots refused.1 ≡ S.slots store) × (S.honest refused.1 ↔ S.honest store)) }
    ensures untouched { IfErr result (λ refused. (error : text_error.TextError) → refused.0 ≡ BootError.Text error → refused.1 ≡ store) }
{
    let guests = match guests_of_text(alloc, profile, text, pages, shares) {
        Ok(guests) => guests,
        Err(error) => return Err((BootError::Text { error }, store)),
    };
    match World::boot(alloc, config, guests, store) {
        Ok(world) => Ok(world),
        Err((error, store)) => Err((BootError::World { error }, store)),
    }
}

// The guest of a text by itself.
fn guests_of_text(
    alloc: Global,
    profile: Profile,
    text: &str,
    pages: u32,
    shares: u32,
) -> Result<Vec<NewGuest>, TextError>
    ensures one { IfOk result (λ guests. (guest : boot.NewGuest) × (guests.items ≡ guest ∷ [])
        × IsGuestOf profile text.now pages shares guest × HoldsImage guest
        × ((listing : Listing) × Means text.now listing × Holds (boot_machine guest.profile guest.image.value guest.pages) listing)) }
    ensures refused { IfErr result (IsErrorOf text.now pages) }
{
    let guest = guest_of_text(alloc, profile, text, pages, shares)?;
    Ok(alone(alloc, guest)?)
}

// A guest by itself.
fn alone(alloc: Global, guest: NewGuest) -> Result<Vec<NewGuest>, AllocError>
    ensures { IfOk result (λ guests. guests.items ≡ guest ∷ []) }
{
    Ok(Vec::from_array(alloc, [guest])?)
}

/// A guest of a world, of a profile, that boots the program of a text in assembly language, with this many shares and the least minimum. The
/// text is assembled, and its executable is read for a machine with `pages` pages of 4096 bytes from 80000000 on, which hold the image. How
/// many pages a guest of the profile may have is said at the boot of its world.
///
/// The error is `Assembler` with the text's first fault, then `Executable` with the first fault that its executable has for so many
/// pages, which is `Place`: a part of the listing passes their end. It is `Memory` where a request for memory was refused. An error
/// leaves nothing behind.
pub fn guest_of_text(
    alloc: Global,
    profile: Profile,
    text: &str,
    pages: u32,
    shares: u32,
) -> Result<NewGuest, TextError>
    ensures guest { IfOk result (IsGuestOf profile text.now pages shares) }
    ensures fits { IfOk result HoldsImage }
    // The machine that it boots holds the listing that the text means.
    ensures holds { IfOk result (λ guest. (listing : Listing) × Means text.now listing × Holds (boot_machine guest.profile guest.image.value guest.pages) listing) }
    ensures refused { IfErr result (IsErrorOf text.now pages) }
{
    let image = image_of_text(alloc, text, pages)?;
    Ok(NewGuest {
        profile,
        image: shared(alloc, image)?,
        pages,
        shares,
        minimum: DEFAULT_MINIMUM,
    })
}

// An image that guests can share.
fn shared(alloc: Global, image: Image) -> Result<Arc<Image, Global>, AllocError>
    ensures { IfOk result (λ shared. shared.value ≡ image) }
{
    Ok(Arc::new(alloc, image)?)
}

/// The reference machine of a profile that has booted the program of a text in assembly language, with `pages` pages, at most 2^20. The
/// errors are those of `guest_of_text`.
pub fn flat_text(alloc: Global, profile: Profile, text: &str, pages: u32) -> Result<Flat, TextError>
    requires { pages ≤ 2 ^ 20 }
    // The machine holds the listing that the text means.
    ensures machine { IfOk result (λ m. (listing : Listing) × Means text.now listing × Holds m listing) }
    // It is the boot of an image that the text's executable stands for.
    ensures image { IfOk result (λ m. (image : elf.Image) × IsReadFrom text.now pages image × (m ≡ boot_machine profile image pages)) }
    ensures refused { IfErr result (IsErrorOf text.now pages) }
{
    let image = image_of_text(alloc, text, pages)?;
    Ok(Flat::boot(alloc, profile, &image, pages)?)
}

/// The image that a text's executable stands for, for a machine with `pages` pages, which hold it.
fn image_of_text(alloc: Global, text: &str, pages: u32) -> Result<Image, TextError>
    ensures read { IfOk result (IsReadFrom text.now pages) }
    ensures fits { IfOk result (λ image. FitsPages image pages) }
    ensures holds { IfOk result (λ image. (listing : Listing) × Means text.now listing
        × ((profile : Profile) → Holds (boot_machine profile image pages) listing)) }
    ensures refused { IfErr result (IsErrorOf text.now pages) }
{
    let file = assemble(alloc, text)?;
    booted_machine_holds_its_listing();
    Ok(read(alloc, &file, pages)?)
}
