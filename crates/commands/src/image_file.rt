//! Images in files.
ghost use Rattle.std.specs.Prelude.{◌≡◌, ◌⊎◌, ◌<◌, ◌*◌, ◌^◌, ◌↔◌, IfErr, IfOk, IfSome, IsErrOf, IsTrue, MatchOption, Some, length};
ghost use Rattle.std.specs.Io.KnownBytes.{Keeps};
ghost use Rattle.sha2.specs.Sha256.{sha256};
ghost use Rattle.elf32.specs.Images.{FitsPages};
ghost use Rattle.elf32.specs.Files.{StandsFor};
ghost use Rattle.commands.specs.Faults.{IsElfFault, IsElfRefusal, IsNoElf, IsRawFault};
ghost use Rattle.commands.specs.Raw.{IsPageCount, IsRaw, IsRawImage};

use crate::fault::{Fault, of_file};
use crate::order::Exec;
use elf32::{ElfError, Image};
use logfile::image_digest;
use mips_cp0::Profile;
use std::alloc::Global;
use std::io;
use std::io::{BufRead, BufReader, Read};
use tenant::BootError;
use word32::PAGE_SIZE;

/// The least number of pages of a machine.
const LEAST_PAGES: u32 = 2;

/// How many bytes a page has.
const PAGE_BYTES: u64 = PAGE_SIZE as u64;

/// Whether a machine of a profile may have so many pages: 2 to the most of the profile, 16,384 or 32,768.
pub fn is_page_count(profile: Profile, pages: u32) -> bool
    ensures { IsTrue result ↔ IsPageCount profile pages }
{
    LEAST_PAGES <= pages && pages <= profile.numbers().most_pages
}

/// The image of a file, and the digest of the file.
#[derive(Drop)]
pub struct Loaded {
    /// The image that the file stands for.
    pub image: Image,
    /// The SHA-256 digest of the file's bytes, by which a log names the image.
    pub digest: [u8; 32],
}

/// The image of an ELF executable in the file of this name, for a memory of some pages, which hold it.
///
/// An error is `Elf` with the file's first fault, `Memory` where a request for memory was refused, and `File` where the
/// file can't be read. A file whose first bytes say that it is no such executable is not read to its end.
pub fn elf_image<'a, F: Read + Drop>(
    alloc: Global,
    file: F,
    name: &'a str,
    pages: u32,
) -> Result<Loaded, Fault<'a>>
    ensures stands { IfSome (F.remaining file) (λ all. IfOk result (λ loaded. StandsFor all pages loaded.image)) }
    ensures digest { IfSome (F.remaining file) (λ all. IfOk result (λ loaded. loaded.digest ≡ sha256 all)) }
    ensures fits { IfOk result (λ loaded. FitsPages loaded.image pages) }
    ensures refused { IfSome (F.remaining file) (λ all. IfErr result (λ fault. IsElfRefusal all pages fault)) }
    ensures faults { IfErr result (λ fault. IsElfFault (Fault.File name.entry) fault) }
{
    let Some(bytes) = of_file(name, elf_file(alloc, file))? else {
        return Err(Fault::Elf {
            fault: elf32::Fault::Identification,
        });
    };
    let digest = image_digest(&bytes);
    let image = image_in(alloc, &bytes, pages)?;
    Ok(Loaded { image, digest })
}

/// How many bytes the header of an ELF executable has.
const HEADER_BYTES: usize = 52;

/// What an ELF executable begins with: its magic number, 32 bits, the low byte first, version 1.
const IDENTIFICATION: [u8; 7] = [0x7f, b'E', b'L', b'F', 1, 1, 1];

/// The bytes of a file; None where its first bytes say that it is no ELF executable, and then it is not read to its end, which may be far.
pub fn elf_file<F: Read + Drop>(alloc: Global, file: F) -> io::Result<Option<Vec<u8>>>
    ensures { IfSome (F.remaining file) (λ all. IfOk result (λ found. MatchOption found (IsNoElf all) (λ bytes. bytes.items ≡ all))) }
{
    let mut file = BufReader::new(alloc, file)?;
    if begins_otherwise(&mut file) {
        return Ok(None);
    }
    Ok(Some(whole_file(alloc, file)?))
}

/// Whether what a reader has next is a whole header with another identification.
fn begins_otherwise<B: BufRead>(file: &mut B) -> bool
    ensures kept { Keeps (B.remaining file.old) (B.remaining file.new) }
    ensures refused { IfSome (B.remaining file.old) (λ all. IsTrue result → IsNoElf all) }
{
    match file.fill_buf() {
        Ok(first) => HEADER_BYTES <= first.len() && !first.starts_with(&IDENTIFICATION),
        // What can't be read now is told by whoever reads on.
        Err(_) => false,
    }
}

/// The bytes of a file.
pub fn whole_file<F: Read + Drop>(alloc: Global, mut file: F) -> io::Result<Vec<u8>>
    ensures { IfSome (F.remaining file) (λ all. IfOk result (λ bytes. bytes.items ≡ all)) }
{
    let mut bytes = Vec::new(alloc);
    file.read_to_end(&mut bytes)?;
    Ok(bytes)
}

/// The image of an ELF executable of these bytes.
pub fn image_in<'a>(alloc: Global, bytes: &[u8], pages: u32) -> Result<Image, Fault<'a>>
    ensures stands { IfOk result (StandsFor bytes.now pages) }
    ensures fits { IfOk result (λ image. FitsPages image pages) }
    ensures refused { IfErr result (λ fault. IsElfRefusal bytes.now pages fault) }
    ensures faults { IfErr result (λ fault. IsElfFault Fault.Memory fault) }
{
    match elf32::read(alloc, bytes, pages) {
        Ok(image) => Ok(image),
        Err(ElfError::Fault(fault)) => Err(Fault::Elf { fault }),
        Err(ElfError::Memory) => Err(Fault::Memory),
    }
}

/// The image of a file without a header, which the pages hold.
///
/// An error is `Raw` where the file is empty or longer than the pages, then `Boot` where the number of pages is outside
/// the limits of the profile, `Memory` where a request for memory was refused, and `File` where the file can't be read.
pub fn raw_image<'a, F: Read + Drop>(
    alloc: Global,
    file: F,
    order: Exec<'a>,
) -> Result<Loaded, Fault<'a>>
    ensures fits { IfOk result (λ loaded. FitsPages loaded.image order.entry.pages) }
    ensures legal { IfOk result (λ loaded. IsPageCount order.entry.profile order.entry.pages) }
    ensures image { IfSome (F.remaining file) (λ all. IfOk result (λ loaded. IsRawImage all loaded.image)) }
    ensures digest { IfSome (F.remaining file) (λ all. IfOk result (λ loaded. loaded.digest ≡ sha256 all)) }
    ensures raw { IfSome (F.remaining file) (λ all. IsPageCount order.entry.profile order.entry.pages → IsErrOf result Fault.Raw
        → ¬ IsRaw (order.entry.pages * 4096) (length all)) }
    ensures faults { IfErr result (λ fault. IsRawFault order.entry fault) }
{
    if is_page_count(order.profile, order.pages) {
        raw_image_within(alloc, file, order)
    } else {
        Err(fault_outside(file, order))
    }
}

/// The raw image for a number of pages within its limits.
#[tactic(auto, using(crate::proofs::Limits::most_few))]
fn raw_image_within<'a, F: Read + Drop>(
    alloc: Global,
    file: F,
    order: Exec<'a>,
) -> Result<Loaded, Fault<'a>>
    requires { IsPageCount order.profile order.pages }
    ensures fits { IfOk result (λ loaded. FitsPages loaded.image order.entry.pages) }
    ensures image { IfSome (F.remaining file) (λ all. IfOk result (λ loaded. IsRawImage all loaded.image)) }
    ensures digest { IfSome (F.remaining file) (λ all. IfOk result (λ loaded. loaded.digest ≡ sha256 all)) }
    ensures raw { IfSome (F.remaining file) (λ all. IsErrOf result Fault.Raw → ¬ IsRaw (order.entry.pages * 4096) (length all)) }
    ensures faults { IfErr result (λ fault. IsRawFault order.entry fault) }
{
    let room = u64::from(order.pages) * PAGE_BYTES;
    match of_file(order.image, raw_bytes(alloc, file, room))? {
        Some(bytes) => {
            let digest = image_digest(&bytes);
            let image = Image::raw(alloc, bytes)?;
            Ok(Loaded { image, digest })
        }
        None => Err(Fault::Raw),
    }
}

/// The image of these bytes without a header, which the pages, fewer than 2^20, hold. An error is `Raw` where there are none or too
/// many, and `Memory` where a request for memory was refused.
pub fn raw_image_in<'a>(alloc: Global, bytes: Vec<u8>, pages: u32) -> Result<Image, Fault<'a>>
    requires { pages < 2 ^ 20 }
    ensures fits { IfOk result (λ image. FitsPages image pages) }
    ensures image { IfOk result (IsRawImage bytes.items) }
    ensures raw { IsErrOf result Fault.Raw → ¬ IsRaw (pages * 4096) (length bytes.items) }
    ensures faults { IfErr result (λ fault. (fault ≡ Fault.Raw) ⊎ (fault ≡ Fault.Memory)) }
{
    if is_raw(bytes.len() as u64, u64::from(pages) * PAGE_BYTES) {
        Ok(Image::raw(alloc, bytes)?)
    } else {
        Err(Fault::Raw)
    }
}

/// What is wrong with a raw image where the number of pages is outside its limits.
fn fault_outside<'a, F: Read + Drop>(file: F, order: Exec<'a>) -> Fault<'a>
    requires { ¬ IsPageCount order.profile order.pages }
    ensures { IsRawFault order.entry result }
{
    let room = u64::from(order.pages) * PAGE_BYTES;
    match of_file(order.image, length_up_to(file, room + 1)) {
        Ok(length) if is_raw(length, room) => Fault::Boot {
            error: BootError::Limits,
        },
        Ok(_) => Fault::Raw,
        Err(fault) => fault,
    }
}

/// The bytes of a file, or `None` where it is no raw image for a memory of `room` bytes; of a file that is too long, one
/// byte more than that is read.
fn raw_bytes<F: Read + Drop>(alloc: Global, file: F, room: u64) -> io::Result<Option<Vec<u8>>>
    requires { room < 2 ^ 32 }
    ensures raw { IfOk result (λ found. IfSome found (λ bytes. IsRaw room (length bytes.items))) }
    ensures bytes { IfSome (F.remaining file) (λ all. IfOk result (λ found. MatchOption found (¬ IsRaw room (length all)) (λ bytes. bytes.items ≡ all))) }
{
    let mut bytes = Vec::new(alloc);
    file.take(room + 1).read_to_end(&mut bytes)?;
    if is_raw(bytes.len() as u64, room) {
        Ok(Some(bytes))
    } else {
        Ok(None)
    }
}

/// Whether a file of this many bytes is a raw image for a memory of `room` bytes.
fn is_raw(length: u64, room: u64) -> bool
    ensures { IsTrue result ↔ IsRaw room length }
{
    0 < length && length <= room
}

/// How many bytes there are to be read, but at most `most`; none is kept.
fn length_up_to<F: Read + Drop>(file: F, most: u64) -> io::Result<u64> {
    io::copy(&mut file.take(most), &mut io::sink())
}
