//! Laws of files and images.
ghost use Rattle.std.specs.Prelude.{◌≡◌, ℕ, ◌<◌, ◌≤◌, ◌+◌, map, true, Some, None};
ghost use Rattle.elf32.specs.declared.image.Image.{Image};
ghost use Rattle.elf32.specs.declared.range.AddressRange.{AddressRange};
ghost use Rattle.elf32.specs.Headers.{shown};
ghost use Rattle.elf32.specs.declared.fault.Fault.TheVariants as fault;
ghost use Rattle.elf32.specs.Faults.{first_fault, share_address};
ghost use Rattle.elf32.specs.Files.{StandsFor, IsLoadable, file_of, header_bytes};
ghost use Rattle.elf32.specs.Worked.{zeros, one_segment};

/// A law: the file that is written for an image stands for it, and another image that it stands for shows the same: what
/// `write` wrote `read` gives back, unless memory is wanted.
pub fn written_file_stands_for_its_image()
    ensures stands { (image : Image) (pages : ℕ) → IsLoadable pages image → StandsFor (file_of image) pages image }
    ensures entry { (image back : Image) (pages : ℕ) → IsLoadable pages image → StandsFor (file_of image) pages back → back.entry ≡ image.entry }
    ensures segments { (image back : Image) (pages : ℕ) → IsLoadable pages image → StandsFor (file_of image) pages back
        → map shown back.segments.items ≡ map shown image.segments.items }
{}

/// A law: two ranges that aren't empty share an address where some address is in both.
pub fn ranges_share_an_address_that_is_in_both()
    ensures found { (a b : AddressRange) → 0 < a.size → 0 < b.size → share_address a b ≡ true
        → (x : ℕ) × (a.address ≤ x) × (x < a.address + a.size) × (b.address ≤ x) × (x < b.address + b.size) }
    ensures shared { (a b : AddressRange) (x : ℕ) → a.address ≤ x → x < a.address + a.size → b.address ≤ x → x < b.address + b.size → share_address a b ≡ true }
{}

/// Worked files, for a memory of 16 pages: 51 bytes; no program header, and 65 of them; more memory than there is; bytes
/// past the end of the file; more bytes than memory; and the memory's last page, to its last byte and one further.
#[tactic(auto, unfolding(crate::specs::Headers::file_header, crate::specs::Headers::program_header, crate::specs::Files::header_bytes))]
pub fn files_worked_out()
    ensures short { first_fault (zeros 51) 16 ≡ Some fault.Short }
    ensures no_entry { first_fault (header_bytes 0x80000000 0) 16 ≡ Some fault.Empty }
    ensures many_entries { first_fault (header_bytes 0x80000000 65) 16 ≡ Some fault.Table }
    ensures large { first_fault (one_segment 84 0x80000000 1 0xffffffff) 16 ≡ Some fault.Place }
    ensures past_the_end { first_fault (one_segment 0xffffffff 0x80000000 1 1) 16 ≡ Some fault.Contents }
    ensures more_than_memory { first_fault (one_segment 83 0x80000000 2 1) 16 ≡ Some fault.Contents }
    ensures last_page { first_fault (one_segment 84 0x8000f000 1 0x1000) 16 ≡ None }
    ensures past_the_last_page { first_fault (one_segment 84 0x8000f000 1 0x1001) 16 ≡ Some fault.Place }
{}
