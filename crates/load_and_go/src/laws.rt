//! Laws of what is assembled, read and booted.
ghost use Rattle.std.specs.Prelude.{◌≡◌, ℕ, List};
ghost use Rattle.elf32.specs.declared.image.Image.{Image};
ghost use Rattle.elf32.specs.Faults.{first_fault};
ghost use Rattle.elf32.specs.Files.{StandsFor};
ghost use Rattle.masm.specs.Listings.{Listing};
ghost use Rattle.masm.specs.Images.{IsImageOf};
ghost use Rattle.mips_cp0.specs.declared.profile.Profile.{Profile};
ghost use Rattle.machine.specs.Boot.{boot_machine};
ghost use Rattle.load_and_go.specs.Executables.{fault_of};
ghost use Rattle.load_and_go.specs.Holds.{Holds};

/// A law: where the file of a listing's image is read for a machine's pages, the machine that is booted, of either profile, holds the listing.
#[tactic(auto, using(crate::proofs::Booted::machine_holds))]
pub fn booted_machine_holds_its_listing()
    ensures { (listing : Listing) (assembled read : Image) (file : List ℕ) (profile : Profile) (pages : ℕ) → IsImageOf listing assembled
        → StandsFor file 131072 assembled → StandsFor file pages read → Holds (boot_machine profile read pages) listing }
{}

/// A law: the executable of a listing is refused for a machine's pages exactly where a part of the listing passes their end,
/// and for no other fault.
#[tactic(auto, using(crate::proofs::Refused::executable_fault))]
pub fn executable_is_refused_where_a_part_passes_the_pages()
    ensures { (listing : Listing) (assembled : Image) (file : List ℕ) (pages : ℕ) → IsImageOf listing assembled → StandsFor file 131072 assembled
        → first_fault file pages ≡ fault_of pages listing }
{}
