//! Laws of the definitions: what a text means is what it is assembled to, its listing is printed of its executable, and a
//! line is read as the instruction that is printed as that line.
ghost use Rattle.std.specs.Prelude.{◌≡◌, ◌↔◌, ℕ, ◌≤◌, ◌<◌, ◌%◌, List, ◌∷◌, [], codes, map, Some, None, Ok};
ghost use Rattle.elf32.specs.Headers.{shown};
ghost use Rattle.elf32.specs.declared.image.Image.{Image};
ghost use Rattle.mips_isa.specs.Table.{readings};
ghost use Rattle.mips_instr.specs.declared.instr.Instr.{Instr};
ghost use Rattle.mips_instr.specs.declared.instr.Instr.TheVariants.{Branch};
ghost use Rattle.mips_instr.specs.Text.{instr_text};
ghost use Rattle.mips_instr.specs.declared.instr.BranchOp.TheVariants.{Beq};
ghost use Rattle.masm.specs.Assembly.{Means, assembly, first_fault};
ghost use Rattle.masm.specs.Disassembly.{IsDisassemblyOf, IsListingOf};
ghost use Rattle.masm.specs.Executables.{IsExecutableOf};
ghost use Rattle.masm.specs.Images.{IsImageOf};
ghost use Rattle.masm.specs.Laws.{HasFields, LinePuts, item_printed};
ghost use Rattle.masm.specs.Listings.{Listing};
ghost use Rattle.masm.specs.Meanings.{Code};
ghost use Rattle.masm_lines.specs.declared.fault.AsmFault.TheVariants as fault;

use mips_isa::encoding::one_word_encodes_an_instruction;

/// A law: a text means a listing exactly where its assembly is this listing. So it means one listing at most, and one exactly
/// where it has no fault.
pub fn text_means_its_assembly()
    ensures means { (text : List ℕ) (listing : Listing) → Means text listing ↔ (assembly text ≡ Ok listing) }
    ensures one { (text : List ℕ) (a b : Listing) → Means text a → Means text b → a ≡ b }
    ensures no_fault { (text : List ℕ) (listing : Listing) → Means text listing → first_fault text ≡ None }
    ensures faultless { (text : List ℕ) → first_fault text ≡ None → (listing : Listing) × Means text listing }
{}

/// A law: all images of a listing have the same entry and the same segments.
pub fn listing_has_one_image()
    ensures entry { (listing : Listing) (a b : Image) → IsImageOf listing a → IsImageOf listing b → a.entry ≡ b.entry }
    ensures segments { (listing : Listing) (a b : Image) → IsImageOf listing a → IsImageOf listing b
        → map shown a.segments.items ≡ map shown b.segments.items }
{
    one_word_encodes_an_instruction();
}

/// A law: a text's listing is the disassembly of the text's executable, the only one.
pub fn listing_is_disassembly_of_the_executable()
    ensures listing { (text file lines : List ℕ) → IsExecutableOf text file → IsListingOf text lines → IsDisassemblyOf file lines }
    ensures only { (file a b : List ℕ) → IsDisassemblyOf file a → IsDisassemblyOf file b → a ≡ b }
{
    one_word_encodes_an_instruction();
}

/// A law: the line that is printed of an instruction at an address where one may stand is read as that instruction there;
/// the line of an instruction of coprocessor 1 or 2 as its word.
pub fn printed_line_means_its_instruction()
    ensures line { (i : Instr) (address : ℕ) → HasFields i → address % 4 ≡ 0 → 0x80000000 ≤ address → address < 0xa0000000
        → LinePuts (instr_text i address) address (item_printed i) }
    // Each word's instruction is such a one.
    ensures table { (word : ℕ) (i : Instr) → readings word ≡ i ∷ [] → HasFields i }
{}

/// Worked texts: the first fault of each, with its line, and the farthest branch with its word.
pub fn texts_worked_out()
    ensures no_content { first_fault (codes "") ≡ Some (fault.Empty, 0) }
    ensures two_labels { first_fault (codes "a: a: eret") ≡ Some (fault.Syntax, 1) }
    ensures name_twice { first_fault (codes "x: eret\nx: eret\n") ≡ Some (fault.DoubleName, 2) }
    ensures unknown_name { first_fault (codes "j nowhere") ≡ Some (fault.UnknownName, 1) }
    ensures place { first_fault (codes ".org 0x80000002\neret\n") ≡ Some (fault.Place, 2) }
    ensures too_far { first_fault (codes "beq $0,$0,0x80020004") ≡ Some (fault.Range, 1) }
    ensures farthest { assembly (codes "beq $0,$0,0x80020000")
        ≡ Ok (record { parts = record { address = 0x80000000; items = Code (Branch Beq 0 0 0x7fff) ∷ [] } ∷ []; entry = 0x80000000 }) }
    ensures word { readings 0x10007fff ≡ Branch Beq 0 0 0x7fff ∷ [] }
{}
