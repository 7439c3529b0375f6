//! What the guests of the tests run.
use elf32::Image;
use std::alloc::Global;
use std::process::Abort;
use std::sync::Arc;

/// A guest that steps in one place: a branch to itself, and nothing in its slot.
pub(crate) const STANDING: [u32; 2] = [0x1000_ffff, 0];

/// A guest that stores a word to each of its 16 pages in turn, and counts in register 2 how often it has.
pub(crate) const WALKING: [u32; 7] = [
    0x3c03_8000, // lui $3,0x8000
    0x2421_1000, // addiu $1,$1,4096
    0x3021_f000, // andi $1,$1,0xf000
    0x0061_2021, // addu $4,$3,$1
    0xac82_0100, // sw $2,256($4)
    0x1000_fffb, // beq $0,$0,-5
    0x2442_0001, // addiu $2,$2,1
];

/// The same of 8 pages.
pub(crate) const SHORT_WALKING: [u32; 7] = [
    0x3c03_8000, // lui $3,0x8000
    0x2421_1000, // addiu $1,$1,4096
    0x3021_7000, // andi $1,$1,0x7000
    0x0061_2021, // addu $4,$3,$1
    0xac82_0100, // sw $2,256($4)
    0x1000_fffb, // beq $0,$0,-5
    0x2442_0001, // addiu $2,$2,1
];

/// A guest that stores a word to each of its 8 pages in turn and loads beside it, passes a byte of the console's input on to its output,
/// writes an entry of its TLB and gives page 5.
pub(crate) const BUSY: [u32; 24] = [
    0x3c03_8000, // lui $3,0x8000
    0x3c06_bf00, // lui $6,0xbf00
    0x240b_0005, // addiu $11,$0,5
    0x2421_1000, // addiu $1,$1,4096
    0x3021_7000, // andi $1,$1,0x7000
    0x0061_2021, // addu $4,$3,$1
    0xac82_0100, // sw $2,256($4)
    0x8c85_0200, // lw $5,512($4)
    0x0045_1021, // addu $2,$2,$5
    0x2442_0001, // addiu $2,$2,1
    0x8cc7_0004, // lw $7,4($6)
    0xacc7_0008, // sw $7,8($6)
    0x3048_000f, // andi $8,$2,15
    0x4088_0000, // mtc0 $8,Index
    0x0002_4b40, // sll $9,$2,13
    0x4089_5000, // mtc0 $9,EntryHi
    0x4082_1000, // mtc0 $2,EntryLo0
    0x4087_1800, // mtc0 $7,EntryLo1
    0x4200_0002, // tlbwi
    0x8cca_0010, // lw $10,16($6)
    0xaccb_0018, // sw $11,24($6)
    0x1000_ffed, // beq $0,$0,0x8000000c
    0x0000_0000, // sll $0,$0,0
    0x0000_0000, // sll $0,$0,0
];

/// The bytes of words, in order.
pub(crate) fn bytes_of(rt: &impl Abort, alloc: Global, words: &[u32]) -> Vec<u8> {
    let mut bytes = Vec::new(alloc);
    for word in words {
        if bytes.extend_from_slice(&word.to_le_bytes()).is_err() {
            panic!(rt; "no memory for the words");
        }
    }
    bytes
}

/// The image of these words, at the start of memory.
pub(crate) fn image_of(rt: &impl Abort, alloc: Global, words: &[u32]) -> Image {
    let bytes = bytes_of(rt, alloc, words);
    if bytes.len() > 4096 {
        panic!(rt; "too many words");
    }
    match Image::raw(alloc, bytes) {
        Ok(image) => image,
        Err(_) => panic!(rt; "no memory for the image"),
    }
}

/// The same, for a guest to boot.
pub(crate) fn shared_image(rt: &impl Abort, alloc: Global, words: &[u32]) -> Arc<Image, Global> {
    match Arc::new(alloc, image_of(rt, alloc, words)) {
        Ok(image) => image,
        Err(_) => panic!(rt; "no memory for the image"),
    }
}
