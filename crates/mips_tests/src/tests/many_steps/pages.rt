//! Places of instructions and of data: pages that are absent, given or mapped, and what is past memory.
use super::case::Case;
use super::check_cases;
use std::test::Fail;

static CASES: [Case; 17] = [
    Case {
        name: "a load that isn't aligned",
        words: &[
            (0x0000, 0x3c01_8000), // lui $1,0x8000
            (0x0004, 0x8c22_1000), // lw $2,0x1000($1)
            (0x0008, 0x8c22_1002), // lw $2,0x1002($1)
        ],
        before: 0,
        absent: None,
        count: 9,
        made: 2,
    },
    Case {
        name: "a load past memory",
        words: &[
            (0x0000, 0x3c01_8000), // lui $1,0x8000
            (0x0004, 0x9822_1fff), // lwr $2,0x1fff($1)
            (0x0008, 0x8022_2000), // lb $2,0x2000($1)
        ],
        before: 0,
        absent: None,
        count: 9,
        made: 2,
    },
    Case {
        name: "a store that no entry maps",
        words: &[
            (0x0000, 0x0000_0000), // nop
            (0x0004, 0xac00_1000), // sw $0,0x1000($0)
        ],
        before: 0,
        absent: None,
        count: 9,
        made: 1,
    },
    Case {
        name: "a fetch that no entry maps",
        words: &[
            (0x0000, 0x0000_0000), // nop
            (0x0004, 0x0000_0008), // jr $0
            (0x0008, 0x0000_0000), // nop
        ],
        before: 0,
        absent: None,
        count: 9,
        made: 3,
    },
    Case {
        name: "a fetch that isn't aligned",
        words: &[
            (0x0000, 0x3c01_8000), // lui $1,0x8000
            (0x0004, 0x3421_0102), // ori $1,$1,0x102
            (0x0008, 0x0020_0008), // jr $1
            (0x000c, 0x0000_0000), // nop
        ],
        before: 0,
        absent: None,
        count: 9,
        made: 4,
    },
    Case {
        name: "a fetch past memory",
        words: &[
            (0x0000, 0x3c01_8000), // lui $1,0x8000
            (0x0004, 0x3421_1ff8), // ori $1,$1,0x1ff8
            (0x0008, 0x0020_0008), // jr $1
            (0x000c, 0x0000_0000), // nop
        ],
        before: 0,
        absent: None,
        count: 9,
        made: 6,
    },
    Case {
        name: "the page of the code is absent",
        words: &[
            (0x0000, 0x0000_0000), // nop
            (0x0004, 0x0000_0000), // nop
        ],
        before: 1,
        absent: Some(0),
        count: 9,
        made: 0,
    },
    Case {
        name: "a load from an absent page",
        words: &[
            (0x0000, 0x3c01_8000), // lui $1,0x8000
            (0x0004, 0x8c22_0ffc), // lw $2,0x0ffc($1)
            (0x0008, 0x8c22_1000), // lw $2,0x1000($1)
        ],
        before: 0,
        absent: Some(1),
        count: 9,
        made: 2,
    },
    Case {
        name: "a store to an absent page",
        words: &[
            (0x0000, 0x3c01_8000), // lui $1,0x8000
            (0x0004, 0xa022_0fff), // sb $2,0x0fff($1)
            (0x0008, 0xa022_1000), // sb $2,0x1000($1)
        ],
        before: 0,
        absent: Some(1),
        count: 9,
        made: 2,
    },
    Case {
        name: "code that runs into an absent page",
        words: &[
            (0x0000, 0x3c01_8000), // lui $1,0x8000
            (0x0004, 0x3421_0ff8), // ori $1,$1,0x0ff8
            (0x0008, 0x0020_0008), // jr $1
            (0x000c, 0x0000_0000), // nop
        ],
        before: 0,
        absent: Some(1),
        count: 9,
        made: 6,
    },
    Case {
        name: "code that runs from page to page",
        words: &[
            (0x0000, 0x3c01_8000), // lui $1,0x8000
            (0x0004, 0x3421_0ff8), // ori $1,$1,0x0ff8
            (0x0008, 0x0020_0008), // jr $1
            (0x000c, 0x0000_0000), // nop
            (0x0ff8, 0x2442_0001), // addiu $2,$2,1
            (0x0ffc, 0x2442_0002), // addiu $2,$2,2
            (0x1000, 0x2442_0004), // addiu $2,$2,4
        ],
        before: 0,
        absent: None,
        count: 8,
        made: 8,
    },
    Case {
        name: "a load from a given page",
        words: &[
            (0x0000, 0x3c01_bf00), // lui $1,0xbf00
            (0x0004, 0x3402_0001), // ori $2,$0,1
            (0x0008, 0xac22_0018), // sw $2,0x18($1)
            (0x000c, 0x3c03_8000), // lui $3,0x8000
            (0x0010, 0x8c64_0ffc), // lw $4,0x0ffc($3)
            (0x0014, 0x8c64_1000), // lw $4,0x1000($3)
        ],
        before: 3,
        absent: None,
        count: 9,
        made: 2,
    },
    Case {
        name: "a store to a page that was given and taken back",
        words: &[
            (0x0000, 0x3c01_bf00), // lui $1,0xbf00
            (0x0004, 0x3402_0001), // ori $2,$0,1
            (0x0008, 0xac22_0018), // sw $2,0x18($1)
            (0x000c, 0x3c03_8000), // lui $3,0x8000
            (0x0010, 0xac62_1000), // sw $2,0x1000($3)
            (0x0014, 0xac62_1004), // sw $2,0x1004($3)
        ],
        before: 5,
        absent: None,
        count: 9,
        made: 9,
    },
    Case {
        name: "mapped pages in the other order",
        words: &[
            (0x0000, 0x3c01_0040), // lui $1,0x40
            (0x0004, 0x4081_5000), // mtc0 $1,EntryHi
            (0x0008, 0x3402_0042), // ori $2,$0,0x42
            (0x000c, 0x4082_1000), // mtc0 $2,EntryLo0
            (0x0010, 0x3402_0002), // ori $2,$0,2
            (0x0014, 0x4082_1800), // mtc0 $2,EntryLo1
            (0x0018, 0x4200_0002), // tlbwi
            (0x001c, 0x3421_0ff8), // ori $1,$1,0xff8
            (0x0020, 0x0020_0008), // jr $1
            (0x0024, 0x0000_0000), // nop
            (0x1ff8, 0x2463_0001), // addiu $3,$3,1
            (0x1ffc, 0x2463_0002), // addiu $3,$3,2
        ],
        before: 7,
        absent: None,
        count: 9,
        made: 6,
    },
    Case {
        name: "a store to a mapped page that isn't dirty",
        words: &[
            (0x0000, 0x4080_5000), // mtc0 $0,EntryHi
            (0x0004, 0x3402_0042), // ori $2,$0,0x42
            (0x0008, 0x4082_1000), // mtc0 $2,EntryLo0
            (0x000c, 0x4200_0002), // tlbwi
            (0x0010, 0x8c03_0000), // lw $3,0($0)
            (0x0014, 0xac03_0000), // sw $3,0($0)
        ],
        before: 4,
        absent: None,
        count: 9,
        made: 1,
    },
    Case {
        name: "the last line of memory, from its fourth word on",
        words: &[
            (0x0000, 0x3c01_8000), // lui $1,0x8000
            (0x0004, 0x3421_1fec), // ori $1,$1,0x1fec
            (0x0008, 0x0020_0008), // jr $1
            (0x000c, 0x0000_0000), // nop
            (0x1fec, 0x2442_0001), // addiu $2,$2,1
            (0x1ff0, 0x2442_0002), // addiu $2,$2,2
            (0x1ff4, 0x2442_0003), // addiu $2,$2,3
            (0x1ff8, 0x2442_0004), // addiu $2,$2,4
            (0x1ffc, 0x2442_0005), // addiu $2,$2,5
        ],
        before: 0,
        absent: None,
        count: 20,
        made: 9,
    },
    Case {
        name: "words of no instruction within a line, past a jump",
        words: &[
            (0x0000, 0x0800_0005), // j 14
            (0x0004, 0x2442_0001), // addiu $2,$2,1
            (0x0008, 0xffff_ffff),
            (0x000c, 0xffff_ffff),
            (0x0010, 0xffff_ffff),
            (0x0014, 0x0800_0000), // j 0
            (0x0018, 0x2442_0002), // addiu $2,$2,2
        ],
        before: 0,
        absent: None,
        count: 30,
        made: 30,
    },
];

#[test]
fn many_steps_end_before_what_is_not_plain(rt: HostRuntime) -> Result<(), Fail> {
    check_cases(&rt, &CASES)
}
