//! Stores to words that are executed.
use super::case::Case;
use super::check_cases;
use std::test::Fail;

static CASES: [Case; 5] = [
    Case {
        name: "a store to the next word",
        words: &[
            (0x0000, 0x3c01_8000), // lui $1,0x8000
            (0x0004, 0x3c02_2403), // lui $2,0x2403
            (0x0008, 0x3442_0007), // ori $2,$2,7
            (0x000c, 0xac22_0010), // sw $2,0x10($1)
            (0x0010, 0x2403_0001), // addiu $3,$0,1
        ],
        before: 0,
        absent: None,
        count: 5,
        made: 5,
    },
    Case {
        name: "a store to the next word of what encodes nothing",
        words: &[
            (0x0000, 0x3c01_8000), // lui $1,0x8000
            (0x0004, 0x3c02_0020), // lui $2,0x20
            (0x0008, 0xac22_000c), // sw $2,0xc($1)
            (0x000c, 0x0000_0000), // nop
        ],
        before: 0,
        absent: None,
        count: 9,
        made: 3,
    },
    Case {
        name: "a store of a byte to a word that was executed",
        words: &[
            (0x0000, 0x3c01_8000), // lui $1,0x8000
            (0x0004, 0x3402_0003), // ori $2,$0,3
            (0x0008, 0x2463_0000), // addiu $3,$3,0
            (0x000c, 0xa022_0008), // sb $2,8($1)
            (0x0010, 0x2442_ffff), // addiu $2,$2,-1
            (0x0014, 0x1440_fffc), // bne $2,$0,-4
            (0x0018, 0x0000_0000), // nop
        ],
        before: 0,
        absent: None,
        count: 17,
        made: 17,
    },
    Case {
        name: "a store by way of kseg1",
        words: &[
            (0x0000, 0x3c01_a000), // lui $1,0xa000
            (0x0004, 0x3c02_2403), // lui $2,0x2403
            (0x0008, 0x3442_0007), // ori $2,$2,7
            (0x000c, 0xac22_0010), // sw $2,0x10($1)
            (0x0010, 0x2403_0001), // addiu $3,$0,1
        ],
        before: 0,
        absent: None,
        count: 5,
        made: 5,
    },
    Case {
        name: "words 4,096 bytes apart by turns",
        words: &[
            (0x0000, 0x0800_0040), // j 100
            (0x0004, 0x0000_0000), // nop
            (0x0100, 0x2421_0001), // addiu $1,$1,1
            (0x0104, 0x0800_0441), // j 1104
            (0x0108, 0x2442_0001), // addiu $2,$2,1
            (0x1100, 0x0000_000c), // syscall
            (0x1104, 0x2421_0002), // addiu $1,$1,2
            (0x1108, 0x0800_0040), // j 100
            (0x110c, 0x2442_0002), // addiu $2,$2,2
        ],
        before: 0,
        absent: None,
        count: 62,
        made: 62,
    },
];

#[test]
fn changed_words_are_executed_as_changed(rt: HostRuntime) -> Result<(), Fail> {
    check_cases(&rt, &CASES)
}
