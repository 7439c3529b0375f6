//! Instructions that are executed among many steps, and those before which many steps end.
use super::case::Case;
use super::check_cases;
use std::test::Fail;

static CASES: [Case; 32] = [
    Case {
        name: "as many as are asked for",
        words: &[
            (0x0000, 0x2421_0001), // addiu $1,$1,1
            (0x0004, 0x2421_0002), // addiu $1,$1,2
            (0x0008, 0x2421_0004), // addiu $1,$1,4
        ],
        before: 0,
        absent: None,
        count: 2,
        made: 2,
    },
    Case {
        name: "none is asked for",
        words: &[
            (0x0000, 0x2421_0001), // addiu $1,$1,1
        ],
        before: 0,
        absent: None,
        count: 0,
        made: 0,
    },
    Case {
        name: "a loop of two words",
        words: &[
            (0x0000, 0x1000_ffff), // beq $0,$0,-1
            (0x0004, 0x2421_0001), // addiu $1,$1,1
        ],
        before: 0,
        absent: None,
        count: 100,
        made: 100,
    },
    Case {
        name: "of each kind that leaves the system registers",
        words: &[
            (0x0000, 0x3c01_8000), // lui $1,0x8000
            (0x0004, 0x0020_1020), // add $2,$1,$0
            (0x0008, 0x0021_0018), // mult $1,$1
            (0x000c, 0x0000_000f), // sync
            (0x0010, 0x8c23_0020), // lw $3,0x20($1)
            (0x0014, 0xa022_1001), // sb $2,0x1001($1)
            (0x0018, 0xc024_1000), // ll $4,0x1000($1)
            (0x001c, 0xe024_1000), // sc $4,0x1000($1)
            (0x0020, 0x0411_0001), // bgezal $0,1
            (0x0024, 0x0080_2822), // sub $5,$4,$0
            (0x0028, 0x5400_0003), // bnel $0,$0,3
            (0x002c, 0x0000_000c), // syscall
            (0x0030, 0x03e0_3009), // jalr $6,$31
            (0x0034, 0x24e7_0001), // addiu $7,$7,1
        ],
        before: 0,
        absent: None,
        count: 16,
        made: 16,
    },
    Case {
        name: "a read of a system register",
        words: &[
            (0x0000, 0x0000_0000), // nop
            (0x0004, 0x4001_4800), // mfc0 $1,Count
        ],
        before: 0,
        absent: None,
        count: 9,
        made: 9,
    },
    Case {
        name: "a write of a system register",
        words: &[
            (0x0000, 0x0000_0000), // nop
            (0x0004, 0x0000_0000), // nop
            (0x0008, 0x4081_5000), // mtc0 $1,EntryHi
        ],
        before: 0,
        absent: None,
        count: 9,
        made: 2,
    },
    Case {
        name: "a write of the TLB",
        words: &[
            (0x0000, 0x0000_0000), // nop
            (0x0004, 0x4200_0002), // tlbwi
        ],
        before: 0,
        absent: None,
        count: 9,
        made: 1,
    },
    Case {
        name: "a probe of the TLB",
        words: &[
            (0x0000, 0x4200_0008), // tlbp
        ],
        before: 0,
        absent: None,
        count: 9,
        made: 9,
    },
    Case {
        name: "a return from an exception",
        words: &[
            (0x0000, 0x0000_0000), // nop
            (0x0004, 0x4200_0018), // eret
        ],
        before: 0,
        absent: None,
        count: 9,
        made: 1,
    },
    Case {
        name: "a wait",
        words: &[
            (0x0000, 0x0000_0000), // nop
            (0x0004, 0x4200_0020), // wait
        ],
        before: 0,
        absent: None,
        count: 9,
        made: 9,
    },
    Case {
        name: "a cache operation",
        words: &[
            (0x0000, 0x3c01_8000), // lui $1,0x8000
            (0x0004, 0xbc20_0000), // cache 0,0($1)
        ],
        before: 0,
        absent: None,
        count: 9,
        made: 9,
    },
    Case {
        name: "a system call",
        words: &[
            (0x0000, 0x0000_0000), // nop
            (0x0004, 0x0000_0000), // nop
            (0x0008, 0x0000_0000), // nop
            (0x000c, 0x0000_000c), // syscall
        ],
        before: 0,
        absent: None,
        count: 9,
        made: 3,
    },
    Case {
        name: "a breakpoint",
        words: &[
            (0x0000, 0x0000_0000), // nop
            (0x0004, 0x0000_000d), // break
        ],
        before: 0,
        absent: None,
        count: 9,
        made: 1,
    },
    Case {
        name: "a trap",
        words: &[
            (0x0000, 0x0000_0000), // nop
            (0x0004, 0x0000_0034), // teq $0,$0
        ],
        before: 0,
        absent: None,
        count: 9,
        made: 1,
    },
    Case {
        name: "a trap whose condition doesn't hold",
        words: &[
            (0x0000, 0x0000_0000), // nop
            (0x0004, 0x0000_0036), // tne $0,$0
        ],
        before: 0,
        absent: None,
        count: 9,
        made: 9,
    },
    Case {
        name: "traps on immediates, of which the last is taken",
        words: &[
            (0x0000, 0x3c01_8000), // lui $1,0x8000
            (0x0004, 0x0428_0000), // tgei $1,0
            (0x0008, 0x0429_8001), // tgeiu $1,-0x7fff
            (0x000c, 0x042a_8000), // tlti $1,-0x8000
        ],
        before: 0,
        absent: None,
        count: 9,
        made: 3,
    },
    Case {
        name: "traps on immediates that aren't taken, and a prefetch",
        words: &[
            (0x0000, 0x2401_8000), // addiu $1,$0,-0x8000
            (0x0004, 0x042a_8000), // tlti $1,-0x8000
            (0x0008, 0x042b_7fff), // tltiu $1,0x7fff
            (0x000c, 0x042c_7fff), // teqi $1,0x7fff
            (0x0010, 0x042e_8000), // tnei $1,-0x8000
            (0x0014, 0xcc20_0000), // pref 0,0($1)
            (0x0018, 0x1000_0001), // beq $0,$0,1
            (0x001c, 0x042c_7fff), // teqi $1,0x7fff
        ],
        before: 0,
        absent: None,
        count: 12,
        made: 12,
    },
    Case {
        name: "a trap in a delay slot",
        words: &[
            (0x0000, 0x1000_0001), // beq $0,$0,1
            (0x0004, 0x040c_0000), // teqi $0,0
        ],
        before: 0,
        absent: None,
        count: 9,
        made: 1,
    },
    Case {
        name: "products, quotients and moves on conditions",
        words: &[
            (0x0000, 0x3c01_8000), // lui $1,0x8000
            (0x0004, 0x2402_fff9), // addiu $2,$0,-7
            (0x0008, 0x7041_1802), // mul $3,$2,$1
            (0x000c, 0x7041_0002), // mul $0,$2,$1
            (0x0010, 0x0022_0018), // mult $1,$2
            (0x0014, 0x0000_2012), // mflo $4
            (0x0018, 0x0041_0019), // multu $2,$1
            (0x001c, 0x0000_2810), // mfhi $5
            (0x0020, 0x0022_001a), // div $1,$2
            (0x0024, 0x0040_01f4), // teq $2,$0,7
            (0x0028, 0x0000_4812), // mflo $9
            (0x002c, 0x0022_001b), // divu $1,$2
            (0x0030, 0x0000_5010), // mfhi $10
            (0x0034, 0x0020_300a), // movz $6,$1,$0
            (0x0038, 0x0041_300a), // movz $6,$2,$1
            (0x003c, 0x0041_380b), // movn $7,$2,$1
            (0x0040, 0x0020_380b), // movn $7,$1,$0
            (0x0044, 0x0020_000a), // movz $0,$1,$0
            (0x0048, 0x1000_0001), // beq $0,$0,1
            (0x004c, 0x0040_001a), // div $2,$0
            (0x0054, 0x1000_0001), // beq $0,$0,1
            (0x0058, 0x0041_580b), // movn $11,$2,$1
        ],
        before: 0,
        absent: None,
        count: 24,
        made: 24,
    },
    Case {
        name: "loads of the parts of a word that isn't aligned",
        words: &[
            (0x0000, 0x3c01_8000), // lui $1,0x8000
            (0x0004, 0x8828_0006), // lwl $8,6($1)
            (0x0008, 0x9828_0003), // lwr $8,3($1)
            (0x000c, 0x8829_0004), // lwl $9,4($1)
            (0x0010, 0x9829_0001), // lwr $9,1($1)
        ],
        before: 0,
        absent: None,
        count: 9,
        made: 9,
    },
    Case {
        name: "coprocessor 1",
        words: &[
            (0x0000, 0x0000_0000), // nop
            (0x0004, 0x4400_0000), // mfc1 $0,$0
        ],
        before: 0,
        absent: None,
        count: 9,
        made: 1,
    },
    Case {
        name: "a word of no row",
        words: &[
            (0x0000, 0x0000_0000), // nop
            (0x0004, 0x0020_0000), // of no row
        ],
        before: 0,
        absent: None,
        count: 9,
        made: 1,
    },
    Case {
        name: "a sum that overflows",
        words: &[
            (0x0000, 0x3c01_4000), // lui $1,0x4000
            (0x0004, 0x0020_1020), // add $2,$1,$0
            (0x0008, 0x0021_1020), // add $2,$1,$1
        ],
        before: 0,
        absent: None,
        count: 9,
        made: 2,
    },
    Case {
        name: "a sum with an immediate that overflows",
        words: &[
            (0x0000, 0x3c01_7fff), // lui $1,0x7fff
            (0x0004, 0x2021_0001), // addi $1,$1,1
            (0x0008, 0x3421_ffff), // ori $1,$1,0xffff
            (0x000c, 0x2021_0001), // addi $1,$1,1
        ],
        before: 0,
        absent: None,
        count: 9,
        made: 3,
    },
    Case {
        name: "a difference that overflows",
        words: &[
            (0x0000, 0x3c01_8000), // lui $1,0x8000
            (0x0004, 0x0021_1022), // sub $2,$1,$1
            (0x0008, 0x0001_1022), // sub $2,$0,$1
        ],
        before: 0,
        absent: None,
        count: 9,
        made: 2,
    },
    Case {
        name: "a branch in a delay slot",
        words: &[
            (0x0000, 0x0000_0000), // nop
            (0x0004, 0x1000_0004), // beq $0,$0,4
            (0x0008, 0x1000_0004), // beq $0,$0,4
        ],
        before: 0,
        absent: None,
        count: 9,
        made: 2,
    },
    Case {
        name: "a jump in the slot of a branch that isn't taken",
        words: &[
            (0x0000, 0x3c01_8000), // lui $1,0x8000
            (0x0004, 0x1400_0004), // bne $0,$0,4
            (0x0008, 0x0020_0008), // jr $1
        ],
        before: 0,
        absent: None,
        count: 9,
        made: 2,
    },
    Case {
        name: "an exception in a delay slot",
        words: &[
            (0x0000, 0x0000_0000), // nop
            (0x0004, 0x1000_0004), // beq $0,$0,4
            (0x0008, 0x0000_000c), // syscall
        ],
        before: 0,
        absent: None,
        count: 9,
        made: 2,
    },
    Case {
        name: "a store conditional that is given up",
        words: &[
            (0x0000, 0x3c01_8000), // lui $1,0x8000
            (0x0004, 0xe022_1000), // sc $2,0x1000($1)
        ],
        before: 0,
        absent: None,
        count: 9,
        made: 1,
    },
    Case {
        name: "a second store conditional",
        words: &[
            (0x0000, 0x3c01_8000), // lui $1,0x8000
            (0x0004, 0xc022_1000), // ll $2,0x1000($1)
            (0x0008, 0xac21_1004), // sw $1,0x1004($1)
            (0x000c, 0xe022_1000), // sc $2,0x1000($1)
            (0x0010, 0xe022_1000), // sc $2,0x1000($1)
        ],
        before: 0,
        absent: None,
        count: 9,
        made: 4,
    },
    Case {
        name: "a load from a device",
        words: &[
            (0x0000, 0x3c01_bf00), // lui $1,0xbf00
            (0x0004, 0x8c22_0014), // lw $2,0x14($1)
        ],
        before: 0,
        absent: None,
        count: 9,
        made: 9,
    },
    Case {
        name: "a store to a device",
        words: &[
            (0x0000, 0x3c01_bf00), // lui $1,0xbf00
            (0x0004, 0x3402_0001), // ori $2,$0,1
            (0x0008, 0xac22_0018), // sw $2,0x18($1)
        ],
        before: 0,
        absent: None,
        count: 9,
        made: 2,
    },
];

#[test]
fn many_steps_end_before_these_instructions(rt: HostRuntime) -> Result<(), Fail> {
    check_cases(&rt, &CASES)
}
