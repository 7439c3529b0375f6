//! Instructions that are executed among many steps and read or set system registers, wait, or reach a device, and those that end them.
use super::case::Case;
use super::{Machine, booted, check_cases, check_same, check_split, step_by_step};
use crate::tests::expect;
use mips_fast::{Everything, RunCache, run};
use mips_isa::Reg;
use std::test::Fail;

static CASES: [Case; 31] = [
    Case {
        name: "reads of the clock, one of them in a delay slot",
        words: &[
            (0x0000, 0x4001_4800), // mfc0 $1,Count
            (0x0004, 0x0041_1021), // addu $2,$2,$1
            (0x0008, 0x4003_0800), // mfc0 $3,Random
            (0x000c, 0x0043_1021), // addu $2,$2,$3
            (0x0010, 0x1000_fffb), // beq $0,$0,-5
            (0x0014, 0x4004_4800), // mfc0 $4,Count
        ],
        before: 0,
        absent: None,
        count: 60,
        made: 60,
    },
    Case {
        name: "reads of registers that stand still, one of them to register 0",
        words: &[
            (0x0000, 0x3c01_1234), // lui $1,0x1234
            (0x0004, 0x4081_7000), // mtc0 $1,EPC
            (0x0008, 0x4002_7000), // mfc0 $2,EPC
            (0x000c, 0x4000_7000), // mfc0 $0,EPC
            (0x0010, 0x4003_6000), // mfc0 $3,Status
            (0x0014, 0x4004_4000), // mfc0 $4,BadVAddr
            (0x0018, 0x4005_7800), // mfc0 $5,PRId
            (0x001c, 0x4006_8000), // mfc0 $6,Config
            (0x0020, 0x4007_8001), // mfc0 $7,Config1
            (0x0024, 0x4008_3800), // mfc0 $8,$7 (no register)
            (0x0028, 0x1000_0001), // beq $0,$0,1
            (0x002c, 0x4009_5000), // mfc0 $9,EntryHi
        ],
        before: 0,
        absent: None,
        count: 14,
        made: 14,
    },
    Case {
        name: "a read of Cause, while software's interrupts are pending and masked",
        words: &[
            (0x0000, 0x3401_0300), // ori $1,$0,0x300
            (0x0004, 0x4081_6800), // mtc0 $1,Cause
            (0x0008, 0x4002_6800), // mfc0 $2,Cause
            (0x000c, 0x0062_1821), // addu $3,$3,$2
        ],
        before: 0,
        absent: None,
        count: 9,
        made: 9,
    },
    Case {
        name: "writes of registers that no translation depends on",
        words: &[
            (0x0000, 0x3c01_ffff), // lui $1,0xffff
            (0x0004, 0x3421_3456), // ori $1,$1,0x3456
            (0x0008, 0x4081_0000), // mtc0 $1,Index
            (0x000c, 0x4081_1000), // mtc0 $1,EntryLo0
            (0x0010, 0x4081_1800), // mtc0 $1,EntryLo1
            (0x0014, 0x4081_2000), // mtc0 $1,Context
            (0x0018, 0x4081_2800), // mtc0 $1,PageMask
            (0x001c, 0x4081_3000), // mtc0 $1,Wired
            (0x0020, 0x4081_4000), // mtc0 $1,BadVAddr
            (0x0024, 0x4081_4800), // mtc0 $1,Count
            (0x0028, 0x4081_5800), // mtc0 $1,Compare
            (0x002c, 0x4081_7000), // mtc0 $1,EPC
            (0x0030, 0x4081_f000), // mtc0 $1,ErrorEPC
            (0x0034, 0x4081_0800), // mtc0 $1,Random
            (0x0038, 0x4002_0800), // mfc0 $2,Random
            (0x003c, 0x4003_4800), // mfc0 $3,Count
        ],
        before: 0,
        absent: None,
        count: 20,
        made: 20,
    },
    Case {
        name: "a write of Status",
        words: &[
            (0x0000, 0x3401_0001), // ori $1,$0,1
            (0x0004, 0x4081_6000), // mtc0 $1,Status
        ],
        before: 0,
        absent: None,
        count: 9,
        made: 1,
    },
    Case {
        name: "a write of EntryHi in a delay slot",
        words: &[
            (0x0000, 0x0000_0000), // nop
            (0x0004, 0x1000_0001), // beq $0,$0,1
            (0x0008, 0x4081_5000), // mtc0 $1,EntryHi
        ],
        before: 0,
        absent: None,
        count: 9,
        made: 2,
    },
    Case {
        name: "a write of Compare, up to the step at which the timer's interrupt is taken",
        words: &[
            (0x0000, 0x3401_8001), // ori $1,$0,0x8001
            (0x0004, 0x4081_6000), // mtc0 $1,Status
            (0x0008, 0x3402_000c), // ori $2,$0,0xc
            (0x000c, 0x4082_5800), // mtc0 $2,Compare
        ],
        before: 2,
        absent: None,
        count: 40,
        made: 9,
    },
    Case {
        name: "a write of Compare, past a timer's interrupt that is masked",
        words: &[
            (0x0000, 0x3402_000c), // ori $2,$0,0xc
            (0x0004, 0x4082_5800), // mtc0 $2,Compare
            (0x0008, 0x4003_4800), // mfc0 $3,Count
            (0x000c, 0x4004_6800), // mfc0 $4,Cause
            (0x0010, 0x00a4_2821), // addu $5,$5,$4
            (0x0014, 0x1000_fffc), // beq $0,$0,-4
            (0x0018, 0x0000_0000), // nop
        ],
        before: 0,
        absent: None,
        count: 40,
        made: 11,
    },
    Case {
        name: "a step that is made by itself, at which the timer's interrupt comes and is taken",
        words: &[
            (0x0000, 0x3401_8001), // ori $1,$0,0x8001
            (0x0004, 0x4081_6000), // mtc0 $1,Status
            (0x0008, 0x3402_0006), // ori $2,$0,6
            (0x000c, 0x4082_5800), // mtc0 $2,Compare
            (0x0010, 0x0000_0000), // nop
            (0x0014, 0x4003_4800), // mfc0 $3,Count
            (0x0018, 0x4004_4800), // mfc0 $4,Count
        ],
        before: 2,
        absent: None,
        count: 9,
        made: 3,
    },
    Case {
        name: "a write of Cause that raises software's interrupt",
        words: &[
            (0x0000, 0x3401_0101), // ori $1,$0,0x101
            (0x0004, 0x4081_6000), // mtc0 $1,Status
            (0x0008, 0x3402_0100), // ori $2,$0,0x100
            (0x000c, 0x4082_6800), // mtc0 $2,Cause
            (0x0010, 0x0000_0000), // nop
        ],
        before: 2,
        absent: None,
        count: 9,
        made: 2,
    },
    Case {
        name: "a write of Count just before Compare",
        words: &[
            (0x0000, 0x3401_0028), // ori $1,$0,0x28
            (0x0004, 0x4081_5800), // mtc0 $1,Compare
            (0x0008, 0x3402_0026), // ori $2,$0,0x26
            (0x000c, 0x4082_4800), // mtc0 $2,Count
            (0x0010, 0x0000_0000), // nop
            (0x0014, 0x0000_0000), // nop
            (0x0018, 0x0000_0000), // nop
        ],
        before: 2,
        absent: None,
        count: 30,
        made: 3,
    },
    Case {
        name: "waits in a loop",
        words: &[
            (0x0000, 0x4200_0020), // wait
            (0x0004, 0x1000_fffe), // beq $0,$0,-2
            (0x0008, 0x2421_0001), // addiu $1,$1,1
        ],
        before: 0,
        absent: None,
        count: 50,
        made: 50,
    },
    Case {
        name: "a wait in a delay slot",
        words: &[
            (0x0000, 0x1000_0001), // beq $0,$0,1
            (0x0004, 0x4200_0020), // wait
        ],
        before: 0,
        absent: None,
        count: 9,
        made: 1,
    },
    Case {
        name: "cache operations, one of them in a delay slot",
        words: &[
            (0x0000, 0x3c01_8000), // lui $1,0x8000
            (0x0004, 0xbc20_0000), // cache 0,0($1)
            (0x0008, 0x1000_0001), // beq $0,$0,1
            (0x000c, 0xbc20_0000), // cache 0,0($1)
        ],
        before: 0,
        absent: None,
        count: 9,
        made: 9,
    },
    Case {
        name: "a read of EPC in user mode",
        words: &[
            (0x0000, 0x4080_5000), // mtc0 $0,EntryHi
            (0x0004, 0x3401_0042), // ori $1,$0,0x42
            (0x0008, 0x4081_1000), // mtc0 $1,EntryLo0
            (0x000c, 0x4200_0002), // tlbwi
            (0x0010, 0x3401_0012), // ori $1,$0,0x12
            (0x0014, 0x4081_6000), // mtc0 $1,Status
            (0x0018, 0x4080_7000), // mtc0 $0,EPC
            (0x001c, 0x4200_0018), // eret
            (0x1000, 0x2463_0001), // addiu $3,$3,1
            (0x1004, 0x4002_7000), // mfc0 $2,EPC
        ],
        before: 8,
        absent: None,
        count: 9,
        made: 1,
    },
    Case {
        name: "a read of Count in user mode",
        words: &[
            (0x0000, 0x4080_5000), // mtc0 $0,EntryHi
            (0x0004, 0x3401_0042), // ori $1,$0,0x42
            (0x0008, 0x4081_1000), // mtc0 $1,EntryLo0
            (0x000c, 0x4200_0002), // tlbwi
            (0x0010, 0x3401_0012), // ori $1,$0,0x12
            (0x0014, 0x4081_6000), // mtc0 $1,Status
            (0x0018, 0x4080_7000), // mtc0 $0,EPC
            (0x001c, 0x4200_0018), // eret
            (0x1000, 0x2463_0001), // addiu $3,$3,1
            (0x1004, 0x4002_4800), // mfc0 $2,Count
        ],
        before: 8,
        absent: None,
        count: 9,
        made: 1,
    },
    Case {
        name: "a write of EPC in user mode",
        words: &[
            (0x0000, 0x4080_5000), // mtc0 $0,EntryHi
            (0x0004, 0x3401_0042), // ori $1,$0,0x42
            (0x0008, 0x4081_1000), // mtc0 $1,EntryLo0
            (0x000c, 0x4200_0002), // tlbwi
            (0x0010, 0x3401_0012), // ori $1,$0,0x12
            (0x0014, 0x4081_6000), // mtc0 $1,Status
            (0x0018, 0x4080_7000), // mtc0 $0,EPC
            (0x001c, 0x4200_0018), // eret
            (0x1000, 0x2463_0001), // addiu $3,$3,1
            (0x1004, 0x4082_7000), // mtc0 $2,EPC
        ],
        before: 8,
        absent: None,
        count: 9,
        made: 1,
    },
    Case {
        name: "a wait in user mode",
        words: &[
            (0x0000, 0x4080_5000), // mtc0 $0,EntryHi
            (0x0004, 0x3401_0042), // ori $1,$0,0x42
            (0x0008, 0x4081_1000), // mtc0 $1,EntryLo0
            (0x000c, 0x4200_0002), // tlbwi
            (0x0010, 0x3401_0012), // ori $1,$0,0x12
            (0x0014, 0x4081_6000), // mtc0 $1,Status
            (0x0018, 0x4080_7000), // mtc0 $0,EPC
            (0x001c, 0x4200_0018), // eret
            (0x1000, 0x2463_0001), // addiu $3,$3,1
            (0x1004, 0x4200_0020), // wait
        ],
        before: 8,
        absent: None,
        count: 9,
        made: 1,
    },
    Case {
        name: "a cache operation in user mode",
        words: &[
            (0x0000, 0x4080_5000), // mtc0 $0,EntryHi
            (0x0004, 0x3401_0042), // ori $1,$0,0x42
            (0x0008, 0x4081_1000), // mtc0 $1,EntryLo0
            (0x000c, 0x4200_0002), // tlbwi
            (0x0010, 0x3401_0012), // ori $1,$0,0x12
            (0x0014, 0x4081_6000), // mtc0 $1,Status
            (0x0018, 0x4080_7000), // mtc0 $0,EPC
            (0x001c, 0x4200_0018), // eret
            (0x1000, 0x2463_0001), // addiu $3,$3,1
            (0x1004, 0xbc00_0000), // cache 0,0($0)
        ],
        before: 8,
        absent: None,
        count: 9,
        made: 1,
    },
    Case {
        name: "coprocessor 0 in user mode, where it may be used",
        words: &[
            (0x0000, 0x4080_5000), // mtc0 $0,EntryHi
            (0x0004, 0x3401_0042), // ori $1,$0,0x42
            (0x0008, 0x4081_1000), // mtc0 $1,EntryLo0
            (0x000c, 0x4200_0002), // tlbwi
            (0x0010, 0x3c01_1000), // lui $1,0x1000
            (0x0014, 0x3421_0012), // ori $1,$1,0x12
            (0x0018, 0x4081_6000), // mtc0 $1,Status
            (0x001c, 0x4080_7000), // mtc0 $0,EPC
            (0x0020, 0x4200_0018), // eret
            (0x1000, 0x2463_0001), // addiu $3,$3,1
            (0x1004, 0x4002_4800), // mfc0 $2,Count
            (0x1008, 0x4200_0020), // wait
            (0x100c, 0xbc00_0000), // cache 0,0($0)
            (0x1010, 0x4004_6000), // mfc0 $4,Status
            (0x1014, 0x4084_7000), // mtc0 $4,EPC
        ],
        before: 9,
        absent: None,
        count: 9,
        made: 9,
    },
    Case {
        name: "loads from devices in a loop",
        words: &[
            (0x0000, 0x3c01_bf00), // lui $1,0xbf00
            (0x0004, 0x8c22_0000), // lw $2,0($1)
            (0x0008, 0x8c23_0004), // lw $3,4($1)
            (0x000c, 0x8c24_0008), // lw $4,8($1)
            (0x0010, 0x8c25_0010), // lw $5,0x10($1)
            (0x0014, 0x8c26_0014), // lw $6,0x14($1)
            (0x0018, 0x8c27_0018), // lw $7,0x18($1)
            (0x001c, 0x8c28_001c), // lw $8,0x1c($1)
            (0x0020, 0x0122_4821), // addu $9,$9,$2
            (0x0024, 0x1000_fff6), // beq $0,$0,-10
            (0x0028, 0x8c20_0000), // lw $0,0($1)
        ],
        before: 0,
        absent: None,
        count: 60,
        made: 60,
    },
    Case {
        name: "a load of a half-word from a device",
        words: &[
            (0x0000, 0x3c01_bf00), // lui $1,0xbf00
            (0x0004, 0x8422_0000), // lh $2,0($1)
        ],
        before: 0,
        absent: None,
        count: 9,
        made: 1,
    },
    Case {
        name: "a load that isn't aligned from a device",
        words: &[
            (0x0000, 0x3c01_bf00), // lui $1,0xbf00
            (0x0004, 0x8c22_0002), // lw $2,2($1)
        ],
        before: 0,
        absent: None,
        count: 9,
        made: 1,
    },
    Case {
        name: "a load from no device",
        words: &[
            (0x0000, 0x3c01_bf00), // lui $1,0xbf00
            (0x0004, 0x8c22_000c), // lw $2,0xc($1)
        ],
        before: 0,
        absent: None,
        count: 9,
        made: 1,
    },
    Case {
        name: "stores to the console in a loop",
        words: &[
            (0x0000, 0x3c01_bf00), // lui $1,0xbf00
            (0x0004, 0x2442_0161), // addiu $2,$2,0x161
            (0x0008, 0xac22_0008), // sw $2,8($1)
            (0x000c, 0x1440_fffd), // bne $2,$0,-3
            (0x0010, 0xac22_0008), // sw $2,8($1)
        ],
        before: 0,
        absent: None,
        count: 60,
        made: 60,
    },
    Case {
        name: "stores to registers that are read alone",
        words: &[
            (0x0000, 0x3c01_bf00), // lui $1,0xbf00
            (0x0004, 0xac21_0000), // sw $1,0($1)
            (0x0008, 0xac21_0004), // sw $1,4($1)
            (0x000c, 0xac21_0010), // sw $1,0x10($1)
            (0x0010, 0xac21_0014), // sw $1,0x14($1)
        ],
        before: 0,
        absent: None,
        count: 9,
        made: 9,
    },
    Case {
        name: "a store of a byte to a device",
        words: &[
            (0x0000, 0x3c01_bf00), // lui $1,0xbf00
            (0x0004, 0xa021_0008), // sb $1,8($1)
        ],
        before: 0,
        absent: None,
        count: 9,
        made: 1,
    },
    Case {
        name: "a store to no device",
        words: &[
            (0x0000, 0x3c01_bf00), // lui $1,0xbf00
            (0x0004, 0xac21_0020), // sw $1,0x20($1)
        ],
        before: 0,
        absent: None,
        count: 9,
        made: 1,
    },
    Case {
        name: "a page that is taken out of the balloon",
        words: &[
            (0x0000, 0x3c01_bf00), // lui $1,0xbf00
            (0x0004, 0xac20_001c), // sw $0,0x1c($1)
        ],
        before: 0,
        absent: None,
        count: 9,
        made: 1,
    },
    Case {
        name: "a store to the word that is executed next, behind one to a device",
        words: &[
            (0x0000, 0x3c01_bf00), // lui $1,0xbf00
            (0x0004, 0x3c03_8000), // lui $3,0x8000
            (0x0008, 0x3c02_2463), // lui $2,0x2463
            (0x000c, 0x3442_0001), // ori $2,$2,1
            (0x0010, 0xac22_0008), // sw $2,8($1)
            (0x0014, 0xac62_0018), // sw $2,0x18($3)
            (0x0018, 0x2463_0100), // addiu $3,$3,0x100
        ],
        before: 0,
        absent: None,
        count: 9,
        made: 9,
    },
    Case {
        name: "a device in an entry of the TLB",
        words: &[
            (0x0000, 0x3c01_0001), // lui $1,1
            (0x0004, 0x4081_5000), // mtc0 $1,EntryHi
            (0x0008, 0x3c02_007c), // lui $2,0x7c
            (0x000c, 0x3442_0006), // ori $2,$2,6
            (0x0010, 0x4082_1000), // mtc0 $2,EntryLo0
            (0x0014, 0x4200_0002), // tlbwi
            (0x0018, 0x8c23_0000), // lw $3,0($1)
            (0x001c, 0xac23_0008), // sw $3,8($1)
            (0x0020, 0x8c24_0000), // lw $4,0($1)
        ],
        before: 6,
        absent: None,
        count: 9,
        made: 9,
    },
];

#[test]
fn many_steps_go_on_past_these_instructions(rt: HostRuntime) -> Result<(), Fail> {
    check_cases(&rt, &CASES)
}

/// Made at once from the first step on, so that the word which is come to as the timer's interrupt comes is held.
static AT_THE_TIMER: Case = Case {
    name: "a read of Cause at which the timer's interrupt comes and is masked",
    words: &[
        (0x0000, 0x3402_0004), // ori $2,$0,4
        (0x0004, 0x4082_5800), // mtc0 $2,Compare
        (0x0008, 0x0000_0000), // nop
        (0x000c, 0x4003_6800), // mfc0 $3,Cause
        (0x0010, 0x4004_6800), // mfc0 $4,Cause
    ],
    before: 0,
    absent: None,
    count: 9,
    made: 9,
};

#[test]
fn a_masked_timer_comes_with_a_step_among_many(rt: HostRuntime) -> Result<(), Fail> {
    let mut cache = RunCache::new(rt.alloc())?;
    check_split(&rt, &mut cache, &AT_THE_TIMER, 0)
}

/// Waits for input and takes it, a byte at a time, and puts each into the console's output.
static ECHO: Case = Case {
    name: "input that is taken and put out",
    words: &[
        (0x0000, 0x3c01_bf00), // lui $1,0xbf00
        (0x0004, 0x8c22_0000), // lw $2,0($1)
        (0x0008, 0x3042_0001), // andi $2,$2,1
        (0x000c, 0x1040_fffd), // beq $2,$0,-3
        (0x0010, 0x0000_0000), // nop
        (0x0014, 0x8c24_0004), // lw $4,4($1)
        (0x0018, 0x00a4_2821), // addu $5,$5,$4
        (0x001c, 0x1000_fff9), // beq $0,$0,-7
        (0x0020, 0xac24_0008), // sw $4,8($1)
    ],
    before: 0,
    absent: None,
    count: 40,
    made: 40,
};

/// How many steps are made at once before and after the input comes.
static SPLITS: [u32; 6] = [0, 1, 2, 3, 7, 20];

#[test]
fn many_steps_take_input_as_single_steps_do(rt: HostRuntime) -> Result<(), Fail> {
    let mut cache = RunCache::new(rt.alloc())?;
    for first in &SPLITS {
        let (mut machine, mut twin) = (booted(&rt, &ECHO)?, booted(&rt, &ECHO)?);
        let Machine { cpu, bus } = &mut machine;
        expect(
            &rt,
            (ECHO.name, *first),
            run(cpu, bus, &mut cache, &Everything, *first),
            *first,
        );
        step_by_step(&mut twin, *first);
        for byte in b"ab" {
            machine.bus.feed(*byte);
            twin.bus.feed(*byte);
        }
        let Machine { cpu, bus } = &mut machine;
        expect(
            &rt,
            (ECHO.name, *first),
            run(cpu, bus, &mut cache, &Everything, ECHO.count),
            ECHO.count,
        );
        step_by_step(&mut twin, ECHO.count);
        check_same(&rt, ECHO.name, &machine, &twin)?;
        let taken = machine.cpu.reg(Reg::new(5));
        expect(&rt, (ECHO.name, *first), taken, 0xc3);
        let output = machine.bus.output()?;
        expect(&rt, (ECHO.name, *first), output.as_slice(), b"ab");
    }
    Ok(())
}
