//! Interrupts, Count and Random.
use super::case::Case;
use super::check_cases;
use std::test::Fail;

static CASES: [Case; 11] = [
    Case {
        name: "software's interrupt",
        words: &[
            (0x0000, 0x3401_0100), // ori $1,$0,0x100
            (0x0004, 0x4081_6800), // mtc0 $1,Cause
            (0x0008, 0x3402_0101), // ori $2,$0,0x101
            (0x000c, 0x4082_6000), // mtc0 $2,Status
        ],
        before: 4,
        absent: None,
        count: 9,
        made: 0,
    },
    Case {
        name: "an interrupt that is masked",
        words: &[
            (0x0000, 0x3401_0100), // ori $1,$0,0x100
            (0x0004, 0x4081_6800), // mtc0 $1,Cause
            (0x0008, 0x3402_0201), // ori $2,$0,0x201
            (0x000c, 0x4082_6000), // mtc0 $2,Status
        ],
        before: 4,
        absent: None,
        count: 9,
        made: 9,
    },
    Case {
        name: "an interrupt while EXL is set",
        words: &[
            (0x0000, 0x3401_0100), // ori $1,$0,0x100
            (0x0004, 0x4081_6800), // mtc0 $1,Cause
            (0x0008, 0x3402_0103), // ori $2,$0,0x103
            (0x000c, 0x4082_6000), // mtc0 $2,Status
        ],
        before: 4,
        absent: None,
        count: 9,
        made: 9,
    },
    Case {
        name: "to the tick before Count meets Compare",
        words: &[
            (0x0000, 0x3401_0028), // ori $1,$0,40
            (0x0004, 0x4081_5800), // mtc0 $1,Compare
        ],
        before: 2,
        absent: None,
        count: 100,
        made: 37,
    },
    Case {
        name: "fewer than the ticks before Count meets Compare",
        words: &[
            (0x0000, 0x3401_0028), // ori $1,$0,40
            (0x0004, 0x4081_5800), // mtc0 $1,Compare
        ],
        before: 2,
        absent: None,
        count: 36,
        made: 36,
    },
    Case {
        name: "the tick at which Count meets Compare",
        words: &[
            (0x0000, 0x3401_0028), // ori $1,$0,40
            (0x0004, 0x4081_5800), // mtc0 $1,Compare
        ],
        before: 39,
        absent: None,
        count: 100,
        made: 0,
    },
    Case {
        name: "Count has met Compare, and the timer's interrupt is masked",
        words: &[
            (0x0000, 0x3401_0028), // ori $1,$0,40
            (0x0004, 0x4081_5800), // mtc0 $1,Compare
        ],
        before: 40,
        absent: None,
        count: 100,
        made: 100,
    },
    Case {
        name: "Count has met Compare, and the timer's interrupt is enabled",
        words: &[
            (0x0000, 0x3401_0006), // ori $1,$0,6
            (0x0004, 0x4081_5800), // mtc0 $1,Compare
            (0x0008, 0x3402_8001), // ori $2,$0,0x8001
            (0x000c, 0x4082_6000), // mtc0 $2,Status
        ],
        before: 6,
        absent: None,
        count: 100,
        made: 100,
    },
    Case {
        name: "Compare is met soon, from the greatest number to 0",
        words: &[
            (0x0000, 0x3401_0005), // ori $1,$0,5
            (0x0004, 0x4081_5800), // mtc0 $1,Compare
            (0x0008, 0x2402_fffc), // addiu $2,$0,-4
            (0x000c, 0x4082_4800), // mtc0 $2,Count
        ],
        before: 4,
        absent: None,
        count: 100,
        made: 8,
    },
    Case {
        name: "Random goes round from Wired to the last entry",
        words: &[
            (0x0000, 0x3401_000b), // ori $1,$0,11
            (0x0004, 0x4081_3000), // mtc0 $1,Wired
        ],
        before: 2,
        absent: None,
        count: 23,
        made: 23,
    },
    Case {
        name: "Wired is the last entry",
        words: &[
            (0x0000, 0x3401_000f), // ori $1,$0,15
            (0x0004, 0x4081_3000), // mtc0 $1,Wired
        ],
        before: 2,
        absent: None,
        count: 7,
        made: 7,
    },
];

#[test]
fn many_steps_end_before_the_timer_and_interrupts(rt: HostRuntime) -> Result<(), Fail> {
    check_cases(&rt, &CASES)
}
