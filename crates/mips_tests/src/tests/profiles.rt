//! Both profiles: their numbers, and whole rounds of Random with what TLBWR writes.
use super::expect;
use super::sparse::Sparse;
use mips_cp0::{Cp0, Profile};
use mips_isa::Reg;
use mips_step::Cpu;
use mips_tlb::Tlb;
use std::process::Abort;
use std::test::Fail;

/// A profile, its number, its last TLB entry, Config1, and the greatest number of pages.
static PROFILES: [(Profile, u32, u32, u32, u32); 2] = [
    (Profile::One, 1, 15, 0x1e00_0000, 16384),
    (Profile::Two, 2, 31, 0x3e00_0000, 32768),
];

#[test]
fn profiles_have_their_numbers(rt: HostRuntime) {
    for row in &PROFILES {
        let (profile, number, last, config1, pages) = *row;
        let numbers = profile.numbers();
        let got = (numbers.number, numbers.entries, numbers.most_pages);
        expect(&rt, number, got, (number, last + 1, pages));
        expect(&rt, number, Profile::of_number(number), Some(profile));
        let cp0 = Cp0::boot(profile);
        let shown = [cp0.read(1, 0, 0), cp0.read(16, 0, 0), cp0.read(16, 1, 0)];
        expect(&rt, number, shown, [last, 0x8000_0082, config1]);
        expect(&rt, number, Tlb::boot(profile).len() as u32, last + 1);
    }
    for number in [0, 3, 0xffff_ffff] {
        expect(&rt, number, Profile::of_number(number), None);
    }
}

/// What MTC0 leaves in Index and Wired, and Random after it.
fn masks(profile: Profile, value: u32) -> [u32; 3] {
    let mut cp0 = Cp0::boot(profile);
    cp0.tick();
    cp0.write(0, 0, value);
    cp0.write(6, 0, value);
    [cp0.read(0, 0, 0), cp0.read(6, 0, 0), cp0.read(1, 0, 0)]
}

#[test]
fn index_and_wired_have_their_masks(rt: HostRuntime) {
    for row in &PROFILES {
        let (profile, number, last, _, _) = *row;
        for value in [0xffff_ffff, 16, 7] {
            let kept = value & last;
            expect(
                &rt,
                (number, value),
                masks(profile, value),
                [kept, kept, last],
            );
        }
    }
}

/// Random so many instructions after a write of Wired, and the entry that TLBWR writes then, by a search for its address.
#[tactic(auto, using(mips_tlb::proofs::Used::boot_together))]
fn written_at_random(profile: Profile, wired: u32, ticks: u32) -> (u32, Option<usize>) {
    let mut tlb = Tlb::boot(profile);
    let mut cp0 = Cp0::boot(profile);
    cp0.write(6, 0, wired);
    cp0.advance(ticks);
    cp0.write(10, 0, 0x0040_0000);
    tlb.write_random(&cp0);
    (cp0.random(), tlb.find(0x0040_1abc, 0))
}

/// Two rounds of Random, from the last entry down to Wired.
fn rounds_are_written(rt: &impl Abort, profile: Profile, last: u32, wired: u32) {
    assert!(rt; wired <= last && last < 32);
    let mut random = last;
    for ticks in 0..2 * (last + 1 - wired) {
        let got = written_at_random(profile, wired, ticks);
        expect(
            rt,
            (last, wired, ticks),
            got,
            (random, Some(random as usize)),
        );
        random = if random <= wired { last } else { random - 1 };
    }
}

#[test]
fn entries_are_written_at_random(rt: HostRuntime) {
    for row in &PROFILES {
        let (profile, _, last, _, _) = *row;
        for wired in [0, 5, last] {
            rounds_are_written(&rt, profile, last, wired);
        }
    }
}

/// Register 1 after `mfc0 $1,$1,0`, the first step of a profile.
fn random_read<R: AllocGlobal>(rt: &R, profile: Profile) -> Result<u32, Fail> {
    let mut bus = Sparse::new(rt, &[(0, 0x4001_0800)])?;
    let mut cpu = Cpu::boot(profile, 0x8000_0000);
    cpu.step(&mut bus);
    Ok(cpu.reg(Reg::new(1)))
}

#[test]
fn random_is_read_in_both(rt: HostRuntime) -> Result<(), Fail> {
    expect(&rt, "one", random_read(&rt, Profile::One)?, 0x0e);
    expect(&rt, "two", random_read(&rt, Profile::Two)?, 0x1e);
    Ok(())
}

/// The sum of 7fffffff and 1 overflows at the fourth step.
static OVERFLOWS: [(u32, u32); 4] = [
    (0x00, 0x3c01_7fff),
    (0x04, 0x3421_ffff),
    (0x08, 0x2402_0001),
    (0x0c, 0x0022_1820),
];

#[test]
fn snapshot_goes_on_alike(rt: HostRuntime) -> Result<(), Fail> {
    let mut bus = Sparse::new(&rt, &OVERFLOWS)?;
    let mut cpu = Cpu::boot(Profile::Two, 0x8000_0000);
    for _ in 0..3 {
        cpu.step(&mut bus);
    }
    let mut copy = cpu.again();
    cpu.step(&mut bus);
    expect(
        &rt,
        "cause",
        (cpu.pc(), cpu.cp0().cause(), cpu.cp0().random()),
        (0x8000_0180, 0x30, 27),
    );
    expect(
        &rt,
        "copy",
        (copy.pc(), copy.cp0().cause(), copy.cp0().random()),
        (0x8000_000c, 0, 28),
    );
    copy.step(&mut bus);
    expect(
        &rt,
        "later",
        (copy.pc(), copy.cp0().epc(), copy.cp0().random()),
        (0x8000_0180, 0x8000_000c, 27),
    );
    Ok(())
}
