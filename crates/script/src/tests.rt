//! Scripts written out by hand.
use crate::{ScriptError, read};
use std::alloc::{AllocError, Global};
use std::process::Abort;
use std::test::Fail;

/// A header and a line of each form.
const EACH_FORM: &str =
    "# a comment\nslots 4\nguest a.elf 16 100\nframes 008\r\n\nfail write 3\nguest b 64 50 6\nadmit\n\
    seed 4294967295\nprofile 2\nstep 0 5\nrun 1 4294967295\nin 0 41fF\ndrain 1\ntarget 1 64\npoke 0 37 0x8000000a\n\
    write 0 0x1000 00ff\nprobe 1 0xFfFf 1024\nfault 0\nrepeat 12\nscan 0 99\nrun * 7\nevict 1 3\nend\nsample\nlevel\naudit\nstep * 0\n#dump 9\ndump 1\nstats 0\ndamage 3 4095";

/// The same script, as it is printed for programmers.
const EACH_VALUE: &str = "Script { header: Header { frames: 8, slots: 4, seed: 4294967295, \
    guests: [GuestLine { file: \"a.elf\", pages: 16, shares: 100, minimum: None }, \
    GuestLine { file: \"b\", pages: 64, shares: 50, minimum: Some(6) }], \
    failure: Some(Fail { call: Write, count: 3 }), admit: true, profile: Some(2) }, \
    blocks: [Block { times: 1, lines: [ActionLine { number: 11, action: Single(Step { guest: GuestNo { number: 0 }, count: 5 }) }, \
    ActionLine { number: 12, action: Single(Run { guest: GuestNo { number: 1 }, count: 4294967295 }) }, \
    ActionLine { number: 13, action: Single(In { guest: GuestNo { number: 0 }, bytes: [65, 255] }) }, \
    ActionLine { number: 14, action: Single(Drain { guest: GuestNo { number: 1 } }) }, \
    ActionLine { number: 15, action: Single(Target { guest: GuestNo { number: 1 }, pages: 64 }) }, \
    ActionLine { number: 16, action: Single(Poke { guest: GuestNo { number: 0 }, register: 37, value: 2147483658 }) }, \
    ActionLine { number: 17, action: Single(Write { guest: GuestNo { number: 0 }, address: 4096, bytes: [0, 255] }) }, \
    ActionLine { number: 18, action: Single(Probe { guest: GuestNo { number: 1 }, address: 65535, length: 1024 }) }, \
    ActionLine { number: 19, action: Single(Fault { guest: GuestNo { number: 0 } }) }] }, \
    Block { times: 12, lines: [ActionLine { number: 21, action: Single(Scan { guest: GuestNo { number: 0 }, page: 99 }) }, \
    ActionLine { number: 22, action: RunEach(7) }, ActionLine { number: 23, action: Single(Evict { guest: GuestNo { number: 1 }, page: 3 }) }] }, \
    Block { times: 1, lines: [ActionLine { number: 25, action: Single(Sample) }, \
    ActionLine { number: 26, action: Single(Level) }, ActionLine { number: 27, action: Single(Audit) }, \
    ActionLine { number: 28, action: StepEach(0) }, ActionLine { number: 30, action: Single(Dump { guest: GuestNo { number: 1 } }) }, \
    ActionLine { number: 31, action: Single(Stats { guest: GuestNo { number: 0 } }) }, \
    ActionLine { number: 32, action: Single(Damage { slot: 3, byte: 4095 }) }] }] }";

/// Four lines of a header, whose guest 0 has 16 pages.
const HEADER: &str = "frames 8\nslots 4\nseed 1\nguest a.elf 16 100\n";

/// Lines that are taken behind the header.
const TAKEN: &str =
    "step 0 0\nstep 00 007\nrun 0 4294967295\nin 0 00\nin 0 aBCd\ntarget 0 0\ntarget 0 16\n\
    poke 0 0 0xFFFFffff\npoke 0 37 0x0\nwrite 0 0x80000000 0A\nprobe 0 0x0 1\nprobe 0 0x0 1024\nscan 0 4294967295\n\
    evict 0 99999\naudit 0\ndamage 0 0\ndamage 3 4095\n\n#\n# step\nfail read 1\nfail write 4294967295\nadmit\nprofile 0\n\
    guest b 0 0 4294967295\nstep * 1\nrun * 4294967295";

/// Lines that are refused behind the header: for their words and blanks, their numbers, and their guests and ranges.
const REFUSED: &str =
    "stop\nStep 0 1\nsteps 0 1\nstep 0\nstep 0 1 2\ndrain\ndrain 0 0\nsample 0\nlevel 0\naudit 0 0\ndump\nstats\nstats 0 0\n\
    probe 0 0x0\nstep 0 1 1 1 1 1\n step 0 1\nstep  0 1\nstep 0  1\nstep 0 1 \nstep\t0 1\nstep 0 1\rx\n # step\n \n\
    step 0 4294967296\nstep 0 99999999999999999999\nstep 0 +1\nstep 0 -1\nstep 0 0x1\nstep 0 1a\nstep 0 \u{e9}\n\
    in 0\nin 0 0\nin 0 000\nin 0 0g\nin 0 \nwrite 0 0x0 \nwrite 0 0x0 0\nwrite 0 0 00\npoke 0 1 0x\n\
    poke 0 1 0x000000000\npoke 0 1 0X1\npoke 0 1 1\npoke 0 1 0xg\nstep 1 1\nrun 1 1\nin 1 00\ndrain 1\ntarget 1 0\n\
    poke 1 0 0x0\nwrite 1 0x0 00\nprobe 1 0x0 1\nfault 1\nscan 1 0\nevict 1 0\ndump 1\nstats 1\ntarget 0 17\npoke 0 38 0x0\n\
    probe 0 0x0 0\nprobe 0 0x0 1025\ndamage 4 0\ndamage 0 4096\nframes 8\nslots 4\nseed 1\nframes\nguest b 1\n\
    guest  1 2\nguest b 1 2 3 4\nguest b x 2\nfail read 0\nfail both 1\nfail read\nadmit 1\nprofile\n\
    end\nend 1\nrepeat\nrepeat 1 2\nrepeat -1\nrepeat *\nstep *\nstep * *\nstep * -1\nrun ** 1\nin * 00\ndrain *\nrun 0 *";

/// The line of a text that is refused, or 0 where none is.
fn refused_line(alloc: Global, text: &str) -> Result<u64, AllocError> {
    match read(alloc, text) {
        Ok(_) => Ok(0),
        Err(ScriptError::Line(line)) => Ok(line),
        Err(ScriptError::Memory) => Err(AllocError),
    }
}

/// Asserts which line of a text is refused.
fn expect(rt: &impl Abort, alloc: Global, text: &str, line: u64) -> Result<(), AllocError> {
    let refused = refused_line(alloc, text)?;
    assert!(rt; refused == line, "line {refused}, not {line}, of {text:?}");
    Ok(())
}

#[test]
fn reads_each_form(rt: HostRuntime) -> Result<(), Fail> {
    let script = read(rt.alloc(), EACH_FORM)?;
    let printed = format!(in rt.alloc(); "{script:?}")?;
    assert_eq!(rt; printed.as_str(), EACH_VALUE);
    Ok(())
}

#[test]
fn takes_lines(rt: HostRuntime) -> Result<(), Fail> {
    for line in TAKEN.lines() {
        let text = format!(in rt.alloc(); "{HEADER}{line}\n")?;
        expect(&rt, rt.alloc(), &text, 0)?;
    }
    Ok(())
}

#[test]
fn refuses_lines(rt: HostRuntime) -> Result<(), Fail> {
    for line in REFUSED.lines() {
        let text = format!(in rt.alloc(); "{HEADER}{line}\nsample\n")?;
        expect(&rt, rt.alloc(), &text, 5)?;
    }
    Ok(())
}

#[test]
fn wants_frames_slots_and_a_seed(rt: HostRuntime) -> Result<(), Fail> {
    let alloc = rt.alloc();
    expect(&rt, alloc, "", 1)?;
    expect(&rt, alloc, "\n", 2)?;
    expect(&rt, alloc, "# a\n\n", 3)?;
    expect(&rt, alloc, "sample", 1)?;
    expect(&rt, alloc, "frames 8", 2)?;
    expect(&rt, alloc, "frames 8\nslots 4\nguest a 2 1\n", 4)?;
    expect(&rt, alloc, "frames 8\nslots 4\nsample\n", 3)?;
    expect(&rt, alloc, "frames 8\nseed 4\nsample\n", 3)?;
    expect(&rt, alloc, "seed 8\nslots 4\n#\nsample\n", 4)?;
    expect(&rt, alloc, "frames 8\nslots 0\nseed 1\ndamage 0 0", 4)?;
    expect(&rt, alloc, "frames 8\nslots 4\nseed 1\nstep 0 1", 4)?;
    expect(&rt, alloc, "frames 8\nslots 4\nseed 1", 0)?;
    Ok(())
}

#[test]
fn takes_a_header_line_once_and_before_events(rt: HostRuntime) -> Result<(), Fail> {
    let alloc = rt.alloc();
    expect(&rt, alloc, "frames 8\nframes 8\n", 2)?;
    expect(&rt, alloc, "slots 8\nslots 8\n", 2)?;
    expect(&rt, alloc, "seed 8\n\nseed 8\n", 3)?;
    expect(&rt, alloc, "fail read 1\nfail read 1\n", 2)?;
    expect(&rt, alloc, "fail read 1\nfail write 1\n", 2)?;
    expect(&rt, alloc, "admit\nadmit\n", 2)?;
    expect(&rt, alloc, "profile 1\nprofile 1\n", 2)?;
    expect(
        &rt,
        alloc,
        "frames 8\nslots 4\nseed 1\nsample\n#\nguest a 2 1\n",
        6,
    )?;
    expect(
        &rt,
        alloc,
        "frames 8\nslots 4\nseed 1\nsample\nadmit\nx\n",
        5,
    )?;
    expect(&rt, alloc, "frames 8\r\nslots 4\r\nseed 1\r\nsample\r\n", 0)?;
    expect(&rt, alloc, "frames 8\nslots 4\nseed 1\nsample\r", 4)?;
    Ok(())
}

#[test]
fn wants_an_end_to_each_repeat_and_none_within_another(rt: HostRuntime) -> Result<(), Fail> {
    let alloc = rt.alloc();
    let expect = |lines: &str, line: u64| -> Result<(), AllocError> {
        let text = format!(in alloc; "{HEADER}{lines}")?;
        expect(&rt, alloc, &text, line)
    };
    expect("repeat 3\nsample\nend\n", 0)?;
    expect("repeat 0\nend\nrepeat 1\nend", 0)?;
    expect("repeat 3\nsample\n", 7)?;
    expect("repeat 3\nrepeat 2\nend\nend\n", 6)?;
    expect("repeat 3\nend\nend\n", 7)?;
    expect("repeat 3\nadmit\nend\n", 6)?;
    expect("repeat 3\nend\nadmit\n", 7)?;
    expect("repeat 3\nstep 1 1\nend\n", 6)?;
    Ok(())
}

#[test]
fn wants_a_whole_header_before_a_repeat(rt: HostRuntime) -> Result<(), Fail> {
    expect(
        &rt,
        rt.alloc(),
        "frames 8\nslots 4\nrepeat 2\nend\nseed 1\n",
        3,
    )?;
    Ok(())
}

/// The header, and an event whose last word is so many bytes.
fn with_bytes(alloc: Global, event: &str, count: usize) -> Result<String, AllocError> {
    let mut text = format!(in alloc; "{HEADER}{event} ")?;
    for _ in 0..count {
        text.push_str("0a")?;
    }
    Ok(text)
}

#[test]
fn takes_bytes(rt: HostRuntime) -> Result<(), Fail> {
    let alloc = rt.alloc();
    expect(&rt, alloc, &with_bytes(alloc, "write 0 0x0", 1024)?, 0)?;
    expect(&rt, alloc, &with_bytes(alloc, "write 0 0x0", 1025)?, 5)?;
    expect(&rt, alloc, &with_bytes(alloc, "in 0", 1025)?, 0)?;
    Ok(())
}
