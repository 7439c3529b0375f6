//! Each work does its rounds: all of the steps, bytes, looks, reads, scans and evictions that were asked for.
use crate::work::Work;
use std::process::Abort;
use std::test::Fail;

/// Asserts one case. The tests share it, since each assertion in a function's own body makes its proof much longer.
fn expect(rt: &impl Abort, name: &'static str, got: u64, wanted: u64) {
    assert!(rt; got == wanted, "{name}: {got}, not {wanted}");
}

#[test]
fn each_work_does_its_rounds(rt: HostRuntime) -> Result<(), Fail> {
    let cases = [
        ("world_steps", 7, 7 * 1024),
        ("slices", 7, 7 * 1024),
        ("feed", 300, 3 * 300),
        ("seen", 1000, 1000),
        ("read", 100, 100),
        ("scan", 200, 200),
        ("evict", 100, 100),
    ];
    for (name, count, wanted) in cases {
        match Work::named(name) {
            Some(work) => expect(&rt, name, work.rounds(&rt, rt.alloc(), count)?, wanted),
            None => panic!(rt; "there is no work {name}"),
        }
    }
    assert!(rt; Work::named("steps").is_none());
    Ok(())
}
