//! Each work does its rounds. What loads and stores add up to was computed apart from this program.
use crate::work::Work;
use std::process::Abort;
use std::test::Fail;

/// Asserts one case. The tests share it, since each assertion in a function's own body makes its proof much longer.
fn expect(rt: &impl Abort, name: &'static str, got: u64, wanted: u64) {
    assert!(rt; got == wanted, "{name}: {got}, not {wanted}");
}

#[test]
fn each_work_does_its_rounds(rt: HostRuntime) -> Result<(), Fail> {
    let cases = [
        ("append_step", 5, 5),
        ("append", 5, 5),
        ("look", 5, 5),
        ("load", 5000, 8794716),
        ("plain_load", 5000, 8794716),
        ("store", 5000, 12089344),
        ("plain_store", 5000, 12089344),
        ("offer", 5, 6),
        ("join", 5, 6),
        ("digest", 3, 246),
    ];
    for (name, count, wanted) in cases {
        match Work::named(name) {
            Some(work) => expect(&rt, name, work.rounds(rt.alloc(), count)?, wanted),
            None => panic!(rt; "there is no work {name}"),
        }
    }
    assert!(rt; Work::named("step").is_none());
    Ok(())
}
