//! The frames of a pool with ample memory.
ghost use Rattle.std.specs.Prelude.{◌≡◌, ◌+◌};

use crate::Pool;
use frames::FrameNo;
use std::process::Abort;
use std::test::Fail;

fn taken(rt: &impl Abort, pool: &mut Pool) -> FrameNo
    ensures { pool.new.out ≡ pool.old.out + 1 }
{
    match pool.take() {
        Some(no) => no,
        None => panic!(rt; "no frame is free"),
    }
}

fn empty(rt: &impl Abort, pool: &mut Pool)
    ensures { pool.new ≡ pool.old }
{
    match pool.take() {
        Some(no) => panic!(rt; "frame {} is free", no.close()),
        None => {}
    }
}

#[test]
fn frames_are_taken_and_given_back(rt: HostRuntime) -> Result<(), Fail> {
    let mut pool = Pool::new(rt.alloc(), 3)?;
    assert_eq!(rt; pool.free(), 3);
    let first = taken(&rt, &mut pool);
    let second = taken(&rt, &mut pool);
    let third = taken(&rt, &mut pool);
    empty(&rt, &mut pool);
    let mut seen = [first.number(), second.number(), third.number()];
    seen.sort_unstable();
    assert_eq!(rt; seen, [0, 1, 2], "each number once");
    let number = second.number();
    pool.give(second);
    assert_eq!(rt; pool.free(), 1);
    let again = taken(&rt, &mut pool);
    assert_eq!(rt; again.number(), number, "the one that is free");
    pool.give(first);
    pool.give(again);
    pool.give(third);
    assert_eq!(rt; pool.free(), 3);
    pool.close();
    Ok(())
}

#[test]
fn a_pool_of_the_largest_size(rt: HostRuntime) -> Result<(), Fail> {
    let pool = Pool::new(rt.alloc(), 65_536)?;
    let free = pool.free();
    pool.close();
    assert_eq!(rt; free, 65_536);
    Ok(())
}
