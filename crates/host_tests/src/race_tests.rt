//! Runners, a sharer, the policy, feeders and debuggers at once, an audit after each 100 scans, and then the end.
use crate::race::race;
use swapstore::Op;

#[test]
fn all_threads_run_at_once(rt: HostRuntime) {
    race(&rt, rt.alloc(), 5, Op::Read, u64::MAX);
}

#[test]
fn the_first_read_of_the_store_fails(rt: HostRuntime) {
    race(&rt, rt.alloc(), 1, Op::Read, 1);
}

#[test]
fn the_second_read_of_the_store_fails(rt: HostRuntime) {
    race(&rt, rt.alloc(), 1, Op::Read, 2);
}

#[test]
fn the_seventh_read_of_the_store_fails(rt: HostRuntime) {
    race(&rt, rt.alloc(), 1, Op::Read, 7);
}

#[test]
fn the_first_write_to_the_store_fails(rt: HostRuntime) {
    race(&rt, rt.alloc(), 1, Op::Write, 1);
}

#[test]
fn the_seventh_write_to_the_store_fails(rt: HostRuntime) {
    race(&rt, rt.alloc(), 1, Op::Write, 7);
}
