//! A console queue in one thread, and with a thread on each side.
ghost use Rattle.std.specs.Prelude.{◌≡◌};

use crate::{ConsoleQueue, FeedPass, TakePass};
use std::process::Abort;
use std::sync::Wait;
use std::test::Fail;
use std::thread;

// Takes so many bytes, of which the first is this one, and each next one is 1 more.
fn take_rising<R: Wait + Abort>(
    rt: &R,
    queue: &ConsoleQueue,
    taker: &mut TakePass,
    first: u8,
    count: u32,
)
    requires { taker.old.queue ≡ queue.now.id }
    ensures { taker.new.queue ≡ queue.now.id }
{
    let mut next = first;
    for _ in 0..count {
        assert_eq!(rt; queue.take(rt, taker), Some(next));
        next = next.wrapping_add(1);
    }
}

#[test]
fn bytes_come_out_in_order(rt: HostRuntime) -> Result<(), Fail> {
    let (queue, mut feed, mut taker) = ConsoleQueue::new(rt.alloc(), 4)?;
    assert_eq!(rt; queue.take(&rt, &mut taker), None, "where none was put");
    assert_eq!(rt; queue.feed(&rt, &mut feed, &[]), 0);
    assert_eq!(rt;
        queue.feed(&rt, &mut feed, &[1, 2, 3, 4, 5]),
        4,
        "into room for four"
    );
    assert_eq!(rt; queue.feed(&rt, &mut feed, &[5]), 0, "into no room");
    take_rising(&rt, &queue, &mut taker, 1, 2);
    assert_eq!(rt;
        queue.feed(&rt, &mut feed, &[5, 6, 7]),
        2,
        "into room for two"
    );
    take_rising(&rt, &queue, &mut taker, 3, 4);
    assert_eq!(rt; queue.take(&rt, &mut taker), None, "where all were taken");
    Ok(())
}

#[test]
fn what_waits_is_the_rest(rt: HostRuntime) -> Result<(), Fail> {
    let (queue, mut feed, mut taker) = ConsoleQueue::new(rt.alloc(), 300)?;
    assert_eq!(rt; queue.feed(&rt, &mut feed, &[7, 8, 9, 10]), 4);
    take_rising(&rt, &queue, &mut taker, 7, 2);
    let mut waiting = Vec::with_capacity(rt.alloc(), 300)?;
    queue.rest(&rt, feed, taker, &mut waiting);
    assert!(rt; waiting.as_slice() == [9, 10].as_slice());
    Ok(())
}

// Puts so many bytes, 0, 1, 2 and so on, 255 and then 0 again, in pieces of up to three, as soon as there is room.
fn feed_rising<R: Wait>(rt: &R, queue: &ConsoleQueue, mut feed: FeedPass, count: u32) -> FeedPass
    requires { feed.queue ≡ queue.now.id }
    ensures { result.queue ≡ queue.now.id }
{
    let mut fed = 0;
    for _ in rt.forever() {
        if fed >= count {
            break;
        }
        let next = (fed % 256) as u8;
        let piece = [next, next.wrapping_add(1), next.wrapping_add(2)];
        let many = ((count - fed) as usize).min(piece.len());
        let put = queue.feed(rt, &mut feed, &piece[..many]);
        if put == 0 {
            thread::yield_now();
        }
        fed += put as u32;
    }
    feed
}

// Takes so many bytes, as soon as they are there, and answers how many were not the next one.
fn count_strays<R: Wait>(
    rt: &R,
    queue: &ConsoleQueue,
    mut taker: TakePass,
    count: u32,
) -> (u32, TakePass)
    requires { taker.queue ≡ queue.now.id }
    ensures { result.1.queue ≡ queue.now.id }
{
    let mut strays = 0;
    for k in 0..count {
        if next_byte(rt, queue, &mut taker) != (k % 256) as u8 {
            strays += 1;
        }
    }
    (strays, taker)
}

// The next byte, as soon as it is there.
fn next_byte<R: Wait>(rt: &R, queue: &ConsoleQueue, taker: &mut TakePass) -> u8
    requires { taker.old.queue ≡ queue.now.id }
    ensures { taker.new.queue ≡ queue.now.id }
{
    for _ in rt.forever() {
        match queue.take(rt, taker) {
            Some(byte) => return byte,
            None => thread::yield_now(),
        }
    }
    unreachable!()
}

#[test]
fn bytes_cross_between_threads(rt: HostRuntime) -> Result<(), Fail> {
    let (queue, feed, taker) = ConsoleQueue::new(rt.alloc(), 8)?;
    let (feed, (strays, taker)) = thread::join(
        &rt,
        || feed_rising(&rt, &queue, feed, 20_000),
        || count_strays(&rt, &queue, taker, 20_000),
    );
    assert_eq!(rt; strays, 0);
    let mut waiting = Vec::with_capacity(rt.alloc(), 8)?;
    queue.rest(&rt, feed, taker, &mut waiting);
    assert!(rt; waiting.is_empty());
    Ok(())
}
