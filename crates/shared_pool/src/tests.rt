//! Free frames in one thread, and in four at once.
ghost use Rattle.std.specs.Prelude.{◌≡◌, IfOk, map};
ghost use Rattle.std.specs.List.{range_with_len};
ghost use Rattle.accounts.specs.declared.account.Account.TheVariants.{Frame};

use crate::{PoolPass, SharedPool};
use accounts::{BookShare, Books, Extent};
use frames::Numbers;
use std::alloc::{AllocError, Global};
use std::process::Abort;
use std::sync::Wait;
use std::test::Fail;
use std::thread::join;

// Books in which all frames are free, and the frames' accounts.
fn free_books(alloc: Global, frames: u32) -> Result<(Books, BookShare), AllocError>
    ensures { IfOk result (λ made. made.1 ≡ record { ledger = made.0.id; parts = map Frame (range_with_len 0 frames) }) }
{
    let extent = Extent {
        guests: 0,
        frames,
        slots: 0,
    };
    let (books, mut accounts) = Books::new(alloc, &extent)?;
    let _slots = books.part(&mut accounts);
    let _table = books.part(&mut accounts);
    Ok((books, accounts))
}

// All frames are given.
fn fill<R: Wait>(
    rt: &R,
    frames: u32,
    pool: &SharedPool,
    pass: &mut PoolPass,
    books: &Books,
    mut accounts: BookShare,
)
    requires pool { pass.old.pool ≡ pool.now.id }
    requires ledger { pass.old.hand.of ≡ books.now.id }
    requires accounts { accounts ≡ record { ledger = books.now.id; parts = map Frame (range_with_len 0 frames) } }
    ensures pool { pass.new.pool ≡ pass.old.pool }
    ensures parts { pass.new.hand.parts ≡ pass.old.hand.parts }
{
    let mut numbers = Numbers::below(frames);
    while let Some(no) = numbers.next_frame() {
        let share = books.part(&mut accounts);
        pool.give_as(rt, pass, no, share);
    }
    numbers.close();
}

// The number of a frame that is taken.
fn take_number<R: Wait>(rt: &R, pool: &SharedPool, pass: &mut PoolPass) -> Option<u32>
    requires { pass.old.pool ≡ pool.now.id }
    ensures pool { pass.new.pool ≡ pass.old.pool }
    ensures ledger { pass.new.hand.of ≡ pass.old.hand.of }
    ensures parts { pass.new.hand.parts ≡ pass.old.hand.parts }
{
    match pool.take_as(rt, pass) {
        Some((no, _account)) => Some(no.close()),
        None => None,
    }
}

#[test]
fn frames_go_out_and_in(rt: HostRuntime) -> Result<(), Fail> {
    let (books, accounts) = free_books(rt.alloc(), 3)?;
    let (pool, mut pass) = SharedPool::new(rt.alloc(), 3, &books)?;
    assert_eq!(rt; pool.len_as(&rt, &mut pass), 0, "where none was given");
    assert_eq!(rt; take_number(&rt, &pool, &mut pass), None);
    fill(&rt, 3, &pool, &mut pass, &books, accounts);
    assert_eq!(rt; pool.len_as(&rt, &mut pass), 3);
    let mut other = pool.another(&mut pass);
    if let Some((no, account)) = pool.take_as(&rt, &mut other) {
        let number = no.number();
        pool.give_as(&rt, &mut pass, no, account);
        assert_eq!(rt; number, 0, "the one that waits longest");
    }
    pool.absorb(&mut pass, other);
    assert_eq!(rt; take_number(&rt, &pool, &mut pass), Some(1));
    assert_eq!(rt; take_number(&rt, &pool, &mut pass), Some(2));
    assert_eq!(rt; take_number(&rt, &pool, &mut pass), Some(0));
    assert_eq!(rt; take_number(&rt, &pool, &mut pass), None);
    Ok(())
}

// Takes a frame and gives it back, so often.
fn take_and_give<R: Wait>(rt: &R, pool: &SharedPool, mut pass: PoolPass, times: u32) -> PoolPass
    requires { pass.pool ≡ pool.now.id }
    ensures { result.pool ≡ pool.now.id }
{
    for _ in 0..times {
        if let Some((no, account)) = pool.take_as(rt, &mut pass) {
            pool.give_as(rt, &mut pass, no, account);
        }
    }
    pass
}

// Which of three numbers three takes answer; none is answered twice.
fn each_once<R: Wait + Abort>(rt: &R, pool: &SharedPool, pass: &mut PoolPass) -> [bool; 3]
    requires { pass.old.pool ≡ pool.now.id }
    ensures { pass.new.pool ≡ pass.old.pool }
{
    let mut seen = [false; 3];
    for _ in 0..3 {
        if let Some(number) = take_number(rt, pool, pass) {
            let at = number as usize;
            assert!(rt; at < 3 && !seen[at]);
            seen[at] = true;
        }
    }
    seen
}

#[test]
fn four_threads_take_and_give_at_once(rt: HostRuntime) -> Result<(), Fail> {
    let (books, accounts) = free_books(rt.alloc(), 3)?;
    let (pool, mut pass) = SharedPool::new(rt.alloc(), 3, &books)?;
    fill(&rt, 3, &pool, &mut pass, &books, accounts);
    let one = pool.another(&mut pass);
    let two = pool.another(&mut pass);
    let three = pool.another(&mut pass);
    let four = pool.another(&mut pass);
    let ((one, two), (three, four)) = join(
        &rt,
        || -> (PoolPass, PoolPass)
            requires { (one.pool ≡ pool.id) × (two.pool ≡ pool.id) }
            ensures { (result.0.pool ≡ pool.id) × (result.1.pool ≡ pool.id) }
        {
            join(
                &rt,
                || take_and_give(&rt, &pool, one, 10_000),
                || take_and_give(&rt, &pool, two, 10_000),
            )
        },
        || -> (PoolPass, PoolPass)
            requires { (three.pool ≡ pool.id) × (four.pool ≡ pool.id) }
            ensures { (result.0.pool ≡ pool.id) × (result.1.pool ≡ pool.id) }
        {
            join(
                &rt,
                || take_and_give(&rt, &pool, three, 10_000),
                || take_and_give(&rt, &pool, four, 10_000),
            )
        },
    );
    pool.absorb(&mut pass, one);
    pool.absorb(&mut pass, two);
    pool.absorb(&mut pass, three);
    pool.absorb(&mut pass, four);
    assert_eq!(rt; pool.len_as(&rt, &mut pass), 3);
    assert_eq!(rt; each_once(&rt, &pool, &mut pass), [true; 3]);
    assert_eq!(rt; take_number(&rt, &pool, &mut pass), None);
    Ok(())
}
