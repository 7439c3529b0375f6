//! A lock in one thread, and in several at once.
ghost use Rattle.std.specs.Prelude.{◌≡◌, ◌^◌, ◌<◌, ◌≤◌, IfOk};

use crate::{Close, Fits, KeyedLock, Loan};
use std::alloc::{AllocError, Global};
use std::sync::{Arc, Wait};
use std::test::Fail;
use std::thread;
use std::thread::join;
use std::time::{Clock, CpuClock, Duration};

// A number that is at most the key of its lock.
struct Small {
    value: u32,
}

impl Small {
    fn into_value(self) -> u32 {
        let Small { value } = self;
        value
    }
}

impl Close for Small {
    fn close(self) {
        self.into_value();
    }
}

impl Fits<u32> for Small {
    ghost use Rattle.std.specs.Prelude.{◌≤◌};

    ghost fits = { λ key small. small.value ≤ key };
}

fn locked(alloc: Global, value: u32, key: u32) -> Result<KeyedLock<Small, u32>, AllocError>
    requires { value ≤ key }
    ensures { IfOk result (λ lock. lock.key ≡ key) }
{
    match KeyedLock::new(alloc, Small { value }, &key) {
        Ok(lock) => Ok(lock),
        Err(small) => {
            small.close();
            Err(AllocError)
        }
    }
}

fn is_held(lock: &KeyedLock<Small, u32>) -> bool {
    match lock.try_take() {
        Some((small, loan)) => {
            lock.put_back(small, loan);
            false
        }
        None => true,
    }
}

#[test]
fn a_value_goes_in_and_out(rt: HostRuntime) -> Result<(), Fail> {
    let lock = locked(rt.alloc(), 3, 7)?;
    assert!(rt; !is_held(&lock));
    let (small, loan) = lock.take(&rt);
    let found = small.into_value();
    let held = is_held(&lock);
    lock.put_back(Small { value: 7 }, loan);
    assert_eq!(rt; (found, held, is_held(&lock)), (3, true, false));
    let last = lock.into_inner().map(Small::into_value);
    assert_eq!(rt; last, Some(7));
    Ok(())
}

#[test]
fn a_value_that_is_kept_is_out_for_good(rt: HostRuntime) -> Result<(), Fail> {
    let lock = locked(rt.alloc(), 3, 7)?;
    let (small, loan) = lock.take(&rt);
    loan.keep();
    let found = small.into_value();
    assert!(rt; is_held(&lock));
    let last = lock.into_inner().map(Small::into_value);
    assert_eq!(rt; (found, last), (3, None));
    Ok(())
}

// A value whose end is seen from outside.
struct Watched {
    owner: Arc<u8, Global>,
}

impl Close for Watched {
    fn close(self) {
        let Watched { owner } = self;
        drop(owner);
    }
}

impl Fits<u32> for Watched {
    ghost use Rattle.std.specs.Prelude.{⊤};

    ghost fits = { λ key watched. ⊤ };
}

#[test]
fn a_lock_that_is_dropped_closes_its_value(rt: HostRuntime) -> Result<(), Fail> {
    let owner = Arc::new(rt.alloc(), 1)?;
    let watched = Watched {
        owner: Arc::try_clone(&owner)?,
    };
    match KeyedLock::new(rt.alloc(), watched, &0) {
        Ok(lock) => {
            let owners = Arc::strong_count(&owner);
            drop(lock);
            assert_eq!(rt; owners, 2);
        }
        Err(watched) => watched.close(),
    }
    assert_eq!(rt; Arc::strong_count(&owner), 1);
    Ok(())
}

// The value, as soon as the lock is found free.
fn take_awake<R: Wait>(rt: &R, lock: &KeyedLock<Small, u32>) -> (Small, Loan<Small, u32>)
    ensures fits { result.0.value ≤ lock.now.key }
    ensures loan { result.1 ≡ lock.now.id }
{
    for _ in rt.forever() {
        if let Some(taken) = lock.try_take() {
            return taken;
        }
        thread::yield_now();
    }
    unreachable!()
}

// Adds to the value, and answers what it was.
fn add(lock: &KeyedLock<Small, u32>, small: Small, loan: Loan<Small, u32>, more: u32) -> u32
    requires { (small.value ≤ lock.now.key) × (lock.now.key ≡ 1000000) × (loan ≡ lock.now.id) }
{
    let found = small.into_value();
    let value = found.saturating_add(more).min(1_000_000);
    lock.put_back(Small { value }, loan);
    found
}

// Adds 1 so often. Each third time it doesn't sleep while it waits.
fn add_ones<R: Wait>(rt: &R, lock: &KeyedLock<Small, u32>, times: u32)
    requires { lock.now.key ≡ 1000000 }
{
    for k in 0..times {
        let (small, loan) = if k % 3 == 0 {
            take_awake(rt, lock)
        } else {
            lock.take(rt)
        };
        add(lock, small, loan, 1);
    }
}

#[test]
fn threads_take_turns(rt: HostRuntime) -> Result<(), Fail> {
    let lock = locked(rt.alloc(), 0, 1_000_000)?;
    join(
        &rt,
        || add_ones(&rt, &lock, 20_000),
        || -> ((), ())
            requires { lock.key ≡ 1000000 }
        {
            join(
                &rt,
                || add_ones(&rt, &lock, 20_000),
                || add_ones(&rt, &lock, 20_000),
            )
        },
    );
    let last = lock.into_inner().map(Small::into_value);
    assert_eq!(rt; last, Some(60_000));
    Ok(())
}

// Holds the lock for so long that others come and sleep, and then adds 1.
fn hold_for_long<R: Wait + Clock>(rt: &R, lock: &KeyedLock<Small, u32>) -> u32
    requires { lock.now.key ≡ 1000000 }
{
    let (small, loan) = lock.take(rt);
    thread::sleep(rt, Duration::from_millis(100));
    add(lock, small, loan, 1)
}

// Comes once the lock is held, and adds 10. Whether it slept while it waited some 80 ms: it used the processor for less than 10.
fn come_later<R: Wait + Clock + CpuClock>(rt: &R, lock: &KeyedLock<Small, u32>) -> bool
    requires { lock.now.key ≡ 1000000 }
{
    thread::sleep(rt, Duration::from_millis(20));
    let before = processor_time(rt);
    let (small, loan) = lock.take(rt);
    let after = processor_time(rt);
    add(lock, small, loan, 10);
    after < before + 10
}

// How many milliseconds this thread has used the processor.
fn processor_time<R: CpuClock>(rt: &R) -> u64
    ensures { result < 2 ^ 63 }
{
    match rt.thread_cpu_time() {
        Ok(time) => time.as_secs().min(1 << 32) * 1000 + time.subsec_millis() as u64,
        Err(_) => 0,
    }
}

#[test]
fn each_of_two_that_sleep_is_woken(rt: HostRuntime) -> Result<(), Fail> {
    let lock = locked(rt.alloc(), 0, 1_000_000)?;
    let (_, slept) = join(
        &rt,
        || hold_for_long(&rt, &lock),
        || -> (bool, bool)
            requires { lock.key ≡ 1000000 }
        { join(&rt, || come_later(&rt, &lock), || come_later(&rt, &lock)) },
    );
    let last = lock.into_inner().map(Small::into_value);
    assert_eq!(rt; (last, slept), (Some(21), (true, true)));
    Ok(())
}
