//! How far a run is, told on a terminal: by a clock that is set.
use command_line::progress::Progress;
use runs::Watch;
use std::io;
use std::io::Write;
use std::sync::atomic::{AtomicU64, Ordering};
use std::time::{Clock, Duration};

/// A clock that stands where it is set, in milliseconds.
#[derive(Drop)]
struct Set {
    millis: AtomicU64,
}

impl Clock for Set {
    fn monotonic(&self) -> io::Result<Duration> {
        Ok(Duration::from_millis(self.millis.load(Ordering::SeqCst)))
    }

    fn since_1970(&self) -> io::Result<Duration> {
        self.monotonic()
    }
}

/// A terminal that keeps what is written.
#[derive(Drop)]
struct Kept<'a> {
    text: &'a mut Vec<u8>,
}

impl Write for Kept<'_> {
    fn write(&mut self, bytes: &[u8]) -> io::Result<usize> {
        self.text.write(bytes)
    }

    fn flush(&mut self) -> io::Result<()> {
        Ok(())
    }
}

/// What is written where a run is told to have made so many steps at so many milliseconds after its begin, and then to be over.
fn written(rt: &HostRuntime, told: &[(u64, u32)]) -> Vec<u8> {
    let clock = Set {
        millis: AtomicU64::new(5000),
    };
    let mut text = Vec::new(rt.alloc());
    let mut watch = Progress::new(&clock, Some(Kept { text: &mut text }));
    for (after, steps) in told {
        clock
            .millis
            .store(after.saturating_add(5000), Ordering::SeqCst);
        watch.made(*steps);
    }
    watch.over();
    watch.over();
    drop(watch);
    text
}

#[test]
fn a_run_of_less_than_two_seconds_says_nothing(rt: HostRuntime) {
    let text = written(&rt, &[(0, 100), (1999, 5_000_000)]);
    assert!(&rt; text.is_empty());
}

#[test]
fn a_longer_one_tells_its_steps_and_their_rate_and_wipes_the_line(rt: HostRuntime) {
    let text = written(
        &rt,
        &[
            (1999, 10),
            (2000, 5_000_000),
            (2199, 5_500_000),
            (2200, 6_000_000),
        ],
    );
    let wanted =
        b"\r5000000 steps so far, 2500000 a second\x1b[K\r6000000 steps so far, 2727272 a second\x1b[K\r\x1b[K";
    assert_eq!(&rt; text.as_slice(), wanted.as_slice());
}

#[test]
fn without_a_terminal_nothing_is_told(rt: HostRuntime) {
    let clock = Set {
        millis: AtomicU64::new(0),
    };
    let mut watch: Progress<'_, Set, Kept<'_>> = Progress::new(&clock, None);
    clock.millis.store(9000, Ordering::SeqCst);
    watch.made(1);
    watch.over();
}
