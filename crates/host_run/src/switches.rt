//! What the threads of a run tell each other.
ghost use Rattle.std.specs.Prelude.{◌≡◌, length};

use guest_number::GuestNo;
use std::alloc::{AllocError, Global};
use std::sync::Wait;
use std::sync::atomic::{AtomicBool, AtomicU32, Ordering};
use std::thread::Parker;
use std::time::Duration;

/// What the threads of a run tell each other, by reference: whether the run ends, how each guest's last slice ended, and when to look again.
#[derive(Drop)]
pub struct Switches {
    ending: AtomicBool,
    /// For each guest 0, or the number of the stop by which its last slice ended (`host::Stop::number`).
    pub stops: Vec<AtomicU32>,
    // what each guest's runner rests on
    runners: Vec<Parker>,
    // what the sharer rests on
    sharer: Parker,
    /// There is one of each for each guest.
    pub ghost alike: { length runners.items ≡ length stops.items },
}

impl Switches {
    ghost use Rattle.std.specs.Prelude.{◌≡◌, ◌<◌, IfOk, length};

    /// Those of so many guests, none of which has stopped.
    pub fn new(alloc: Global, guests: usize) -> Result<Switches, AllocError>
        ensures { IfOk result (λ switches. length switches.stops.items ≡ guests) }
    {
        let mut stops = Vec::with_capacity(alloc, guests)?;
        let mut runners = Vec::with_capacity(alloc, guests)?;
        for _ in 0..guests {
            stops.push_reserved(AtomicU32::new(0));
            runners.push_reserved(Parker::new());
        }
        Ok(Switches {
            ending: AtomicBool::new(false),
            stops,
            runners,
            sharer: Parker::new(),
        })
    }

    /// Whether the run ends.
    pub fn is_ending(&self) -> bool {
        self.ending.load(Ordering::SeqCst)
    }

    /// The run ends: whoever rests looks again.
    pub fn end(&self) {
        self.ending.store(true, Ordering::SeqCst);
        self.wake_all();
        self.sharer.unpark();
    }

    /// How the last slice of a guest ended: 0, or the number of its stop.
    pub fn note(&self, guest: GuestNo, stop: u32)
        requires { guest < length self.now.stops.items }
    {
        self.stops[guest.index()].store(stop, Ordering::SeqCst);
    }

    /// Whether the last slice of a guest ended by a stop.
    pub fn has_stopped(&self) -> bool {
        for stop in &self.stops {
            if stop.load(Ordering::SeqCst) != 0 {
                return true;
            }
        }
        false
    }

    /// A guest's runner looks again whether the guest can go on.
    pub fn wake(&self, guest: GuestNo)
        requires { guest < length self.now.stops.items }
    {
        self.runners[guest.index()].unpark();
    }

    /// All runners look again.
    pub fn wake_all(&self) {
        for runner in &self.runners {
            runner.unpark();
        }
    }

    /// A guest's runner rests until it is woken. It is the only thread that rests here.
    pub fn rest<R: Wait>(&self, rt: &R, guest: GuestNo)
        requires { guest < length self.now.stops.items }
    {
        self.runners[guest.index()].park(rt);
    }

    /// The sharer rests so long, or until the run ends.
    pub fn pause<R: Wait>(&self, rt: &R, time: Duration) {
        self.sharer.park_timeout(rt, time);
    }
}
