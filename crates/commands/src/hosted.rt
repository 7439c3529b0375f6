//! A guest in a world of its own.
ghost use Rattle.std.specs.Prelude.{◌≡◌, ◌+◌, ◌≤◌, ◌<◌, ◌↔◌, [], None, Some, length, IfErr, IfOk, IfSome, OnErr, OnOk, IsErrOf};
ghost use Rattle.elf32.specs.Images.{FitsPages};
ghost use Rattle.items.specs.declared.item.What.TheVariants.{In};
ghost use Rattle.machine.specs.Step.{step};
ghost use Rattle.machine.specs.Boot.{boot_machine};
ghost use Rattle.machine.specs.Items.{after};
ghost use Rattle.guest_log.specs.Logs.{IsFull};
ghost use Rattle.guest_log.specs.declared.stop.Stop.{Stop};
ghost use Rattle.guest_pages.specs.Holdings.{private_pages};
ghost use Rattle.world.specs.Events.{IsForRoom};
ghost use Rattle.world.specs.declared.running.RunStop.TheVariants as why;
ghost use Rattle.commands.specs.Hosted.{first_pages, hosted_of, IsAlone, IsLacking};
ghost use Rattle.commands.specs.Raw.{IsPageCount};
ghost use Rattle.commands.specs.Runs.{MayStop};
ghost use Rattle.machine.specs.Replies.{bytes_at};
ghost use Rattle.runs.specs.Coverage.{covered, no_coverage};
ghost use Rattle.runs.specs.Runs.{after_steps};

use elf32::Image;
use guest::{Log, Refused, Stop};
use items::{Item, SeatNo, What};
use machine::{Ppn, StepOut};
use mips_cp0::Profile;
use mips_step::View;
use page_moves::SupplyError;
use runs::{NoPlace, Runnable};
use std::alloc::{AllocError, Global};
use std::marker::Model;
use std::sync::Arc;
use swapstore::MemStore;
use taxpolicy::DEFAULT_MINIMUM;
use world::{Config, End, NewGuest, Ran, RunStop, World};

/// The greatest number of runs of a guest's log.
const LOG_RUNS: u32 = 1 << 20;

/// A guest in a world of its own, which has more frames than the guest has pages: so a page that a step needs always gets one,
/// and none ever leaves its frame for another. In clauses it is a record, `HostedIs`.
pub struct HostedGuest {
    world: World<MemStore>,
    alloc: Global,
}

impl Model for HostedGuest {
    ghost use Rattle.commands.specs.Hosted.{HostedIs, hosted_of, IsAlone};

    ghost Value = { HostedIs };

    ghost view = { λ h. hosted_of h.world.tenants };

    ghost invariant = { λ h. IsAlone h.world };
}

impl Drop for HostedGuest {
    fn drop(self) {
        let HostedGuest { world, alloc: _ } = self;
        drop(world.close());
    }
}

impl HostedGuest {
    /// A guest of a profile as its image boots, with a memory of `pages` pages, 2 to the most of the profile, which hold the image.
    /// An error says that a request for memory was refused.
    pub fn boot(
        alloc: Global,
        profile: Profile,
        image: Image,
        pages: u32,
    ) -> Result<HostedGuest, AllocError>
        requires fits { FitsPages image pages }
        requires legal { IsPageCount profile pages }
        ensures machine { IfOk result (λ r. r.machine ≡ boot_machine profile image pages) }
        ensures log { IfOk result (λ r. r.log.items ≡ []) }
        ensures limit { IfOk result (λ r. r.log.limit ≡ 1048576) }
    {
        let image = Arc::new(alloc, image)?;
        HostedGuest::boot_shared(alloc, profile, image, pages)
    }

    /// A guest of a profile as an image boots that others boot from too, with a memory of `pages` pages, 2 to the most of the profile, which
    /// hold the image: nothing of it is copied but what these pages take. An error says that a request for memory was refused.
    pub fn boot_shared(
        alloc: Global,
        profile: Profile,
        image: Arc<Image, Global>,
        pages: u32,
    ) -> Result<HostedGuest, AllocError>
        requires fits { FitsPages image.value pages }
        requires legal { IsPageCount profile pages }
        ensures machine { IfOk result (λ r. r.machine ≡ boot_machine profile image.value pages) }
        ensures log { IfOk result (λ r. r.log.items ≡ []) }
        ensures limit { IfOk result (λ r. r.log.limit ≡ 1048576) }
    {
        let world = boot_world(alloc, profile, image, pages)?;
        Ok(HostedGuest { world, alloc })
    }

    /// The log of what happened.
    pub fn log(&self) -> &Log
        ensures { result.now ≡ self.now.log }
    {
        self.world.guest(0).guest().log()
    }
}

/// A guest stops where its log is full, or where a request for memory was refused.
impl Runnable for HostedGuest {
    ghost use Rattle.commands.specs.Runs.{MayStop};

    ghost state = { λ h. h.machine };

    ghost may_stop = { λ h stop. MayStop h.log stop };

    type Kept = ();

    ghost kept = { λ h. tt };

    // It keeps none.
    ghost coverage = { λ h. no_coverage };

    #[tactic(auto, using(runs::proofs::Covered::uncovered))]
    fn steps(&mut self, count: u32) -> (u32, Option<Stop>)
        ensures few { result.0 ≤ count }
        ensures all { result.1 ≡ None → result.0 ≡ count }
        ensures fewer { IfSome result.1 (λ stop. result.0 < count) }
        ensures state { self.new.machine ≡ after_steps result.0 self.old.machine }
        ensures covered { no_coverage ≡ covered result.0 self.old.machine no_coverage }
        ensures reason { IfSome result.1 (MayStop self.new.log) }
        ensures full { IfSome result.1 (λ stop. (stop ≡ Stop.LogFull) ↔ IsFull self.new.log) }
    {
        make_steps(self.alloc, &mut self.world, count)
    }

    fn feed(&mut self, byte: u8) -> Result<(), Stop>
        requires { length self.old.machine.board.devices.console.input < 256 }
        ensures fed { OnOk result (self.new.machine ≡ after (In byte) self.old.machine) }
        ensures stopped { OnErr result (self.new.machine ≡ self.old.machine) }
        ensures reason { IfErr result (MayStop self.new.log) }
        ensures full { IsErrOf result Stop.LogFull ↔ IsFull self.old.log }
    {
        take_byte(&mut self.world, byte)
    }

    fn view(&self) -> View<'_> {
        self.world.is_sound();
        self.world.guest(0).guest().view()
    }

    fn read(&self, address: u32, bytes: &mut [u8]) -> Result<(), NoPlace> {
        read_bytes(&self.world, address, bytes)
    }
}

/// A world of one guest of a profile as its image boots.
#[tactic(auto, using(crate::proofs::Limits::most_few))]
fn boot_world(
    alloc: Global,
    profile: Profile,
    image: Arc<Image, Global>,
    pages: u32,
) -> Result<World<MemStore>, AllocError>
    requires fits { FitsPages image.value pages }
    requires legal { IsPageCount profile pages }
    ensures alone { IfOk result IsAlone }
    ensures machine { IfOk result (λ w. (hosted_of w.tenants).machine ≡ boot_machine profile image.value pages) }
    ensures log { IfOk result (λ w. (hosted_of w.tenants).log.items ≡ []) }
    ensures limit { IfOk result (λ w. (hosted_of w.tenants).log.limit ≡ 1048576) }
{
    let guest = NewGuest {
        profile,
        image,
        pages,
        shares: 1,
        minimum: DEFAULT_MINIMUM,
    };
    let guests = Vec::from_array(alloc, [guest])?;
    let store = MemStore::new(alloc, 0)?;
    let config = Config {
        frames: (pages + 1).max(4),
        log_runs: LOG_RUNS,
        admit: false,
    };
    match World::boot(alloc, config, guests, store) {
        Ok(world) => {
            world.is_sound();
            Ok(world)
        }
        Err((_, store)) => {
            drop(store);
            Err(AllocError)
        }
    }
}

/// A page that is lacking gets a frame of its own. An error says that a request for memory was refused, and nothing has moved then.
fn supply(alloc: Global, world: &mut World<MemStore>, page: Ppn) -> Result<(), AllocError>
    requires alone { IsAlone world.old }
    requires lacking { IsLacking world.old.tenants page }
    ensures alone { IsAlone world.new }
    ensures same { hosted_of world.new.tenants ≡ hosted_of world.old.tenants }
    ensures count { length (first_pages world.new.tenants) ≡ length (first_pages world.old.tenants) }
    ensures one_more { OnOk result (private_pages (first_pages world.new.tenants) ≡ private_pages (first_pages world.old.tenants) + 1) }
{
    world.is_sound();
    world.shared_frames_are_named();
    match world.supply(alloc, 0, page) {
        Ok(()) => Ok(()),
        Err(SupplyError::Memory) => Err(AllocError),
        Err(SupplyError::NoFrame) => unreachable!(),
        Err(SupplyError::SwapRead) => unreachable!(),
        Err(SupplyError::SwapDamaged) => unreachable!(),
    }
}

/// Makes a step of which one page is lacking: that page, and each further one that it needs, gets a frame of its own.
///
/// It answers `LogFull` exactly where the log is full, and `Memory` only where a request for memory was refused; no step is made then.
fn step_supplied(alloc: Global, world: &mut World<MemStore>, page: Ppn) -> Result<(), Stop>
    requires alone { IsAlone world.old }
    requires lacking { IsLacking world.old.tenants page }
    requires room { IsFull (hosted_of world.old.tenants).log → ⊥ }
    ensures alone { IsAlone world.new }
    ensures made { OnOk result ((hosted_of world.new.tenants).machine ≡ step (hosted_of world.old.tenants).machine) }
    ensures stopped { OnErr result ((hosted_of world.new.tenants).machine ≡ (hosted_of world.old.tenants).machine) }
    ensures full { IfErr result (λ stop. (stop ≡ Stop.LogFull) ↔ IsFull (hosted_of world.new.tenants).log) }
{
    let mut needed = page;
    loop {
        let Ok(()) = supply(alloc, world, needed) else {
            return Err(Stop::Memory);
        };
        world.is_sound();
        match world.step(0)? {
            StepOut::Done => return Ok(()),
            StepOut::Need(next, _) => needed = next,
        }
    }
}

/// Reads bytes of the guest as a debugger does. No page of it is in a slot, since there is none.
fn read_bytes(world: &World<MemStore>, address: u32, bytes: &mut [u8]) -> Result<(), NoPlace>
    requires { IsAlone world.now }
    ensures read { OnOk result (bytes_at (hosted_of world.now.tenants).machine address (length bytes.old) ≡ Some bytes.new) }
    ensures no_place { OnErr result (bytes_at (hosted_of world.now.tenants).machine address (length bytes.old) ≡ None) }
    ensures length { length bytes.new ≡ length bytes.old }
{
    world.is_sound();
    match world.guest(0).guest().debug_read(address, bytes) {
        Ok(()) => Ok(()),
        Err(Refused::Machine) => Err(NoPlace),
        Err(Refused::Away(_)) => unreachable!(),
        Err(Refused::Stop(_)) => unreachable!(),
    }
}

/// Why a run for which no page is supplied stops.
fn stop_of(stop: RunStop) -> Stop
    requires { IsForRoom stop }
    ensures { (result ≡ Stop.LogFull) ↔ (stop ≡ why.LogFull) }
{
    match stop {
        RunStop::LogFull => Stop::LogFull,
        RunStop::Memory => Stop::Memory,
        RunStop::NoFrame | RunStop::NoSwap | RunStop::SwapRead | RunStop::SwapDamaged =>
            unreachable!(),
    }
}

/// Makes `count` steps, or fewer where the log is full or a request for memory was refused: how many, and why no more.
fn make_steps(alloc: Global, world: &mut World<MemStore>, count: u32) -> (u32, Option<Stop>)
    requires { IsAlone world.old }
    ensures alone { IsAlone world.new }
    ensures few { result.0 ≤ count }
    ensures all { result.1 ≡ None → result.0 ≡ count }
    ensures fewer { IfSome result.1 (λ stop. result.0 < count) }
    ensures state { (hosted_of world.new.tenants).machine ≡ after_steps result.0 (hosted_of world.old.tenants).machine }
    ensures full { IfSome result.1 (λ stop. (stop ≡ Stop.LogFull) ↔ IsFull (hosted_of world.new.tenants).log) }
{
    let mut made: u32 = 0;
    while made < count {
        let Ran { steps, end } = world.steps(0, count - made);
        made += steps;
        match end {
            End::Done => return (made, None),
            End::Stop(stop) => return (made, Some(stop_of(stop))),
            End::Need(page, _) => {
                world.is_sound();
                if let Err(stop) = step_supplied(alloc, world, page) {
                    return (made, Some(stop));
                }
                made += 1;
            }
        }
    }
    (made, None)
}

/// The console takes a byte of input, for which it has room, or the guest says why it stops.
fn take_byte(world: &mut World<MemStore>, byte: u8) -> Result<(), Stop>
    requires alone { IsAlone world.old }
    requires room { length (hosted_of world.old.tenants).machine.board.devices.console.input < 256 }
    ensures alone { IsAlone world.new }
    ensures fed { OnOk result ((hosted_of world.new.tenants).machine ≡ after (In byte) (hosted_of world.old.tenants).machine) }
    ensures stopped { OnErr result ((hosted_of world.new.tenants).machine ≡ (hosted_of world.old.tenants).machine) }
    ensures reason { IfErr result (MayStop (hosted_of world.new.tenants).log) }
    ensures full { IsErrOf result Stop.LogFull ↔ IsFull (hosted_of world.old.tenants).log }
{
    let item = Item {
        seat: SeatNo::runner(),
        what: What::In(byte),
    };
    match world.input(0, item) {
        Ok(reply) => {
            drop(reply);
            Ok(())
        }
        Err(Refused::Machine) => unreachable!(),
        Err(Refused::Away(_)) => unreachable!(),
        Err(Refused::Stop(stop)) => Err(stop),
    }
}
