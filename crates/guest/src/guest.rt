//! A guest.
ghost use Rattle.std.specs.Prelude.{◌≡◌};

use crate::loading::load_page;
use crate::placed::pages_reached;
use crate::step::{input_pages, need_pages, read_pages, run_pages, step_pages, whole};
use crate::{Head, Log, Progress, Refused, Seat, Stepped, Stop};
use elf32::Image;
use guest_bus::{GuestBus, InputError};
use items::Item;
use machine::{Ppn, Reply, Why};
use mips_cp0::Profile;
use mips_fast::RunCache;
use mips_step::{Cpu, Unreached, View};
use owned_log::OwnedLog;
use std::alloc::{AllocError, Global};
use std::marker::Model;
use std::sync::Arc;
use taxpolicy::SAMPLE_SIZE;

/// A guest whose memory is pages, each of which is in a frame, in a slot of the swap store, or nowhere yet. In clauses it is a
/// record, `GuestIs`: its processor, its pages and devices, the machine that its image boots, its log, the log's head, and how
/// many seats it has.
///
/// Its view is the machine that runs the log's items alone, on a plain memory, from the boot (`view_of`). While the guest is
/// `Intact`, its processor, its devices and its pages are the view's, a page in a slot by its SHA-256.
pub struct Guest {
    pub(crate) cpu: Cpu,
    pub(crate) bus: GuestBus,
    /// What a run of many steps keeps, for `mips_fast`. No clause speaks of it: it holds nothing between runs.
    pub(crate) cache: RunCache,
    /// What the guest has booted, by which profile of the processor and with how many pages: the view begins there.
    pub(crate) profile: Profile,
    pub(crate) image: Arc<Image, Global>,
    pub(crate) pages: u32,
    pub(crate) owned_log: OwnedLog,
}

impl Model for Guest {
    ghost use Rattle.machine.specs.Boot.{boot_machine};
    ghost use Rattle.guest_bus.specs.Buses.{IsSettled};
    ghost use Rattle.guest.specs.Guests.{GuestIs, guest_of};

    ghost Value = { GuestIs };

    ghost view = { λ g. guest_of g.cpu g.bus (boot_machine g.profile g.image.value g.pages) g.owned_log };

    ghost invariant = { λ g. IsSettled g.bus };
}

impl Guest {
    ghost use Rattle.std.specs.Prelude.{◌≡◌, ◌≢◌, ◌+◌, ◌<◌, ◌≤◌, ◌^◌, ◌⊎◌, ℕ, true, false, List, [], OnOk, OnErr, IsErrOf, ◌↔◌, IfOk, IfSome, IfNone, IsNone, None, Some, Option};
    ghost use Rattle.std.specs.Prelude.{length, replicate, slice_set};
    ghost use Rattle.elf32.specs.Images.{FitsPages};
    ghost use Rattle.items.specs.Items.{is_step};
    ghost use Rattle.items.specs.Entries.{steps_of};
    ghost use Rattle.items.specs.declared.item.What.TheVariants.{Step};
    ghost use Rattle.devices.specs.Devices.{fresh_devices};
    ghost use Rattle.mips_tlb.specs.declared.kind.Kind.TheVariants.{Store};
    ghost use Rattle.machine.specs.Step.{step};
    ghost use Rattle.machine.specs.Board.{page_bytes};
    ghost use Rattle.machine.specs.Given.{step_given};
    ghost use Rattle.machine.specs.Accesses.{accesses, first_lack};
    ghost use Rattle.machine.specs.Answers.{replied};
    ghost use Rattle.machine.specs.Boot.{boot_machine, boot_memory};
    ghost use Rattle.machine.specs.Items.{accepts, after, reply, run};
    ghost use Rattle.machine.specs.Replies.{bytes_at, SomePlaceIn};
    ghost use Rattle.guest_log.specs.Logs.{HasRoom, IsFull, TakesRoom};
    ghost use Rattle.guest_log.specs.declared.stop.Stop.{Stop};
    ghost use Rattle.log_seats.specs.Legal.{Legal};
    ghost use Rattle.guest_pages.specs.declared.page.Page.{Page};
    ghost use Rattle.guest_pages.specs.declared.page.PageKind.{PageKind};
    ghost use Rattle.guest_pages.specs.Pages.{page_at, kind_at, is_resident, NoneInFrame, own_frame};
    ghost use Rattle.guest_pages.specs.Holdings.{private_pages, shared_pages, swapped_pages, resident_pages};
    ghost use Rattle.guest_pages.specs.Outline.{outline};
    ghost use Rattle.page_moves.specs.Faith.{Kept};
    ghost use Rattle.guest_bus.specs.Lacking.{lacks_in};
    ghost use Rattle.guest_bus.specs.Writes.{WritesTo};
    ghost use Rattle.machine.specs.declared.access.Why.{Why};
    ghost use Rattle.guest_pages.specs.declared.page.Returned.{Returned};
    ghost use Rattle.guest.specs.Guests.{GuestIs, view_of, standing, Intact, IsSized, need_of, without_pages};
    ghost use Rattle.guest.specs.Guests.{HandsBack, last_given, HasPaused, Logs, LogsSteps, LogsOnly};
    ghost use Rattle.guest.specs.declared.progress.Pause.{Pause};
    ghost use Rattle.guest.specs.Views.{pages_seen};

    /// A guest of a profile, with a memory of `pages` pages, at most 2^20, which hold the image, and a log of at most `log_runs` runs. No page
    /// was ever touched: before the first step each page that the image reaches (`reaches`) is to be supplied and loaded
    /// (`load_page`), and then the guest is intact. Guests of one image may share it.
    pub fn boot(
        alloc: Global,
        profile: Profile,
        image: Arc<Image, Global>,
        pages: u32,
        log_runs: u32,
    ) -> Result<Guest, AllocError>
        requires fits { FitsPages image.value pages }
        requires few { pages ≤ 2 ^ 20 }
        ensures cpu { IfOk result (λ g. g.cpu ≡ g.boot.cpu) }
        ensures bus { IfOk result (λ g. g.bus ≡ record { pages = replicate pages Page.Zero; devices = fresh_devices pages; waiting = None }) }
        ensures boot { IfOk result (λ g. g.boot ≡ boot_machine profile image.value pages) }
        ensures log { IfOk result (λ g. g.log.items ≡ []) }
        ensures limit { IfOk result (λ g. g.log.limit ≡ log_runs) }
        ensures seats { IfOk result (λ g. g.seats ≡ 0) }
    {
        let owned_log = OwnedLog::new(alloc, log_runs)?;
        let cache = RunCache::new(alloc)?;
        Ok(Guest {
            cpu: Cpu::boot(profile, image.entry),
            bus: GuestBus::new(alloc, pages)?,
            cache,
            profile,
            image,
            pages,
            owned_log,
        })
    }

    /// Puts the bytes that a page has as the image boots into the frame that the page has for its own. All else of the guest
    /// stays.
    pub fn load_page(&mut self, image: &Image, p: Ppn)
        requires fits { FitsPages image.now (length self.old.bus.pages) }
        requires there { p < length self.old.bus.pages }
        requires private { kind_at self.old.bus.pages p ≡ PageKind.Private }
        ensures pages { self.new.bus.pages ≡ slice_set self.old.bus.pages p (Page.Private (record {
          number = (own_frame (page_at self.old.bus.pages p)).number;
          bytes = page_bytes p (boot_memory image.now (length self.old.bus.pages));
        })) }
        ensures rest { without_pages self.new ≡ without_pages self.old }
    {
        load_page(&mut self.bus, image, p);
    }

    /// The next seat of the guest, which has seen and made nothing. The seats' numbers rise from 0, and a guest has at most four.
    pub fn seat(&mut self) -> Seat
        requires { self.old.seats < 4 }
        ensures guest { self.new ≡ record self.old { seats = self.old.seats + 1 } }
        ensures seat { result ≡ record { head = self.old.head; number = self.old.seats; saw = []; made = [] } }
    {
        self.owned_log.seat()
    }

    /// How many seats it has, at most four.
    pub fn seats(&self) -> u8
        ensures { result ≡ self.now.seats }
    {
        self.owned_log.seats()
    }

    /// The head of the log, for those who look at it without the guest. `AllocError` where no further owner can be counted.
    pub fn head(&self) -> Result<Arc<Head, Global>, AllocError>
        ensures { IfOk result (λ head. head.value ≡ self.now.head) }
    {
        self.owned_log.head()
    }

    /// What is seen of the machine beside its memory.
    pub fn view(&self) -> View<'_>
        ensures cpu { result.cpu.now ≡ self.now.cpu }
        ensures devices { result.devices.now ≡ self.now.bus.devices }
    {
        View {
            cpu: &self.cpu,
            devices: self.bus.devices(),
        }
    }

    /// The log of what happened.
    pub fn log(&self) -> &Log
        ensures { result.now ≡ self.now.log }
    {
        self.owned_log.log()
    }

    /// Makes room in the log for one more step. All else stays, and the room becomes at most that for as many more runs as there
    /// are, and 16.
    ///
    /// It answers `LogFull` exactly where the log has its greatest number of runs or 2^62 items, and `Memory` only where a
    /// request for memory was refused.
    pub fn log_room(&mut self) -> Result<(), Stop>
        ensures room { OnOk result (HasRoom self.new.log) }
        ensures full { IsErrOf result Stop.LogFull ↔ IsFull self.old.log }
        ensures taken { TakesRoom self.old.log self.new.log }
        ensures unchanged { LogsOnly self.old self.new }
        ensures intact { Intact self.old → Intact self.new }
        ensures kept { (held : ℕ → Option (List ℕ)) →
            Kept held (pages_seen (view_of self.old)) self.old.bus.pages → Kept held (pages_seen (view_of self.new)) self.new.bus.pages }
    {
        self.owned_log.make_room()
    }

    /// Shows every seat that looks from now on the whole log: what `step` added other seats may not see before. It is called
    /// before anything that another seat must see.
    #[inline]
    pub fn publish(&mut self)
        ensures { self.new ≡ self.old }
    {
        self.owned_log.publish();
    }

    /// Shows the seat the whole log, for which it is legal.
    pub fn settle(&mut self, seat: &mut Seat)
        requires { seat.old.head ≡ self.old.head }
        ensures guest { self.new ≡ self.old }
        ensures seat { seat.new ≡ record seat.old { saw = self.old.log.items } }
        ensures legal { Legal self.old.log.items seat.old.number seat.old.saw seat.old.made }
    {
        self.owned_log.settle(seat);
    }

    /// How many pages it has, at most 2^20.
    pub fn page_count(&self) -> u32
        ensures value { result ≡ length self.now.bus.pages }
        ensures small { result ≤ 2 ^ 20 }
    {
        self.bus.pages()
    }

    /// How many of its pages are in frames of their own.
    pub fn private(&self) -> u32
        ensures { result ≡ private_pages self.now.bus.pages }
    {
        self.bus.private()
    }

    /// How many of its pages are in shared frames.
    pub fn shared(&self) -> u32
        ensures { result ≡ shared_pages self.now.bus.pages }
    {
        self.bus.shared()
    }

    /// How many of its pages are in slots of the swap store.
    pub fn swapped(&self) -> u32
        ensures { result ≡ swapped_pages self.now.bus.pages }
    {
        self.bus.swapped()
    }

    /// How many of its pages are in a frame, their own or a shared one.
    pub fn resident(&self) -> u32
        ensures value { result ≡ resident_pages self.now.bus.pages }
        ensures within { result ≤ length self.now.bus.pages }
    {
        self.bus.resident()
    }

    /// The first of its pages from a number on that is in a frame, its own or a shared one; None where there is none. It costs what
    /// `GuestPages::next_resident` does.
    pub fn next_resident(&self, from: u32) -> Option<Ppn>
        ensures within { IfSome result (λ p. (from ≤ p) × (p < length self.now.bus.pages)) }
        ensures resident { IfSome result (λ p. is_resident (kind_at self.now.bus.pages p) ≡ true) }
        ensures first { IfSome result (λ p. NoneInFrame self.now.bus.pages from p) }
        ensures none { IfNone result (NoneInFrame self.now.bus.pages from (length self.now.bus.pages)) }
    {
        self.bus.next_resident(from)
    }

    /// Whether the page of this number was accessed since it was last drawn for a sample, if it ever was: by a fetch, a load or a store
    /// of a step, or by a debugger's write. It is about the page of this number, whatever becomes of it.
    pub fn is_touched(&self, page: u32) -> bool {
        self.bus.is_touched(page)
    }

    /// How many of these draws are of a page that was accessed since it was last drawn, as `is_touched` has it; a page that was drawn
    /// twice counts twice.
    pub fn touched(&self, draws: &[u32; SAMPLE_SIZE]) -> u16
        ensures { result ≤ 100 }
    {
        self.bus.touched(draws)
    }

    /// From now on none of the pages that were drawn counts as accessed, until it is again. The guest doesn't notice.
    pub fn clear_touched(&mut self, draws: &[u32; SAMPLE_SIZE])
        ensures { self.new ≡ self.old }
    {
        self.bus.clear_touched(draws);
    }

    /// The `Need` that `step` would answer. The page is one of the guest's.
    pub fn need(&self) -> Option<(Ppn, Why)>
        ensures need { Intact self.now → result ≡ first_lack (lacks_in self.now.bus.pages) (accesses (view_of self.now)) }
        ensures there { IfSome result (λ needed. needed.0 < length self.now.bus.pages) }
    {
        need_pages(&self.cpu, &self.bus)
    }

    /// One step, as an item of the seat. It takes no memory; room in the log is the caller's condition, and `log_room` makes
    /// it.
    ///
    /// It answers `Need` exactly where the view's step would access a page that was never touched or was given (`First`), that
    /// is in a slot (`Swapped`), or that is shared and would be stored to (`Copy`), the fetch's page first, and then nothing has
    /// changed. Else it answers `Done`: the view has moved by one step, and the log has that step more; the seat has made it and
    /// has seen the whole log, for which it is legal. Other seats may not see the step before `publish`. Where the step gave a
    /// page to the balloon, what that page was in comes back.
    #[inline]
    pub fn step(&mut self, seat: &mut Seat) -> Stepped
        requires head { seat.old.head ≡ self.old.head }
        requires room { HasRoom self.old.log }
        ensures need { Intact self.old → need_of result ≡ first_lack (lacks_in self.old.bus.pages) (accesses (view_of self.old)) }
        ensures logs { need_of result ≡ None → Logs self.old seat.old (record { seat = seat.old.number; what = Step }) self.new seat.new }
        ensures moves { need_of result ≡ None → view_of self.new ≡ step (view_of self.old) }
        ensures intact { Intact self.old → Intact self.new }
        ensures kept { Intact self.old → (held : ℕ → Option (List ℕ)) →
            Kept held (pages_seen (view_of self.old)) self.old.bus.pages → Kept held (pages_seen (view_of self.new)) self.new.bus.pages }
        ensures hands_back { HandsBack (step_given (standing self.old)) self.old.bus.pages result self.new.bus.pages }
        ensures need_unchanged { need_of result ≢ None → (self.new ≡ self.old) × (seat.new ≡ seat.old) }
    {
        match step_pages(&mut self.cpu, &mut self.bus) {
            Stepped::Done(returned) => {
                self.owned_log.step(seat);
                Stepped::Done(returned)
            }
            Stepped::Need(page, why) => Stepped::Need(page, why),
        }
    }

    /// At most `count` steps, one after another, as items of the seat: what so many calls of `step` do, each with room in the log, for
    /// less. It takes no memory; room for the first step is the caller's condition, and `log_room` makes it.
    ///
    /// It pauses before a step that needs a page, as of `step`, and then that step has changed nothing; and after a step that gave a page
    /// to the balloon, where what the page was in comes back. Else as many steps are made as were wanted, or the log is full. So no step
    /// that is made accesses a page that is lacking by where the pages were, and only the last may give one, which then is the view's. The
    /// view has moved by the steps that are made, and the log has them more; the seat has made them and has seen the whole log, for
    /// which it is legal, and every seat that looks from now on may see them.
    #[inline]
    pub fn run(&mut self, count: u32, seat: &mut Seat) -> Progress
        requires head { seat.old.head ≡ self.old.head }
        requires room { HasRoom self.old.log }
        ensures few { result.steps ≤ count }
        ensures all { result.pause ≡ None → (result.steps ≡ count) ⊎ IsFull self.new.log }
        ensures some { result.pause ≡ None → 0 < count → 0 < result.steps }
        ensures gave { (returned : Returned) → result.pause ≡ Some (Pause.Gave returned) → 0 < result.steps }
        ensures need { Intact self.old → (p : ℕ) (why : Why) → result.pause ≡ Some (Pause.Need p why) →
            first_lack (lacks_in self.new.bus.pages) (accesses (view_of self.new)) ≡ Some (p, why) }
        ensures there { (p : ℕ) (why : Why) → result.pause ≡ Some (Pause.Need p why) → p < length self.old.bus.pages }
        ensures short { (p : ℕ) (why : Why) → result.pause ≡ Some (Pause.Need p why) → result.steps < count }
        ensures room { (p : ℕ) (why : Why) → result.pause ≡ Some (Pause.Need p why) → IsFull self.new.log → ⊥ }
        ensures logs { 0 < result.steps → LogsSteps self.old seat.old result.steps self.new seat.new }
        ensures moves { view_of self.new ≡ run (steps_of seat.old.number result.steps) (view_of self.old) }
        ensures intact { Intact self.old → Intact self.new }
        ensures kept { Intact self.old → (held : ℕ → Option (List ℕ)) →
            Kept held (pages_seen (view_of self.old)) self.old.bus.pages → Kept held (pages_seen (view_of self.new)) self.new.bus.pages }
        ensures quiet { Intact self.old → (k : ℕ) → k < result.steps →
            first_lack (lacks_in self.old.bus.pages) (accesses (run (steps_of seat.old.number k) (view_of self.old))) ≡ None }
        ensures gives_last { Intact self.old → (k : ℕ) → k + 1 < result.steps →
            step_given (run (steps_of seat.old.number k) (view_of self.old)) ≡ None }
        ensures paused { HasPaused (last_given seat.old.number result.steps (standing self.old)) self.old.bus.pages result.pause self.new.bus.pages }
        ensures given { Intact self.old →
            last_given seat.old.number result.steps (standing self.old) ≡ last_given seat.old.number result.steps (view_of self.old) }
        ensures unchanged { result.steps ≡ 0 → (self.new ≡ self.old) × (seat.new ≡ seat.old) }
        // What a lock that holds the guest has to know, whether or not a step was made.
        ensures boot { self.new.boot ≡ self.old.boot }
        ensures head { (self.new.head ≡ self.old.head) × (self.new.seats ≡ self.old.seats) }
        ensures limit { self.new.log.limit ≡ self.old.log.limit }
    {
        let most = self.owned_log.steps_with_room(seat, count);
        let progress = run_pages(&mut self.cpu, &mut self.bus, &mut self.cache, most);
        whole(&self.bus);
        if progress.steps > 0 {
            self.owned_log.steps(seat, progress.steps);
        }
        progress
    }

    /// What happens to the guest by an item of the seat that is no step. It makes the room that the item needs in the log
    /// itself.
    ///
    /// It answers `Machine` only where the view does not accept the item; `Away` only of a write, with a page that one of its bytes
    /// lies in and that is in no frame of its own; `Stop(LogFull)` exactly where the log has its greatest number of runs or 2^62
    /// items; `Stop(Memory)` only where a request for memory was refused. Then processor, pages, log and seat are as before. Else
    /// the view has moved by the item, and the log has it more; the seat has made it and has seen the whole log, for which it is
    /// legal, and so may every other that looks from now on. Where pages are stays in both cases.
    pub fn input(&mut self, item: Item, seat: &mut Seat) -> Result<Reply, Refused>
        requires head { seat.old.head ≡ self.old.head }
        requires seat { item.seat ≡ seat.old.number }
        requires input { is_step item.what ≡ false }
        ensures logs { OnOk result (Logs self.old seat.old item self.new seat.new) }
        ensures moves { OnOk result (view_of self.new ≡ after item.what (view_of self.old)) }
        ensures accepted { OnOk result (Intact self.old → accepts item.what (view_of self.old) ≡ true) }
        ensures reply { IfOk result (λ r. Intact self.old → replied r ≡ reply item.what (view_of self.old)) }
        ensures refused { IsErrOf result Refused.Machine → Intact self.old → accepts item.what (view_of self.old) ≡ false }
        ensures refused_as_it_stands { IsErrOf result Refused.Machine → accepts item.what (standing self.old) ≡ false }
        ensures reply_as_it_stands { IfOk result (λ r. replied r ≡ reply item.what (standing self.old)) }
        ensures away { (page : ℕ) → IsErrOf result (Refused.Away page) → lacks_in self.old.bus.pages page Store ≢ None }
        ensures its_page { (page : ℕ) → IsErrOf result (Refused.Away page) → WritesTo item.what (standing self.old) page }
        ensures full { IsErrOf result (Refused.Stop Stop.LogFull) ↔ IsFull self.old.log }
        ensures intact { Intact self.old → Intact self.new }
        ensures kept { Intact self.old → (held : ℕ → Option (List ℕ)) →
            Kept held (pages_seen (view_of self.old)) self.old.bus.pages → Kept held (pages_seen (view_of self.new)) self.new.bus.pages }
        ensures outline { outline self.new.bus.pages ≡ outline self.old.bus.pages }
        ensures unchanged { OnErr result (LogsOnly self.old self.new × TakesRoom self.old.log self.new.log) }
        ensures seat_unchanged { OnErr result (seat.new ≡ seat.old) }
        // What a lock that holds the guest has to know in each case.
        ensures boot { self.new.boot ≡ self.old.boot }
        ensures head { (self.new.head ≡ self.old.head) × (self.new.seats ≡ self.old.seats) }
        ensures limit { self.new.log.limit ≡ self.old.log.limit }
    {
        if let Err(stop) = self.owned_log.make_item_room() {
            return Err(Refused::Stop(stop));
        }
        match input_pages(&mut self.cpu, &mut self.bus, &item.what) {
            Ok(reply) => {
                self.owned_log.add(item, seat);
                Ok(reply)
            }
            Err(error) => match error {
                InputError::Machine => Err(Refused::Machine),
                InputError::Memory => Err(Refused::Stop(Stop::Memory)),
                InputError::Away(page) => Err(Refused::Away(page)),
            },
        }
    }

    /// Reads as many bytes of the view's memory as `bytes` has, from a virtual address on: byte k at that address + k modulo
    /// 2^32, as for a load of kernel mode, whatever mode runs. A page that was never touched or was given is zeros. It takes no
    /// memory, and changes nothing of the guest.
    ///
    /// It answers `Machine` exactly where one of the bytes has no place in memory, and else `Away` exactly where one of them
    /// lies in a page that is in a slot, with such a page. Then `bytes` is as before.
    pub fn debug_read(&self, address: u32, bytes: &mut [u8]) -> Result<(), Refused>
        ensures read { OnOk result (Intact self.now → bytes_at (view_of self.now) address (length bytes.old) ≡ Some bytes.new) }
        ensures refused { Intact self.now → (IsErrOf result Refused.Machine ↔ (bytes_at (view_of self.now) address (length bytes.old) ≡ None)) }
        ensures away { (page : ℕ) → IsErrOf result (Refused.Away page) → kind_at self.now.bus.pages page ≡ PageKind.Swapped }
        ensures its_page { (page : ℕ) → IsErrOf result (Refused.Away page) →
            Intact self.now → SomePlaceIn (view_of self.now) address (length bytes.old) page }
        ensures not_placed { IsErrOf result Refused.Machine ↔ (bytes_at (standing self.now) address (length bytes.old) ≡ None) }
        ensures placed_in { (page : ℕ) → IsErrOf result (Refused.Away page) → SomePlaceIn (standing self.now) address (length bytes.old) page }
        ensures never_stops { (stop : Stop) → IsErrOf result (Refused.Stop stop) → ⊥ }
        ensures unchanged { OnErr result (bytes.new ≡ bytes.old) }
    {
        match read_pages(&self.cpu, &self.bus, address, bytes) {
            Ok(()) => Ok(()),
            Err(unreached) => match unreached {
                Unreached::NoPlace => Err(Refused::Machine),
                Unreached::Away(page) => Err(Refused::Away(page)),
            },
        }
    }

    /// The pages that `count` bytes from a virtual address on lie in, by the addresses that a debugger's reads lead to: the lower
    /// number first, one page twice where they lie in one. None exactly where one of the bytes has no place in memory.
    pub fn debug_pages(&self, address: u32, count: u32) -> Option<(Ppn, Ppn)>
        requires some { 0 < count }
        requires few { count ≤ 1024 }
        ensures none { IsNone result ↔ (bytes_at (standing self.now) address count ≡ None) }
        ensures reached { IfSome result (λ pages. (page : ℕ) →
            (SomePlaceIn (standing self.now) address count page ↔ ((page ≡ pages.0) ⊎ (page ≡ pages.1)))) }
        ensures order { IfSome result (λ pages. pages.0 ≤ pages.1) }
        ensures there { IfSome result (λ pages. pages.1 < length self.now.bus.pages) }
    {
        pages_reached(&self.cpu, &self.bus, address, count)
    }

    /// Its memory as it stands has 4,096 bytes for each page. It does nothing: its clause says what every guest keeps.
    pub fn is_sized(&self)
        ensures { IsSized self.now }
    {
        whole(&self.bus);
    }

    /// Gives the guest up, and with it what its pages hold.
    pub fn close(self) {
        let Guest {
            cpu,
            bus,
            cache,
            profile: _,
            image,
            pages: _,
            owned_log,
        } = self;
        drop(cpu);
        drop(image);
        drop(cache);
        drop(owned_log);
        bus.close();
    }
}
