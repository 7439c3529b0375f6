//! The entries of a table of shared frames.
ghost use Rattle.std.specs.Prelude.{◌≡◌, ℕ, ◌+◌, ◌<◌, ◌^◌, ◌↔◌, List, Option, Some, None, length, replicate, slice_set};
ghost use Rattle.std.specs.Prelude.{IfOk, OnErr, IfSome, IfNone, IsSome, IsTrue};
ghost use Rattle.frames.specs.Frames.{FrameIs, SharedIs};
ghost use Rattle.sharetab.specs.Entries.{entry_at, count_at, entry_count, ticket_count, HasBytes, AllFit};
ghost use Rattle.sharetab.specs.Books.{Joins, Leaves};

use crate::entry::Entry;
use frames::{SharePage, ShareTicket};
use std::alloc::{AllocError, Global};
use std::marker::Model;

/// A place for each frame number, with the entry of that frame where it is shared. In clauses it is the list of the places.
pub struct Entries {
    places: Vec<Option<Entry>>,
    shared: u32,
    tickets: u64,
}

impl Model for Entries {
    ghost use Rattle.std.specs.Prelude.{List, Option};
    ghost use Rattle.frames.specs.Frames.{SharedIs};
    ghost use Rattle.sharetab.specs.Entries.{AreCounted};

    ghost Value = { List (Option SharedIs) };

    ghost view = { λ e. e.places.items };

    ghost invariant = { λ e. AreCounted e.places.items e.shared e.tickets };
}

impl Entries {
    /// Vacant places of the numbers 0 to `frames - 1`. `AllocError` where there is no memory for them.
    #[tactic(auto, using(crate::proofs::Tables::none_counted))]
    pub fn new(alloc: Global, frames: u32) -> Result<Entries, AllocError>
        ensures { IfOk result (λ entries. entries ≡ replicate frames None) }
    {
        let mut places = Vec::with_capacity(alloc, frames as usize)?;
        for _number in 0..frames {
            places.push_reserved(None);
        }
        Ok(Entries {
            places,
            shared: 0,
            tickets: 0,
        })
    }

    /// A law of the type: each entry is that of its place's number, and a ticket of it is out.
    pub fn all_fit(&self)
        ensures { AllFit self.now }
    {
        // The law follows from the invariant, which is known once the value is read.
        let _places = &self.places;
    }

    /// Whether a number has a place, which is vacant.
    pub fn is_vacant(&self, number: u32) -> bool
        ensures { IsTrue result ↔ ((number < length self.now) × (entry_at self.now number ≡ None)) }
    {
        match self.places.get(number as usize) {
            Some(place) => place.is_none(),
            None => false,
        }
    }

    /// How many tickets of a number are out.
    pub fn tickets_of(&self, number: u32) -> u64
        ensures { result ≡ count_at self.now number }
    {
        match self.places.get(number as usize) {
            Some(Some(entry)) => entry.tickets(),
            Some(None) => 0,
            None => 0,
        }
    }

    /// How many entries there are.
    pub fn shared(&self) -> u32
        ensures { result ≡ entry_count self.now }
    {
        self.shared
    }

    /// How many tickets of all entries are out.
    pub fn tickets(&self) -> u64
        ensures { result ≡ ticket_count self.now }
    {
        self.tickets
    }

    /// Puts an entry, of which one ticket is out, at its vacant place.
    #[tactic(auto, using(crate::proofs::Tables::put_keeps, crate::proofs::Tables::vacant_room))]
    pub fn put(&mut self, entry: Entry)
        requires there { entry.number < length self.old }
        requires vacant { entry_at self.old entry.number ≡ None }
        requires first { entry.tickets ≡ 1 }
        requires room { ticket_count self.old + 1 < 2 ^ 64 }
        ensures { self.new ≡ slice_set self.old entry.number (Some entry) }
    {
        self.shared += 1;
        self.tickets += 1;
        let place = entry.number() as usize;
        match self.places[place].replace(entry) {
            None => {}
            Some(_other) => unreachable!(),
        }
    }

    /// One more ticket of the entry at a place, with the page to read, exactly where the bytes are the entry's.
    #[tactic(auto, using(crate::proofs::Tables::recounted))]
    pub fn join(
        &mut self,
        place: u32,
        bytes: &[u8],
    ) -> Result<Option<(SharePage, ShareTicket)>, AllocError>
        requires { IsSome (entry_at self.old place) }
        ensures equal { IfOk result (λ answer. IfSome answer (λ _. HasBytes bytes.now (entry_at self.old place))) }
        ensures page { IfOk result (λ answer. IfSome answer (λ joined. joined.0 ≡ record { number = place; bytes = bytes.now })) }
        ensures ticket { IfOk result (λ answer. IfSome answer (λ joined. joined.1 ≡ place)) }
        ensures counted { IfOk result (λ answer. IfSome answer (λ _. Joins self.old place self.new)) }
        ensures other { IfOk result (λ answer. IfNone answer (HasBytes bytes.now (entry_at self.old place) → ⊥)) }
        ensures stays { IfOk result (λ answer. IfNone answer (self.new ≡ self.old)) }
        ensures err { OnErr result (self.new ≡ self.old) }
    {
        let Some(tickets) = self.tickets.checked_add(1) else {
            return Err(AllocError);
        };
        let joined = match &mut self.places[place as usize] {
            Some(entry) => entry.join(bytes)?,
            None => unreachable!(),
        };
        if joined.is_some() {
            self.tickets = tickets;
        }
        Ok(joined)
    }

    /// Takes a ticket back. The entry, at its last ticket: its place is vacant from then on.
    pub fn leave(&mut self, ticket: ShareTicket) -> Option<Entry>
        requires { 0 < count_at self.old ticket }
        ensures left { Leaves self.old ticket self.new }
        ensures last { IfSome result (λ last. entry_at self.old ticket ≡ Some (record last { tickets = 1 })) }
        ensures none_out { IfSome result (λ last. last.tickets ≡ 0) }
        ensures more { IfNone result (1 < count_at self.old ticket) }
    {
        let place = ticket.number() as usize;
        self.tickets -= 1;
        let last = match &mut self.places[place] {
            Some(entry) => {
                entry.leave(ticket);
                entry.tickets() == 0
            }
            None => unreachable!(),
        };
        if !last {
            return None;
        }
        self.shared -= 1;
        self.places[place].take()
    }

    /// Gives the entries up with their frames, whether or not tickets are out.
    pub fn close(self) {
        let Entries {
            mut places,
            shared: _,
            tickets: _,
        } = self;
        while let Some(place) = places.pop() {
            match place {
                Some(entry) => entry.close(),
                None => {}
            }
        }
        places.destroy_empty();
    }
}
