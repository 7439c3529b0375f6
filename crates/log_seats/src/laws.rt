//! Laws of seats and logs.
ghost use Rattle.std.specs.Prelude.{◌≡◌, ◌≢◌, ℕ, true, List, [], ◌++◌, replicate};
ghost use mathlib.Core.List.{IsPrefix};
ghost use Rattle.items.specs.declared.item.Item.{Item};
ghost use Rattle.items.specs.Items.{own, is_step};
ghost use Rattle.items.specs.Entries.{steps_of};
ghost use Rattle.log_seats.specs.Legal.{Legal};

/// A law: a seat that has seen nothing and made nothing is legal for the empty log.
pub fn a_new_seat_is_legal()
    ensures { (number : ℕ) → Legal [] number [] [] }
{}

/// A law: a seat that is legal for a log is legal for it too where it has seen less of it, or all of it; and what it made are
/// the log's items of its number.
#[tactic(auto, using(crate::proofs::Seats::legal_less, crate::proofs::Seats::legal_whole))]
pub fn a_legal_seat_has_made_its_items()
    ensures made { (log saw made : List Item) (k : ℕ) → Legal log k saw made → own k log ≡ made }
    ensures whole { (log saw made : List Item) (k : ℕ) → Legal log k saw made → Legal log k log made }
    ensures less { (log saw made less : List Item) (k : ℕ) → Legal log k saw made → IsPrefix less saw → Legal log k less made }
{}

/// A law: while a log grows by items of its own, a seat that has made them and has seen the log stays legal for it; while it grows by
/// items of others, a seat stays legal as it is.
pub fn a_legal_seat_stays_legal()
    ensures own { (log saw made more : List Item) (k : ℕ) → Legal log k saw made → own k more ≡ more → Legal (log ++ more) k (log ++ more) (made ++ more) }
    ensures others { (log saw made more : List Item) (k : ℕ) → Legal log k saw made → own k more ≡ [] → Legal (log ++ more) k saw made }
{}

/// A law: copies of an item are all of its seat's number, and none of another's; copies of a step of the processor are a run of steps.
#[tactic(auto, using(crate::proofs::Copies::own_copies, crate::proofs::Copies::own_copies_other, crate::proofs::Copies::copies_of_step))]
pub fn copies_are_of_one_seat()
    ensures all { (item : Item) (times : ℕ) → own item.seat (replicate times item) ≡ replicate times item }
    ensures none { (item : Item) (other times : ℕ) → item.seat ≢ other → own other (replicate times item) ≡ [] }
    ensures steps { (item : Item) (times : ℕ) → is_step item.what ≡ true → replicate times item ≡ steps_of item.seat times }
{}
