//! Laws of the definitions.
ghost use Rattle.std.specs.Prelude.{◌≡◌, ℕ, ◌+◌, ◌-◌, ◌*◌, ◌/◌, ◌%◌, ◌^◌, ◌<◌, ◌≤◌, Bool, true, false, bit_and};
ghost use Rattle.mips_cp0.specs.Bits.{has_bits, replaced_bits};
ghost use Rattle.mips_cp0.specs.Status.{status_exl, status_erl};
ghost use Rattle.mips_cp0.specs.Cause.{cause_bd};
ghost use Rattle.mips_cp0.specs.Exception.{exc_code, coprocessor_error};
ghost use Rattle.mips_cp0.specs.Registers.{SystemRegisters, boot_registers};
ghost use Rattle.mips_cp0.specs.Access.{register_value, register_written};
ghost use Rattle.mips_cp0.specs.Entered.{entered, returned, return_address};
ghost use Rattle.mips_cp0.specs.Interrupts.{ticked, interrupt_taken};
ghost use Rattle.mips_cp0.specs.Time.{after_ticks, count_after, random_after, until_timer, clock_set, IsClock};
ghost use Rattle.mips_cp0.specs.declared.exception.Exc.{Exc};
ghost use Rattle.mips_cp0.specs.declared.profile.Profile.TheVariants.{One, Two};
ghost use Rattle.mips_cp0.specs.declared.register.SystemRegister.TheVariants.{Index, Wired, Config1};

/// A law: ERET after the entry of an exception, EXL and ERL having been clear, goes back to the instruction, or to the
/// branch before it where it stands in a delay slot, and Status is as before.
#[tactic(auto, using(crate::proofs::Entering::status_restored))]
pub fn entry_then_return()
    ensures outside_slot { (exc : Exc) (pc : ℕ) (r : SystemRegisters) → has_bits status_exl r.status ≡ false → has_bits status_erl r.status ≡ false
        → return_address (entered exc pc false r) ≡ pc }
    ensures in_slot { (exc : Exc) (pc : ℕ) (r : SystemRegisters) → has_bits status_exl r.status ≡ false → has_bits status_erl r.status ≡ false
        → return_address (entered exc pc true r) ≡ (pc + (2 ^ 32 - 4)) % 2 ^ 32 }
    ensures status { (exc : Exc) (pc : ℕ) (in_slot : Bool) (r : SystemRegisters) → r.status < 2 ^ 32 → has_bits status_exl r.status ≡ false
        → has_bits status_erl r.status ≡ false → (returned (entered exc pc in_slot r)).status ≡ r.status }
{}

/// A law: after the entry of an exception EXL is set, and Cause shows its code, in bits 6 to 2, the coprocessor that may
/// not be used, in bits 29 to 28, and, where EXL was clear, in BD whether the instruction stood in a delay slot. Where
/// EXL was set, EPC and BD stay.
#[tactic(auto, using(crate::proofs::Entering::code_shown, crate::proofs::Entering::coprocessor_shown, crate::proofs::Entering::delay_kept, crate::proofs::Entering::delay_written, crate::proofs::Entering::level_set))]
pub fn entry_is_recorded()
    ensures level { (exc : Exc) (pc : ℕ) (in_slot : Bool) (r : SystemRegisters) → has_bits status_exl (entered exc pc in_slot r).status ≡ true }
    ensures code { (exc : Exc) (pc : ℕ) (in_slot : Bool) (r : SystemRegisters) → bit_and (entered exc pc in_slot r).cause 0x0000007c ≡ exc_code exc * 2 ^ 2 }
    ensures coprocessor { (exc : Exc) (pc : ℕ) (in_slot : Bool) (r : SystemRegisters)
        → bit_and (entered exc pc in_slot r).cause 0x30000000 ≡ coprocessor_error exc * 2 ^ 28 }
    ensures delay { (exc : Exc) (pc : ℕ) (in_slot : Bool) (r : SystemRegisters) → has_bits status_exl r.status ≡ false
        → has_bits cause_bd (entered exc pc in_slot r).cause ≡ in_slot }
    ensures nested_epc { (exc : Exc) (pc : ℕ) (in_slot : Bool) (r : SystemRegisters) → has_bits status_exl r.status ≡ true
        → (entered exc pc in_slot r).epc ≡ r.epc }
    ensures nested_delay { (exc : Exc) (pc : ℕ) (in_slot : Bool) (r : SystemRegisters) → has_bits status_exl r.status ≡ true
        → has_bits cause_bd (entered exc pc in_slot r).cause ≡ has_bits cause_bd r.cause }
{}

/// A law: Random, once it is from Wired to the last TLB entry, stays so.
pub fn random_stays_above_wired()
    ensures wired { (r : SystemRegisters) → r.wired ≤ r.random → r.random ≤ r.last_entry → r.wired ≤ (ticked r).random }
    ensures last { (r : SystemRegisters) → r.wired ≤ r.random → r.random ≤ r.last_entry → (ticked r).random ≤ r.last_entry }
{}

/// A law: before Count comes to Compare, ticks move Count and Random alone, so that no interrupt is taken where none is taken now.
#[tactic(auto, using(crate::proofs::Ticks::ticks_closed, crate::proofs::Ticks::quiet_before))]
pub fn ticks_before_the_timer_move_the_clock_alone()
    ensures clock { (k : ℕ) (r : SystemRegisters) → IsClock r → k < until_timer r → after_ticks k r ≡ clock_set k r }
    ensures taken { (lines k : ℕ) (r : SystemRegisters) → IsClock r → interrupt_taken lines r ≡ false → k < until_timer r
        → interrupt_taken lines (after_ticks k r) ≡ false }
{}

/// A law: Count and Random after any number of ticks.
#[tactic(auto, using(crate::proofs::Ticks::count_by_ticks, crate::proofs::Ticks::random_by_ticks))]
pub fn ticks_have_a_closed_form()
    ensures count { (k : ℕ) (r : SystemRegisters) → r.count < 2 ^ 32 → (after_ticks k r).count ≡ count_after k r }
    ensures random { (k : ℕ) (r : SystemRegisters) → r.wired ≤ r.random → r.random ≤ r.last_entry → (after_ticks k r).random ≡ random_after k r }
{}

/// A law: ticks add up, and each brings the timer nearer by one.
#[tactic(auto, using(crate::proofs::Ticks::ticks_join, crate::proofs::Ticks::until_later))]
pub fn ticks_add_up()
    ensures join { (j k : ℕ) (r : SystemRegisters) → after_ticks (k + j) r ≡ after_ticks k (after_ticks j r) }
    ensures nearer { (k : ℕ) (r : SystemRegisters) → IsClock r → k < until_timer r → until_timer (clock_set k r) ≡ until_timer r - k }
{}

/// A law: of a word whose bits of a mask are replaced, each part of the mask is that of the new bits, and each other
/// bit stays.
#[tactic(auto, using(crate::proofs::Replaced::replaced_taken, crate::proofs::Replaced::replaced_kept))]
pub fn replaced_bits_are_exact()
    ensures taken { (mask part bits word : ℕ) → mask < 2 ^ 32 → bit_and mask part ≡ part → bit_and (replaced_bits mask bits word) part ≡ bit_and bits part }
    ensures kept { (mask other bits word : ℕ) → mask < 2 ^ 32 → other < 2 ^ 32 → bit_and mask other ≡ 0
        → bit_and (replaced_bits mask bits word) other ≡ bit_and word other }
{}

/// A law: what a profile shows. Random at the boot and after a write of Wired, the bits that a write of Index or of Wired keeps, and
/// Config1 are those of its last TLB entry, 15 of the first profile and 31 of the second.
pub fn profiles_show_their_entries()
    ensures first { (boot_registers One).random ≡ 0x0f }
    ensures second { (boot_registers Two).random ≡ 0x1f }
    ensures first_config { (lines : ℕ) → register_value lines Config1 (boot_registers One) ≡ 0x1e000000 }
    ensures second_config { (lines : ℕ) → register_value lines Config1 (boot_registers Two) ≡ 0x3e000000 }
    ensures first_index { (value : ℕ) → (register_written value Index (boot_registers One)).index ≡ bit_and value 0x0f }
    ensures second_index { (value : ℕ) → (register_written value Index (boot_registers Two)).index ≡ bit_and value 0x1f }
    ensures first_wired { (value : ℕ) → (register_written value Wired (boot_registers One)).wired ≡ bit_and value 0x0f }
    ensures second_wired { (value : ℕ) → (register_written value Wired (boot_registers Two)).wired ≡ bit_and value 0x1f }
{}
