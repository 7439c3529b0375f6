//! Shifts of a word.
ghost use Rattle.std.specs.Prelude.{◌≡◌, ℕ, pos, ◌^◌, ◌<◌, ◌+ℤ◌, ◌*ℤ◌, ◌≤ℤ◌, ◌<ℤ◌};
ghost use Rattle.mips_alu.specs.Signed.{signed_value};
ghost use Rattle.mips_alu.specs.Shifting.{shift_result};
ghost use Rattle.mips_alu.specs.declared.shifting.ShiftKind.TheVariants.{RightArithmetic};

/// A shift.
#[derive(Clone, Copy, Debug, PartialEq, Eq)]
pub enum ShiftKind {
    /// To the left; zeros come in.
    LeftLogical,
    /// To the right; zeros come in.
    RightLogical,
    /// To the right; copies of bit 31 come in.
    RightArithmetic,
}

/// A word shifted by fewer than 32 bits.
#[inline(always)]
pub fn shift(op: ShiftKind, word: u32, amount: u32) -> u32
    requires { amount < 32 }
    ensures { result ≡ shift_result op word amount }
{
    match op {
        ShiftKind::LeftLogical => word << amount,
        ShiftKind::RightLogical => word >> amount,
        ShiftKind::RightArithmetic => {
            if word < 0x8000_0000 {
                word >> amount
            } else {
                !(!word >> amount)
            }
        }
    }
}

/// A law: the signed value after an arithmetic shift to the right is the floor of the signed value divided by 2^amount.
#[tactic(auto, using(crate::proofs::Floors::floor_at_most, crate::proofs::Floors::next_above))]
pub fn arithmetic_shift_is_the_floor()
    ensures not_above { (word amount : ℕ) → word < 2 ^ 32 → amount < 32
        → (signed_value (shift_result RightArithmetic word amount) *ℤ pos (2 ^ amount)) ≤ℤ signed_value word }
    ensures next_is_above { (word amount : ℕ) → word < 2 ^ 32 → amount < 32
        → signed_value word <ℤ ((signed_value (shift_result RightArithmetic word amount) +ℤ pos 1) *ℤ pos (2 ^ amount)) }
{}
