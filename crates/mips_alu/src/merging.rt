//! Parts of words at any address.
ghost use Rattle.std.specs.Prelude.{◌≡◌, ℕ, ◌+◌, ◌-◌, ◌*◌, ◌/◌, ◌%◌, ◌^◌, ◌<◌, ◌≤◌};
ghost use Rattle.mips_alu.specs.Merging.{merge_left_result, merge_right_result, store_left_result, store_right_result};

/// The register after a load of the left part of a word (LWL): bytes 0 to `k` of the word in memory become its highest
/// bytes, and its other bytes stay. `k`, below 4, is the address modulo 4.
pub fn merge_left(memory: u32, register: u32, k: u32) -> u32
    requires { k < 4 }
    ensures { result ≡ merge_left_result memory register k }
{
    match k {
        0 => (memory << 24) + register % 0x100_0000,
        1 => (memory << 16) + register % 0x1_0000,
        2 => (memory << 8) + register % 0x100,
        _ => memory,
    }
}

/// The register after a load of the right part of a word (LWR): bytes `k` to 3 of the word in memory become its lowest
/// bytes, and its other bytes stay. `k`, below 4, is the address modulo 4.
pub fn merge_right(memory: u32, register: u32, k: u32) -> u32
    requires { k < 4 }
    ensures { result ≡ merge_right_result memory register k }
{
    match k {
        0 => memory,
        1 => (memory >> 8) + (register >> 24 << 24),
        2 => (memory >> 16) + (register >> 16 << 16),
        _ => (memory >> 24) + (register >> 8 << 8),
    }
}

/// The word in memory after a store of the left part of a word (SWL): the upper `k` + 1 bytes of the register become its
/// bytes 0 to `k`, and its other bytes stay. `k`, below 4, is the address modulo 4.
pub fn store_left(memory: u32, register: u32, k: u32) -> u32
    requires { k < 4 }
    ensures { result ≡ store_left_result memory register k }
{
    merge_right(register, memory, 3 - k)
}

/// The word in memory after a store of the right part of a word (SWR): the lower 4 - `k` bytes of the register become its
/// bytes `k` to 3, and its other bytes stay. `k`, below 4, is the address modulo 4.
pub fn store_right(memory: u32, register: u32, k: u32) -> u32
    requires { k < 4 }
    ensures { result ≡ store_right_result memory register k }
{
    merge_left(register, memory, 3 - k)
}

/// A law: LWR at an address and LWL three bytes above load the word of four bytes from that address on, whatever the
/// register held. `low` and `high` are the aligned words that it lies in.
#[tactic(auto, using(crate::proofs::Parts::loaded))]
pub fn both_parts_load_the_word()
    ensures { (low high register k : ℕ) → low < 2 ^ 32 → high < 2 ^ 32 → register < 2 ^ 32 → 0 < k → k < 4
        → merge_left_result high (merge_right_result low register k) (k - 1) ≡ (high * 2 ^ 32 + low) / 2 ^ (8 * k) % 2 ^ 32 }
{}

/// A law: SWR at an address and SWL three bytes above store the word in the four bytes from that address on, and leave
/// the bytes before and after. `low` and `high` are the aligned words that it lies in.
#[tactic(auto, using(crate::proofs::Parts::stored))]
pub fn both_parts_store_the_word()
    ensures { (low high register k : ℕ) → low < 2 ^ 32 → high < 2 ^ 32 → register < 2 ^ 32 → 0 < k → k < 4
        → store_left_result high register (k - 1) * 2 ^ 32 + store_right_result low register k
        ≡ high / 2 ^ (8 * k) * 2 ^ (8 * k + 32) + register * 2 ^ (8 * k) + low % 2 ^ (8 * k) }
{}

/// A law: at an aligned address either part is the whole word.
pub fn aligned_parts_are_whole()
    ensures left { (memory register : ℕ) → memory < 2 ^ 32 → merge_left_result memory register 3 ≡ memory }
    ensures right { (memory register : ℕ) → register < 2 ^ 32 → merge_right_result memory register 0 ≡ memory }
    ensures store_left { (memory register : ℕ) → memory < 2 ^ 32 → store_left_result memory register 3 ≡ register }
    ensures store_right { (memory register : ℕ) → register < 2 ^ 32 → store_right_result memory register 0 ≡ register }
{}
