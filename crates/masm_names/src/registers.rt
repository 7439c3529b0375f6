//! The names of the general registers.
ghost use Rattle.std.specs.Prelude.{◌≡◌, bytes_eq};
ghost use Rattle.masm_names.specs.Registers as spec;

use mips_instr::Reg;

/// The register of the first of some names that is this one.
macro_rules! first_numbered {
    ($name:expr; $($known:expr => $number:expr),+) => {{
        $(
            if is_same($known, $name) {
                return Some(Reg::new($number));
            }
        )+
        None
    }};
}

/// Whether a register's name is this one.
fn is_same(known: &str, name: &[u8]) -> bool
    ensures { result ≡ bytes_eq known.now name.now }
{
    known.as_bytes() == name
}

#[tactic(auto, unfolding(crate::specs::Registers::first_named))]
fn first_named(name: &[u8]) -> Option<Reg>
    ensures { result ≡ spec.first_named name.now }
{
    first_numbered!(name; "zero" => 0, "at" => 1, "v0" => 2, "v1" => 3, "a0" => 4, "a1" => 5, "a2" => 6, "a3" => 7)
}

#[tactic(auto, unfolding(crate::specs::Registers::temporary_named))]
fn temporary_named(name: &[u8]) -> Option<Reg>
    ensures { result ≡ spec.temporary_named name.now }
{
    first_numbered!(name; "t0" => 8, "t1" => 9, "t2" => 10, "t3" => 11, "t4" => 12, "t5" => 13, "t6" => 14, "t7" => 15)
}

#[tactic(auto, unfolding(crate::specs::Registers::saved_named))]
fn saved_named(name: &[u8]) -> Option<Reg>
    ensures { result ≡ spec.saved_named name.now }
{
    first_numbered!(name; "s0" => 16, "s1" => 17, "s2" => 18, "s3" => 19, "s4" => 20, "s5" => 21, "s6" => 22, "s7" => 23)
}

#[tactic(auto, unfolding(crate::specs::Registers::last_named))]
fn last_named(name: &[u8]) -> Option<Reg>
    ensures { result ≡ spec.last_named name.now }
{
    first_numbered!(name; "t8" => 24, "t9" => 25, "k0" => 26, "k1" => 27, "gp" => 28, "sp" => 29, "fp" => 30, "s8" => 30, "ra" => 31)
}

/// The register of a name, which stands behind `$`.
#[tactic(auto, unfolding(crate::specs::Registers::register_named))]
pub fn register_named(name: &[u8]) -> Option<Reg>
    ensures { result ≡ spec.register_named name.now }
{
    if let Some(register) = first_named(name) {
        Some(register)
    } else if let Some(register) = temporary_named(name) {
        Some(register)
    } else if let Some(register) = saved_named(name) {
        Some(register)
    } else {
        last_named(name)
    }
}
