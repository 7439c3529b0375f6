//! Where branches and jumps lead.
ghost use Rattle.std.specs.Prelude.{◌≡◌};
ghost use Rattle.mips_instr.specs.Targets.{branch_target, jump_target};

use crate::JumpTarget;
use word32::sext16;

/// Where a branch at this address leads: the address of its delay slot plus four times the offset, whose sign is
/// extended, modulo 2^32.
pub fn branch_target_of(address: u32, offset: u16) -> u32
    ensures { result ≡ branch_target address offset }
{
    address
        .wrapping_add(4)
        .wrapping_add(sext16(offset).wrapping_mul(4))
}

/// Where a jump at this address leads: the upper four bits are those of its delay slot's address, and four times the
/// 26 bits of the word are below them.
pub fn jump_target_of(address: u32, target: JumpTarget) -> u32
    ensures { result ≡ jump_target address target }
{
    let slot = address.wrapping_add(4);
    (slot >> 28 << 28) + target.bits() * 4
}
