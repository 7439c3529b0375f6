//! Branches and jumps to a target.
ghost use Rattle.std.specs.Prelude.{◌≡◌, ◌<◌, ◌^◌, IfOk};
ghost use Rattle.masm.specs.Meanings.{branch_offset, jump_index, aimed};

use masm_lines::AsmFault;
use mips_instr::{Instr, JumpTarget};

/// The offset in words from the delay slot by which a branch at an address leads to a target.
#[tactic(auto, unfolding(crate::specs::Meanings::branch_offset, crate::specs::Meanings::words_between))]
fn branch_offset(address: u32, target: u32) -> Result<u16, AsmFault>
    ensures { result ≡ branch_offset address target }
{
    let slot = address.wrapping_add(4);
    if target % 4 != 0 {
        return Err(AsmFault::Range);
    }
    if slot <= target {
        let words = (target - slot) / 4;
        if words < 0x8000 {
            Ok(words as u16)
        } else {
            Err(AsmFault::Range)
        }
    } else {
        let words = (slot - target) / 4;
        if words <= 0x8000 {
            Ok(((0x1_0000 - words) % 0x1_0000) as u16)
        } else {
            Err(AsmFault::Range)
        }
    }
}

/// The index in words by which a jump at an address leads to a target.
#[tactic(auto, unfolding(crate::specs::Meanings::jump_index))]
fn jump_index(address: u32, target: u32) -> Result<u32, AsmFault>
    ensures value { result ≡ jump_index address target }
    ensures small { IfOk result (λ index. index < 2 ^ 26) }
{
    if target % 4 == 0 && target >> 28 == address.wrapping_add(4) >> 28 {
        Ok(target % (1 << 28) / 4)
    } else {
        Err(AsmFault::Range)
    }
}

/// A branch or a jump at an address, with the target that it is to lead to.
pub fn aimed(instr: Instr, address: u32, target: u32) -> Result<Instr, AsmFault>
    ensures { result ≡ aimed instr address target }
{
    match instr {
        Instr::Branch { op, rs, rt, .. } => {
            let offset = branch_offset(address, target)?;
            Ok(Instr::Branch { op, rs, rt, offset })
        }
        Instr::BranchZero { op, rs, .. } => {
            let offset = branch_offset(address, target)?;
            Ok(Instr::BranchZero { op, rs, offset })
        }
        Instr::Jump { op, .. } => {
            let index = jump_index(address, target)?;
            Ok(Instr::Jump {
                op,
                target: JumpTarget::new(index),
            })
        }
        other => Ok(other),
    }
}
