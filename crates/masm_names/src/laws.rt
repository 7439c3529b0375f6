//! A law of the definitions: an instruction is found by the name by which it is printed.
ghost use Rattle.mips_isa.specs.Table.{special_rows, regimm_rows, special2_rows, cop0_rows, opcode_rows, memory_rows};
ghost use Rattle.masm_names.specs.Named.{AreNamed};

/// A law: the instruction of each row of the table is found by the name by which it is printed.
#[tactic(auto, unfolding(crate::specs::Mnemonics::named_instruction))]
pub fn each_row_is_named()
    ensures special { AreNamed special_rows }
    ensures regimm { AreNamed regimm_rows }
    ensures special2 { AreNamed special2_rows }
    ensures cop0 { AreNamed cop0_rows }
    ensures opcode { AreNamed opcode_rows }
    ensures memory { AreNamed memory_rows }
{}
