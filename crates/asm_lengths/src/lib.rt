// The lengths of an instruction row: the counted one, `binary_length` of assembler/src/asm.rs, and the words that it becomes.
#![tactic(auto)]

ghost use Rattle.std.specs.Prelude.{◌≡◌};
ghost use Rattle.asm.specs.Rows.{counted, counted_length};
ghost use Rattle.asm.specs.Survey.{is_memory_row, takes_word, word_count};

use asm::{OlaAsmInstruction, OlaAsmOperand};
use vm_opcodes::RowPlaces;

// 1 where the operand is a number, name, label or bracketed.
fn counted(operand: OlaAsmOperand) -> usize
    ensures { result ≡ counted operand }
{
    match operand {
        OlaAsmOperand::Empty
        | OlaAsmOperand::RegisterOperand { .. }
        | OlaAsmOperand::SpecialReg { .. } => 0,
        _ => 1,
    }
}

// The counted length of an instruction row: 1, and 1 more for each of op0 and op1 that holds anything but a register, pc or psp.
pub fn binary_length(instruction: OlaAsmInstruction) -> usize
    ensures { result ≡ counted_length instruction }
{
    1 + counted(instruction.op0) + counted(instruction.op1)
}

fn is_memory(places: RowPlaces) -> bool
    ensures { result ≡ is_memory_row places }
{
    matches!(places, RowPlaces::DstMemory | RowPlaces::MemoryDst)
}

fn takes_word(operand: OlaAsmOperand) -> bool
    ensures { result ≡ takes_word operand }
{
    matches!(
        operand,
        OlaAsmOperand::ImmediateOperand { .. }
            | OlaAsmOperand::Label { .. }
            | OlaAsmOperand::Identifier { .. }
    )
}

// The words of an instruction row: two of mload and mstore and where op1 is a number, a name or a label, else one.
pub fn word_count(instruction: OlaAsmInstruction) -> usize
    ensures { result ≡ word_count instruction }
{
    if is_memory(vm_tables::row_places(instruction.opcode)) || takes_word(instruction.op1) {
        2
    } else {
        1
    }
}
