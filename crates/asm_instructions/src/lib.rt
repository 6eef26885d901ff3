// An instruction row made from its operation and operands, `split_ola_asm_pieces` of assembler/src/asm.rs.
#![tactic(auto)]

ghost use Rattle.std.specs.Prelude.{◌≡◌, Some};
ghost use Rattle.asm.specs.Rows.{instruction, arranged_if};

use asm::{AsmRow, OlaAsmInstruction, OlaAsmOperand};
use vm_opcodes::{OlaOpcode, RowPlaces};

// The row of an operation with its operands by place.
fn row(
    opcode: OlaOpcode,
    op0: OlaAsmOperand,
    op1: OlaAsmOperand,
    dst: OlaAsmOperand,
) -> Option<AsmRow>
    ensures { result ≡ instruction opcode op0 op1 dst }
{
    Some(AsmRow::Instruction(OlaAsmInstruction::new(opcode, op0, op1, dst)))
}

// The row of an operation with its operands in the row's order: they go to the places of its row, where it has as many.
#[tactic(auto, using(crate::proofs::Laws::places_laws), unfolding(asm::specs::Rows::arranged))]
pub fn of_operands(opcode: OlaOpcode, operands: &[OlaAsmOperand]) -> Option<AsmRow>
    ensures { result ≡ arranged_if (Some opcode) (Some operands.now) }
{
    match (vm_tables::row_places(opcode), operands) {
        (RowPlaces::DstOp0Op1, [a, b, c]) => row(opcode, *b, *c, *a),
        (RowPlaces::DstOp1 | RowPlaces::DstMemory, [a, b]) => {
            row(opcode, OlaAsmOperand::Empty, *b, *a)
        }
        (RowPlaces::MemoryDst | RowPlaces::Op0Op1, [a, b]) => {
            row(opcode, *a, *b, OlaAsmOperand::Empty)
        }
        (RowPlaces::Op1, [a]) => row(opcode, OlaAsmOperand::Empty, *a, OlaAsmOperand::Empty),
        (RowPlaces::Bare, []) => row(
            opcode,
            OlaAsmOperand::Empty,
            OlaAsmOperand::Empty,
            OlaAsmOperand::Empty,
        ),
        _ => None,
    }
}
