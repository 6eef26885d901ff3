// One instruction made words: `encode` of core/src/program/binary_program.rs.
#![tactic(auto)]

ghost use Rattle.std.specs.Prelude.{◌≡◌};
ghost use Rattle.program.specs.Instructions.{carried, is_too_large, has_too_large};
ghost use Rattle.program.specs.Words.{rejected_aside, rejected_in_op1, encoded};
ghost use Rattle.program_encode.specs.Encoding.{encoding_numbered};

use program::{BinaryInstruction, EncodeRefusal, InstructionWords};
use vm_hardware::Place;
use vm_opcodes::OlaOpcode;
use vm_operands::OlaOperand;

// Whether a content's number, offset or factor is p or more.
fn is_too_large(operand: OlaOperand) -> bool
    ensures { result ≡ is_too_large (carried operand) }
{
    match operand {
        OlaOperand::ImmediateOperand { value }
        | OlaOperand::RegisterWithOffset { offset: value, .. }
        | OlaOperand::RegisterWithFactor { factor: value, .. } => !value.in_field(),
        _ => false,
    }
}

// Whether a number, offset or factor of any of the three places is p or more.
pub fn has_too_large(instruction: BinaryInstruction) -> bool
    ensures { result ≡ has_too_large instruction }
{
    is_too_large(instruction.op0) || is_too_large(instruction.op1) || is_too_large(instruction.dst)
}

// Whether op0 or dst may not have the content.
fn is_rejected_aside(operand: OlaOperand) -> bool
    ensures { result ≡ rejected_aside operand }
{
    matches!(
        operand,
        OlaOperand::ImmediateOperand { .. }
            | OlaOperand::RegisterWithFactor { .. }
            | OlaOperand::SpecialReg { .. }
    )
}

// Whether op1 may not have the content: a special register outside mov.
fn is_rejected_in_op1(opcode: OlaOpcode, operand: OlaOperand) -> bool
    ensures { result ≡ rejected_in_op1 opcode operand }
{
    matches!(operand, OlaOperand::SpecialReg { .. }) && opcode != OlaOpcode::MOV
}

// The words of an instruction, or refusal 21 or 22.
#[tactic(auto, using(crate::proofs::Laws::asked))]
pub fn encode(instruction: BinaryInstruction) -> Result<InstructionWords, EncodeRefusal>
    ensures { encoding_numbered result ≡ encoded instruction }
{
    if has_too_large(instruction) {
        return Err(EncodeRefusal::NumberTooLarge);
    }
    if is_rejected_aside(instruction.op0) {
        return Err(EncodeRefusal::Rejected(Place::Op0));
    }
    if is_rejected_in_op1(instruction.opcode, instruction.op1) {
        return Err(EncodeRefusal::Rejected(Place::Op1));
    }
    if is_rejected_aside(instruction.dst) {
        return Err(EncodeRefusal::Rejected(Place::Dst));
    }
    Ok(InstructionWords {
        first: program_words::first_word(instruction),
        second: program_words::second_word(instruction),
    })
}
