// One instruction from its first word and its second line: `BinaryInstruction::decode` of core/src/program/binary_program.rs.
#![tactic(auto)]

ghost use Rattle.std.specs.Prelude.{◌≡◌, Some, None};
ghost use Rattle.program.specs.Instructions.{is_memory};
ghost use Rattle.decoder.specs.Lines.{second_of_line};
ghost use Rattle.decoder.specs.Decode.{register_or, missing_op1, memory_built, built_with, two_due, decoded};
ghost use Rattle.decoder_words.specs.Decoded.{decoded_numbered};

use decoder::OpenRefusal;
use program::BinaryInstruction;
use vm_hardware::{OlaRegister, OlaSpecialRegister, Place};
use vm_opcodes::OlaOpcode;
use vm_operands::{ImmediateValue, OlaOperand};

// The number of a second line: hexadecimal only with `0x`, once or repeated, otherwise decimal.
pub fn second_number(line: &[u8]) -> Option<ImmediateValue>
    ensures { result ≡ second_of_line line.now }
{
    match line {
        [b'0', b'x', ..] => {
            let number = text_read::read_hexadecimal(line, ImmediateValue::LARGEST);
            number.map(ImmediateValue::new)
        }
        _ => ImmediateValue::from_str(line),
    }
}

// Whether the operation is mload or mstore.
fn is_memory(opcode: OlaOpcode) -> bool
    ensures { result ≡ is_memory opcode }
{
    matches!(opcode, OlaOpcode::MLOAD | OlaOpcode::MSTORE)
}

// Whether two lines are due: bit 62 with any operation, and mload and mstore.
fn two_due(opcode: OlaOpcode, word: u64) -> bool
    ensures { result ≡ two_due opcode word }
{
    (word >> BinaryInstruction::BIT_SHIFT_OP1_IMM) % 2 == 1 || is_memory(opcode)
}

// A register as a content, or the content where there is none.
fn register_or(other: OlaOperand, found: Option<OlaRegister>) -> OlaOperand
    ensures { result ≡ register_or other found }
{
    found.map_or(other, |register| OlaOperand::RegisterOperand { register })
}

// What op1 reads as without a register: psp for mov, else empty.
fn missing_op1(opcode: OlaOpcode) -> OlaOperand
    ensures { result ≡ missing_op1 opcode }
{
    match opcode {
        OlaOpcode::MOV => OlaOperand::SpecialReg {
            special_reg: OlaSpecialRegister::PSP,
        },
        _ => OlaOperand::Empty,
    }
}

// mload or mstore with its second line's number: 19 where a register is missing.
#[tactic(auto, unfolding(decoder::specs::Decode::memory_built))]
fn memory_built(
    index: usize,
    opcode: OlaOpcode,
    value: ImmediateValue,
    numbered: bool,
    dst: Option<OlaRegister>,
    op0: Option<OlaRegister>,
    op1: Option<OlaRegister>,
) -> Result<BinaryInstruction, OpenRefusal>
    ensures { decoded_numbered result ≡ memory_built index opcode value numbered dst op0 op1 }
{
    let missing = OpenRefusal::RegisterMissing(index);
    let dst = dst.ok_or(missing)?;
    let op0 = op0.ok_or(missing)?;
    let op1 = if numbered {
        OlaOperand::ImmediateOperand { value }
    } else {
        OlaOperand::RegisterWithFactor {
            register: op1.ok_or(missing)?,
            factor: value,
        }
    };
    Ok(BinaryInstruction::new(
        opcode,
        OlaOperand::RegisterOperand { register: op0 },
        op1,
        OlaOperand::RegisterOperand { register: dst },
    ))
}

// The instruction with its second line's number.
#[tactic(auto, unfolding(decoder::specs::Decode::built_with))]
fn built_with(
    index: usize,
    opcode: OlaOpcode,
    word: u64,
    value: ImmediateValue,
) -> Result<BinaryInstruction, OpenRefusal>
    ensures { decoded_numbered result ≡ built_with index opcode word value }
{
    let dst = vm_hardware::lowest_register(word, Place::Dst);
    let op0 = vm_hardware::lowest_register(word, Place::Op0);
    if is_memory(opcode) {
        let op1 = vm_hardware::lowest_register(word, Place::Op1);
        let numbered = (word >> BinaryInstruction::BIT_SHIFT_OP1_IMM) % 2 == 1;
        return memory_built(index, opcode, value, numbered, dst, op0, op1);
    }
    Ok(BinaryInstruction::new(
        opcode,
        register_or(OlaOperand::Empty, op0),
        OlaOperand::ImmediateOperand { value },
        register_or(OlaOperand::Empty, dst),
    ))
}

// The instruction of a first word that has no second line.
#[tactic(auto, unfolding(decoder::specs::Decode::on_operation))]
pub fn decode_alone(index: usize, word: u64) -> Result<BinaryInstruction, OpenRefusal>
    ensures { decoded_numbered result ≡ decoded index word None }
{
    let opcode = vm_tables::highest_operation(word).ok_or(OpenRefusal::NoOperation(index))?;
    Ok(BinaryInstruction::new(
        opcode,
        register_or(
            OlaOperand::Empty,
            vm_hardware::lowest_register(word, Place::Op0),
        ),
        register_or(
            missing_op1(opcode),
            vm_hardware::lowest_register(word, Place::Op1),
        ),
        register_or(
            OlaOperand::Empty,
            vm_hardware::lowest_register(word, Place::Dst),
        ),
    ))
}

// The instruction of a first word and its second line: 16, 17, 18, 19 in this order.
#[tactic(auto, unfolding(decoder::specs::Decode::on_operation, decoder::specs::Decode::on_number))]
pub fn decode_with(index: usize, word: u64, line: &[u8]) -> Result<BinaryInstruction, OpenRefusal>
    ensures { decoded_numbered result ≡ decoded index word (Some line.now) }
{
    let opcode = vm_tables::highest_operation(word).ok_or(OpenRefusal::NoOperation(index))?;
    if !two_due(opcode, word) {
        return Err(OpenRefusal::LineTooMany(index));
    }
    let value = second_number(line).ok_or(OpenRefusal::SecondLineUnreadable(index))?;
    built_with(index, opcode, word, value)
}
