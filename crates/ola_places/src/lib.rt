// Instructions as C structs, given and taken: nothing but conversions. A content is a number (0 empty, 1 number, 2 register, 3 register with
// offset, 4 register with factor, 5 special register), an operation its place in the order of OlaOpcode, a register its number, pc 0 and psp 1.
#![tactic(auto)]

ghost use Rattle.std.specs.Prelude.{◌≡◌};
ghost use Rattle.ola_places.specs.Places.{operation_named, register_named, special_named, place_in, place_out, instruction_in, instruction_out};

use program::BinaryInstruction;
use vm_hardware::{OlaRegister, OlaSpecialRegister};
use vm_opcodes::OlaOpcode;
use vm_operands::{ImmediateValue, OlaOperand};

// The contents of a place.
#[repr(C)]
#[derive(Clone, Copy)]
pub struct OlaPlace {
    pub content: u8,
    pub reg: u8,
    pub number: u64,
}

#[repr(C)]
#[derive(Clone, Copy)]
pub struct OlaInstruction {
    pub opcode: u8,
    pub op0: OlaPlace,
    pub op1: OlaPlace,
    pub dst: OlaPlace,
}

// The operation of a number.
fn operation_named(index: u8) -> Option<OlaOpcode>
    ensures { result ≡ operation_named index }
{
    vm_tables::OPERATIONS.get(index as usize).copied()
}

// The register of a number.
#[tactic(auto, unfolding(vm_hardware::specs::Registers::registers))]
fn register_named(index: u8) -> Option<OlaRegister>
    ensures { result ≡ register_named index }
{
    vm_hardware::REGISTERS.get(index as usize).copied()
}

// The special register of a number.
fn special_named(index: u8) -> Option<OlaSpecialRegister>
    ensures { result ≡ special_named index }
{
    match index {
        0 => Some(OlaSpecialRegister::PC),
        1 => Some(OlaSpecialRegister::PSP),
        _ => None,
    }
}

// The contents of a place. What a content does not have is not looked at.
#[tactic(auto, unfolding(crate::specs::Places::place_in))]
fn place_in(place: OlaPlace) -> Option<OlaOperand>
    ensures { result ≡ place_in place }
{
    let value = ImmediateValue::new(place.number);
    Some(match place.content {
        0 => OlaOperand::Empty,
        1 => OlaOperand::ImmediateOperand { value },
        2 => OlaOperand::RegisterOperand {
            register: register_named(place.reg)?,
        },
        3 => OlaOperand::RegisterWithOffset {
            register: register_named(place.reg)?,
            offset: value,
        },
        4 => OlaOperand::RegisterWithFactor {
            register: register_named(place.reg)?,
            factor: value,
        },
        5 => OlaOperand::SpecialReg {
            special_reg: special_named(place.reg)?,
        },
        _ => return None,
    })
}

// The instruction that the numbers name.
#[tactic(auto, unfolding(crate::specs::Places::instruction_in))]
pub fn instruction_in(given: OlaInstruction) -> Option<BinaryInstruction>
    ensures { result ≡ instruction_in given }
{
    Some(BinaryInstruction::new(
        operation_named(given.opcode)?,
        place_in(given.op0)?,
        place_in(given.op1)?,
        place_in(given.dst)?,
    ))
}

// The contents of a place as numbers, 0 for what it does not have.
fn place_out(operand: OlaOperand) -> OlaPlace
    ensures { result ≡ place_out operand }
{
    let (content, reg, number) = match operand {
        OlaOperand::Empty => (0, 0, 0),
        OlaOperand::ImmediateOperand { value } => (1, 0, value.number),
        OlaOperand::RegisterOperand { register } => (2, register as u8, 0),
        OlaOperand::RegisterWithOffset { register, offset } => (3, register as u8, offset.number),
        OlaOperand::RegisterWithFactor { register, factor } => (4, register as u8, factor.number),
        OlaOperand::SpecialReg { special_reg } => (5, special_reg as u8, 0),
    };
    OlaPlace {
        content,
        reg,
        number,
    }
}

// An instruction as numbers.
pub fn instruction_out(instruction: BinaryInstruction) -> OlaInstruction
    ensures { result ≡ instruction_out instruction }
{
    OlaInstruction {
        opcode: instruction.opcode as u8,
        op0: place_out(instruction.op0),
        op1: place_out(instruction.op1),
        dst: place_out(instruction.dst),
    }
}
