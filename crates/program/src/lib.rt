// Instructions, their words, bytecode text and listing rows: core/src/program/binary_program.rs.
#![tactic(auto)]

ghost use Rattle.std.specs.Prelude.{◌≡◌};
ghost use Rattle.program.specs.Instructions.{made};

use vm_hardware::Place;
use vm_opcodes::OlaOpcode;
use vm_operands::OlaOperand;

// An instruction: its operation and the contents of its three places.
#[derive(Clone, Copy)]
pub struct BinaryInstruction {
    pub opcode: OlaOpcode,
    pub op0: OlaOperand,
    pub op1: OlaOperand,
    pub dst: OlaOperand,
}

// The words of one instruction.
#[derive(Clone, Copy)]
pub struct InstructionWords {
    pub first: u64,
    pub second: Option<u64>,
}

// Why an instruction is not encoded.
#[derive(Clone, Copy)]
pub enum EncodeRefusal {
    // 21: a number of p or more.
    NumberTooLarge,
    // 22: a content that encode rejects, with its place.
    Rejected(Place),
}

// Why bytecode is not written.
#[derive(Clone, Copy)]
pub enum WriteRefusal {
    // 23: the lent text is too short.
    TextTooShort,
}

// Why a listing row is not written.
#[derive(Clone, Copy)]
pub enum RowRefusal {
    // 21: a number of p or more.
    NumberTooLarge,
    // 24: a place that the row needs is empty.
    PlaceEmpty,
    // 23: the lent text is too short.
    TextTooShort,
}

impl BinaryInstruction {
    // The bit of a first word that says that op1 is a number.
    pub const BIT_SHIFT_OP1_IMM: u64 = 62;

    pub fn new(opcode: OlaOpcode, op0: OlaOperand, op1: OlaOperand, dst: OlaOperand) -> Self
        ensures { result ≡ made opcode op0 op1 dst }
    {
        Self {
            opcode,
            op0,
            op1,
            dst,
        }
    }
}
