// The constant tables by operation: the shifts of core/src/vm/opcodes.rs, and the places of each operation's row.
#![tactic(auto)]

ghost use Rattle.std.specs.Prelude.{◌≡◌, ◌-◌, ◌<◌};
ghost use Rattle.vm_opcodes.specs.Operations.{operation_bit, operation_mask, row_places, operation_in};

use vm_opcodes::{OlaOpcode, RowPlaces};

// The operations by their index.
pub const OPERATIONS: [OlaOpcode; 27] = [
    OlaOpcode::ADD,
    OlaOpcode::MUL,
    OlaOpcode::EQ,
    OlaOpcode::ASSERT,
    OlaOpcode::MOV,
    OlaOpcode::JMP,
    OlaOpcode::CJMP,
    OlaOpcode::CALL,
    OlaOpcode::RET,
    OlaOpcode::MLOAD,
    OlaOpcode::MSTORE,
    OlaOpcode::END,
    OlaOpcode::RC,
    OlaOpcode::AND,
    OlaOpcode::OR,
    OlaOpcode::XOR,
    OlaOpcode::NOT,
    OlaOpcode::NEQ,
    OlaOpcode::GTE,
    OlaOpcode::POSEIDON,
    OlaOpcode::SLOAD,
    OlaOpcode::SSTORE,
    OlaOpcode::TLOAD,
    OlaOpcode::TSTORE,
    OlaOpcode::SCCALL,
    OlaOpcode::SIGCHECK,
    OlaOpcode::EVENT,
];

// The operation bits by the operation's index: from 31 for add down to 5 for log, each one less than the one before, so that no two operations have one bit.
const SHIFTS: [u8; 27] = [
    31, 30, 29, 28, 27, 26, 25, 24, 23, 22, 21, 20, 19, 18, 17, 16, 15, 14, 13, 12, 11, 10, 9, 8,
    7, 6, 5,
];

// The bits of mload and mstore, for whoever asks a word for them.
pub const MLOAD_SHIFT: u64 = SHIFTS[OlaOpcode::MLOAD as usize] as u64;

pub const MSTORE_SHIFT: u64 = SHIFTS[OlaOpcode::MSTORE as usize] as u64;

// The bit of a first word that stands for the operation.
pub fn binary_bit_shift(opcode: OlaOpcode) -> u8
    ensures { result ≡ operation_bit opcode }
{
    SHIFTS[opcode.index()]
}

// The word that has this bit alone.
pub fn binary_bit_mask(opcode: OlaOpcode) -> u64
    ensures { result ≡ operation_mask opcode }
{
    1 << binary_bit_shift(opcode)
}

// The places that the operation's row has.
pub fn row_places(opcode: OlaOpcode) -> RowPlaces
    ensures { result ≡ row_places opcode }
{
    match opcode {
        OlaOpcode::ADD
        | OlaOpcode::MUL
        | OlaOpcode::EQ
        | OlaOpcode::AND
        | OlaOpcode::OR
        | OlaOpcode::XOR
        | OlaOpcode::NEQ
        | OlaOpcode::GTE
        | OlaOpcode::POSEIDON
        | OlaOpcode::TLOAD => RowPlaces::DstOp0Op1,
        OlaOpcode::MOV | OlaOpcode::NOT | OlaOpcode::SIGCHECK => RowPlaces::DstOp1,
        OlaOpcode::MLOAD => RowPlaces::DstMemory,
        OlaOpcode::MSTORE => RowPlaces::MemoryDst,
        OlaOpcode::CJMP
        | OlaOpcode::SLOAD
        | OlaOpcode::SSTORE
        | OlaOpcode::TSTORE
        | OlaOpcode::SCCALL
        | OlaOpcode::EVENT => RowPlaces::Op0Op1,
        OlaOpcode::ASSERT | OlaOpcode::JMP | OlaOpcode::CALL | OlaOpcode::RC => RowPlaces::Op1,
        OlaOpcode::RET | OlaOpcode::END => RowPlaces::Bare,
    }
}

// The operation of a first word: the highest of bits 31 to 5 that is set.
pub fn highest_operation(word: u64) -> Option<OlaOpcode>
    ensures { result ≡ operation_in word }
{
    OPERATIONS
        .iter()
        .find(|opcode| (word >> binary_bit_shift(**opcode)) % 2 == 1)
        .copied()
}
