// Bytecode read back into instructions: core/src/program/decoder.rs.
#![tactic(auto)]

use program::BinaryInstruction;

// The most bytes that a bytecode may have.
pub const MAX_BYTECODE_BYTES: usize = 524_288;

// Why a bytecode is not opened.
#[derive(Clone, Copy)]
pub enum OpenRefusal {
    // 14: above MAX_BYTECODE_BYTES.
    TextTooLong,
    // 15: a first word that is no 64-bit hexadecimal number, with the line's index.
    FirstWordUnreadable(usize),
    // 16: no operation bit, with the instruction's index, as in the cases below.
    NoOperation(usize),
    // 17: two lines where one is due.
    LineTooMany(usize),
    // 18: a second line that is no number below p in size.
    SecondLineUnreadable(usize),
    // 19: mload or mstore lacking dst, op0 or, without bit 62, op1.
    RegisterMissing(usize),
}

// Why the next instruction is not read: the refusals of opening, for the lines read only and with index 0, and one more.
#[derive(Clone, Copy)]
pub enum NextRefusal {
    Open(OpenRefusal),
    // 20: none complete left.
    NoneLeft,
}

// What a call of next on a text and a line answers, and the line reached: the same line after a refusal.
#[derive(Clone, Copy)]
pub struct LineStep {
    pub found: Result<BinaryInstruction, NextRefusal>,
    pub line: usize,
}

// What a call of next on a text and an offset answers: how many lines were read, none after a refusal, and the offset of the line after them.
#[derive(Clone, Copy)]
pub struct StepAt {
    pub found: Result<BinaryInstruction, NextRefusal>,
    pub lines: usize,
    pub offset: usize,
}
