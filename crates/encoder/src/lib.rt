// Names resolved, the canonical program and assembling: assembler/src/encoder.rs.
#![tactic(auto)]

use asm::RowCount;
use relocate::RelocateRefusal;

// Why a source is not assembled.
#[derive(Clone, Copy)]
pub enum AssembleRefusal {
    // 1 to 9.
    Relocate(RelocateRefusal),
    // 10: a name or label that no mapped row of its kind holds, with the instruction's index in sorted order.
    NameUnknown(RowCount),
    // 11: an mload or mstore whose value is no plain register or whose memory operand is not bracketed, with the instruction's index.
    MemoryOperand(RowCount),
    // 12: a number, names resolved, in op0 or dst, with the instruction's index.
    NumberMisplaced(RowCount),
    // 13: fewer word entries than emitted words, or fewer host entries than listed prophets.
    RoomTooShort,
    // 25: a bracketed operand outside mload and mstore, with the instruction's index in sorted order.
    BracketMisplaced(RowCount),
}

// What assembling wrote: the table's entries, the words, the hosts, and how many prophets are kept.
#[derive(Clone, Copy)]
pub struct Totals {
    pub labels: usize,
    pub words: usize,
    pub hosts: usize,
    pub kept: usize,
}
