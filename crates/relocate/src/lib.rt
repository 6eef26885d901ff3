// Scopes, addresses, the label table and prophets: assembler/src/relocate.rs.
#![tactic(auto)]

ghost use Rattle.std.specs.Prelude.{◌≡◌};
ghost use Rattle.relocate.specs.Labels.{word_address};

use asm::RowCount;

// A count of words, the source's counter: an address. It is never added to a row count.
#[repr(C)]
#[derive(Clone, Copy)]
pub struct WordAddress(pub u64);

// The kinds of label rows. The number of a kind is its place here, and stands in a LabelEntry as its kind.
#[derive(Clone, Copy)]
pub enum LabelKind {
    Call,
    Jmp,
    Prophet,
}

// An entry of the lent label table: kind 0 call, 1 `.LBL`, 2 prophet; the name's start and length in the source without its colon;
// the address that the row marks (a prophet label's host), 0 where it is unmapped.
#[repr(C)]
#[derive(Clone, Copy)]
pub struct LabelEntry {
    pub kind: u8,
    pub mapped: bool,
    pub start: usize,
    pub length: usize,
    pub address: WordAddress,
}

// Why a source or a prophet list is refused before its instructions are looked at.
#[derive(Clone, Copy)]
pub enum RelocateRefusal {
    // 1: source above 65,536 bytes.
    SourceTooLong,
    // 2: a byte of the source above 127, with the offset of the first.
    ByteAbove127(usize),
    // 3: an unreadable row, with the non-empty rows before it.
    UnreadableRow(RowCount),
    // 4: no row.
    NoRow,
    // 5: no main scope.
    NoMain,
    // 6: two.
    TwoMains,
    // 7: label table shorter than the label rows.
    TableTooShort,
    // 8: prophet list above 16,384 bytes or with another first line.
    ProphetListMalformed,
    // 9: a prophet that no mapped prophet row names, with its index.
    ProphetUnknown(usize),
}

// What a source that passes refusals 1 to 6 adds up to, and the stretch of it that is main's scope, from start to end.
#[derive(Clone, Copy)]
pub struct Layout {
    pub labels: usize,
    pub instructions: usize,
    pub counted: usize,
    pub words: usize,
    pub start: usize,
    pub end: usize,
}

// What a source takes: its label rows, instructions, counted length and words.
#[derive(Clone, Copy)]
pub struct RoomFigures {
    pub labels: usize,
    pub instructions: usize,
    pub counted: usize,
    pub words: usize,
}

impl WordAddress {
    pub fn new(words: u64) -> Self
        ensures { result ≡ word_address words }
    {
        Self(words)
    }
}
