// A row that is put together, and the places of an instruction written to it. A listing row and a source row differ in how a place is written.

ghost use Rattle.std.specs.Prelude.{◌≡◌, ℕ, ◌≤◌, List, [], ◌∷◌, ◌++◌, take};
ghost use Rattle.text_write.specs.Digits.{fewest_text, decimal_text};
ghost use Rattle.text_write.specs.Put.{put_count, put_into};
ghost use Rattle.vm_mnemonics.specs.Mnemonics.{mnemonic};
ghost use Rattle.vm_hardware.specs.Registers.{register_text, special_text};
ghost use Rattle.vm_operands.specs.declared.OlaOperand.{OlaOperand};
ghost use Rattle.program_listing.specs.Places.{row_with, row_with_all, place_text, whole_pieces, as_piece, spaced_by, bracketed_by, placed_by, row_by, row_pushed};

use program::BinaryInstruction;
use std::marker::{Model, PhantomData};
use vm_hardware::{OlaRegister, OlaSpecialRegister};
use vm_opcodes::{OlaOpcode, RowPlaces};
use vm_operands::{ImmediateValue, OlaOperand};

#[cfg(test)]
mod tests;

// The bytes of a row, of which there are at most 82. A text that would be too long for it is left out as a whole.
#[derive(Drop)]
pub struct Row {
    bytes: [u8; 82],
    len: usize,
}

// Clauses see the bytes that were written.
impl Model for Row {
    ghost Value = { List ℕ };

    ghost view = { λ r. take r.len r.bytes };

    ghost invariant = { λ r. r.len ≤ 82 };
}

impl Row {
    // Appends the operation's mnemonic.
    fn push_mnemonic(&mut self, opcode: OlaOpcode)
        ensures { self.new ≡ row_with self.old (mnemonic opcode) }
    {
        self.len += vm_tokens::put_token(opcode, &mut self.bytes, self.len).unwrap_or(0);
    }

    // Appends one byte.
    pub fn push(&mut self, byte: u8)
        ensures { self.new ≡ row_with self.old (byte ∷ []) }
    {
        if self.len < self.bytes.len() {
            self.bytes[self.len] = byte;
            self.len += 1;
        }
    }

    // Appends a number as bytecode text prints it.
    pub(crate) fn push_hex(&mut self, value: ImmediateValue)
        ensures { self.new ≡ row_with self.old (fewest_text value.number) }
    {
        self.len += value.put(&mut self.bytes, self.len).unwrap_or(0);
    }

    // Appends a number in decimal.
    pub fn push_decimal(&mut self, value: ImmediateValue)
        ensures { self.new ≡ row_with self.old (decimal_text value.number) }
    {
        self.len += text_digits::put_decimal(&mut self.bytes, self.len, value.number).unwrap_or(0);
    }

    // Appends a text.
    fn push_text(&mut self, text: &[u8])
        ensures { self.new ≡ row_with self.old text.now }
    {
        self.len += text_write::put_bytes(&mut self.bytes, self.len, text).unwrap_or(0);
    }

    // Appends a register.
    pub fn push_register(&mut self, register: OlaRegister)
        ensures { self.new ≡ row_with self.old (register_text register) }
    {
        self.len += vm_registers::put_register(register, &mut self.bytes, self.len).unwrap_or(0);
    }

    // Appends a special register.
    pub fn push_special(&mut self, special: OlaSpecialRegister)
        ensures { self.new ≡ row_with self.old (special_text special) }
    {
        self.len += vm_registers::put_special(special, &mut self.bytes, self.len).unwrap_or(0);
    }
}

// How a row writes a place, and what stands between the two places of an address.
pub trait RowText {
    ghost pieces: { OlaOperand → List (List ℕ) };

    ghost BETWEEN: { ℕ };

    const BETWEEN: u8;

    // Appends what stands in a place, piece by piece, each where the row has room for all of it.
    fn push_pieces(row: &mut Row, operand: OlaOperand)
        ensures { row.new ≡ row_with_all row.old (pieces operand) };

    // Appends what stands in a place, of at most 23 bytes, as a whole where the row has room for all of it. One of more is left out.
    fn push_place(row: &mut Row, operand: OlaOperand)
        ensures { row.new ≡ row_with row.old (place_text pieces operand) }
    {
        let mut place = Row {
            bytes: [0; 82],
            len: 0,
        };
        Self::push_pieces(&mut place, operand);
        if place.len <= 23 {
            row.push_text(&place.bytes[..place.len]);
        }
    }
}

// One space and a place.
fn push_spaced<T: RowText>(row: &mut Row, operand: OlaOperand)
    ensures { row.new ≡ row_with_all row.old (spaced_by as_piece T.pieces operand) }
{
    row.push(b' ');
    T::push_pieces(row, operand);
}

// One space and an address, as `[op0+op1]`.
fn push_memory<T: RowText>(row: &mut Row, op0: OlaOperand, op1: OlaOperand)
    ensures { row.new ≡ row_with_all row.old (bracketed_by as_piece T.pieces T.BETWEEN op0 op1) }
{
    row.push(b' ');
    row.push(b'[');
    T::push_pieces(row, op0);
    row.push(T::BETWEEN);
    T::push_pieces(row, op1);
    row.push(b']');
}

// Two places, after one space each.
fn push_two<T: RowText>(row: &mut Row, a: OlaOperand, b: OlaOperand)
    ensures { row.new ≡ row_with_all row.old (spaced_by as_piece T.pieces a ++ spaced_by as_piece T.pieces b) }
{
    push_spaced::<T>(row, a);
    push_spaced::<T>(row, b);
}

// The places of a row, in its order.
fn push_places<T: RowText>(row: &mut Row, places: RowPlaces, instruction: BinaryInstruction)
    ensures { row.new ≡ row_with_all row.old (placed_by as_piece T.pieces T.BETWEEN places instruction) }
{
    let BinaryInstruction { op0, op1, dst, .. } = instruction;
    match places {
        RowPlaces::DstOp0Op1 => {
            push_spaced::<T>(row, dst);
            push_two::<T>(row, op0, op1);
        }
        RowPlaces::DstOp1 => push_two::<T>(row, dst, op1),
        RowPlaces::DstMemory => {
            push_spaced::<T>(row, dst);
            push_memory::<T>(row, op0, op1);
        }
        RowPlaces::MemoryDst => {
            push_memory::<T>(row, op0, op1);
            push_spaced::<T>(row, dst);
        }
        RowPlaces::Op0Op1 => push_two::<T>(row, op0, op1),
        RowPlaces::Op1 => push_spaced::<T>(row, op1),
        RowPlaces::Bare => {}
    }
}

// Writes the row of an instruction, its mnemonic and its places piece by piece, at byte `at` where it fits, and says how many bytes; otherwise leaves
// the text as it is.
pub fn put_pieces<T: RowText>(
    instruction: BinaryInstruction,
    text: &mut [u8],
    at: usize,
) -> Option<usize>
    ensures { (result ≡ put_count text.old at (row_pushed T.pieces T.BETWEEN instruction)) × (text.new ≡ put_into text.old at (row_pushed T.pieces T.BETWEEN instruction)) }
{
    let mut row = Row {
        bytes: [0; 82],
        len: 0,
    };
    row.push_mnemonic(instruction.opcode);
    push_places::<T>(
        &mut row,
        vm_tables::row_places(instruction.opcode),
        instruction,
    );
    text_write::put_bytes(text, at, &row.bytes[..row.len])
}

// How a row is written whose places go in as a whole.
struct Whole<T>(PhantomData<T>);

impl<T: RowText> RowText for Whole<T> {
    ghost pieces = { whole_pieces T.pieces };

    ghost BETWEEN = { T.BETWEEN };

    const BETWEEN: u8 = T::BETWEEN;

    fn push_pieces(row: &mut Row, operand: OlaOperand) {
        T::push_place(row, operand);
    }
}

// Writes the row of an instruction, its mnemonic and its places as `push_place` appends them, at byte `at` where it fits, and says how many bytes;
// otherwise leaves the text as it is.
#[tactic(auto, using(crate::proofs::Places::whole_laws))]
pub fn put_row<T: RowText>(
    instruction: BinaryInstruction,
    text: &mut [u8],
    at: usize,
) -> Option<usize>
    ensures { (result ≡ put_count text.old at (row_by (place_text T.pieces) T.BETWEEN instruction)) × (text.new ≡ put_into text.old at (row_by (place_text T.pieces) T.BETWEEN instruction)) }
{
    put_pieces::<Whole<T>>(instruction, text, at)
}
