// The listing row of one instruction: `get_asm_form_code` of core/src/program/binary_program.rs.
// A row is put together by itself and written once, so that a refusal leaves the lent text as it is.
#![tactic(auto)]

ghost use Rattle.std.specs.Prelude.{◌≡◌, length};
ghost use Rattle.program.specs.Bytecode.{text_left};
ghost use Rattle.program.specs.Listing.{row_written};
ghost use Rattle.program_bytecode.specs.Written.{count_of};
ghost use Rattle.program_listing.specs.Row.{is_empty_place, lacks_place, content_pieces, row_numbered};

pub mod row;

use program::{BinaryInstruction, RowRefusal};
use row::{Row, RowText, put_pieces};
use vm_opcodes::RowPlaces;
use vm_operands::OlaOperand;

// Whether a place is empty.
fn is_empty(operand: OlaOperand) -> bool
    ensures { result ≡ is_empty_place operand }
{
    matches!(operand, OlaOperand::Empty)
}

// Whether a place that the row needs is empty.
fn lacks_place(places: RowPlaces, instruction: BinaryInstruction) -> bool
    ensures { result ≡ lacks_place places instruction }
{
    let BinaryInstruction { op0, op1, dst, .. } = instruction;
    match places {
        RowPlaces::DstOp0Op1 | RowPlaces::DstMemory => is_empty(dst)
            || is_empty(op0)
            || is_empty(op1),
        RowPlaces::DstOp1 => is_empty(dst) || is_empty(op1),
        RowPlaces::MemoryDst => is_empty(op0) || is_empty(op1) || is_empty(dst),
        RowPlaces::Op0Op1 => is_empty(op0) || is_empty(op1),
        RowPlaces::Op1 => is_empty(op1),
        RowPlaces::Bare => false,
    }
}

// How a listing row writes a place.
struct Listed;

impl RowText for Listed {
    ghost pieces = { content_pieces };

    ghost BETWEEN = { 43 };

    const BETWEEN: u8 = b'+';

    // A register with offset as `r1+0x2`, one with factor as `0x2*r1`; nothing for an empty place.
    fn push_pieces(row: &mut Row, operand: OlaOperand) {
        match operand {
            OlaOperand::Empty => {}
            OlaOperand::ImmediateOperand { value } => row.push_hex(value),
            OlaOperand::RegisterOperand { register } => row.push_register(register),
            OlaOperand::RegisterWithOffset { register, offset } => {
                row.push_register(register);
                row.push(b'+');
                row.push_hex(offset);
            }
            OlaOperand::RegisterWithFactor { register, factor } => {
                row.push_hex(factor);
                row.push(b'*');
                row.push_register(register);
            }
            OlaOperand::SpecialReg { special_reg } => row.push_special(special_reg),
        }
    }
}

// Writes the listing row of an instruction, or refuses it by 21, 24 or 23 and leaves the text as it is.
pub fn get_asm_form_code(
    instruction: BinaryInstruction,
    text: &mut [u8],
) -> Result<usize, RowRefusal>
    ensures { (row_numbered result ≡ count_of (row_written instruction (length text.old))) × (text.new ≡ text_left (row_written instruction (length text.old)) text.old) }
{
    let places = vm_tables::row_places(instruction.opcode);
    if program_encode::has_too_large(instruction) {
        return Err(RowRefusal::NumberTooLarge);
    }
    if lacks_place(places, instruction) {
        return Err(RowRefusal::PlaceEmpty);
    }
    put_pieces::<Listed>(instruction, text, 0).ok_or(RowRefusal::TextTooShort)
}
