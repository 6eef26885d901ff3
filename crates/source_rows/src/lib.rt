// The source row of one instruction: whether its operation's row has a place for every content, and the row written.
// A row is put together by itself and written once, so that a text that is too short is left as it is.
#![tactic(auto)]

ghost use Rattle.std.specs.Prelude.{◌≡◌};
ghost use Rattle.text_write.specs.Put.{put_count, put_into};
ghost use Rattle.source.specs.SourceText.{source_row, is_full, off_row, is_off_row};
ghost use Rattle.source_rows.specs.Pieces.{source_pieces};

use program::BinaryInstruction;
use program_listing::row::{Row, RowText, put_pieces};
use vm_hardware::OlaSpecialRegister;
use vm_opcodes::RowPlaces;
use vm_operands::OlaOperand;

// Whether a place has contents.
fn is_full(operand: OlaOperand) -> bool
    ensures { result ≡ is_full operand }
{
    !matches!(operand, OlaOperand::Empty)
}

// Whether a place that the row does not have has contents.
fn off_row(places: RowPlaces, instruction: BinaryInstruction) -> bool
    ensures { result ≡ off_row places instruction }
{
    let BinaryInstruction { op0, op1, dst, .. } = instruction;
    match places {
        RowPlaces::DstOp0Op1 | RowPlaces::DstMemory | RowPlaces::MemoryDst => false,
        RowPlaces::DstOp1 => is_full(op0),
        RowPlaces::Op0Op1 => is_full(dst),
        RowPlaces::Op1 => is_full(op0) || is_full(dst),
        RowPlaces::Bare => is_full(op0) || is_full(op1) || is_full(dst),
    }
}

// Whether an instruction has contents in a place that its operation's row does not have.
// Promises: source_refused, first_off_row_lem, no_row_reads_so.
pub fn is_off_row(instruction: BinaryInstruction) -> bool
    ensures { result ≡ is_off_row instruction }
{
    off_row(vm_tables::row_places(instruction.opcode), instruction)
}

// How a source row writes a place.
struct Source;

impl RowText for Source {
    ghost pieces = { source_pieces };

    ghost BETWEEN = { 44 };

    const BETWEEN: u8 = b',';

    // Numbers in decimal, a register and its number with a comma between them; psp for an empty place.
    fn push_pieces(row: &mut Row, operand: OlaOperand) {
        match operand {
            OlaOperand::Empty => row.push_special(OlaSpecialRegister::PSP),
            OlaOperand::ImmediateOperand { value } => row.push_decimal(value),
            OlaOperand::RegisterOperand { register } => row.push_register(register),
            OlaOperand::RegisterWithOffset {
                register,
                offset: value,
            }
            | OlaOperand::RegisterWithFactor {
                register,
                factor: value,
            } => {
                row.push_register(register);
                row.push(b',');
                row.push_decimal(value);
            }
            OlaOperand::SpecialReg { special_reg } => row.push_special(special_reg),
        }
    }
}

// Writes the source row of an instruction at byte `at` where it fits, and says how many bytes; otherwise leaves the text as it is.
// Promises: source_written_lem.
#[tactic(auto, using(crate::proofs::Laws::put_laws))]
pub fn put_source_row(text: &mut [u8], at: usize, instruction: BinaryInstruction) -> Option<usize>
    ensures { (result ≡ put_count text.old at (source_row instruction)) × (text.new ≡ put_into text.old at (source_row instruction)) }
{
    put_pieces::<Source>(instruction, text, at)
}
