// The words of one instruction: the halves of `encode` of core/src/program/binary_program.rs that write, and refuse nothing.
#![tactic(auto)]

ghost use Rattle.std.specs.Prelude.{◌≡◌};
ghost use Rattle.program.specs.Instructions.{carried, register_in};
ghost use Rattle.program.specs.Words.{register_bits, number_bit, first_word, second_word};
ghost use Rattle.program_words.specs.Later.{later};

use program::BinaryInstruction;
use vm_hardware::Place;
use vm_operands::OlaOperand;

// The bit of a content's register in a place, 0 where it has none.
fn register_bits(place: Place, operand: OlaOperand) -> u64
    ensures { result ≡ register_bits place (register_in operand) }
{
    match operand {
        OlaOperand::RegisterOperand { register }
        | OlaOperand::RegisterWithOffset { register, .. }
        | OlaOperand::RegisterWithFactor { register, .. } => register.binary_bit_mask(place),
        _ => 0,
    }
}

// Bit 62 for a number.
fn number_bit(operand: OlaOperand) -> u64
    ensures { result ≡ number_bit operand }
{
    match operand {
        OlaOperand::ImmediateOperand { .. } => 1 << BinaryInstruction::BIT_SHIFT_OP1_IMM,
        _ => 0,
    }
}

// The first word: the bits do not meet, so that their sum is the word that has them all.
#[tactic(auto, using(program::proofs::WordLaws::first_lt))]
pub fn first_word(instruction: BinaryInstruction) -> u64
    ensures { result ≡ first_word instruction }
{
    register_bits(Place::Op0, instruction.op0)
        + register_bits(Place::Op1, instruction.op1)
        + register_bits(Place::Dst, instruction.dst)
        + number_bit(instruction.op1)
        + vm_tables::binary_bit_mask(instruction.opcode)
}

// The number, offset or factor that a content carries, otherwise the word that an earlier place gave.
fn later_word(earlier: Option<u64>, operand: OlaOperand) -> Option<u64>
    ensures { result ≡ later earlier (carried operand) }
{
    match operand {
        OlaOperand::ImmediateOperand { value }
        | OlaOperand::RegisterWithOffset { offset: value, .. }
        | OlaOperand::RegisterWithFactor { factor: value, .. } => Some(value.number),
        _ => earlier,
    }
}

// The second word: of the numbers that places carry the last of op0, op1, dst.
pub fn second_word(instruction: BinaryInstruction) -> Option<u64>
    ensures { result ≡ second_word instruction }
{
    let first = later_word(None, instruction.op0);
    let second = later_word(first, instruction.op1);
    later_word(second, instruction.dst)
}
