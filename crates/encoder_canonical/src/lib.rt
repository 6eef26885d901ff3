// The canonical instruction of a row, its names looked up in the label table: assembler/src/encoder.rs.
#![tactic(auto)]

ghost use Rattle.std.specs.Prelude.{◌≡◌};
ghost use Rattle.asm.specs.Parts.{name_at};
ghost use Rattle.relocate_chains.specs.ByChains.{by_chains};
ghost use Rattle.encoder.specs.Canonical.{is_bracketed, has_bracket};
ghost use Rattle.encoder_canonical.specs.Held.{held_number, held_plain, held_general, held_anchored, held_memory, held_canonical};

use asm::{OlaAsmInstruction, OlaAsmOperand};
use program::BinaryInstruction;
use relocate::LabelKind;
use relocate_chains::ChainedTable;
use vm_opcodes::{OlaOpcode, RowPlaces};
use vm_operands::{ImmediateValue, OlaOperand};

// Why an instruction row becomes nothing.
#[derive(Clone, Copy)]
pub enum CanonicalRefusal {
    // 10: a name or label that no mapped row of its kind holds.
    Unknown,
    // 11: an mload or mstore whose value is no plain register or whose memory operand is not bracketed.
    Misused,
    // 25: a bracketed operand outside mload and mstore.
    Bracketed,
}

// The number of the row that holds the name that stands at a place of the source.
fn look_up(table: &ChainedTable, kind: u8, start: usize, length: usize) -> Option<OlaOperand>
    ensures { result ≡ held_number (by_chains table.now kind (name_at table.now.source.now start length)) }
{
    let name = relocate_names::name_at(table.source, start, length);
    table
        .chained_address(kind, name)
        .map(|address| OlaOperand::ImmediateOperand {
            value: ImmediateValue::new(address.0),
        })
}

// A place of any operation but mload and mstore: a label is looked up among `.LBL` rows, a name among call rows.
fn plain(table: &ChainedTable, operand: OlaAsmOperand) -> Option<OlaOperand>
    ensures { result ≡ held_plain table.now.source.now (by_chains table.now) operand }
{
    match operand {
        OlaAsmOperand::ImmediateOperand { value } => Some(OlaOperand::ImmediateOperand { value }),
        OlaAsmOperand::RegisterOperand { register } => {
            Some(OlaOperand::RegisterOperand { register })
        }
        OlaAsmOperand::Label { start, length } => {
            look_up(table, LabelKind::Jmp as u8, start, length)
        }
        OlaAsmOperand::Identifier { start, length } => {
            look_up(table, LabelKind::Call as u8, start, length)
        }
        _ => Some(OlaOperand::Empty),
    }
}

// Whether an operand stands in brackets.
fn is_bracketed(operand: OlaAsmOperand) -> bool
    ensures { result ≡ is_bracketed operand }
{
    matches!(
        operand,
        OlaAsmOperand::RegisterWithOffset { .. }
            | OlaAsmOperand::RegisterWithFactoredRegOffset { .. }
    )
}

// Whether one of a row's operands does.
fn has_bracket(instruction: OlaAsmInstruction) -> bool
    ensures { result ≡ has_bracket instruction }
{
    let OlaAsmInstruction { op0, op1, dst, .. } = instruction;
    is_bracketed(op0) || is_bracketed(op1) || is_bracketed(dst)
}

// Any operation but mload and mstore: no brackets, then each place by itself.
#[tactic(auto, unfolding(crate::specs::Held::held_general))]
fn general(
    table: &ChainedTable,
    instruction: OlaAsmInstruction,
) -> Result<BinaryInstruction, CanonicalRefusal>
    ensures { result ≡ held_general table.now.source.now (by_chains table.now) instruction }
{
    if has_bracket(instruction) {
        return Err(CanonicalRefusal::Bracketed);
    }
    let OlaAsmInstruction {
        opcode,
        op0,
        op1,
        dst,
    } = instruction;
    let op0 = plain(table, op0).ok_or(CanonicalRefusal::Unknown)?;
    let op1 = plain(table, op1).ok_or(CanonicalRefusal::Unknown)?;
    let dst = plain(table, dst).ok_or(CanonicalRefusal::Unknown)?;
    Ok(BinaryInstruction::new(opcode, op0, op1, dst))
}

// An mload or mstore from its memory operand, which has the anchor and an offset, and its value.
fn anchored(
    opcode: OlaOpcode,
    bracketed: OlaAsmOperand,
    value: OlaOperand,
) -> Result<BinaryInstruction, CanonicalRefusal>
    ensures { result ≡ held_anchored opcode bracketed value }
{
    let (register, op1) = match bracketed {
        OlaAsmOperand::RegisterWithOffset { register, offset } => {
            (register, OlaOperand::ImmediateOperand { value: offset })
        }
        OlaAsmOperand::RegisterWithFactoredRegOffset {
            register,
            offset_register,
            factor,
        } => {
            let op1 = OlaOperand::RegisterWithFactor {
                register: offset_register,
                factor,
            };
            (register, op1)
        }
        _ => return Err(CanonicalRefusal::Misused),
    };
    let op0 = OlaOperand::RegisterOperand { register };
    Ok(BinaryInstruction::new(opcode, op0, op1, value))
}

// An mload or mstore, whose value is a plain register.
#[tactic(auto, unfolding(crate::specs::Held::held_memory))]
fn memory(
    opcode: OlaOpcode,
    bracketed: OlaAsmOperand,
    value: OlaAsmOperand,
) -> Result<BinaryInstruction, CanonicalRefusal>
    ensures { result ≡ held_memory opcode bracketed value }
{
    match value {
        OlaAsmOperand::RegisterOperand { register } => {
            anchored(opcode, bracketed, OlaOperand::RegisterOperand { register })
        }
        _ => Err(CanonicalRefusal::Misused),
    }
}

// The canonical instruction of an instruction row. mload's memory operand stands in op1 of the row, mstore's in op0 with the value in op1.
#[tactic(auto, unfolding(crate::specs::Held::held_by))]
pub fn canonical_of(
    table: &ChainedTable,
    instruction: OlaAsmInstruction,
) -> Result<BinaryInstruction, CanonicalRefusal>
    ensures { result ≡ held_canonical table.now.source.now (by_chains table.now) instruction }
{
    let OlaAsmInstruction {
        opcode,
        op0,
        op1,
        dst,
    } = instruction;
    match vm_tables::row_places(opcode) {
        RowPlaces::DstMemory => memory(opcode, op1, dst),
        RowPlaces::MemoryDst => memory(opcode, op0, op1),
        _ => general(table, instruction),
    }
}
