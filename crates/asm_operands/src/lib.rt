// The operand reader: `from_str` of assembler/src/operands.rs. One function for each shape, under the name and in the order of that file: `try_reg` is its `regex_reg`.
// Above each stand 01's shape, the file's pattern as it is written there, and what a Point of 02 changed in it. Where the file matches a pattern and then reads
// its parts, one function does both here. tests/shapes sees to names, order and patterns.
// Three are inlined: the room for what each of them answers was cleared at every operand.
#![tactic(auto)]

ghost use Rattle.std.specs.Prelude.{◌≡◌};
ghost use Rattle.asm.specs.Operands.{factored, paired, bare, offset, register, number, label, special, name, operand_of};
ghost use Rattle.asm_operands.specs.Tried.{tried, anchor_of, second_of};

use asm::OlaAsmOperand;
use asm_shapes::OutOfRange;
use vm_hardware::OlaRegister;
use vm_operands::ImmediateValue;

// The register after the opening bracket of a piece that ends in the closing one.
#[tactic(auto, using(crate::proofs::Laws::anchor_laws))]
fn anchor(piece: &[u8]) -> Option<OlaRegister>
    ensures { result ≡ anchor_of piece.now }
{
    let [b'[', .., b']'] = piece else {
        return None;
    };
    asm_shapes::register_at(piece, 1)
}

// The register after the comma at place 3.
#[tactic(auto, using(crate::proofs::Laws::second_laws))]
fn second(piece: &[u8]) -> Option<OlaRegister>
    ensures { result ≡ second_of piece.now }
{
    if !asm_shapes::byte_is(piece, 3, b',') {
        return None;
    }
    asm_shapes::register_at(piece, 4)
}

// `[rA,rB,n]`
// r"^\[(?P<reg>r[0-9]),(?P<offset_reg>r[0-9]),(?P<factor>[\+-]?[[:digit:]]+)\]$"
// 02, Point 4: factor may also be `0x` and one to sixteen hexadecimal digits.
#[tactic(auto, using(crate::proofs::Laws::factored_laws))]
fn try_reg_with_reg_factored_offset(piece: &[u8]) -> Result<Option<OlaAsmOperand>, OutOfRange>
    ensures { result ≡ tried factored (record { start = 0; text = piece.now }) }
{
    let Some(register) = anchor(piece) else {
        return Ok(None);
    };
    let Some(offset_register) = second(piece) else {
        return Ok(None);
    };
    if !asm_shapes::byte_is(piece, 6, b',') {
        return Ok(None);
    }
    let Some(factor) = asm_shapes::source_number(&piece[7..piece.len() - 1])? else {
        return Ok(None);
    };
    Ok(Some(OlaAsmOperand::RegisterWithFactoredRegOffset {
        register,
        offset_register,
        factor,
    }))
}

// `[rA,rB]` (factor 1)
// r"^\[(?P<reg>r[0-9]),(?P<offset_reg>r[0-9])\]$"
#[tactic(auto, using(crate::proofs::Laws::paired_laws))]
fn try_reg_with_reg_offset(piece: &[u8]) -> Result<Option<OlaAsmOperand>, OutOfRange>
    ensures { result ≡ tried paired (record { start = 0; text = piece.now }) }
{
    let Some(register) = anchor(piece) else {
        return Ok(None);
    };
    let Some(offset_register) = second(piece) else {
        return Ok(None);
    };
    if piece.len() != 7 {
        return Ok(None);
    }
    Ok(Some(OlaAsmOperand::RegisterWithFactoredRegOffset {
        register,
        offset_register,
        factor: ImmediateValue { number: 1 },
    }))
}

// `[rA]` (offset 0)
// r"^\[(?P<reg>r[0-9])\]$"
#[tactic(auto, using(crate::proofs::Laws::bare_laws))]
fn try_reg_with_default_offset(piece: &[u8]) -> Result<Option<OlaAsmOperand>, OutOfRange>
    ensures { result ≡ tried bare (record { start = 0; text = piece.now }) }
{
    let Some(register) = anchor(piece) else {
        return Ok(None);
    };
    if piece.len() != 4 {
        return Ok(None);
    }
    Ok(Some(OlaAsmOperand::RegisterWithOffset {
        register,
        offset: ImmediateValue { number: 0 },
    }))
}

// `[rA,n]`
// r"^\[(?P<reg>r[0-9]),(?P<offset>[\+-]?[[:digit:]]+)\]$"
// 02, Point 4: offset may also be `0x` and one to sixteen hexadecimal digits.
#[tactic(auto, using(crate::proofs::Laws::offset_laws))]
fn try_reg_offset(piece: &[u8]) -> Result<Option<OlaAsmOperand>, OutOfRange>
    ensures { result ≡ tried offset (record { start = 0; text = piece.now }) }
{
    let Some(register) = anchor(piece) else {
        return Ok(None);
    };
    if !asm_shapes::byte_is(piece, 3, b',') {
        return Ok(None);
    }
    let Some(offset) = asm_shapes::source_number(&piece[4..piece.len() - 1])? else {
        return Ok(None);
    };
    Ok(Some(OlaAsmOperand::RegisterWithOffset { register, offset }))
}

// `rA`
// r"^(?P<reg>r[0-9])$"
#[tactic(auto, using(crate::proofs::OtherLaws::register_laws))]
fn try_reg(piece: &[u8]) -> Result<Option<OlaAsmOperand>, OutOfRange>
    ensures { result ≡ tried register (record { start = 0; text = piece.now }) }
{
    let Some(register) = vm_registers::register_from_str(piece) else {
        return Ok(None);
    };
    Ok(Some(OlaAsmOperand::RegisterOperand { register }))
}

// n
// r"^(?P<imm>[\+-]?[[:digit:]]+)$"
// 02, Point 4: imm may also be `0x` and one to sixteen hexadecimal digits.
#[tactic(auto, using(crate::proofs::OtherLaws::number_laws))]
fn try_immediate_value(piece: &[u8]) -> Result<Option<OlaAsmOperand>, OutOfRange>
    ensures { result ≡ tried number (record { start = 0; text = piece.now }) }
{
    let Some(value) = asm_shapes::source_number(piece)? else {
        return Ok(None);
    };
    Ok(Some(OlaAsmOperand::ImmediateOperand { value }))
}

// A label: a dot, `LBL`, digits, `_`, digits.
// r"^(?P<label>.LBL[[:digit:]]+_[[:digit:]]+)$"
// 02, Point 2: the first character is a dot, where the pattern takes any.
#[tactic(auto, using(crate::proofs::OtherLaws::label_laws))]
#[inline(always)]
fn try_label(piece: &[u8], start: usize) -> Result<Option<OlaAsmOperand>, OutOfRange>
    ensures { result ≡ tried label (record { start = start; text = piece.now }) }
{
    let Some(pair) = piece.strip_prefix(b".LBL") else {
        return Ok(None);
    };
    if !asm_shapes::is_pair(pair) {
        return Ok(None);
    }
    Ok(Some(OlaAsmOperand::Label {
        start,
        length: piece.len(),
    }))
}

// `pc` or `psp`
// OlaSpecialRegister::from_str(s)
#[tactic(auto, using(crate::proofs::OtherLaws::special_laws))]
#[inline(always)]
fn try_special_reg(piece: &[u8]) -> Result<Option<OlaAsmOperand>, OutOfRange>
    ensures { result ≡ tried special (record { start = 0; text = piece.now }) }
{
    let Some(special_reg) = vm_registers::special_from_str(piece) else {
        return Ok(None);
    };
    Ok(Some(OlaAsmOperand::SpecialReg { special_reg }))
}

// A name.
// r"^(?P<identifier>_*[[:alpha:]]+[[:word:]]*)$"
#[tactic(auto, using(crate::proofs::OtherLaws::name_laws))]
#[inline(always)]
fn try_identifier(piece: &[u8], start: usize) -> Result<Option<OlaAsmOperand>, OutOfRange>
    ensures { result ≡ tried name (record { start = start; text = piece.now }) }
{
    if !asm_shapes::is_name(piece) {
        return Ok(None);
    }
    Ok(Some(OlaAsmOperand::Identifier {
        start,
        length: piece.len(),
    }))
}

// What a piece that starts at a place of the source is as an operand: the first shape that it has.
pub fn from_str(piece: &[u8], start: usize) -> Option<OlaAsmOperand>
    ensures { result ≡ operand_of (record { start = start; text = piece.now }) }
{
    match try_reg_with_reg_factored_offset(piece) {
        Ok(Some(operand)) => return Some(operand),
        Ok(None) => {}
        Err(OutOfRange) => return None,
    }
    match try_reg_with_reg_offset(piece) {
        Ok(Some(operand)) => return Some(operand),
        Ok(None) => {}
        Err(OutOfRange) => return None,
    }
    match try_reg_with_default_offset(piece) {
        Ok(Some(operand)) => return Some(operand),
        Ok(None) => {}
        Err(OutOfRange) => return None,
    }
    match try_reg_offset(piece) {
        Ok(Some(operand)) => return Some(operand),
        Ok(None) => {}
        Err(OutOfRange) => return None,
    }
    match try_reg(piece) {
        Ok(Some(operand)) => return Some(operand),
        Ok(None) => {}
        Err(OutOfRange) => return None,
    }
    match try_immediate_value(piece) {
        Ok(Some(operand)) => return Some(operand),
        Ok(None) => {}
        Err(OutOfRange) => return None,
    }
    match try_label(piece, start) {
        Ok(Some(operand)) => return Some(operand),
        Ok(None) => {}
        Err(OutOfRange) => return None,
    }
    match try_special_reg(piece) {
        Ok(Some(operand)) => return Some(operand),
        Ok(None) => {}
        Err(OutOfRange) => return None,
    }
    match try_identifier(piece, start) {
        Ok(Some(operand)) => return Some(operand),
        Ok(None) => {}
        Err(OutOfRange) => return None,
    }
    None
}
