// Rows and places that go in as a whole. The rows are as the Rust lists them (crates/replay/data/instructions).
use super::{Row, RowText, put_row};
use crate::Listed;
use program::BinaryInstruction;
use vm_hardware::{OlaRegister, OlaSpecialRegister};
use vm_opcodes::OlaOpcode;
use vm_operands::{ImmediateValue, OlaOperand};

#[test]
fn put_row_as_listed(rt: HostRuntime) {
    let mload = BinaryInstruction {
        opcode: OlaOpcode::MLOAD,
        op0: OlaOperand::RegisterOperand {
            register: OlaRegister::R0,
        },
        op1: OlaOperand::RegisterWithOffset {
            register: OlaRegister::R8,
            offset: ImmediateValue { number: 56 },
        },
        dst: OlaOperand::RegisterOperand {
            register: OlaRegister::R4,
        },
    };
    let mut text = [b'.'; 24];
    assert_eq!(rt; put_row::<Listed>(mload, &mut text, 2), Some(21));
    assert_eq!(rt; text, *b"..mload r4 [r0+r8+0x38].");
    let mut short = [b'.'; 20];
    assert_eq!(rt; put_row::<Listed>(mload, &mut short, 0), None);
    assert_eq!(rt; short, [b'.'; 20]);
    let cjmp = BinaryInstruction {
        opcode: OlaOpcode::CJMP,
        op0: OlaOperand::RegisterWithFactor {
            register: OlaRegister::R2,
            factor: ImmediateValue { number: 259 },
        },
        op1: OlaOperand::SpecialReg {
            special_reg: OlaSpecialRegister::PSP,
        },
        dst: OlaOperand::Empty,
    };
    let mut text = [b'.'; 17];
    assert_eq!(rt; put_row::<Listed>(cjmp, &mut text, 0), Some(17));
    assert_eq!(rt; text, *b"cjmp 0x103*r2 psp");
}

// Of `r1+0x2` a row with room for three bytes more takes two pieces one by one, and nothing as a whole.
#[test]
fn push_place_whole(rt: HostRuntime) {
    let operand = OlaOperand::RegisterWithOffset {
        register: OlaRegister::R1,
        offset: ImmediateValue { number: 2 },
    };
    let mut row = Row {
        bytes: [b'.'; 82],
        len: 79,
    };
    Listed::push_place(&mut row, operand);
    assert_eq!(rt; row.len, 79);
    Listed::push_pieces(&mut row, operand);
    assert_eq!(rt; row.len, 82);
    let mut row = Row {
        bytes: [b'.'; 82],
        len: 76,
    };
    Listed::push_place(&mut row, operand);
    assert_eq!(rt; row.len, 82);
    assert_eq!(rt; &row.bytes[76..], b"r1+0x2".as_slice());
}
