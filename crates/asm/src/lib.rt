// Operands and rows of a source: assembler/src/operands.rs and assembler/src/asm.rs.
#![tactic(auto)]

ghost use Rattle.std.specs.Prelude.{◌≡◌};
ghost use Rattle.asm.specs.Rows.{instruction_row};
ghost use Rattle.asm.specs.Survey.{row_count};

use vm_hardware::{OlaRegister, OlaSpecialRegister};
use vm_opcodes::OlaOpcode;
use vm_operands::ImmediateValue;

// A count of rows, the source's line_num: the detail of refusals 3, 10, 11, 12 and 25. It is never added to a word address.
#[derive(Clone, Copy)]
pub struct RowCount(pub usize);

// What a place of a source row holds. A label or a name is the part of the source that it stands in.
#[derive(Clone, Copy)]
pub enum OlaAsmOperand {
    Empty,
    ImmediateOperand {
        value: ImmediateValue,
    },
    RegisterOperand {
        register: OlaRegister,
    },
    RegisterWithOffset {
        register: OlaRegister,
        offset: ImmediateValue,
    },
    RegisterWithFactoredRegOffset {
        register: OlaRegister,
        offset_register: OlaRegister,
        factor: ImmediateValue,
    },
    SpecialReg {
        special_reg: OlaSpecialRegister,
    },
    Label {
        start: usize,
        length: usize,
    },
    Identifier {
        start: usize,
        length: usize,
    },
}

// An instruction row: its operation and its operands by place.
#[derive(Clone, Copy)]
pub struct OlaAsmInstruction {
    pub opcode: OlaOpcode,
    pub op0: OlaAsmOperand,
    pub op1: OlaAsmOperand,
    pub dst: OlaAsmOperand,
}

// A row. A label row is the part of the source that its name stands in, without the colon.
#[derive(Clone, Copy)]
pub enum AsmRow {
    Instruction(OlaAsmInstruction),
    LabelCall { start: usize, length: usize },
    LabelJmp { start: usize, length: usize },
    LabelProphet { start: usize, length: usize },
}

// What reading a line finds: no row where it has no piece.
#[derive(Clone, Copy)]
pub enum LineRead {
    Blank,
    Row(AsmRow),
    Unreadable,
}

// A line that was read, and where the line after it starts.
#[derive(Clone, Copy)]
pub struct RowAt {
    pub read: LineRead,
    pub next: usize,
}

// What the rows of a text add up to: how many, how many of them are label rows, instruction rows and call labels `main`; the counted length
// and the words of the instructions; where the first call label starts, where main's scope begins, and the call label that ends it.
#[derive(Clone, Copy, Default)]
pub struct Tally {
    pub rows: usize,
    pub labels: usize,
    pub instructions: usize,
    pub mains: usize,
    pub counted: usize,
    pub words: usize,
    pub call: Option<usize>,
    pub main: Option<usize>,
    pub end: Option<usize>,
}

impl RowCount {
    pub fn new(rows: usize) -> Self
        ensures { result ≡ row_count rows }
    {
        Self(rows)
    }
}

impl OlaAsmInstruction {
    pub fn new(
        opcode: OlaOpcode,
        op0: OlaAsmOperand,
        op1: OlaAsmOperand,
        dst: OlaAsmOperand,
    ) -> Self
        ensures { result ≡ instruction_row opcode op0 op1 dst }
    {
        Self {
            opcode,
            op0,
            op1,
            dst,
        }
    }
}
