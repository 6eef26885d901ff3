// OlaOpcode and its order: core/src/vm/opcodes.rs. Its tables by that order are in crate vm_tables.
#![tactic(auto)]

ghost use Rattle.std.specs.Prelude.{◌≡◌};
ghost use Rattle.vm_opcodes.specs.Operations.{index_of};

// The operations, in the order of the Rust.
#[derive(Clone, Copy, PartialEq, Eq)]
pub enum OlaOpcode {
    ADD,
    MUL,
    EQ,
    ASSERT,
    MOV,
    JMP,
    CJMP,
    CALL,
    RET,
    MLOAD,
    MSTORE,
    END,
    RC,
    AND,
    OR,
    XOR,
    NOT,
    NEQ,
    GTE,
    POSEIDON,
    SLOAD,
    SSTORE,
    TLOAD,
    TSTORE,
    SCCALL,
    SIGCHECK,
    EVENT,
}

// The places that a row has after its mnemonic, in the row's order. Memory is op0 and op1 together, written `[op0+op1]` in a listing.
#[derive(Clone, Copy)]
pub enum RowPlaces {
    DstOp0Op1,
    DstOp1,
    DstMemory,
    MemoryDst,
    Op0Op1,
    Op1,
    Bare,
}

impl OlaOpcode {
    // The operation's place in the order of the enum, from 0.
    pub fn index(self) -> usize
        ensures { result ≡ index_of self }
    {
        self as usize
    }
}
