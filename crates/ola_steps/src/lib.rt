// What opening and a call of next answer as C structs: refusal 0 means accepted, and on refusal every other number but the detail is 0, but a step's line
// stays where it was. Nothing but conversions.
#![tactic(auto)]

ghost use Rattle.std.specs.Prelude.{◌≡◌};
ghost use Rattle.decoder.specs.Open.{open_number, open_detail, next_number, next_detail};
ghost use Rattle.decoder.specs.Steps.{open_numbered, found_numbered};
ghost use Rattle.ola_steps.specs.Steps.{opened_of, step_of};

use decoder::{NextRefusal, OpenRefusal};
use ola_places::{OlaInstruction, OlaPlace};
use program::BinaryInstruction;

#[repr(C)]
#[derive(Clone, Copy)]
pub struct OlaOpened {
    pub refusal: u64,
    pub detail: u64,
}

// The line is the line reached; of a step by offsets, the offset.
#[repr(C)]
#[derive(Clone, Copy)]
pub struct OlaStep {
    pub refusal: u64,
    pub detail: u64,
    pub line: u64,
    pub instruction: OlaInstruction,
}

const NO_PLACE: OlaPlace = OlaPlace {
    content: 0,
    reg: 0,
    number: 0,
};

const NO_INSTRUCTION: OlaInstruction = OlaInstruction {
    opcode: 0,
    op0: NO_PLACE,
    op1: NO_PLACE,
    dst: NO_PLACE,
};

// The number of a refusal from 14 to 19, and its detail.
fn open_told(refusal: OpenRefusal) -> (u64, u64)
    ensures number { result.0 ≡ open_number refusal }
    ensures detail { result.1 ≡ open_detail refusal }
{
    match refusal {
        OpenRefusal::TextTooLong => (14, 0),
        OpenRefusal::FirstWordUnreadable(line) => (15, line as u64),
        OpenRefusal::NoOperation(index) => (16, index as u64),
        OpenRefusal::LineTooMany(index) => (17, index as u64),
        OpenRefusal::SecondLineUnreadable(index) => (18, index as u64),
        OpenRefusal::RegisterMissing(index) => (19, index as u64),
    }
}

// The number of a refusal from 14 to 20, and its detail.
fn next_told(refusal: NextRefusal) -> (u64, u64)
    ensures number { result.0 ≡ next_number refusal }
    ensures detail { result.1 ≡ next_detail refusal }
{
    match refusal {
        NextRefusal::Open(inner) => open_told(inner),
        NextRefusal::NoneLeft => (20, 0),
    }
}

// The number of a refusal from 14 to 19.
pub fn open_number(refusal: OpenRefusal) -> u64
    ensures { result ≡ open_number refusal }
{
    open_told(refusal).0
}

// And its detail.
pub fn open_detail(refusal: OpenRefusal) -> u64
    ensures { result ≡ open_detail refusal }
{
    open_told(refusal).1
}

// What opening answered.
pub fn opened_out(answer: Result<(), OpenRefusal>) -> OlaOpened
    ensures { result ≡ opened_of (open_numbered answer) }
{
    let (refusal, detail) = answer.err().map_or((0, 0), open_told);
    OlaOpened { refusal, detail }
}

// What a call of next found, and the line or offset reached.
pub fn step_out(answer: Result<BinaryInstruction, NextRefusal>, line: usize) -> OlaStep
    ensures { result ≡ step_of (found_numbered answer) line }
{
    let (refusal, detail) = answer.err().map_or((0, 0), next_told);
    OlaStep {
        refusal,
        detail,
        line: line as u64,
        instruction: answer.map_or(NO_INSTRUCTION, ola_places::instruction_out),
    }
}
