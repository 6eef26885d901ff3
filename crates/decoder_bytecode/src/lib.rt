// The opened bytecode: open and next over the functions on a text and a line.
#![tactic(auto)]

ghost use Rattle.std.specs.Prelude.{◌≡◌};
ghost use Rattle.decoder_bytecode.specs.Forms.{open_form, open_of, step_form, step_of};

use decoder::{NextRefusal, OpenRefusal};
use program::BinaryInstruction;

// An opened bytecode: the caller's text and the line reached.
#[derive(Clone, Copy)]
pub struct Bytecode<'a> {
    pub text: &'a [u8],
    pub line: usize,
}

// Whether a text opened, and the reader at its first line. The reader stands beside the Result, since `open_of` promises it on a refusal too.
#[derive(Clone, Copy)]
pub struct Opened<'a> {
    pub opening: Result<(), OpenRefusal>,
    pub bytecode: Bytecode<'a>,
}

// What a call found, and the reader: the same one after a refusal, as `step_of` promises.
#[derive(Clone, Copy)]
pub struct Step<'a> {
    pub found: Result<BinaryInstruction, NextRefusal>,
    pub bytecode: Bytecode<'a>,
}

// Whether a text opens as bytecode, 14 to 19, and the reader at its first line.
// Promises: bytecode_opens, opened_run, opened_form, source_reads_again.
pub fn open<'a>(text: &'a [u8]) -> Opened<'a>
    ensures { open_form result ≡ open_of text.entry }
{
    Opened {
        opening: decoder_open::open_text(text),
        bytecode: Bytecode { text, line: 0 },
    }
}

// The next instruction or why there is none, 14 to 20, and the reader after it.
// Promises: run_reads, run_by_offsets, opened_run, opened_form.
pub fn next<'a>(bytecode: Bytecode<'a>) -> Step<'a>
    ensures { step_form result ≡ step_of bytecode.entry }
{
    let step = decoder_runs::next_line(bytecode.text, bytecode.line);
    Step {
        found: step.found,
        bytecode: Bytecode {
            line: step.line,
            ..bytecode
        },
    }
}
