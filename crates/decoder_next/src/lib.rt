// The next instruction of a bytecode, on its text and an offset: refusals 14 to 20.
#![tactic(auto)]

ghost use Rattle.std.specs.Prelude.{◌≡◌};
ghost use Rattle.decoder.specs.Steps.{step_numbered, stepped_at};

use decoder::{NextRefusal, OpenRefusal, StepAt};
use decoder_lines::InstructionAt;

// The instruction whose first line begins at an offset, as if the text began there, and the offset of the line after it.
// Promises: run_by_offsets, opened_run, opened_form.
#[tactic(auto, using(crate::proofs::NextLaws::at_laws))]
pub fn next_at(text: &[u8], offset: usize) -> StepAt
    ensures { step_numbered result ≡ stepped_at text.now offset }
{
    let read = if decoder::MAX_BYTECODE_BYTES < text.len() {
        Err(NextRefusal::Open(OpenRefusal::TextTooLong))
    } else {
        decoder_lines::decode_at(text, offset, 0)
    };
    match read {
        Ok(
            InstructionAt {
                instruction,
                lines,
                next,
            },
        ) => StepAt {
            found: Ok(instruction),
            lines,
            offset: next,
        },
        Err(refusal) => StepAt {
            found: Err(refusal),
            lines: 0,
            offset,
        },
    }
}
