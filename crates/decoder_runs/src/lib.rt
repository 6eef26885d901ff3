// The next instruction of a bytecode from a line on, and what a call of a run answers, both by offsets: refusals 14 to 20.
#![tactic(auto)]

ghost use Rattle.std.specs.Prelude.{◌≡◌};
ghost use Rattle.decoder.specs.Steps.{found_numbered, line_numbered, stepped, lines_end, nth_call};

use decoder::{LineStep, NextRefusal};
use program::BinaryInstruction;

// The offset at which a line starts, the text's end where there are not so many.
#[tactic(auto, using(crate::proofs::RunLaws::line_laws))]
fn line_offset(text: &[u8], line: usize) -> usize
    ensures { result ≡ lines_end line text.now }
{
    let mut at = 0;
    for _ in 0..line {
        if at == text.len() {
            return at;
        }
        let first = text_lines::first_line(&text[at..]);
        at += first.next;
    }
    at
}

// The instruction from a line on, as if the text began there, and the line reached.
// Promises: run_reads, run_by_offsets, opened_run, opened_form.
#[tactic(auto, using(crate::proofs::RunLaws::step_laws))]
pub fn next_line(text: &[u8], line: usize) -> LineStep
    ensures { line_numbered result ≡ stepped text.now line }
{
    let offset = line_offset(text, line);
    let step = decoder_next::next_at(text, offset);
    LineStep {
        found: step.found,
        line: line + step.lines,
    }
}

// What the k-th call, from 0, of a run of calls from the first line answers. After a refusal the reader stays, so every later call answers the same.
// Promises: nth_reads, opened_run, opened_form.
#[tactic(auto, using(crate::proofs::RunLaws::nth_laws))]
pub fn nth(text: &[u8], k: usize) -> Result<BinaryInstruction, NextRefusal>
    ensures { found_numbered result ≡ nth_call text.now k }
{
    let mut offset = 0;
    for _ in 0..k {
        let step = decoder_next::next_at(text, offset);
        if step.lines == 0 {
            return step.found;
        }
        offset = step.offset;
    }
    decoder_next::next_at(text, offset).found
}
