// Opening a bytecode on its text: refusals 14 to 19.
#![tactic(auto)]

ghost use Rattle.std.specs.Prelude.{◌≡◌, ◌≤◌, drop};
ghost use Rattle.text.specs.Lines.{lines};
ghost use Rattle.text.specs.Answer.{refused};
ghost use Rattle.decoder.specs.Lines.{line_groups, first_unreadable, complete_of};
ghost use Rattle.decoder.specs.Open.{open_number, open_detail, all_decoded, opened};
ghost use Rattle.decoder.specs.Steps.{accepted_of, open_numbered};
ghost use Rattle.decoder_open.specs.Unreadable.{line_first};

use decoder::{NextRefusal, OpenRefusal};
use decoder_lines::GroupAt;

// The first line, from an offset and its line on, that should be a first word and is no 64-bit hexadecimal number.
#[tactic(auto, using(crate::proofs::LineLaws::line_laws))]
fn first_unreadable(text: &[u8], offset: usize, first: usize) -> Option<usize>
    requires { first ≤ offset }
    ensures { result ≡ first_unreadable first (line_groups (lines (drop offset text.now))) }
{
    let mut at = offset;
    let mut line = first;
    loop {
        match decoder_lines::group_at(text, at) {
            GroupAt::Nothing | GroupAt::Incomplete => return None,
            GroupAt::Unreadable => return Some(line),
            GroupAt::Single { next, .. } => {
                at = next;
                line += 1;
            }
            GroupAt::Pair { next, .. } => {
                at = next;
                line += 2;
            }
        }
    }
}

// The refusal of the instruction at an offset and its line, but 15 where a first word from there on is unreadable.
#[tactic(auto, using(crate::proofs::OpenLaws::from_laws))]
fn refused_from(
    text: &[u8],
    offset: usize,
    line: usize,
    refusal: OpenRefusal,
) -> Result<(), OpenRefusal>
    requires { line ≤ offset }
    ensures { open_numbered result ≡ line_first (first_unreadable line (line_groups (lines (drop offset text.now)))) (refused (open_number refusal) (open_detail refusal)) }
{
    match first_unreadable(text, offset, line) {
        Some(found) => Err(OpenRefusal::FirstWordUnreadable(found)),
        None => Err(refusal),
    }
}

// Whether every complete instruction is read: 15 over all lines, then 16 to 19 by its index.
#[tactic(auto, using(crate::proofs::AllLaws::all_laws))]
fn open_all(text: &[u8]) -> Result<(), OpenRefusal>
    ensures { open_numbered result ≡ line_first (first_unreadable 0 (line_groups (lines text.now))) (accepted_of (all_decoded 0 (complete_of (line_groups (lines text.now))))) }
{
    let mut at: usize = 0;
    let mut line: usize = 0;
    let mut index: usize = 0;
    loop {
        match decoder_lines::decode_at(text, at, index) {
            Ok(read) => {
                at = read.next;
                line += read.lines;
                index += 1;
            }
            Err(NextRefusal::NoneLeft) => return Ok(()),
            Err(NextRefusal::Open(refusal)) => return refused_from(text, at, line, refusal),
        }
    }
}

// Whether a text opens as bytecode: 14, then 15 over the whole text, then 16 to 19 by instruction.
// Promises: bytecode_opens, opened_run, opened_form, source_reads_again.
#[tactic(auto, using(crate::proofs::OpenLaws::open_laws))]
pub fn open_text(text: &[u8]) -> Result<(), OpenRefusal>
    ensures { open_numbered result ≡ accepted_of (opened text.now) }
{
    if decoder::MAX_BYTECODE_BYTES < text.len() {
        return Err(OpenRefusal::TextTooLong);
    }
    open_all(text)
}
