// The source of a bytecode written into a lent text: refusals 14 to 19, 26 and 23. The bytecode is gone through by offsets, once for each question that is
// asked of it, and no text but the lent one is needed.
#![tactic(auto)]

ghost use Rattle.std.specs.Prelude.{◌≡◌, ◌∷◌, ◌+◌, ◌≤◌, leb, length};
ghost use Rattle.std.proofs.lemmas.List.Edits.{sets};
ghost use Rattle.program.specs.Bytecode.{within, text_left};
ghost use Rattle.program_bytecode.specs.Written.{count_of};
ghost use Rattle.source.specs.SourceText.{source_row, source_text, first_off_row, source_written, source_numbered};
ghost use Rattle.source_write.specs.Rest.{instructions_from, rows_text};

use program::BinaryInstruction;
use source::SourceRefusal;

// What every source begins with.
const MAIN: [u8; 5] = *b"main:";

// The first instruction that is off its row.
#[tactic(auto, using(crate::proofs::Laws::off_laws))]
fn first_off_row(bytecode: &[u8]) -> Option<usize>
    ensures { result ≡ first_off_row 0 (instructions_from bytecode.now 0) }
{
    let mut at: usize = 0;
    let mut index: usize = 0;
    while let Ok(read) = decoder_lines::decode_at(bytecode, at, 0) {
        if source_rows::is_off_row(read.instruction) {
            return Some(index);
        }
        at = read.next;
        index += 1;
    }
    None
}

// How many bytes an instruction's row has, its line feed with it. The row of one that was read has at most 40.
fn row_length(instruction: BinaryInstruction) -> usize
    requires { length (source_row instruction) ≤ 40 }
    ensures { result ≡ length (10 ∷ source_row instruction) }
{
    let mut row = [0u8; 40];
    let put = source_rows::put_source_row(&mut row, 0, instruction);
    match put {
        Some(n) => n + 1,
        None => 0,
    }
}

// Whether the source has at most so many bytes.
#[tactic(auto, using(crate::proofs::Laws::fit_laws))]
fn source_fits(bytecode: &[u8], room: usize) -> bool
    ensures { result ≡ leb (5 + length (rows_text (instructions_from bytecode.now 0))) room }
{
    if room < 5 {
        return false;
    }
    let mut end: usize = 5;
    let mut at: usize = 0;
    while let Ok(read) = decoder_lines::decode_at(bytecode, at, 0) {
        let n = row_length(read.instruction);
        if room - end < n {
            return false;
        }
        end += n;
        at = read.next;
    }
    true
}

// Writes a line feed and an instruction's row where they fit, and says where they end.
fn write_row(text: &mut [u8], at: usize, instruction: BinaryInstruction) -> usize
    requires { at + length (10 ∷ source_row instruction) ≤ length text.old }
    ensures { (result ≡ at + length (10 ∷ source_row instruction)) × (text.new ≡ sets text.old at (10 ∷ source_row instruction)) }
{
    text[at] = b'\n';
    let put = source_rows::put_source_row(text, at + 1, instruction);
    match put {
        Some(n) => at + 1 + n,
        None => at,
    }
}

// Writes the rows of the instructions from byte 5 on where they fit, and says where they end.
#[tactic(auto, using(crate::proofs::Laws::rows_laws))]
fn write_rows(bytecode: &[u8], text: &mut [u8]) -> usize
    requires { 5 + length (rows_text (instructions_from bytecode.now 0)) ≤ length text.old }
    ensures { (result ≡ 5 + length (rows_text (instructions_from bytecode.now 0))) × (text.new ≡ sets text.old 5 (rows_text (instructions_from bytecode.now 0))) }
{
    let mut end: usize = 5;
    let mut at: usize = 0;
    while let Ok(read) = decoder_lines::decode_at(bytecode, at, 0) {
        end = write_row(text, end, read.instruction);
        at = read.next;
    }
    end
}

// Writes the text of a bytecode that opened and has no instruction off its row, or leaves the text as it is where it is too short.
fn write_fitting(bytecode: &[u8], text: &mut [u8]) -> Result<usize, SourceRefusal>
    ensures { (source_numbered result ≡ count_of (within (length text.old) (source_text (instructions_from bytecode.now 0)))) × (text.new ≡ text_left (within (length text.old) (source_text (instructions_from bytecode.now 0))) text.old) }
{
    if !source_fits(bytecode, text.len()) {
        return Err(SourceRefusal::TextTooShort);
    }
    text_write::put_bytes(text, 0, &MAIN);
    let n = write_rows(bytecode, text);
    Ok(n)
}

// Writes the source of a bytecode, `main:` and a row for each instruction, or says why not and leaves the text as it is: 14 to 19, then 26, then 23.
// Promises: source_left, source_refused, first_off_row_lem, source_written_lem, source_fits, source_assembles, source_words_fit, source_reads_again,
// source_of_accepted.
pub fn write_source(bytecode: &[u8], text: &mut [u8]) -> Result<usize, SourceRefusal>
    ensures { (source_numbered result ≡ count_of (source_written bytecode.now (length text.old))) × (text.new ≡ text_left (source_written bytecode.now (length text.old)) text.old) }
{
    match decoder_open::open_text(bytecode) {
        Err(refusal) => Err(SourceRefusal::Open(refusal)),
        Ok(()) => match first_off_row(bytecode) {
            Some(index) => Err(SourceRefusal::OffRow(index)),
            None => write_fitting(bytecode, text),
        },
    }
}
