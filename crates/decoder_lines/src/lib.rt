// The lines of a bytecode, parted into instructions: from an offset on, the first word and the second line that stand there, and the instruction
// that they are.
#![tactic(auto)]

ghost use Rattle.std.specs.Prelude.{◌≡◌, ◌≤◌, length};
ghost use Rattle.decoder_words.specs.Decoded.{decoded_numbered};
ghost use Rattle.decoder_lines.specs.GroupAt.{group_at, group_of};
ghost use Rattle.decoder_lines.specs.WordLine.{word_line};
ghost use Rattle.decoder_lines.specs.ReadFrom.{read_as, read_from, at_numbered};

use decoder::{NextRefusal, OpenRefusal};
use program::BinaryInstruction;

// What stands in a bytecode from an offset on, the start of a line: five cases with names of their own, so no Option or Result.
#[derive(Clone, Copy)]
pub enum GroupAt {
    // No line.
    Nothing,
    // A first word that is no 64-bit hexadecimal number.
    Unreadable,
    // A last first word that lacks its second line.
    Incomplete,
    // A first word alone, and the offset of the line after it.
    Single {
        word: u64,
        next: usize,
    },
    // A first word, where its second line starts and how long it is, and the offset of the line after it.
    Pair {
        word: u64,
        start: usize,
        length: usize,
        next: usize,
    },
}

// The instruction that stands in a bytecode from an offset on: how many lines it has, and the offset of the line after it.
#[derive(Clone, Copy)]
pub struct InstructionAt {
    pub instruction: BinaryInstruction,
    pub lines: usize,
    pub next: usize,
}

// The group of a first word, whose second line would start at an offset.
#[tactic(auto, using(crate::proofs::AtLaws::of_laws))]
fn group_of(text: &[u8], word: u64, at: usize) -> GroupAt
    requires { at ≤ length text.now }
    ensures { result ≡ group_of text.now word at }
{
    if !program_bytecode::asks_number(false, word) {
        return GroupAt::Single { word, next: at };
    }
    if at == text.len() {
        return GroupAt::Incomplete;
    }
    let line = text_lines::first_line(&text[at..]);
    GroupAt::Pair {
        word,
        start: at,
        length: line.length,
        next: at + line.next,
    }
}

// The word of a first line as the bytecode writer has it: `0x`, sixteen digits and a line feed. Nothing is said of any other line.
#[tactic(auto, unfolding(crate::specs::WordLine::word_line))]
fn word_line(text: &[u8]) -> Option<u64>
    ensures { result ≡ word_line text.now }
{
    match text.get(..19) {
        Some([b'0', b'x', digits @ .., b'\n']) => text_read::read_hex_digits(digits, u64::MAX),
        _ => None,
    }
}

// What stands in a bytecode from an offset on. A first line as the writer has it is read at once; of any other the end is looked for first.
#[tactic(auto, using(crate::proofs::AtLaws::at_laws))]
pub fn group_at(text: &[u8], offset: usize) -> GroupAt
    ensures { result ≡ group_at text.now offset }
{
    if text.len() <= offset {
        return GroupAt::Nothing;
    }
    let rest = &text[offset..];
    if let Some(word) = word_line(rest) {
        return group_of(text, word, offset + 19);
    }
    let line = text_lines::first_line(rest);
    let length = line.length;
    match text_read::read_hexadecimal(&rest[..length], u64::MAX) {
        None => GroupAt::Unreadable,
        Some(word) => group_of(text, word, offset + line.next),
    }
}

// A decoded instruction with its lines and the offset after them.
#[tactic(auto, using(crate::proofs::ReadLaws::as_read, crate::proofs::ReadLaws::as_refused))]
fn read_as(
    decoded: Result<BinaryInstruction, OpenRefusal>,
    lines: usize,
    next: usize,
) -> Result<InstructionAt, NextRefusal>
    ensures { at_numbered result ≡ read_as (decoded_numbered decoded) lines next }
{
    let instruction = decoded.map_err(NextRefusal::Open)?;
    Ok(InstructionAt {
        instruction,
        lines,
        next,
    })
}

// The instruction that stands in a bytecode from an offset on, and that has an index.
#[tactic(auto, using(crate::proofs::ReadLaws::read_laws))]
pub fn decode_at(text: &[u8], offset: usize, index: usize) -> Result<InstructionAt, NextRefusal>
    ensures { at_numbered result ≡ read_from index text.now offset }
{
    match group_at(text, offset) {
        GroupAt::Nothing | GroupAt::Incomplete => Err(NextRefusal::NoneLeft),
        GroupAt::Unreadable => Err(NextRefusal::Open(OpenRefusal::FirstWordUnreadable(index))),
        GroupAt::Single { word, next } => read_as(
            decoder_words::decode_alone(index, word),
            1,
            next,
        ),
        GroupAt::Pair {
            word,
            start,
            length,
            next,
        } => {
            let line = &text[start..start + length];
            read_as(decoder_words::decode_with(index, word, line), 2, next)
        }
    }
}
