// The cases of bytecode and of single instructions: opening, the next instruction, encoding, listing rows and writing words. Each answers the refusal, 0
// where the call is accepted.
ghost use Rattle.std.specs.Prelude.{◌<◌};

use crate::answers::{
    UNREAD, write_head, write_instruction, write_word, write_words, write_written,
};
use crate::fields::{NO_COUNT, count_of, field, item, read_number, within};
use ola_places::{OlaInstruction, OlaPlace};
use ola_steps::OlaStep;
use program::BinaryInstruction;
use std::io;
use std::io::{Error, Write};

// A call of next from an offset; its line is the offset reached.
fn step_at(text: &[u8], offset: usize) -> OlaStep {
    let step = decoder_next::next_at(text, offset);
    ola_steps::step_out(step.found, step.offset)
}

// A call of next from a line; its line is how many lines were read.
fn step_from(text: &[u8], line: usize) -> Option<OlaStep> {
    let step = decoder_runs::next_line(text, line);
    Some(ola_steps::step_out(step.found, step.line.checked_sub(line)?))
}

// The instruction that a call of next found where refusal 0 is due, and nothing where another is; a byte that no line has where it was answered
// otherwise.
fn write_step(out: &mut impl Write, step: OlaStep, due: u64) -> io::Result<()> {
    if step.refusal != due {
        return out.write_all(b"!");
    }
    if due != 0 {
        return Ok(());
    }
    write_instruction(out, step.instruction)
}

// As many instructions as a line says, by a run of calls from the first line, after which none is left.
fn write_run(out: &mut impl Write, text: &[u8], count: usize) -> io::Result<()> {
    let mut offset: usize = 0;
    for _ in 0..count {
        let step = step_at(text, offset);
        write_step(out, step, 0)?;
        offset = step.line as usize;
    }
    write_step(out, step_at(text, offset), 20)
}

// Opening, and what the opened bytecode holds.
pub fn write_open(out: &mut impl Write, line: &[u8], text: &[u8]) -> io::Result<u64> {
    let opened = ola_steps::opened_out(decoder_open::open_text(text));
    write_head(out, opened.refusal, opened.detail)?;
    if opened.refusal == 0 {
        let count = count_of(field(line, 3)).unwrap_or(0);
        write!(out, "\t{count}")?;
        write_run(out, text, count)?;
    }
    Ok(opened.refusal)
}

// The next instruction from a line on. The reader does not move on a refusal.
pub fn write_next(out: &mut impl Write, line: &[u8], text: &[u8]) -> io::Result<u64> {
    let from = count_of(field(line, 2)).unwrap_or(NO_COUNT);
    let step = step_from(text, from).ok_or(UNREAD)?;
    write_head(out, step.refusal, step.detail)?;
    if step.refusal == 0 || step.line != 0 {
        write!(out, "\t{}", step.line)?;
        write_instruction(out, step.instruction)?;
    }
    Ok(step.refusal)
}

// The number that an item says, as a byte; 255 where it is larger or cannot be read: no operation, content or register has that number.
fn byte_at(list: &[u8], k: usize) -> u8 {
    let number = count_of(item(list, k)).and_then(|n| u8::try_from(n).ok());
    number.unwrap_or(255)
}

// The contents of a place that three items from the k-th on say.
fn place_at(list: &[u8], k: usize) -> Option<OlaPlace>
    requires { k < 16 }
{
    Some(OlaPlace {
        content: byte_at(list, k),
        reg: byte_at(list, k + 1),
        number: read_number(item(list, k + 2))?,
    })
}

// The instruction that ten items say, none where they name none.
fn instruction_of(list: &[u8]) -> Option<BinaryInstruction> {
    ola_places::instruction_in(OlaInstruction {
        opcode: byte_at(list, 0),
        op0: place_at(list, 1)?,
        op1: place_at(list, 4)?,
        dst: place_at(list, 7)?,
    })
}

// The words of an instruction.
pub fn write_encode(out: &mut impl Write, list: &[u8]) -> io::Result<u64> {
    let instruction = instruction_of(list).ok_or(UNREAD)?;
    let words = ola_answers::encoding_out(program_encode::encode(instruction));
    write_head(out, words.refusal, words.detail)?;
    if words.refusal == 0 {
        write_word(out, false, words.first)?;
        if words.count != 1 {
            write_word(out, true, words.second)?;
        }
    }
    Ok(words.refusal)
}

// The listing row of an instruction, in a text of so many bytes, at most 256.
pub fn write_row(out: &mut impl Write, list: &[u8], room: usize) -> io::Result<u64> {
    let instruction = instruction_of(list).ok_or(UNREAD)?;
    let n = within(room, 256);
    let mut text = [0u8; 256];
    let written = program_listing::get_asm_form_code(instruction, &mut text[..n]);
    write_written(out, &text, ola_answers::row_out(written))
}

// The bytecode of at most 15 words, in a text of so many bytes.
pub fn write_write(out: &mut impl Write, list: &[u8], room: usize) -> io::Result<u64> {
    let mut words = [0u64; 16];
    for i in 0..16 {
        let digits = item(list, i);
        if digits.is_empty() {
            return write_words(out, &words[..i], room);
        }
        words[i] = read_number(digits).ok_or(UNREAD)?;
    }
    Err(Error::from(UNREAD))
}
