// What the port answers, written as a line says it. Each writer puts its part behind what is written already; an error says that it does not fit, or that
// the line cannot be read.
use crate::fields::within;
use ola_answers::OlaWritten;
use ola_places::OlaInstruction;
use std::io;
use std::io::{ErrorKind, Write};

// Why there is no answer to a line that cannot be read.
pub const UNREAD: ErrorKind = ErrorKind::InvalidData;

// A word as a line of bytecode, behind a tab: a number with the fewest digits, a first word with sixteen.
pub fn write_word(out: &mut impl Write, number: bool, word: u64) -> io::Result<()> {
    if number {
        write!(out, "\t{word:#x}")
    } else {
        write!(out, "\t{word:#018x}")
    }
}

// That a call was accepted, which refusal 0 says, or its refusal.
pub fn write_head(out: &mut impl Write, refusal: u64, detail: u64) -> io::Result<()> {
    if refusal == 0 {
        out.write_all(b"accepted")
    } else {
        write!(out, "refused\t{refusal}\t{detail}")
    }
}

// The space before the i-th item, from 0.
pub fn write_space(out: &mut impl Write, i: usize) -> io::Result<()> {
    if i == 0 { Ok(()) } else { out.write_all(b" ") }
}

// A field of numbers, behind a tab.
pub fn write_numbers(out: &mut impl Write, numbers: &[u64]) -> io::Result<()> {
    out.write_all(b"\t")?;
    for (i, number) in numbers.iter().enumerate() {
        write_space(out, i)?;
        write!(out, "{number}")?;
    }
    Ok(())
}

// An instruction, behind a tab.
pub fn write_instruction(out: &mut impl Write, instruction: OlaInstruction) -> io::Result<()> {
    let OlaInstruction {
        opcode,
        op0,
        op1,
        dst,
    } = instruction;
    write!(out, "\t{opcode}")?;
    for place in [op0, op1, dst] {
        write!(out, " {} {} {}", place.content, place.reg, place.number)?;
    }
    Ok(())
}

// What a writer answered, and what it wrote into a text that was zeros before; a refusal leaves it so. Answers the refusal.
pub fn write_written(out: &mut impl Write, text: &[u8], written: OlaWritten) -> io::Result<u64> {
    let OlaWritten {
        refusal,
        detail,
        written,
    } = written;
    write_head(out, refusal, detail)?;
    if refusal == 0 {
        out.write_all(b"\t")?;
        out.write_all(text.get(..written as usize).unwrap_or(&[]))?;
    } else if text.iter().any(|byte| *byte != 0) {
        out.write_all(text)?;
    }
    Ok(refusal)
}

// What the bytecode writer answers for words and a text of so many bytes, at most 4096. Answers the refusal.
pub fn write_words(out: &mut impl Write, words: &[u64], room: usize) -> io::Result<u64> {
    let n = within(room, 4096);
    let mut text = [0u8; 4096];
    let written = program_bytecode::write_bytecode(words, &mut text[..n]);
    write_written(out, &text, ola_answers::written_out(written))
}
