// Bytecode written, opened and read back, its rows listed, source written from it, and an instruction encoded, on the words that document 01 prints for
// its printing source. The README shows these calls.
#![tactic(auto)]

use decoder::NextRefusal;
use program::{BinaryInstruction, InstructionWords};
use std::io;
use vm_opcodes::OlaOpcode;
use vm_operands::{ImmediateValue, OlaOperand};

const WORDS: [u64; 6] = [
    0x4000000208000000,
    0xffffffff00000000,
    0x4000000001000000,
    0x5,
    0x0000000000100000,
    0x0000000000800000,
];

// What a writer put at the start of a text, and a line feed.
fn print_written<E: Drop>(
    rt: &impl Print,
    text: &[u8],
    written: Result<usize, E>,
) -> io::Result<()> {
    let Some(bytes) = written.ok().and_then(|n| text.get(..n)) else {
        return Ok(());
    };
    rt.write_all(bytes)?;
    rt.write_all(b"\n")
}

// What a call of next found: the listing row of an instruction.
fn print_found(rt: &impl Print, found: Result<BinaryInstruction, NextRefusal>) -> io::Result<()> {
    let Ok(instruction) = found else {
        return println!(rt; "none left");
    };
    let mut row = [0u8; 128];
    let written = program_listing::get_asm_form_code(instruction, &mut row);
    print_written(rt, &row, written)
}

// Source from a bytecode.
fn show_source(rt: &impl Print, bytecode: &[u8]) -> io::Result<()> {
    let mut source = [0u8; 128];
    let written = source_write::write_source(bytecode, &mut source);
    print_written(rt, &source, written)
}

// Opens a bytecode, reads it by lines, by offsets and by number, and writes source from it.
fn show_reading(rt: &impl Print, text: &[u8]) -> io::Result<()> {
    match decoder_open::open_text(text) {
        Ok(()) => println!(rt; "opens")?,
        Err(_) => println!(rt; "does not open")?,
    }
    let first = decoder_runs::next_line(text, 0);
    print_found(rt, first.found)?;
    println!(rt; "{} lines read", first.line)?;
    let second = decoder_next::next_at(text, 38);
    print_found(rt, second.found)?;
    println!(rt; "{} bytes read", second.offset)?;
    print_found(rt, decoder_runs::nth(text, 3))?;
    print_found(rt, decoder_runs::nth(text, 4))?;
    show_source(rt, text)
}

// The words of an instruction.
fn show_encoding(rt: &impl Print, instruction: BinaryInstruction) -> io::Result<()> {
    let Ok(InstructionWords { first, second }) = program_encode::encode(instruction) else {
        return println!(rt; "refused");
    };
    match second {
        Some(number) => println!(rt; "{first:016x} {number:016x}"),
        None => println!(rt; "{first:016x}"),
    }
}

fn main(rt: HostRuntime) -> io::Result<()> {
    let mut text = [0u8; 128];
    let written = program_bytecode::write_bytecode(&WORDS, &mut text);
    print_written(&rt, &text, written)?;
    let bytecode = written.ok().and_then(|n| text.get(..n)).unwrap_or(&[]);
    show_reading(&rt, bytecode)?;
    // `call 5`
    show_encoding(
        &rt,
        BinaryInstruction::new(
            OlaOpcode::CALL,
            OlaOperand::Empty,
            OlaOperand::ImmediateOperand {
                value: ImmediateValue::new(5),
            },
            OlaOperand::Empty,
        ),
    )
}
