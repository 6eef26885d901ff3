// Prints each piece of the rows on standard input with what it reads as: an operation, a register, a number, or another piece. Numbers are decimal ones, by vm_operands: a source's hexadecimal ones are read by asm_shapes, which it does not reach.
#![tactic(auto)]

ghost use Rattle.std.specs.Prelude.{◌+◌, ◌<◌, ◌≤◌, length};

use std::io;
use text::{Line, Piece};
use vm_operands::ImmediateValue;

// One line: a kind and a text.
fn print_line(rt: &impl Print, kind: &[u8], text: &[u8]) -> io::Result<()> {
    rt.write_all(kind)?;
    rt.write_all(text)?;
    rt.write_all(b"\n")
}

// One line with what was put at the start of a text.
fn print_put(rt: &impl Print, kind: &[u8], text: &[u8], put: Option<usize>) -> io::Result<()> {
    match put.and_then(|n| text.get(..n)) {
        Some(written) => print_line(rt, kind, written),
        None => Ok(()),
    }
}

// Prints what the piece reads as.
fn print_piece(rt: &impl Print, piece: &[u8]) -> io::Result<()> {
    let mut text = [0u8; 32];
    if let Some(opcode) = vm_mnemonics::from_str(piece) {
        let put = vm_tokens::put_token(opcode, &mut text, 0);
        return print_put(rt, b"operation ", &text, put);
    }
    if let Some(register) = vm_registers::register_from_str(piece) {
        let put = vm_registers::put_register(register, &mut text, 0);
        return print_put(rt, b"register ", &text, put);
    }
    if let Some(value) = ImmediateValue::from_str(piece) {
        let put = value.put(&mut text, 0);
        return print_put(rt, b"number ", &text, put);
    }
    print_line(rt, b"other ", piece)
}

// The first piece of a row, empty where it has none, and what stands behind it.
#[tactic(auto, using(crate::proofs::Laws::piece_laws))]
fn split_piece(row: &[u8]) -> (&[u8], &[u8])
    ensures { length result.0.now + length result.1.now ≤ length row.now }
{
    let Piece { start, length } = text_lines::first_piece(row);
    row[start..].split_at(length)
}

// The first line of a text, and what stands behind its ending.
#[tactic(auto, using(crate::proofs::Laws::line_laws))]
fn split_line(text: &[u8]) -> (&[u8], &[u8])
    ensures { 0 < length text.now → length result.1.now < length text.now }
{
    let Line { length, next } = text_lines::first_line(text);
    (&text[..length], &text[next..])
}

// Prints the pieces of one row.
fn print_row(rt: &impl Print, row: &[u8]) -> io::Result<()> {
    let mut rest = row;
    while !rest.is_empty() {
        let (piece, after) = split_piece(rest);
        if piece.is_empty() {
            return Ok(());
        }
        print_piece(rt, piece)?;
        rest = after;
    }
    Ok(())
}

// Prints the pieces of each row.
fn print_rows(rt: &impl Print, source: &[u8]) -> io::Result<()> {
    let mut rest = source;
    while !rest.is_empty() {
        let (line, after) = split_line(rest);
        print_row(rt, line)?;
        rest = after;
    }
    Ok(())
}

fn main(rt: HostRuntime) -> io::Result<()> {
    let mut source = [0u8; 4096];
    let n = input::read_full(&mut rt.stdin(), &mut source)?;
    print_rows(&rt, &source[..n])
}
