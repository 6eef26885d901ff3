// The row reader: `AsmRow::from_str` and `split_ola_asm_pieces` of assembler/src/asm.rs, on the line of a source that starts at a place.
#![tactic(auto)]

ghost use Rattle.std.specs.Prelude.{◌≡◌, drop, Some, None};
ghost use Rattle.asm.specs.Parts.{pieces_from};
ghost use Rattle.asm.specs.Rows.{of_row, line_of, row_at};
ghost use Rattle.asm_rows.specs.Found.{piece_at, next_operand, row_given, stop_at, line_ends};

use asm::{AsmRow, LineRead, OlaAsmOperand, RowAt};
use text::Piece;
use vm_opcodes::OlaOpcode;

// Where a line ends: without its comment, and at its line feed or the source's end.
#[derive(Clone, Copy)]
pub struct LineEnds {
    pub end: usize,
    pub feed: usize,
}

// The first piece from a place on, by its place in the line's text.
fn piece_at(line: &[u8], at: usize) -> Piece
    ensures { result ≡ piece_at line.now at }
{
    let piece = text_lines::first_piece(line.get(at..).unwrap_or(&[]));
    Piece {
        start: at + piece.start,
        ..piece
    }
}

// The first piece from a place on as an operand, and where what follows it starts: `Some(None)` where the row has ended, and `None` where the piece is no
// operand.
#[tactic(auto, using(crate::proofs::OperandLaws::next_laws))]
fn next_operand(line: &[u8], at: usize) -> Option<Option<(OlaAsmOperand, usize)>>
    ensures { result ≡ next_operand (pieces_from at (drop at line.now)) }
{
    let piece = piece_at(line, at);
    if piece.length == 0 {
        return Some(None);
    }
    let end = piece.start + piece.length;
    let operand = asm_operands::from_str(&line[piece.start..end], piece.start)?;
    Some(Some((operand, end)))
}

// The row of an operation's word, which starts at a place of the source, and of the pieces from another on: a label, where the word stands alone, or its
// operation with up to three operands.
#[tactic(auto, using(crate::proofs::OperandLaws::operand_laws))]
fn operation_row(
    line: &[u8],
    word: &[u8],
    start: usize,
    at: usize,
    opcode: OlaOpcode,
) -> Option<AsmRow>
    ensures { result ≡ row_given (Some opcode) (record { start = start; text = word.now }) (pieces_from at (drop at line.now)) }
{
    let Some((a, at)) = next_operand(line, at)? else {
        return asm_labels::label_row(word, start).or(asm_instructions::of_operands(opcode, &[]));
    };
    let Some((b, at)) = next_operand(line, at)? else {
        return asm_instructions::of_operands(opcode, &[a]);
    };
    let Some((c, at)) = next_operand(line, at)? else {
        return asm_instructions::of_operands(opcode, &[a, b]);
    };
    if piece_at(line, at).length != 0 {
        return None;
    }
    asm_instructions::of_operands(opcode, &[a, b, c])
}

// The row of a word that is no operation's: a label that stands alone.
#[tactic(auto, using(crate::proofs::RowLaws::label_laws))]
fn label_row(line: &[u8], word: &[u8], start: usize, at: usize) -> Option<AsmRow>
    ensures { result ≡ row_given None (record { start = start; text = word.now }) (pieces_from at (drop at line.now)) }
{
    if piece_at(line, at).length != 0 {
        return None;
    }
    asm_labels::label_row(word, start)
}

// The line of a row.
fn of_row(row: Option<AsmRow>) -> LineRead
    ensures { result ≡ of_row row }
{
    row.map_or(LineRead::Unreadable, LineRead::Row)
}

// What the pieces of a text from a place on are as a row.
#[tactic(auto, using(crate::proofs::RowLaws::line_laws))]
fn line_read(line: &[u8], at: usize) -> LineRead
    ensures { result ≡ line_of (pieces_from at (drop at line.now)) }
{
    let piece = piece_at(line, at);
    if piece.length == 0 {
        return LineRead::Blank;
    }
    let start = piece.start;
    let end = start + piece.length;
    let word = &line[start..end];
    match vm_mnemonics::from_str(word) {
        Some(opcode) => of_row(operation_row(line, word, start, end, opcode)),
        None => of_row(label_row(line, word, start, end)),
    }
}

// Where a line stops from a place on: at the first byte that is the mark, at its line feed, or at the source's end.
#[tactic(auto, using(crate::proofs::EndLaws::stop_laws))]
fn stop_at(source: &[u8], at: usize, mark: u8) -> usize
    ensures { result ≡ stop_at source.now at mark }
{
    for i in at..source.len() {
        let b = source[i];
        if b == mark || b == b'\n' {
            return i;
        }
    }
    at.max(source.len())
}

// Where the line that starts at a place ends: its line feed is sought on from its comment.
#[tactic(auto, using(crate::proofs::EndLaws::end_laws))]
fn line_ends(source: &[u8], at: usize) -> LineEnds
    ensures { result ≡ line_ends source.now at }
{
    let end = stop_at(source, at, b';');
    let feed = stop_at(source, end, b'\n');
    LineEnds { end, feed }
}

// The line of a source that starts at a place, its comment cut, read as a row, and where the line after it starts.
#[tactic(auto, using(crate::proofs::RowLaws::row_laws))]
pub fn row_at(source: &[u8], at: usize) -> RowAt
    ensures { result ≡ row_at source.now at }
{
    if source.len() <= at {
        return RowAt {
            read: LineRead::Blank,
            next: at,
        };
    }
    let LineEnds { end, feed } = line_ends(source, at);
    RowAt {
        read: line_read(&source[..end], at),
        next: source.len().min(feed + 1),
    }
}
