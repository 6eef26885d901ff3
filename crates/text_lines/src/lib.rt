// Lines and pieces of a text: `lines` and `split_whitespace` of the Rust. Every function takes a part of a text and requires nothing of it.
#![tactic(auto)]

ghost use Rattle.std.specs.Prelude.{◌≡◌};
ghost use Rattle.text.specs.Scan.{scan};
ghost use Rattle.text.specs.Lines.{not_feed, first_line};
ghost use Rattle.text.specs.Pieces.{first_piece};

use text::{ByteClass, Line, Piece};

// Where the first line feed stands, or the text's end. Not by `ByteClass::scan`, which takes two fifths more steps for it (docs/DESIGN-PASS.md).
#[tactic(auto, using(crate::proofs::FirstLaws::feed_laws))]
fn feed_at(text: &[u8]) -> usize
    ensures { result ≡ scan not_feed text.now }
{
    for i in 0..text.len() {
        if text[i] == b'\n' {
            return i;
        }
    }
    text.len()
}

// The first line, as Rust's `lines` gives it: `\n` or `\r\n` ends a line, and the last ending is optional.
// The empty text has no line, and gives 0 and 0.
pub fn first_line(text: &[u8]) -> Line
    ensures { result ≡ first_line text.now }
{
    let n = feed_at(text);
    if n == text.len() {
        return Line { length: n, next: n };
    }
    if n == 0 {
        return Line { length: 0, next: 1 };
    }
    if text[n - 1] == b'\r' {
        return Line {
            length: n - 1,
            next: n + 1,
        };
    }
    Line {
        length: n,
        next: n + 1,
    }
}

// The first piece, as Rust's `split_whitespace` gives it.
pub fn first_piece(row: &[u8]) -> Piece
    ensures { result ≡ first_piece row.now }
{
    let start = ByteClass::Space.scan(row);
    let length = ByteClass::NotSpace.scan(&row[start..]);
    Piece { start, length }
}
