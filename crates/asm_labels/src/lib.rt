// Label rows: the three kinds of assembler/src/asm.rs, each ending in a colon.
#![tactic(auto)]

ghost use Rattle.std.specs.Prelude.{◌≡◌, None};
ghost use Rattle.asm.specs.Rows.{is_call_row, is_pair_row, label_row, or_else_row};

use asm::AsmRow;
use text::ByteClass;

// One or more letters, digits or underscores, optionally a dot and digits, and a colon.
#[tactic(auto, using(crate::proofs::Laws::call_laws))]
fn is_call_row(piece: &[u8]) -> bool
    ensures { result ≡ is_call_row piece.now }
{
    let k = ByteClass::Word.scan(piece);
    if k == 0 {
        return false;
    }
    match &piece[k..] {
        [b':'] => true,
        [b'.', rest @ ..] => {
            let m = ByteClass::Digit.scan(rest);
            m != 0 && matches!(&rest[m..], [b':'])
        }
        _ => false,
    }
}

// A dot, the letters, digits, `_`, digits, and a colon.
#[tactic(auto, using(crate::proofs::Laws::pair_laws))]
fn is_pair_row(letters: &[u8], piece: &[u8]) -> bool
    ensures { result ≡ is_pair_row letters.now piece.now }
{
    let [b'.', inner @ .., b':'] = piece else {
        return false;
    };
    let Some(pair) = inner.strip_prefix(letters) else {
        return false;
    };
    asm_shapes::is_pair(pair)
}

// The label row that a piece is, which starts at a place of the source; its name is without the colon.
#[tactic(auto, using(crate::proofs::Laws::label_laws))]
pub fn label_row(piece: &[u8], start: usize) -> Option<AsmRow>
    ensures { result ≡ or_else_row (label_row (record { start = start; text = piece.now })) None }
{
    let length = piece.len().checked_sub(1)?;
    if is_call_row(piece) {
        return Some(AsmRow::LabelCall { start, length });
    }
    if is_pair_row(b"LBL", piece) {
        return Some(AsmRow::LabelJmp { start, length });
    }
    if is_pair_row(b"PROPHET", piece) {
        return Some(AsmRow::LabelProphet { start, length });
    }
    None
}
