// Bytes by class, the one scan over them, and comparing: what String and Regex did in the Rust. Every function takes a part of a text and
// requires nothing of it. What the first line and the first piece of a text are is defined here, and found by crate text_lines.
#![tactic(auto)]

ghost use Rattle.std.specs.Prelude.{◌≡◌};
ghost use Rattle.text.specs.Bytes.{is_space, is_digit, is_letter, is_word, same};
ghost use Rattle.text.specs.Scan.{scan};
ghost use Rattle.text.specs.Classes.{holds};

// A class of bytes.
#[derive(Clone, Copy)]
pub enum ByteClass {
    // Byte 32 and bytes 9 to 13.
    Space,
    // Every other byte.
    NotSpace,
    Digit,
    Letter,
    // Letters, digits and the underscore.
    Word,
    // Bytes up to 127.
    Ascii,
    // This byte alone.
    Is(u8),
    // Every byte but this one.
    IsNot(u8),
}

// Byte 32 and bytes 9 to 13.
#[tactic(auto, unfolding(crate::specs::Bytes::is_space))]
fn is_space(b: u8) -> bool
    ensures { result ≡ is_space b }
{
    matches!(b, b' ' | b'\t'..=b'\r')
}

impl ByteClass {
    // Whether b is of the class.
    #[tactic(auto, unfolding(crate::specs::Bytes::is_digit, crate::specs::Bytes::is_letter, crate::specs::Bytes::is_word))]
    pub fn contains(self, b: u8) -> bool
        ensures { result ≡ holds self b }
    {
        match self {
            ByteClass::Space => is_space(b),
            ByteClass::NotSpace => !is_space(b),
            ByteClass::Digit => b.is_ascii_digit(),
            ByteClass::Letter => b.is_ascii_alphabetic(),
            ByteClass::Word => b.is_ascii_alphanumeric() || b == b'_',
            ByteClass::Ascii => b.is_ascii(),
            ByteClass::Is(x) => b == x,
            ByteClass::IsNot(x) => b != x,
        }
    }

    // How many bytes of the class text begins with.
    pub fn scan(self, text: &[u8]) -> usize
        ensures { result ≡ scan (holds self) text.now }
    {
        text.iter().take_while(|b| self.contains(**b)).count()
    }
}

// Whether a and b hold the same bytes: a part of a text compared with a fixed byte string.
#[tactic(auto, using(crate::proofs::SameLaws::same_told))]
pub fn same_bytes(a: &[u8], b: &[u8]) -> bool
    ensures { result ≡ same a.now b.now }
{
    a == b
}

// The first line of a text: its length without its ending, and where the next line starts.
#[derive(Clone, Copy)]
pub struct Line {
    pub length: usize,
    pub next: usize,
}

// The first piece of a row: where it starts, and its length, 0 where the row has no piece.
#[derive(Clone, Copy)]
pub struct Piece {
    pub start: usize,
    pub length: usize,
}
