// The reports that the printing program prints, written into a lent text: the words of an accepted source, or a refusal's number and detail.
#![tactic(auto)]

ghost use Rattle.std.specs.Prelude.{◌≡◌, false, ◌+◌, ◌≤◌, leb, length};
ghost use Rattle.std.proofs.lemmas.List.Edits.{sets};
ghost use Rattle.text.specs.Answer.{refused};
ghost use Rattle.text_write.specs.Digits.{decimal_text};
ghost use Rattle.text_write.specs.Put.{put_count, put_into};
ghost use Rattle.encoder.specs.Printing.{reported, two_fields};
ghost use Rattle.encoder_report.specs.Left.{field_text, row_text, rows_left};
ghost use Rattle.encoder_report.specs.Printed.{printed_numbered, printed_count, printed_into, reported_words};

use program::WriteRefusal;

// The lines of names.
const WORDS_HEAD: [u8; 13] = *b"address word\n";

const REFUSAL_HEAD: [u8; 15] = *b"refusal detail\n";

// What stands in a field: a number in decimal digits, or the line of a word.
#[derive(Clone, Copy)]
enum Field {
    Decimal(u64),
    Line(bool, u64),
}

// Writes a field.
fn put_field(text: &mut [u8], at: usize, field: Field) -> Option<usize>
    ensures { (result ≡ put_count text.old at (field_text field)) × (text.new ≡ put_into text.old at (field_text field)) }
{
    match field {
        Field::Decimal(number) => text_digits::put_decimal(text, at, number),
        Field::Line(number, word) => program_bytecode::put_line(text, at, number, word),
    }
}

// Writes a field where it fits, and says where it ends.
fn write_field(text: &mut [u8], at: usize, field: Field) -> usize
    requires { at + length (field_text field) ≤ length text.old }
    ensures { (result ≡ at + length (field_text field)) × (text.new ≡ sets text.old at (field_text field)) }
{
    at + put_field(text, at, field).unwrap_or(0)
}

// Writes a number and a field where they fit, a space between them and a line feed behind; and says where they end.
fn write_fields(text: &mut [u8], at: usize, number: u64, field: Field) -> usize
    requires { at + length (decimal_text number) + length (field_text field) + 2 ≤ length text.old }
    ensures { (result ≡ at + length (two_fields (decimal_text number) (field_text field))) × (text.new ≡ sets text.old at (two_fields (decimal_text number) (field_text field))) }
{
    let space = write_field(text, at, Field::Decimal(number));
    text[space] = b' ';
    let feed = write_field(text, space + 1, field);
    text[feed] = b'\n';
    feed + 1
}

// How many bytes a word's row has.
fn row_length(position: usize, number: bool, word: u64) -> usize
    ensures { result ≡ length (row_text position number word) }
{
    let mut row = [0u8; 40];
    write_fields(&mut row, 0, position as u64, Field::Line(number, word))
}

// Whether the rows of the words, from a byte on, end within so many bytes.
fn rows_fit(words: &[u64], start: usize, room: usize) -> bool
    ensures { result ≡ leb (start + length (rows_left 0 false words.now)) room }
{
    if room < start {
        return false;
    }
    let mut at = start;
    let mut number = false;
    for (i, &word) in words.iter().enumerate() {
        let n = row_length(i, number, word);
        if room - at < n {
            return false;
        }
        at += n;
        number = program_bytecode::asks_number(number, word);
    }
    true
}

// Writes the rows of the words from a byte on where they fit, and says where they end.
fn write_rows(words: &[u64], text: &mut [u8], start: usize) -> usize
    requires { start + length (rows_left 0 false words.now) ≤ length text.old }
    ensures { (result ≡ start + length (rows_left 0 false words.now)) × (text.new ≡ sets text.old start (rows_left 0 false words.now)) }
{
    let mut at = start;
    let mut number = false;
    for (i, &word) in words.iter().enumerate() {
        at = write_fields(text, at, i as u64, Field::Line(number, word));
        number = program_bytecode::asks_number(number, word);
    }
    at
}

// Prints the report of an accepted source with these words, or leaves the text as it is where it is too short.
pub fn print_words(words: &[u64], text: &mut [u8]) -> Result<usize, WriteRefusal>
    ensures result_value { printed_numbered result ≡ printed_count (length text.old) (reported_words words.now) }
    ensures text_after { text.new ≡ printed_into (reported_words words.now) text.old }
{
    if !rows_fit(words, WORDS_HEAD.len(), text.len()) {
        return Err(WriteRefusal::TextTooShort);
    }
    text_write::put_bytes(text, 0, &WORDS_HEAD);
    Ok(write_rows(words, text, WORDS_HEAD.len()))
}

// Writes the report of a refusal where it fits, and says how many bytes it has.
fn write_refusal(number: u64, detail: u64, text: &mut [u8]) -> usize
    requires { 15 + length (decimal_text number) + length (decimal_text detail) + 2 ≤ length text.old }
    ensures { (result ≡ length (reported (refused number detail))) × (text.new ≡ sets text.old 0 (reported (refused number detail))) }
{
    text_write::put_bytes(text, 0, &REFUSAL_HEAD);
    write_fields(text, REFUSAL_HEAD.len(), number, Field::Decimal(detail))
}

// Prints the report of a refusal, or leaves the text as it is where it is too short.
pub fn print_refusal(number: u64, detail: u64, text: &mut [u8]) -> Result<usize, WriteRefusal>
    ensures result_value { printed_numbered result ≡ printed_count (length text.old) (reported (refused number detail)) }
    ensures text_after { text.new ≡ printed_into (reported (refused number detail)) text.old }
{
    let mut report = [0u8; 57];
    let n = write_refusal(number, detail, &mut report);
    text_write::put_bytes(text, 0, &report[..n]).ok_or(WriteRefusal::TextTooShort)
}
