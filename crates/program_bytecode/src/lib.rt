// The bytecode text of words: what `from_instructions` of core/src/program/binary_program.rs joins.
#![tactic(auto)]

ghost use Rattle.std.specs.Prelude.{◌≡◌, false, true, ◌+◌, ◌≤◌, leb, length};
ghost use Rattle.std.proofs.lemmas.List.Edits.{sets};
ghost use Rattle.text_write.specs.Put.{put_count, put_into};
ghost use Rattle.program.specs.Groups.{has_second};
ghost use Rattle.program.specs.Bytecode.{bytecode_written, text_left};
ghost use Rattle.program_bytecode.specs.Left.{line_text, word_text, asks_number, left_text};
ghost use Rattle.program_bytecode.specs.Written.{written_numbered, count_of};

use program::{BinaryInstruction, WriteRefusal};

// Whether the word has the bit of a number in op1, of mload or of mstore: 62, 22 or 21.
fn has_second(word: u64) -> bool
    ensures { result ≡ has_second word }
{
    (word >> BinaryInstruction::BIT_SHIFT_OP1_IMM) % 2 == 1
        || (word >> vm_tables::MLOAD_SHIFT) % 2 == 1
        || (word >> vm_tables::MSTORE_SHIFT) % 2 == 1
}

// Whether the word after this one is a number: not where this one is a number itself.
pub fn asks_number(number: bool, word: u64) -> bool
    ensures { result ≡ asks_number number word }
{
    !number && has_second(word)
}

// Writes the line of a word: a number with the fewest digits, a first word with sixteen.
pub fn put_line(text: &mut [u8], at: usize, number: bool, word: u64) -> Option<usize>
    ensures { (result ≡ put_count text.old at (line_text number word)) × (text.new ≡ put_into text.old at (line_text number word)) }
{
    if number {
        text_digits::put_fewest(text, at, word)
    } else {
        text_digits::put_sixteen(text, at, word)
    }
}

// How many bytes the line of a word has.
fn line_length(number: bool, word: u64) -> usize
    ensures { result ≡ length (line_text number word) }
{
    let mut line = [0u8; 18];
    put_line(&mut line, 0, number, word).unwrap_or(0)
}

// How many bytes a word has in the text: its line, after a line feed where it is not the first.
fn word_length(first: bool, number: bool, word: u64) -> usize
    ensures { result ≡ length (word_text first number word) }
{
    let n = line_length(number, word);
    if first { n } else { n + 1 }
}

// Whether the text of the words has at most so many bytes.
fn fits(words: &[u64], room: usize) -> bool
    ensures { result ≡ leb (length (left_text true false words.now)) room }
{
    let mut at: usize = 0;
    let mut number = false;
    for (i, &word) in words.iter().enumerate() {
        let n = word_length(i == 0, number, word);
        if room - at < n {
            return false;
        }
        at += n;
        number = asks_number(number, word);
    }
    true
}

// Writes the line of a word where it fits, and says where it ends.
fn write_line(text: &mut [u8], at: usize, number: bool, word: u64) -> usize
    requires { at + length (line_text number word) ≤ length text.old }
    ensures { (result ≡ at + length (line_text number word)) × (text.new ≡ sets text.old at (line_text number word)) }
{
    at + put_line(text, at, number, word).unwrap_or(0)
}

// Writes a word where it fits: its line, after a line feed where it is not the first; and says where it ends.
fn write_word(text: &mut [u8], at: usize, first: bool, number: bool, word: u64) -> usize
    requires { at + length (word_text first number word) ≤ length text.old }
    ensures { (result ≡ at + length (word_text first number word)) × (text.new ≡ sets text.old at (word_text first number word)) }
{
    if first {
        write_line(text, at, number, word)
    } else {
        text[at] = b'\n';
        write_line(text, at + 1, number, word)
    }
}

// Writes the text of the words where it fits, and says how many bytes it has.
fn write_words(words: &[u64], text: &mut [u8]) -> usize
    requires { length (left_text true false words.now) ≤ length text.old }
    ensures { (result ≡ length (left_text true false words.now)) × (text.new ≡ sets text.old 0 (left_text true false words.now)) }
{
    let mut at: usize = 0;
    let mut number = false;
    for (i, &word) in words.iter().enumerate() {
        at = write_word(text, at, i == 0, number, word);
        number = asks_number(number, word);
    }
    at
}

// Writes the bytecode text of words alone, or leaves the text as it is where it is too short.
// Promises: bytecode_left, same_bytecode, source_reads_again.
pub fn write_bytecode(words: &[u64], text: &mut [u8]) -> Result<usize, WriteRefusal>
    ensures { (written_numbered result ≡ count_of (bytecode_written words.now (length text.old))) × (text.new ≡ text_left (bytecode_written words.now (length text.old)) text.old) }
{
    if !fits(words, text.len()) {
        return Err(WriteRefusal::TextTooShort);
    }
    Ok(write_words(words, text))
}
