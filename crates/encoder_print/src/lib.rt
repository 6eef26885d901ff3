// What the printing program prints, written into a lent text: `printing` of crate encoder's definitions.
#![tactic(auto)]

ghost use Rattle.std.specs.Prelude.{◌≡◌, ◌≤◌, length};
ghost use Rattle.encoder.specs.Printing.{printing};
ghost use Rattle.encoder_report.specs.Printed.{printed_numbered, printed_count, printed_into};
ghost use Rattle.encoder_print.specs.Reported.{word_count, reported_assembly};

use encoder::{AssembleRefusal, Totals};
use program::WriteRefusal;

// Prints the report of what assembling answered, where these are the words that it left.
fn print_assembly(
    found: Result<Totals, AssembleRefusal>,
    words: &[u64],
    text: &mut [u8],
) -> Result<usize, WriteRefusal>
    requires { word_count found ≤ length words.now }
    ensures result_value { printed_numbered result ≡ printed_count (length text.old) (reported_assembly found words.now) }
    ensures text_after { text.new ≡ printed_into (reported_assembly found words.now) text.old }
{
    match found {
        Err(refusal) => {
            let number = encoder_refusals::refusal_number(refusal);
            let detail = encoder_refusals::refusal_detail(refusal);
            encoder_report::print_refusal(number, detail, text)
        }
        Ok(totals) => encoder_report::print_words(&words[..totals.words], text),
    }
}

// Prints what the printing program prints for a source, or leaves the text as it is where it is too short.
pub fn print_source(source: &[u8], text: &mut [u8]) -> Result<usize, WriteRefusal>
    ensures result_value { printed_numbered result ≡ printed_count (length text.old) (printing source.now) }
    ensures text_after { text.new ≡ printed_into (printing source.now) text.old }
{
    if 4096 < source.len() {
        return encoder_report::print_refusal(1, 0, text);
    }
    let mut kinds = [0u8; 4096];
    let mut mapped = [false; 4096];
    let mut starts = [0usize; 4096];
    let mut lengths = [0usize; 4096];
    let mut addresses = [0u64; 4096];
    let mut words = [0u64; 4096];
    let mut hosts = [0u64; 0];
    let found = encoder_assemble::assemble_parts(
        source,
        b"",
        &mut kinds,
        &mut mapped,
        &mut starts,
        &mut lengths,
        &mut addresses,
        &mut words,
        &mut hosts,
    );
    print_assembly(found, &words, text)
}
