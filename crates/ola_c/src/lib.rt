// The C interface: include/ola.h declares these functions, and ola_c_c exports them. Nothing but conversions.
#![tactic(auto)]

ghost use Rattle.std.specs.Prelude.{◌≡◌, length};
ghost use Rattle.asm.specs.Parts.{name_part};
ghost use Rattle.relocate.specs.Relocate.{tabled};
ghost use Rattle.relocate.specs.Room.{room_of};
ghost use Rattle.relocate.specs.Columns.{table_left, column_left, kind_of, mapped_of, start_of, length_of, address_in};
ghost use Rattle.relocate_names.specs.Shortest.{shortest_of};
ghost use Rattle.program.specs.Bytecode.{bytecode_written, text_left};
ghost use Rattle.program_bytecode.specs.Written.{count_of};
ghost use Rattle.encoder.specs.Assemble.{assembled, assembled_totals, words_left, hosts_left};
ghost use Rattle.meter.specs.Meter.{at_start, meter_after};
ghost use Rattle.meter_builds.specs.Lent.{lent_in, room_in, lent_left};
ghost use Rattle.decoder.specs.Open.{opened};
ghost use Rattle.decoder.specs.Steps.{accepted_of, stepped, stepped_at};
ghost use Rattle.source.specs.SourceText.{source_written};
ghost use Rattle.ola_places.specs.Places.{instruction_in};
ghost use Rattle.ola_answers.specs.Answers.{assembly_of, metered_of, figures_out, written_of, name_of};
ghost use Rattle.ola_steps.specs.Steps.{opened_of};
ghost use Rattle.ola_c.specs.Exports.{version, line_step, offset_step, encoding_named, listed, listed_text};

use meter::Meter;
use ola_answers::{OlaAssembly, OlaEncoding, OlaMetered, OlaName, OlaRoom, OlaWritten};
use ola_places::OlaInstruction;
use ola_steps::{OlaOpened, OlaStep};
use relocate::LabelEntry;

// The version of this interface: that of include/ola.h. It is raised whenever a function is added, or a struct, a signature or an answer changes.
pub const OLA_VERSION: u64 = 7;

// The version of the library, which a caller compares with its header's.
// Promises: none; its contract is its whole outcome.
pub fn ola_version() -> u64
    ensures { result ≡ version }
{
    OLA_VERSION
}

// How much a source takes, without building it.
// Promises: room_is_built, counted_is_words, room_refused, room_suffices, room_never_short.
pub fn ola_room_of(source: &[u8]) -> OlaRoom
    ensures { result ≡ figures_out (room_of source.now) }
{
    ola_answers::room_out(relocate_measure::room_of(source))
}

// Assembles a source with a prophet list over parallel arrays.
// Promises: counts_answered, words_left_lem, columns_left_lem, same_words, same_bytecode, one_program, words_ahead, accepted_has_rows, lengths_are_one,
// addresses_are_positions, instructions_stand, names_are_word_counts, table_is_positions, later_kept, kept_counted, rows_by_lines_lem, same_lines, room_is_built,
// room_refused, room_suffices, room_never_short, source_assembles, source_words_fit, source_reads_again, no_row_reads_so, source_same_words.
pub fn ola_assemble_parts(
    source: &[u8],
    prophets: &[u8],
    kinds: &mut [u8],
    mapped: &mut [bool],
    starts: &mut [usize],
    lengths: &mut [usize],
    addresses: &mut [u64],
    words: &mut [u64],
    hosts: &mut [u64],
) -> OlaAssembly
    ensures value { result ≡ assembly_of (assembled_totals source.now prophets.now (record { entries = (shortest_of (length kinds.old) (length mapped.old) (length starts.old) (length lengths.old) (length addresses.old)); words = length words.old; hosts = length hosts.old })) }
    ensures kinds_after { kinds.new ≡ column_left (tabled source.now (shortest_of (length kinds.old) (length mapped.old) (length starts.old) (length lengths.old) (length addresses.old))) kind_of kinds.old }
    ensures mapped_after { mapped.new ≡ column_left (tabled source.now (shortest_of (length kinds.old) (length mapped.old) (length starts.old) (length lengths.old) (length addresses.old))) mapped_of mapped.old }
    ensures starts_after { starts.new ≡ column_left (tabled source.now (shortest_of (length kinds.old) (length mapped.old) (length starts.old) (length lengths.old) (length addresses.old))) start_of starts.old }
    ensures lengths_after { lengths.new ≡ column_left (tabled source.now (shortest_of (length kinds.old) (length mapped.old) (length starts.old) (length lengths.old) (length addresses.old))) length_of lengths.old }
    ensures addresses_after { addresses.new ≡ column_left (tabled source.now (shortest_of (length kinds.old) (length mapped.old) (length starts.old) (length lengths.old) (length addresses.old))) address_in addresses.old }
    ensures words_after { words.new ≡ words_left (assembled source.now prophets.now (record { entries = (shortest_of (length kinds.old) (length mapped.old) (length starts.old) (length lengths.old) (length addresses.old)); words = length words.old; hosts = length hosts.old })) words.old }
    ensures hosts_after { hosts.new ≡ hosts_left (assembled source.now prophets.now (record { entries = (shortest_of (length kinds.old) (length mapped.old) (length starts.old) (length lengths.old) (length addresses.old)); words = length words.old; hosts = length hosts.old })) hosts.old }
{
    let answer = encoder_assemble::assemble_parts(
        source, prophets, kinds, mapped, starts, lengths, addresses, words, hosts,
    );
    ola_answers::assembly_out(answer)
}

// Assembles a source with a prophet list over a table of entries.
// Promises: counts_answered, words_left_lem, table_left_lem, same_words, same_bytecode, one_program, words_ahead, accepted_has_rows, lengths_are_one,
// addresses_are_positions, instructions_stand, names_are_word_counts, table_is_positions, later_kept, kept_counted, rows_by_lines_lem, same_lines, room_is_built,
// room_refused, room_suffices, room_never_short, source_assembles, source_words_fit, source_reads_again, no_row_reads_so, source_same_words.
pub fn ola_assemble(
    source: &[u8],
    prophets: &[u8],
    table: &mut [LabelEntry],
    words: &mut [u64],
    hosts: &mut [u64],
) -> OlaAssembly
    ensures value { result ≡ assembly_of (assembled_totals source.now prophets.now (record { entries = length table.old; words = length words.old; hosts = length hosts.old })) }
    ensures table_after { table.new ≡ table_left source.now table.old }
    ensures words_after { words.new ≡ words_left (assembled source.now prophets.now (record { entries = length table.old; words = length words.old; hosts = length hosts.old })) words.old }
    ensures hosts_after { hosts.new ≡ hosts_left (assembled source.now prophets.now (record { entries = length table.old; words = length words.old; hosts = length hosts.old })) hosts.old }
{
    let answer = encoder_entries::assemble(source, prophets, table, words, hosts);
    ola_answers::assembly_out(answer)
}

// A meter at its start.
// Promises: meter_counts.
pub fn ola_meter_open() -> Meter
    ensures { result ≡ at_start }
{
    Meter::open()
}

// Assembles a source with a prophet list over parallel arrays, on a meter.
// Promises: meter_counts, meter_from, meter_kept, and those of ola_assemble_parts: its answer, and what is left, are the same.
pub fn ola_meter_build(
    meter: Meter,
    source: &[u8],
    prophets: &[u8],
    kinds: &mut [u8],
    mapped: &mut [bool],
    starts: &mut [usize],
    lengths: &mut [usize],
    addresses: &mut [u64],
    words: &mut [u64],
    hosts: &mut [u64],
) -> OlaMetered
    ensures value { result ≡ metered_of (assembled_totals source.now prophets.now (room_in (lent_in kinds.entry mapped.entry starts.entry lengths.entry addresses.entry words.entry hosts.entry))) (meter_after meter (assembled source.now prophets.now (room_in (lent_in kinds.entry mapped.entry starts.entry lengths.entry addresses.entry words.entry hosts.entry)))) }
    ensures hosts_value { lent_in kinds.exit mapped.exit starts.exit lengths.exit addresses.exit words.exit hosts.exit ≡ lent_left source.now prophets.now (lent_in kinds.entry mapped.entry starts.entry lengths.entry addresses.entry words.entry hosts.entry) }
{
    let answer = meter_builds::build_parts(
        meter, source, prophets, kinds, mapped, starts, lengths, addresses, words, hosts,
    );
    ola_answers::metered_out(answer)
}

// The part of a source that an entry's name is.
// Promises: none; its contract is its whole outcome.
pub fn ola_label_name(source: &[u8], entry: LabelEntry) -> OlaName
    ensures { result ≡ name_of (name_part source.now entry.start entry.length) }
{
    ola_answers::name_out(source, entry.start, entry.length)
}

// Writes the bytecode text of words.
// Promises: bytecode_left, same_bytecode, source_reads_again.
pub fn ola_write_bytecode(words: &[u64], text: &mut [u8]) -> OlaWritten
    ensures value { result ≡ written_of (count_of (bytecode_written words.now (length text.old))) }
    ensures text_after { text.new ≡ text_left (bytecode_written words.now (length text.old)) text.old }
{
    let answer = program_bytecode::write_bytecode(words, text);
    ola_answers::written_out(answer)
}

// Writes a source of a bytecode's instructions.
// Promises: source_left, source_refused, first_off_row_lem, source_written_lem, source_fits, source_assembles, source_words_fit, source_reads_again,
// source_of_accepted.
pub fn ola_write_source(bytecode: &[u8], text: &mut [u8]) -> OlaWritten
    ensures value { result ≡ written_of (count_of (source_written bytecode.now (length text.old))) }
    ensures text_after { text.new ≡ text_left (source_written bytecode.now (length text.old)) text.old }
{
    let answer = source_write::write_source(bytecode, text);
    ola_answers::source_out(answer)
}

// Whether a text opens as bytecode.
// Promises: bytecode_opens, opened_run, opened_form, source_reads_again.
pub fn ola_open(text: &[u8]) -> OlaOpened
    ensures { result ≡ opened_of (accepted_of (opened text.now)) }
{
    ola_steps::opened_out(decoder_open::open_text(text))
}

// The instruction from a line on, and the line reached.
// Promises: run_reads, opened_run, opened_form, run_by_offsets.
pub fn ola_next(text: &[u8], line: usize) -> OlaStep
    ensures { result ≡ line_step (stepped text.now line) }
{
    let step = decoder_runs::next_line(text, line);
    let found = step.found;
    ola_steps::step_out(found, step.line)
}

// The instruction from an offset on, and the offset reached.
// Promises: run_by_offsets, opened_run, opened_form.
pub fn ola_next_at(text: &[u8], offset: usize) -> OlaStep
    ensures { result ≡ offset_step (stepped_at text.now offset) }
{
    let step = decoder_next::next_at(text, offset);
    let found = step.found;
    ola_steps::step_out(found, step.offset)
}

// The words of one instruction.
// Promises: none; its contract is its whole outcome.
pub fn ola_encode(instruction: OlaInstruction) -> OlaEncoding
    ensures { result ≡ encoding_named (instruction_in instruction) }
{
    match ola_places::instruction_in(instruction) {
        None => OlaEncoding {
            refusal: 255,
            detail: 0,
            count: 0,
            first: 0,
            second: 0,
        },
        Some(named) => ola_answers::encoding_out(program_encode::encode(named)),
    }
}

// Writes the listing row of one instruction.
// Promises: none; its contract is its whole outcome.
pub fn ola_listing_row(instruction: OlaInstruction, text: &mut [u8]) -> OlaWritten
    ensures value { result ≡ listed (instruction_in instruction) (length text.old) }
    ensures text_after { text.new ≡ listed_text (instruction_in instruction) text.old }
{
    match ola_places::instruction_in(instruction) {
        None => OlaWritten {
            refusal: 255,
            detail: 0,
            written: 0,
        },
        Some(named) => {
            let answer = program_listing::get_asm_form_code(named, text);
            ola_answers::row_out(answer)
        }
    }
}
